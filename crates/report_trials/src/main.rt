// Prints the reports of some files, as the program does. What it must print is in the file stdout.
#![tactic(auto)]

use lent_sizes::REPORT_BYTES;
use printing::{print_name, print_report};
use std::io;
use store::Store;

// What the dispenser program prints of a file.
fn try_report(rt: &impl Print, name: &[u8], file: &[u8]) -> io::Result<()> {
    let mut store = [7; Store::SIZE];
    let mut out = [0; REPORT_BYTES];
    print_name(rt, name)?;
    let answer = reporting::report(file, &mut store, &mut out);
    print_report(rt, answer, &out)
}

// Example A without one of its lines.
fn try_without(rt: &impl Print) -> io::Result<()> {
    try_report(
        rt,
        b"example A without flow 4",
        b"[dispenser 1]\n[row 0 [bind 0 [unit] 1]]\n[row 1 [bind 1 [chan] 2]]\n[row 2 [bind 2 [spawn 3] 6]]\n[row 3 [bind 3 [recv 1] 4]]\n[row 4 [bind 4 [sync 3] 5]]\n[row 5 [result 4]]\n[row 6 [bind 5 [send 1 0] 7]]\n[row 7 [bind 6 [sync 5] 8]]\n[row 8 [result 6]]\n[flow 0 [u]]\n[flow 1 [1]]\n[flow 2 [u]]\n[flow 3 [3]]\n[flow 5 [6]]\n[flow 6 [u]]\n[comm 1 [u]]\n[claim 1 one-shot]\n",
    )?;
    try_report(
        rt,
        b"example A without comm",
        b"[dispenser 1]\n[row 0 [bind 0 [unit] 1]]\n[row 1 [bind 1 [chan] 2]]\n[row 2 [bind 2 [spawn 3] 6]]\n[row 3 [bind 3 [recv 1] 4]]\n[row 4 [bind 4 [sync 3] 5]]\n[row 5 [result 4]]\n[row 6 [bind 5 [send 1 0] 7]]\n[row 7 [bind 6 [sync 5] 8]]\n[row 8 [result 6]]\n[flow 0 [u]]\n[flow 1 [1]]\n[flow 2 [u]]\n[flow 3 [3]]\n[flow 4 [u]]\n[flow 5 [6]]\n[flow 6 [u]]\n[claim 1 one-shot]\n",
    )?;
    try_report(
        rt,
        b"example A without its claim",
        b"[dispenser 1]\n[row 0 [bind 0 [unit] 1]]\n[row 1 [bind 1 [chan] 2]]\n[row 2 [bind 2 [spawn 3] 6]]\n[row 3 [bind 3 [recv 1] 4]]\n[row 4 [bind 4 [sync 3] 5]]\n[row 5 [result 4]]\n[row 6 [bind 5 [send 1 0] 7]]\n[row 7 [bind 6 [sync 5] 8]]\n[row 8 [result 6]]\n[flow 0 [u]]\n[flow 1 [1]]\n[flow 2 [u]]\n[flow 3 [3]]\n[flow 4 [u]]\n[flow 5 [6]]\n[flow 6 [u]]\n[comm 1 [u]]\n",
    )
}

// Two sends, one after the other.
fn try_in_turn(rt: &impl Print) -> io::Result<()> {
    try_report(
        rt,
        b"parent sends, then spawns a child that sends",
        b"[dispenser 1]\n[row 0 [bind 0 [chan] 1]]\n[row 1 [bind 1 [send 0 0] 2]]\n[row 2 [bind 2 [sync 1] 3]]\n[row 3 [bind 3 [spawn 4] 6]]\n[row 4 [bind 4 [sync 1] 5]]\n[row 5 [result 4]]\n[row 6 [result 3]]\n[flow 0 [0]]\n[flow 1 [1]]\n[flow 2 [u]]\n[flow 3 [u]]\n[flow 4 [u]]\n[comm 0 [0]]\n",
    )?;
    try_report(
        rt,
        b"the same, claimed one-shot",
        b"[dispenser 1]\n[row 0 [bind 0 [chan] 1]]\n[row 1 [bind 1 [send 0 0] 2]]\n[row 2 [bind 2 [sync 1] 3]]\n[row 3 [bind 3 [spawn 4] 6]]\n[row 4 [bind 4 [sync 1] 5]]\n[row 5 [result 4]]\n[row 6 [result 3]]\n[flow 0 [0]]\n[flow 1 [1]]\n[flow 2 [u]]\n[flow 3 [u]]\n[flow 4 [u]]\n[comm 0 [0]]\n[claim 0 one-shot]\n",
    )?;
    try_report(
        rt,
        b"the same, claimed fan-out",
        b"[dispenser 1]\n[row 0 [bind 0 [chan] 1]]\n[row 1 [bind 1 [send 0 0] 2]]\n[row 2 [bind 2 [sync 1] 3]]\n[row 3 [bind 3 [spawn 4] 6]]\n[row 4 [bind 4 [sync 1] 5]]\n[row 5 [result 4]]\n[row 6 [result 3]]\n[flow 0 [0]]\n[flow 1 [1]]\n[flow 2 [u]]\n[flow 3 [u]]\n[flow 4 [u]]\n[comm 0 [0]]\n[claim 0 fan-out]\n",
    )
}

// A send that is made again and again.
fn try_loop(rt: &impl Print) -> io::Result<()> {
    try_report(
        rt,
        b"a send in a loop, by a recursive fun",
        b"[dispenser 1]\n[row 0 [bind 0 [chan] 1]]\n[row 1 [bind 1 [fun 2 3 2] 6]]\n[row 2 [bind 4 [send 0 3] 3]]\n[row 3 [bind 5 [sync 4] 4]]\n[row 4 [bind 6 [apply 2 3] 5]]\n[row 5 [result 6]]\n[row 6 [bind 7 [apply 1 0] 7]]\n[row 7 [result 7]]\n[flow 0 [0]]\n[flow 1 [1]]\n[flow 2 [1]]\n[flow 3 [0]]\n[flow 4 [2]]\n[flow 5 [u]]\n[comm 0 [0]]\n",
    )?;
    try_report(
        rt,
        b"the same, its own name left without its value",
        b"[dispenser 1]\n[row 0 [bind 0 [chan] 1]]\n[row 1 [bind 1 [fun 2 3 2] 6]]\n[row 2 [bind 4 [send 0 3] 3]]\n[row 3 [bind 5 [sync 4] 4]]\n[row 4 [bind 6 [apply 2 3] 5]]\n[row 5 [result 6]]\n[row 6 [bind 7 [apply 1 0] 7]]\n[row 7 [result 7]]\n[flow 0 [0]]\n[flow 1 [1]]\n[flow 3 [0]]\n[flow 4 [2]]\n[flow 5 [u]]\n[comm 0 [0]]\n",
    )
}

// Sends in the branches of a case, and behind a case and a call.
fn try_behind(rt: &impl Print) -> io::Result<()> {
    try_report(
        rt,
        b"a send in both branches of a case",
        b"[dispenser 1]\n[row 0 [bind 0 [chan] 1]]\n[row 1 [bind 1 [left 0] 2]]\n[row 2 [bind 2 [send 0 0] 3]]\n[row 3 [bind 3 [case 1 4 4 5 6] 8]]\n[row 4 [bind 6 [sync 2] 5]]\n[row 5 [result 6]]\n[row 6 [bind 7 [sync 2] 7]]\n[row 7 [result 7]]\n[row 8 [result 3]]\n[flow 0 [0]]\n[flow 1 [1]]\n[flow 2 [2]]\n[flow 3 [u]]\n[flow 4 [0]]\n[flow 6 [u]]\n[flow 7 [u]]\n[comm 0 [0]]\n[claim 0 one-shot]\n",
    )?;
    try_report(
        rt,
        b"two sends behind a case",
        b"[dispenser 1]\n[row 0 [bind 0 [chan] 1]]\n[row 1 [bind 1 [right 0] 2]]\n[row 2 [bind 2 [send 0 0] 3]]\n[row 3 [bind 3 [case 1 4 4 5 5] 7]]\n[row 4 [result 4]]\n[row 5 [bind 6 [sync 2] 6]]\n[row 6 [result 6]]\n[row 7 [bind 7 [sync 2] 8]]\n[row 8 [result 7]]\n[flow 0 [0]]\n[flow 1 [1]]\n[flow 2 [2]]\n[flow 3 [u]]\n[flow 5 [0]]\n[flow 6 [u]]\n[flow 7 [u]]\n[comm 0 [0]]\n",
    )?;
    try_report(
        rt,
        b"two sends behind a call",
        b"[dispenser 1]\n[row 0 [bind 0 [chan] 1]]\n[row 1 [bind 1 [fun 2 3 2] 3]]\n[row 2 [result 3]]\n[row 3 [bind 4 [send 0 0] 4]]\n[row 4 [bind 5 [apply 1 0] 5]]\n[row 5 [bind 6 [sync 4] 6]]\n[row 6 [bind 7 [sync 4] 7]]\n[row 7 [result 7]]\n[flow 0 [0]]\n[flow 1 [1]]\n[flow 2 [1]]\n[flow 3 [0]]\n[flow 4 [3]]\n[flow 5 [0]]\n[flow 6 [u]]\n[flow 7 [u]]\n[comm 0 [0]]\n",
    )
}

// A thread for each call, and a channel that is handed over.
fn try_threads(rt: &impl Print) -> io::Result<()> {
    try_report(
        rt,
        b"a recursive fun that spawns a sender each time",
        b"[dispenser 1]\n[row 0 [bind 0 [chan] 1]]\n[row 1 [bind 1 [fun 2 3 2] 8]]\n[row 2 [bind 4 [spawn 3] 6]]\n[row 3 [bind 5 [send 0 3] 4]]\n[row 4 [bind 6 [sync 5] 5]]\n[row 5 [result 6]]\n[row 6 [bind 7 [apply 2 3] 7]]\n[row 7 [result 7]]\n[row 8 [bind 8 [apply 1 0] 9]]\n[row 9 [result 8]]\n[flow 0 [0]]\n[flow 1 [1]]\n[flow 2 [1]]\n[flow 3 [0]]\n[flow 4 [u]]\n[flow 5 [3]]\n[flow 6 [u]]\n[comm 0 [0]]\n",
    )?;
    try_report(
        rt,
        b"a channel sent over a channel",
        b"[dispenser 1]\n[row 0 [bind 0 [chan] 1]]\n[row 1 [bind 1 [chan] 2]]\n[row 2 [bind 2 [spawn 3] 8]]\n[row 3 [bind 3 [recv 0] 4]]\n[row 4 [bind 4 [sync 3] 5]]\n[row 5 [bind 5 [send 4 4] 6]]\n[row 6 [bind 6 [sync 5] 7]]\n[row 7 [result 6]]\n[row 8 [bind 7 [send 0 1] 9]]\n[row 9 [bind 8 [sync 7] 10]]\n[row 10 [bind 9 [recv 1] 11]]\n[row 11 [bind 10 [sync 9] 12]]\n[row 12 [result 10]]\n[flow 0 [0]]\n[flow 1 [1]]\n[flow 2 [u]]\n[flow 3 [3]]\n[flow 4 [1]]\n[flow 5 [5]]\n[flow 6 [u]]\n[flow 7 [8]]\n[flow 8 [u]]\n[flow 9 [10]]\n[flow 10 [1]]\n[comm 0 [1]]\n[comm 1 [1]]\n[claim 0 one-shot]\n[claim 1 one-shot]\n",
    )
}

// A fun that is called twice.
fn try_called(rt: &impl Print) -> io::Result<()> {
    try_report(
        rt,
        b"a fun that sends, called from two places",
        b"[dispenser 1]\n[row 0 [bind 0 [chan] 1]]\n[row 1 [bind 1 [fun 2 3 2] 5]]\n[row 2 [bind 4 [send 0 3] 3]]\n[row 3 [bind 5 [sync 4] 4]]\n[row 4 [result 5]]\n[row 5 [bind 6 [apply 1 0] 6]]\n[row 6 [bind 7 [apply 1 0] 7]]\n[row 7 [result 7]]\n[flow 0 [0]]\n[flow 1 [1]]\n[flow 2 [1]]\n[flow 3 [0]]\n[flow 4 [2]]\n[flow 5 [u]]\n[flow 6 [u]]\n[flow 7 [u]]\n[comm 0 [0]]\n[claim 0 fan-out]\n",
    )?;
    try_report(
        rt,
        b"the same fun, called from two threads",
        b"[dispenser 1]\n[row 0 [bind 0 [chan] 1]]\n[row 1 [bind 1 [fun 2 3 2] 5]]\n[row 2 [bind 4 [send 0 3] 3]]\n[row 3 [bind 5 [sync 4] 4]]\n[row 4 [result 5]]\n[row 5 [bind 6 [spawn 6] 8]]\n[row 6 [bind 7 [apply 1 0] 7]]\n[row 7 [result 7]]\n[row 8 [bind 8 [apply 1 0] 9]]\n[row 9 [result 8]]\n[flow 0 [0]]\n[flow 1 [1]]\n[flow 2 [1]]\n[flow 3 [0]]\n[flow 4 [2]]\n[flow 5 [u]]\n[flow 6 [u]]\n[flow 7 [u]]\n[flow 8 [u]]\n[comm 0 [0]]\n[claim 0 many]\n",
    )
}

// What fails in a later line, and in a row that no walk comes to.
fn try_last(rt: &impl Print) -> io::Result<()> {
    try_report(
        rt,
        b"two claims, of which the second fails",
        b"[dispenser 1]\n[row 0 [bind 0 [chan] 1]]\n[row 1 [bind 1 [chan] 2]]\n[row 2 [bind 2 [send 1 0] 3]]\n[row 3 [bind 3 [sync 2] 4]]\n[row 4 [bind 4 [sync 2] 5]]\n[row 5 [result 4]]\n[flow 0 [0]]\n[flow 1 [1]]\n[flow 2 [2]]\n[flow 3 [u]]\n[flow 4 [u]]\n[comm 1 [0]]\n[claim 0 one-shot]\n[claim 1 one-shot]\n",
    )?;
    try_report(
        rt,
        b"a rule that fails at a row that no walk comes to",
        b"[dispenser 1]\n[row 0 [bind 0 [unit] 1]]\n[row 1 [bind 1 [fun 2 3 2] 4]]\n[row 2 [bind 4 [unit] 3]]\n[row 3 [result 4]]\n[row 4 [result 0]]\n[flow 0 [u]]\n[flow 1 [1]]\n[flow 2 [1]]\n",
    )
}

// Patterns of five words that no other file here has; a channel can have seven.
fn try_patterns(rt: &impl Print) -> io::Result<()> {
    try_report(
        rt,
        b"one send, two receivers at once",
        b"[dispenser 1]\n[row 0 [bind 0 [chan] 1]]\n[row 1 [bind 1 [recv 0] 2]]\n[row 2 [bind 2 [send 0 0] 3]]\n[row 3 [bind 3 [spawn 4] 6]]\n[row 4 [bind 4 [sync 1] 5]]\n[row 5 [result 4]]\n[row 6 [bind 5 [sync 1] 7]]\n[row 7 [bind 6 [sync 2] 8]]\n[row 8 [result 6]]\n[flow 0 [0]]\n[flow 1 [1]]\n[flow 2 [2]]\n[flow 3 [u]]\n[flow 4 [0]]\n[flow 5 [0]]\n[flow 6 [u]]\n[comm 0 [0]]\n",
    )?;
    try_report(
        rt,
        b"two sends in turn, two receivers at once",
        b"[dispenser 1]\n[row 0 [bind 0 [chan] 1]]\n[row 1 [bind 1 [recv 0] 2]]\n[row 2 [bind 2 [send 0 0] 3]]\n[row 3 [bind 3 [spawn 4] 6]]\n[row 4 [bind 4 [sync 1] 5]]\n[row 5 [result 4]]\n[row 6 [bind 5 [sync 1] 7]]\n[row 7 [bind 6 [sync 2] 8]]\n[row 8 [bind 7 [sync 2] 9]]\n[row 9 [result 7]]\n[flow 0 [0]]\n[flow 1 [1]]\n[flow 2 [2]]\n[flow 3 [u]]\n[flow 4 [0]]\n[flow 5 [0]]\n[flow 6 [u]]\n[flow 7 [u]]\n[comm 0 [0]]\n",
    )?;
    try_report(
        rt,
        b"two senders and two receivers at once",
        b"[dispenser 1]\n[row 0 [bind 0 [chan] 1]]\n[row 1 [bind 1 [recv 0] 2]]\n[row 2 [bind 2 [send 0 0] 3]]\n[row 3 [bind 3 [spawn 4] 7]]\n[row 4 [bind 4 [sync 1] 5]]\n[row 5 [bind 5 [sync 2] 6]]\n[row 6 [result 5]]\n[row 7 [bind 6 [sync 1] 8]]\n[row 8 [bind 7 [sync 2] 9]]\n[row 9 [result 7]]\n[flow 0 [0]]\n[flow 1 [1]]\n[flow 2 [2]]\n[flow 3 [u]]\n[flow 4 [0]]\n[flow 5 [u]]\n[flow 6 [0]]\n[flow 7 [u]]\n[comm 0 [0]]\n",
    )
}

// One send and one receive, and one send and two receives in turn: the seventh pattern.
fn try_one_sync(rt: &impl Print) -> io::Result<()> {
    try_report(
        rt,
        b"example A, claimed one-sync",
        b"[dispenser 1]\n[row 0 [bind 0 [unit] 1]]\n[row 1 [bind 1 [chan] 2]]\n[row 2 [bind 2 [spawn 3] 6]]\n[row 3 [bind 3 [recv 1] 4]]\n[row 4 [bind 4 [sync 3] 5]]\n[row 5 [result 4]]\n[row 6 [bind 5 [send 1 0] 7]]\n[row 7 [bind 6 [sync 5] 8]]\n[row 8 [result 6]]\n[flow 0 [u]]\n[flow 1 [1]]\n[flow 2 [u]]\n[flow 3 [3]]\n[flow 4 [u]]\n[flow 5 [6]]\n[flow 6 [u]]\n[comm 1 [u]]\n[claim 1 one-sync]\n",
    )?;
    try_report(
        rt,
        b"one send, two receives one after the other",
        b"[dispenser 1]\n[row 0 [bind 0 [chan] 1]]\n[row 1 [bind 1 [recv 0] 2]]\n[row 2 [bind 2 [send 0 0] 3]]\n[row 3 [bind 3 [spawn 4] 6]]\n[row 4 [bind 4 [sync 2] 5]]\n[row 5 [result 4]]\n[row 6 [bind 5 [sync 1] 7]]\n[row 7 [bind 6 [sync 1] 8]]\n[row 8 [result 6]]\n[flow 0 [0]]\n[flow 1 [1]]\n[flow 2 [2]]\n[flow 3 [u]]\n[flow 4 [u]]\n[flow 5 [0]]\n[flow 6 [0]]\n[comm 0 [0]]\n",
    )?;
    try_report(
        rt,
        b"the same, claimed one-sync",
        b"[dispenser 1]\n[row 0 [bind 0 [chan] 1]]\n[row 1 [bind 1 [recv 0] 2]]\n[row 2 [bind 2 [send 0 0] 3]]\n[row 3 [bind 3 [spawn 4] 6]]\n[row 4 [bind 4 [sync 2] 5]]\n[row 5 [result 4]]\n[row 6 [bind 5 [sync 1] 7]]\n[row 7 [bind 6 [sync 1] 8]]\n[row 8 [result 6]]\n[flow 0 [0]]\n[flow 1 [1]]\n[flow 2 [2]]\n[flow 3 [u]]\n[flow 4 [u]]\n[flow 5 [0]]\n[flow 6 [0]]\n[comm 0 [0]]\n[claim 0 one-sync]\n",
    )
}

fn try_all(rt: &impl Print) -> io::Result<()> {
    try_without(rt)?;
    try_in_turn(rt)?;
    try_loop(rt)?;
    try_behind(rt)?;
    try_threads(rt)?;
    try_called(rt)?;
    try_last(rt)?;
    try_patterns(rt)?;
    try_one_sync(rt)
}

// The exit status stays 0 if a write fails.
fn main(rt: HostRuntime) {
    let _ = try_all(&rt);
}
