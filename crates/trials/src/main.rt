// Calls the checker on some files and stores and prints what it answers. What it must print is in the file stdout.
#![tactic(auto)]

use printing::{print_judged, print_loaded, print_name, print_verdict, print_written};
use std::io;
use store::Store;

// Loads a file into a store that was used before, and writes the store.
fn try_file(rt: &impl Print, name: &[u8], file: &[u8]) -> io::Result<()> {
    let mut store = [7; Store::SIZE];
    let mut out = [0; Store::FILE_BYTES];
    print_name(rt, name)?;
    print_loaded(rt, call_load::load(file, &mut store))?;
    let answer = call_write::write(&store, &mut out);
    print_written(rt, answer, &out)
}

// Every call on a store that is lent.
fn try_store(rt: &impl Print, name: &[u8], store: &[u8]) -> io::Result<()> {
    let mut out = [0; 10];
    print_name(rt, name)?;
    print_judged(rt, call_judge::judge(store))?;
    print_verdict(rt, call_verdict::verdict(store, 1))?;
    print_written(rt, call_write::write(store, &mut out), &out)
}

// Lent bytes that are too few, that are empty, or that no load leaves.
fn try_stores(rt: &impl Print) -> io::Result<()> {
    let mut short = [0; 100];
    print_name(rt, b"load into 100 bytes")?;
    print_loaded(rt, call_load::load(b"", &mut short))?;
    try_store(rt, b"20, a store of 100 bytes", &short)?;
    let empty = Store::empty();
    try_store(rt, b"21, an empty store", &empty.bytes)?;
    let sevens = [7; Store::SIZE];
    try_store(rt, b"22, a store of sevens", &sevens)
}

// Judge, and the verdicts of row 1, which is the chan row, of row 0 and of a row that is not there; then an output that is too short.
fn try_channels(rt: &impl Print, file: &[u8]) -> io::Result<()> {
    let mut store = [7; Store::SIZE];
    print_name(rt, b"example A, called directly")?;
    print_loaded(rt, call_load::load(file, &mut store))?;
    try_store(rt, b"judge, verdict of row 1, write into 10 bytes", &store)?;
    print_name(rt, b"24, verdicts of row 0, of row 9 and of row 1000000")?;
    print_verdict(rt, call_verdict::verdict(&store, 0))?;
    print_verdict(rt, call_verdict::verdict(&store, 9))?;
    print_verdict(rt, call_verdict::verdict(&store, 1000000))?;
    print_name(
        rt,
        b"load and judge at once, of example A and of an empty file",
    )?;
    print_judged(rt, acceptance::accept(file, &mut store))?;
    print_judged(rt, acceptance::accept(b"", &mut store))
}

// The file on standard input: it has as many bytes as a file may have, and 160 rows.
fn try_input(rt: &(impl Input + Print)) -> io::Result<()> {
    let mut file = [0; Store::FILE_BYTES];
    let n = reading::read_full(&mut rt.reader(), &mut file);
    try_file(rt, b"the largest file", &file[..n])
}

// Refusals 1 to 9.
fn try_refusals(rt: &impl Print) -> io::Result<()> {
    let long = [10; Store::FILE_BYTES + 1];
    try_file(rt, b"1, too long", &long)?;
    try_file(rt, b"2, another first line", b"[dispenser 2]\n")?;
    try_file(
        rt,
        b"2, a line cut off",
        b"[dispenser 1]\n[row 0 [result 0]",
    )?;
    try_file(
        rt,
        b"3, name 160",
        b"[dispenser 1]\n[row 0 [bind 160 [unit] 1]]\n[row 1 [result 0]]\n",
    )?;
    try_file(
        rt,
        b"4, row 1 first",
        b"[dispenser 1]\n[row 1 [result 0]]\n",
    )?;
    try_file(
        rt,
        b"5, flows fall",
        b"[dispenser 1]\n[row 0 [bind 0 [unit] 1]]\n[row 1 [bind 1 [unit] 2]]\n[row 2 [result 0]]\n[flow 1 [u]]\n[flow 0 [u]]\n",
    )?;
    try_file(
        rt,
        b"6, a row that points at itself",
        b"[dispenser 1]\n[row 0 [bind 0 [unit] 0]]\n",
    )?;
    try_file(
        rt,
        b"7, name 0 bound twice",
        b"[dispenser 1]\n[row 0 [bind 0 [unit] 1]]\n[row 1 [bind 0 [unit] 2]]\n[row 2 [result 0]]\n",
    )?;
    try_file(
        rt,
        b"8, name 1 out of scope",
        b"[dispenser 1]\n[row 0 [bind 0 [unit] 1]]\n[row 1 [result 1]]\n",
    )?;
    try_file(
        rt,
        b"9, a claim of no channel",
        b"[dispenser 1]\n[row 0 [bind 0 [unit] 1]]\n[row 1 [result 0]]\n[claim 0 one-shot]\n",
    )
}

fn try_all(rt: &(impl Input + Print)) -> io::Result<()> {
    let a =
        b"[dispenser 1]\n[row 0 [bind 0 [unit] 1]]\n[row 1 [bind 1 [chan] 2]]\n[row 2 [bind 2 [spawn 3] 6]]\n[row 3 [bind 3 [recv 1] 4]]\n[row 4 [bind 4 [sync 3] 5]]\n[row 5 [result 4]]\n[row 6 [bind 5 [send 1 0] 7]]\n[row 7 [bind 6 [sync 5] 8]]\n[row 8 [result 6]]\n[flow 0 [u]]\n[flow 1 [1]]\n[flow 2 [u]]\n[flow 3 [3]]\n[flow 4 [u]]\n[flow 5 [6]]\n[flow 6 [u]]\n[comm 1 [u]]\n[claim 1 one-shot]\n";
    try_file(rt, b"example A", a)?;
    try_refusals(rt)?;
    try_channels(rt, a)?;
    try_input(rt)?;
    try_stores(rt)
}

// The exit status stays 0 if a write fails.
fn main(rt: HostRuntime) {
    let _ = try_all(&rt);
}
