// The run calls: the answer, and what is left of run memory and thread records.
#![tactic(auto)]

ghost use Rattle.std.specs.Prelude.{◌≡◌, ◌≤◌, ◌<◌, length};
ghost use Rattle.machine.specs.Machine.{alone, together, changes};
ghost use Rattle.run_memory.specs.RunMemory.{run_size, InLimits, machine_in};
ghost use Rattle.run_calls.specs.RunCalls.{Lends, LeavesRun, made, begun_in, begin, move, meet};
ghost use Rattle.store.specs.Rows.{store_program};

use format::Reason;
use machine::ThreadRecord;
use meetings::meeting;
use moves::{make_change, make_meeting};
use run_calls::RunAnswer;
use run_memory::{InUse, in_use, put_counts};
use run_opening::{open_run, too_short};
use store::Store;
use thread_changes::change;

// Thread 0 at row 0, and nothing else in use.
#[tactic(auto, unfolding(run_calls::specs::RunCalls::begun_in))]
fn begin_rows(run: &mut [u8], threads: &mut [ThreadRecord]) -> RunAnswer
    requires run_size_in_bounds { run_size ≤ length run.old }
    requires a_record { 0 < length threads.old }
    ensures { LeavesRun (begun_in run.old threads.old) result run.new threads.new }
{
    put_counts(
        run,
        InUse {
            threads: 1,
            cells: 0,
            frames: 0,
        },
    );
    threads[0] = ThreadRecord {
        row: 0,
        cell: 0,
        frame: 0,
    };
    Ok(1)
}

// Begins a run: refusals 20 to 22 of the store and of the lengths.
pub fn begin_run(store: &[u8], run: &mut [u8], threads: &mut [ThreadRecord]) -> RunAnswer
    ensures { LeavesRun (begin store.now run.old threads.old) result run.new threads.new }
{
    if too_short(store, run, threads.len()) {
        return Err(Reason::StoreTooShort.at(0));
    }
    opening::open(store)?;
    begin_rows(run, threads)
}

// A thread's own move, where the run opens.
fn move_rows(
    store: &[u8],
    rows: u8,
    run: &mut [u8],
    threads: &mut [ThreadRecord],
    thread: usize,
) -> RunAnswer
    requires lends { Lends run.old threads.old }
    requires in_limits { InLimits run.old }
    ensures { (let run = run.old in let ts = threads.old in LeavesRun (made run ts (changes (store_program rows store.now) (machine_in run ts) (alone thread)))) result run.new threads.new }
{
    let used = in_use(run).threads as usize;
    if used <= thread {
        return Err(Reason::MoveNotAllowed.at(0));
    }
    let t = threads[thread];
    let c = change(store, rows, run, t);
    make_change(run, threads, thread, c)
}

// A meeting, where the run opens.
fn meet_rows(
    store: &[u8],
    rows: u8,
    run: &mut [u8],
    threads: &mut [ThreadRecord],
    sender: usize,
    receiver: usize,
) -> RunAnswer
    requires lends { Lends run.old threads.old }
    requires in_limits { InLimits run.old }
    ensures { (let run = run.old in let ts = threads.old in LeavesRun (made run ts (changes (store_program rows store.now) (machine_in run ts) (together sender receiver)))) result run.new threads.new }
{
    let used = in_use(run).threads as usize;
    if used <= sender {
        return Err(Reason::MoveNotAllowed.at(0));
    }
    if used <= receiver {
        return Err(Reason::MoveNotAllowed.at(0));
    }
    let s = threads[sender];
    let r = threads[receiver];
    let met = meeting(store, rows, run, s, r);
    make_meeting(run, threads, sender, receiver, met)
}

// A thread's own move: refusals 20 to 22, 30 and 31.
pub fn move_thread(
    store: &[u8],
    run: &mut [u8],
    threads: &mut [ThreadRecord],
    thread: usize,
) -> RunAnswer
    ensures { LeavesRun (move store.now run.old threads.old thread) result run.new threads.new }
{
    let rows = open_run(store, run, threads)?;
    move_rows(&store[..Store::SIZE], rows, run, threads, thread)
}

// A sending and a receiving thread that meet: refusals 20 to 22, 30 and 31.
pub fn meet_threads(
    store: &[u8],
    run: &mut [u8],
    threads: &mut [ThreadRecord],
    sender: usize,
    receiver: usize,
) -> RunAnswer
    ensures { LeavesRun (meet store.now run.old threads.old sender receiver) result run.new threads.new }
{
    let rows = open_run(store, run, threads)?;
    meet_rows(&store[..Store::SIZE], rows, run, threads, sender, receiver)
}
