// The run calls, their answers as one number.
#![tactic(auto)]

ghost use Rattle.std.specs.Prelude.{◌≡◌};
ghost use Rattle.run_memory.specs.RunMemory.{run_size};
ghost use Rattle.run_calls.specs.RunCalls.{run_answer};
ghost use Rattle.packing.specs.Packing.{packed, number_bits, Lossless};
ghost use Rattle.packed_run.specs.PackedRun.{BegunIs, MovedIs, MetIs};

use call_run::{begin_run, meet_threads, move_thread};
use machine::ThreadRecord;
use run_calls::RunAnswer;
use run_memory::Run;

// The bytes that run memory must have.
pub fn run_size() -> u64
    ensures { result ≡ run_size }
{
    Run::SIZE as u64
}

// The number of threads in use above a byte of 0.
#[tactic(auto, using(crate::proofs::RunLossless::run_is))]
fn pack_run(answer: RunAnswer) -> u64
    requires { Lossless number_bits (run_answer answer) }
    ensures { result ≡ packed number_bits (run_answer answer) }
{
    packing::pack(answer)
}

// Begins a run: the threads in use, which is 1.
pub fn begun(store: &[u8], run: &mut [u8], threads: &mut [ThreadRecord]) -> u64
    ensures { BegunIs store.now run.old threads.old result run.new threads.new }
{
    pack_run(begin_run(store, run, threads))
}

// A thread's own move: the threads then in use.
pub fn moved(store: &[u8], run: &mut [u8], threads: &mut [ThreadRecord], thread: usize) -> u64
    ensures { MovedIs store.now run.old threads.old thread result run.new threads.new }
{
    pack_run(move_thread(store, run, threads, thread))
}

// A meeting: the threads then in use.
pub fn met(
    store: &[u8],
    run: &mut [u8],
    threads: &mut [ThreadRecord],
    sender: usize,
    receiver: usize,
) -> u64
    ensures { MetIs store.now run.old threads.old sender receiver result run.new threads.new }
{
    pack_run(meet_threads(store, run, threads, sender, receiver))
}
