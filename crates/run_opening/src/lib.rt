// 20, 21 and 22 of the run calls, each asked of everything that is lent before the next.
#![tactic(auto)]

ghost use Rattle.std.specs.Prelude.{◌≡◌, length, take};
ghost use Rattle.format.specs.Refusals.{refusal};
ghost use Rattle.calls.specs.Layout.{store_size};
ghost use Rattle.run_calls.specs.RunCalls.{too_short, run_opened};
ghost use Rattle.run_opening.specs.RunOpening.{RunOpenedIs};

use format::{Reason, Refusal};
use machine::ThreadRecord;
use run_memory::{Run, in_use};
use run_sound::sound_run;
use store::Store;

// 20: the store, the run memory or the records are too short.
#[tactic(auto, unfolding(run_calls::specs::RunCalls::too_short))]
pub fn too_short(store: &[u8], run: &[u8], lent: usize) -> bool
    ensures { result ≡ too_short store.now run.now lent }
{
    store.len() < Store::SIZE || run.len() < Run::SIZE || lent < Run::THREADS as usize
}

// The rows that a move goes on.
pub fn open_run(store: &[u8], run: &[u8], threads: &[ThreadRecord]) -> Result<u8, Refusal>
    ensures { RunOpenedIs (run_opened store.now run.now (length threads.now) threads.now) (take store_size store.now) run.now threads.now result }
{
    if too_short(store, run, threads.len()) {
        return Err(Reason::StoreTooShort.at(0));
    }
    if in_use(run).threads == 0 {
        return Err(Reason::StoreEmpty.at(0));
    }
    let rows = opening::open(store)?;
    if !sound_run(&store[..Store::SIZE], rows, run, threads) {
        return Err(Reason::StoreUnsound.at(0));
    }
    Ok(rows)
}
