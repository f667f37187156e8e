// The run calls with the thread records by value, over the calls on a lent list: the records that may be in use are lent to these.
// proofs/Public: with the records of a lent list, put back into it, such a call is the call on the list.
#![tactic(auto)]

ghost use Rattle.std.specs.Prelude.{◌≡◌};
ghost use Rattle.machine.specs.Machine.{alone, together};
ghost use Rattle.run_calls.specs.RunCalls.{LeavesRun, begin_on, move_on};

use run_calls::RunAnswer;
use thread_records::{Records, in_use};

// The answer of a run call, and the thread records after it.
#[derive(Drop)]
pub struct Moved {
    pub answer: RunAnswer,
    pub records: Records,
}

// Begins a run: refusals 20 to 22 of the store and of the lengths.
pub fn begin_run(store: &[u8], run: &mut [u8], records: Records) -> Moved
    ensures left { LeavesRun (begin_on store.now run.old records.lent records.list) result.answer run.new result.records.list }
    ensures lent { result.records.lent ≡ records.lent }
{
    let used = in_use(records.lent);
    let mut list = records.list;
    let answer = call_run::begin_run(store, run, &mut list[..used]);
    Moved {
        answer,
        records: Records { list, ..records },
    }
}

// A thread's own move: refusals 20 to 22, 30 and 31.
pub fn move_thread(store: &[u8], run: &mut [u8], records: Records, thread: usize) -> Moved
    ensures left { LeavesRun (move_on store.now run.old records.lent records.list (alone thread)) result.answer run.new result.records.list }
    ensures lent { result.records.lent ≡ records.lent }
{
    let used = in_use(records.lent);
    let mut list = records.list;
    let answer = call_run::move_thread(store, run, &mut list[..used], thread);
    Moved {
        answer,
        records: Records { list, ..records },
    }
}

// A sending and a receiving thread that meet: refusals 20 to 22, 30 and 31.
pub fn meet_threads(
    store: &[u8],
    run: &mut [u8],
    records: Records,
    sender: usize,
    receiver: usize,
) -> Moved
    ensures left { LeavesRun (move_on store.now run.old records.lent records.list (together sender receiver)) result.answer run.new result.records.list }
    ensures lent { result.records.lent ≡ records.lent }
{
    let used = in_use(records.lent);
    let mut list = records.list;
    let answer = call_run::meet_threads(store, run, &mut list[..used], sender, receiver);
    Moved {
        answer,
        records: Records { list, ..records },
    }
}
