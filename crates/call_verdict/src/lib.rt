// The call verdict.
#![tactic(auto)]

ghost use Rattle.calls.specs.Calls.{Leaves, verdict, unaltered};

use calls::VerdictAnswer;
use store::Store;

// The verdict of a channel: its five words, or refusals 20 to 22, 24 and 10.
pub fn verdict(store: &[u8], channel: usize) -> VerdictAnswer
    ensures { Leaves (unaltered (verdict store.entry.now channel) store.entry.now) result store.exit.now }
{
    match opening::open(store) {
        Err(refusal) => judge_answers::no_verdict(refusal),
        Ok(rows) => judging::verdict_rows(&store[..Store::SIZE], rows, channel),
    }
}
