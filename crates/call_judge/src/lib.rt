// The call judge.
#![tactic(auto)]

ghost use Rattle.calls.specs.Calls.{Leaves, judge, unaltered};

use calls::JudgeAnswer;
use store::Store;

// Judges a store: the count of its claims, all of which hold, or refusals 20 to 22, 10 and 11.
pub fn judge(store: &[u8]) -> JudgeAnswer
    ensures { Leaves (unaltered (judge store.entry.now) store.entry.now) result store.exit.now }
{
    let rows = opening::open(store)?;
    judging::judge_rows(&store[..Store::SIZE], rows)
}
