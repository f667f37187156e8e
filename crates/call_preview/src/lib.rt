// The call preview: what judge would answer with a set that is handed over in the place of a name's.
#![tactic(auto)]

ghost use Rattle.calls.specs.Calls.{Leaves, unaltered};
ghost use Rattle.replacement.specs.Replacement.{preview};

use calls::JudgeAnswer;
use replacing::{replaceable, swap_flow};
use store::Store;

// Judges the store with a set of rows, and unit or not, in the place of the set of a bound name: the count of its claims, or refusals 20 to 22, 32, 33, 10 and 11.
// The set is put there and the old one put back, so that no second store is needed.
pub fn preview(store: &mut [u8], name: usize, unit: bool, rows: &[u8]) -> JudgeAnswer
    ensures { Leaves (unaltered (preview store.old name unit rows.now) store.old) result store.new }
{
    let mut set = [0u8; Store::MEMBERS];
    let count = replaceable(store, name, unit, rows, &mut set)?;
    swap_flow(store, name, &mut set);
    let answer = judging::judge_rows(&store[..Store::SIZE], count);
    swap_flow(store, name, &mut set);
    answer
}
