// The call replace: a set that is handed over put in the place of a name's.
#![tactic(auto)]

ghost use Rattle.calls.specs.Calls.{Leaves};
ghost use Rattle.replacement.specs.Replacement.{replace};

use calls::LoadAnswer;
use line_counts::store_counts;
use replacing::{replaceable, swap_flow};
use store::Store;

// Puts a set of rows, and unit or not, in the place of the set of a bound name: the counts of the store's lines then, or refusals 20 to 22, 32 and 33.
pub fn replace(store: &mut [u8], name: usize, unit: bool, rows: &[u8]) -> LoadAnswer
    ensures { Leaves (replace store.old name unit rows.now) result store.new }
{
    let mut set = [0u8; Store::MEMBERS];
    let count = replaceable(store, name, unit, rows, &mut set)?;
    swap_flow(store, name, &mut set);
    Ok(store_counts(&store[..Store::SIZE], count))
}
