// The call infer: the smallest tables put in the place of a store's own.
#![tactic(auto)]

ghost use Rattle.calls.specs.Calls.{Leaves};
ghost use Rattle.inference.specs.Inference.{infer};

use calls::LoadAnswer;
use line_counts::store_counts;
use store::Store;

// Puts the smallest tables in the place of the lent store's own: the counts of its lines then, or refusals 20 to 22.
#[tactic(auto, using(crate::proofs::Outcomes::refused_store, crate::proofs::Outcomes::ready_store, crate::proofs::Outcomes::left_store, crate::proofs::Outcomes::long_left, crate::proofs::Outcomes::size_left))]
pub fn infer(store: &mut [u8]) -> LoadAnswer
    ensures { Leaves (infer store.old) result store.new }
{
    let rows = opening::open(store)?;
    smallest::smallest_sets(store, rows);
    Ok(store_counts(&store[..Store::SIZE], rows))
}
