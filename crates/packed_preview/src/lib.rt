// The call preview, its answer as one number and the yes or no for unit as another: 0 is no.
#![tactic(auto)]

ghost use Rattle.std.specs.Prelude.{◌≡◌, ltb};
ghost use Rattle.replacement.specs.Replacement.{preview};
ghost use Rattle.calls.specs.Answers.{judge_answer};
ghost use Rattle.packing.specs.Packing.{packed, number_bits};

// Judges the claims of a store with a set of rows, and unit if it is not 0, in the place of the set of a bound name: how many there are. The store is as before.
#[tactic(auto, using(lossless::proofs::Lossless::preview_lossless))]
pub fn preview(store: &mut [u8], name: usize, unit: u8, rows: &[u8]) -> u64
    ensures value { result ≡ packed number_bits (judge_answer (preview store.old name (ltb 0 unit) rows.now)) }
    ensures store_unchanged { store.new ≡ store.old }
{
    packing::pack_judge(call_preview::preview(store, name, 0 < unit, rows))
}
