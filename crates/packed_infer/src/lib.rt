// The call infer, its answer as one number.
#![tactic(auto)]

ghost use Rattle.std.specs.Prelude.{◌≡◌};
ghost use Rattle.inference.specs.Inference.{infer};
ghost use Rattle.calls.specs.Answers.{load_answer};
ghost use Rattle.packing.specs.Packing.{packed, count_bits};

// Puts the smallest tables in the place of the lent store's own: rows, flows, comms and claims then.
#[tactic(auto, using(lossless::proofs::Lossless::infer_lossless))]
pub fn infer(store: &mut [u8]) -> u64
    ensures value { result ≡ packed count_bits (load_answer (infer store.old).answer) }
    ensures store_after { store.new ≡ (infer store.old).bytes }
{
    packing::pack_load(call_infer::infer(store))
}
