// The call judge, its answer as one number.
#![tactic(auto)]

ghost use Rattle.std.specs.Prelude.{◌≡◌};
ghost use Rattle.calls.specs.Calls.{judge};
ghost use Rattle.calls.specs.Answers.{judge_answer};
ghost use Rattle.packing.specs.Packing.{packed, number_bits};

// Judges the claims of a store: how many there are.
#[tactic(auto, using(lossless::proofs::Lossless::judge_lossless))]
pub fn judge(store: &[u8]) -> u64
    ensures value { result ≡ packed number_bits (judge_answer (judge store.now)) }
    ensures store_after { store.exit.now ≡ store.entry.now }
{
    packing::pack_judge(call_judge::judge(store))
}
