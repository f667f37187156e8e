// The call verdict, its answer as one number.
#![tactic(auto)]

ghost use Rattle.std.specs.Prelude.{◌≡◌};
ghost use Rattle.calls.specs.Calls.{verdict};
ghost use Rattle.calls.specs.Answers.{verdict_answer};
ghost use Rattle.packing.specs.Packing.{packed, word_bits};

// The verdict of a channel row: its five words.
#[tactic(auto, using(lossless::proofs::Lossless::verdict_lossless, bounds::proofs::Bounds::every_word))]
pub fn verdict(store: &[u8], channel: usize) -> u64
    ensures value { result ≡ packed word_bits (verdict_answer (verdict store.now channel)) }
    ensures store_after { store.exit.now ≡ store.entry.now }
{
    pack_words::pack_verdict(call_verdict::verdict(store, channel))
}
