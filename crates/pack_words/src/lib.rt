// The answer of a verdict as a 64-bit number. `Packing` of crate packing says where each part of an answer stands.
#![tactic(auto)]

ghost use Rattle.std.specs.Prelude.{◌≡◌, length};
ghost use Rattle.calls.specs.Answers.{verdict_answer};
ghost use Rattle.calls.specs.Judging.{verdict_words};
ghost use Rattle.packing.specs.Packing.{packed, word_bits, Lossless};

use calls::VerdictAnswer;
use packing::{Packs, pack};

// A verdict that is given: its five words.
#[derive(Drop)]
struct Given {
    words: [bool; 5],
}

impl Packs for Given {
    ghost use Rattle.packing.specs.Packing.{word_bits};
    ghost use Rattle.pack_words.specs.Words.{word_values};

    ghost bits = { word_bits };

    ghost values = { word_values };

    // A bit each.
    #[tactic(auto, using(crate::proofs::Words::bits_low, crate::proofs::Words::five_bits))]
    fn pack(self) -> u64 {
        let one_shot = self.words[0] as u64;
        let one_to_one = self.words[1] as u64;
        let fan_out = self.words[2] as u64;
        let fan_in = self.words[3] as u64;
        let one_sync = self.words[4] as u64;
        one_shot + 2 * (one_to_one + 2 * (fan_out + 2 * (fan_in + 2 * one_sync)))
    }
}

// The five words above a byte of 0.
#[tactic(auto, using(crate::proofs::Words::verdict_is))]
pub fn pack_verdict(answer: VerdictAnswer) -> u64
    requires lossless { Lossless word_bits (verdict_answer answer) }
    requires words_len { length answer.words ≡ length verdict_words }
    ensures { result ≡ packed word_bits (verdict_answer answer) }
{
    let words = answer.words;
    pack(answer.status.and(Ok(Given { words })))
}
