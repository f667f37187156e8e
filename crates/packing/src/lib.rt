// Answers as 64-bit numbers. `specs/Packing` says where each part of an answer stands.
#![tactic(auto)]

ghost use Rattle.std.specs.Prelude.{ℕ, List, ◌≡◌, ◌+◌, ◌*◌, ◌^◌, ◌<◌};
ghost use Rattle.format.specs.Refusals.{number};
ghost use Rattle.calls.specs.Answers.{load_answer, judge_answer, write_answer};
ghost use Rattle.packing.specs.Packing.{in_bits, packed, answer_of, count_bits, number_bits, Short, Lossless};

use calls::{Counts, JudgeAnswer, LoadAnswer, WriteAnswer};
use format::Refusal;
use refusal_numbers::number;

// What an accepted call has, as values that have so many bits each: they are packed the first lowest.
pub trait Packs {
    ghost bits: { ℕ };

    ghost values: { Self → List ℕ };

    fn pack(self) -> u64
        requires { Short bits (values self) }
        ensures { (result ≡ in_bits bits (values self)) × (result < 2 ^ number_bits) };
}

impl Packs for Counts {
    ghost use Rattle.packing.specs.Packing.{count_bits};
    ghost use Rattle.packing.specs.Values.{count_values};

    ghost bits = { count_bits };

    ghost values = { count_values };

    #[tactic(auto, unfolding(crate::specs::Packing::in_bits))]
    fn pack(self) -> u64 {
        let rows = self.rows as u64;
        let flows = self.flows as u64;
        let comms = self.comms as u64;
        let claims = self.claims as u64;
        rows + 256 * (flows + 256 * (comms + 256 * claims))
    }
}

impl Packs for usize {
    ghost use Rattle.packing.specs.Packing.{number_bits};
    ghost use Rattle.packing.specs.Values.{one_value};

    ghost bits = { number_bits };

    ghost values = { one_value };

    #[tactic(auto, unfolding(crate::specs::Packing::in_bits))]
    fn pack(self) -> u64 {
        self as u64
    }
}

impl Packs for u8 {
    ghost use Rattle.packing.specs.Packing.{number_bits};
    ghost use Rattle.packing.specs.Values.{one_value};

    ghost bits = { number_bits };

    ghost values = { one_value };

    #[tactic(auto, unfolding(crate::specs::Packing::in_bits))]
    fn pack(self) -> u64 {
        self as u64
    }
}

// The refusal's number, and its line above it.
pub fn pack_refusal(refusal: Refusal) -> u64
    requires { refusal.line < 2 ^ number_bits }
    ensures { result ≡ number refusal.reason + 256 * refusal.line }
{
    let low = number(refusal.reason) as u64;
    let high = 256 * refusal.line as u64;
    low + high
}

// The values above a byte of 0, or the refusal.
#[tactic(auto, unfolding(calls::specs::Answers::refusal_answer, crate::specs::Packing::packed))]
pub fn pack<T: Packs>(answer: Result<T, Refusal>) -> u64
    requires { Lossless T.bits (answer_of T.values answer) }
    ensures { result ≡ packed T.bits (answer_of T.values answer) }
{
    match answer {
        Ok(values) => 256 * values.pack(),
        Err(refusal) => pack_refusal(refusal),
    }
}

// The counts, a byte each, above a byte of 0.
#[tactic(auto, using(crate::proofs::Answers::load_is))]
pub fn pack_load(answer: LoadAnswer) -> u64
    requires { Lossless count_bits (load_answer answer) }
    ensures { result ≡ packed count_bits (load_answer answer) }
{
    pack(answer)
}

// The count of claims above a byte of 0.
#[tactic(auto, using(crate::proofs::Answers::judge_is))]
pub fn pack_judge(answer: JudgeAnswer) -> u64
    requires { Lossless number_bits (judge_answer answer) }
    ensures { result ≡ packed number_bits (judge_answer answer) }
{
    pack(answer)
}

// The bytes written above a byte of 0.
#[tactic(auto, using(crate::proofs::Answers::write_is))]
pub fn pack_write(answer: WriteAnswer) -> u64
    requires { Lossless number_bits (write_answer answer) }
    ensures { result ≡ packed number_bits (write_answer answer) }
{
    pack(answer)
}
