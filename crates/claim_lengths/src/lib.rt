// How long the lines of claims are; nothing is written.
// Beside the writer, as in row_lengths, and not one function with it: a text that is written only for its length is made twice.
#![tactic(auto)]

ghost use Rattle.std.specs.Prelude.{[], ◌∷◌, map, ◌≡◌, ◌≤◌, length};
ghost use Rattle.program.specs.Each.{collect};
ghost use Rattle.format.specs.Text.{ascii};
ghost use Rattle.format.specs.Document.{claim};
ghost use Rattle.format.specs.Print.{word_text, line_text};
ghost use Rattle.calls.specs.Layout.{decode_claims};

use claim_words::word_of;
use number_lengths::argument_length;
use program::Word;

// The length of the word of a claim.
#[tactic(auto, unfolding(format::specs::Print::word_text, format::specs::Text::ascii))]
fn word_length(word: Word) -> usize
    ensures { result ≡ length (ascii (word_text word)) }
{
    match word {
        Word::OneShot => 8,
        Word::OneToOne => 10,
        Word::FanOut => 7,
        Word::FanIn => 6,
        Word::Many => 4,
        Word::OneSync => 8,
    }
}

// The length of the line of a claim on row c, or 0 where the code is 0.
#[tactic(auto, using(write_store::proofs::Bounds::word_length, crate::proofs::Claims::claim_sum, crate::proofs::Rulesets::claim_length_facts), unfolding(program::specs::Each::collect, calls::specs::Layout::decode_claims))]
fn claim_length(c: u8, code: u8) -> usize
    ensures { result ≡ length (collect line_text (map claim (decode_claims c (code ∷ [])))) }
{
    if code == 0 {
        return 0;
    }
    let number = argument_length(c);
    let word = word_length(word_of(code));
    number + word + 9
}

// The length of the lines of the claims, of which each row has a code.
#[tactic(auto, using(write_store::proofs::Bounds::claims_length, number_lengths::proofs::Sums::onward, number_lengths::proofs::Sums::within, number_lengths::proofs::Sums::finished, crate::proofs::Claims::from_next, crate::proofs::Claims::from_end))]
pub fn claims_length(codes: &[u8]) -> usize
    requires { length codes.now ≤ 256 }
    ensures { result ≡ length (collect line_text (map claim (decode_claims 0 codes.now))) }
{
    let mut total = 0;
    for c in 0..codes.len() {
        total += claim_length(c as u8, codes[c]);
    }
    total
}
