// Claim lines, written at a position.
#![tactic(auto)]

ghost use Rattle.std.specs.Prelude.{[], ◌∷◌, map, ◌≡◌, ◌≤◌, length};
ghost use Rattle.program.specs.Each.{collect};
ghost use Rattle.format.specs.Text.{ascii};
ghost use Rattle.format.specs.Document.{claim};
ghost use Rattle.format.specs.Print.{word_text, line_text};
ghost use Rattle.calls.specs.Layout.{decode_claims};
ghost use Rattle.write_bytes.specs.Write.{Room, Wrote};

use claim_words::word_of;
use program::Word;

// The text of a claim's word.
#[tactic(auto, unfolding(format::specs::Print::word_text, format::specs::Text::ascii))]
fn word_text(word: Word) -> &'static [u8]
    ensures { result.now ≡ ascii (word_text word) }
{
    match word {
        Word::OneShot => b"one-shot",
        Word::OneToOne => b"one-to-one",
        Word::FanOut => b"fan-out",
        Word::FanIn => b"fan-in",
        Word::Many => b"many",
        Word::OneSync => b"one-sync",
    }
}

// Writes the line of a claim on row c, or nothing where the code is 0.
fn put_claim(out: &mut [u8], at: usize, c: u16, code: u8) -> usize
    requires { Room out.old at (collect line_text (map claim (decode_claims c (code ∷ [])))) }
    ensures { Wrote out.old at (collect line_text (map claim (decode_claims c (code ∷ [])))) result out.new }
{
    if code == 0 {
        return at;
    }
    let p = write_text::put_head(out, at, b"[claim", c);
    let q = write_text::put_word(out, p, word_text(word_of(code)));
    write_text::put_word(out, q, b"]\n")
}

// Writes the lines of the claims, of which each row has a code.
pub fn put_claims(out: &mut [u8], at: usize, codes: &[u8]) -> usize
    requires codes_len_bound { length codes.now ≤ 65536 }
    requires room { Room out.old at (collect line_text (map claim (decode_claims 0 codes.now))) }
    ensures { Wrote out.old at (collect line_text (map claim (decode_claims 0 codes.now))) result out.new }
{
    let mut next = at;
    for c in 0..codes.len() {
        next = put_claim(out, next, c as u16, codes[c]);
    }
    next
}
