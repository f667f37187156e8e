// The words that open lines and claims, read from a slice at a position.
#![tactic(auto)]

ghost use Rattle.std.specs.Prelude.{◌≡◌};
ghost use Rattle.format.specs.Text.{one_of};
ghost use Rattle.format.specs.Read.{line_words, claim_words};

use format::Section;
use program::Word;
use read_text::expect;

// Reads the word that opens a line: its section and the position past it.
#[tactic(auto, unfolding(format::specs::Text::one_of, format::specs::Read::line_words, format::specs::Text::ascii))]
pub fn read_section(s: &[u8], at: usize) -> Option<(Section, usize)>
    ensures { result ≡ one_of line_words s.now at }
{
    if let Some(p) = expect(s, at, b"[row") {
        return Some((Section::Rows, p));
    }
    if let Some(p) = expect(s, at, b"[flow") {
        return Some((Section::Flows, p));
    }
    if let Some(p) = expect(s, at, b"[comm") {
        return Some((Section::Comms, p));
    }
    if let Some(p) = expect(s, at, b"[claim") {
        return Some((Section::Claims, p));
    }
    None
}

// Reads the word of a claim, and the position past it.
#[tactic(auto, unfolding(format::specs::Text::one_of, format::specs::Read::claim_words, format::specs::Text::ascii))]
pub fn read_word(s: &[u8], at: usize) -> Option<(Word, usize)>
    ensures { result ≡ one_of claim_words s.now at }
{
    if let Some(p) = expect(s, at, b"one-shot") {
        return Some((Word::OneShot, p));
    }
    if let Some(p) = expect(s, at, b"one-to-one") {
        return Some((Word::OneToOne, p));
    }
    if let Some(p) = expect(s, at, b"fan-out") {
        return Some((Word::FanOut, p));
    }
    if let Some(p) = expect(s, at, b"fan-in") {
        return Some((Word::FanIn, p));
    }
    if let Some(p) = expect(s, at, b"many") {
        return Some((Word::Many, p));
    }
    if let Some(p) = expect(s, at, b"one-sync") {
        return Some((Word::OneSync, p));
    }
    None
}
