// The words of a claim: the word of its code in the store, and what a word says, by what is found at the two ends of a channel.
#![tactic(auto)]

ghost use Rattle.std.specs.Prelude.{◌≡◌};
ghost use Rattle.program.specs.Verdict.{once, says};
ghost use Rattle.calls.specs.Layout.{word_of};

use program::{Ends, Facts, Word};

// The word of a claim's code in the store, a byte there; every code but these five is that of many.
#[tactic(auto, unfolding(calls::specs::Layout::word_of))]
pub fn word_of(code: u8) -> Word
    ensures { result ≡ word_of code }
{
    match code {
        1 => Word::OneShot,
        2 => Word::OneToOne,
        3 => Word::FanOut,
        4 => Word::FanIn,
        6 => Word::OneSync,
        _ => Word::Many,
    }
}

// Walks come to places once at most: not to one after the other, and not to two apart.
fn once(end: Ends) -> bool
    ensures { result ≡ once end }
{
    !end.twice && !end.rivals
}

// What a word says, by what is found at the two ends of a channel.
#[tactic(auto, unfolding(program::specs::Verdict::says))]
pub fn says(word: Word, found: Facts) -> bool
    ensures { result ≡ says word found }
{
    let Facts { sends, receives } = found;
    match word {
        Word::OneShot => once(sends),
        Word::OneToOne => !sends.rivals && !receives.rivals,
        Word::FanOut => !sends.rivals,
        Word::FanIn => !receives.rivals,
        Word::Many => true,
        Word::OneSync => once(sends) && once(receives),
    }
}
