// Fixed words and arguments of the text form, read from a slice at a position. The byte at a position is passed on.
#![tactic(auto)]

ghost use Rattle.std.proofs.Math.Bool.{So};
ghost use Rattle.std.specs.Prelude.{◌≡◌};
ghost use Rattle.format.specs.Text.{expect, read_argument};
ghost use Rattle.read_text.specs.Reads.{no_zero};

pub use bytes_at::byte_at;
use read_numbers::read_number;

// Looks for the bytes of a word at a position, and answers the position past them; none of them is 0, which is what stands past the end.
pub fn expect(s: &[u8], at: usize, word: &[u8]) -> Option<usize>
    requires { So (no_zero word.now) }
    ensures { result ≡ expect word.now s.now at }
{
    let mut next = at;
    for &w in word {
        let b = byte_at(s, next);
        if b != w {
            return None;
        }
        next += 1;
    }
    Some(next)
}

// Reads a space and a number.
#[tactic(auto, unfolding(format::specs::Text::read_argument))]
pub fn read_argument(s: &[u8], at: usize) -> Option<(u16, usize)>
    ensures { result ≡ read_argument s.now at }
{
    let p = expect(s, at, b" ")?;
    read_number(s, p)
}
