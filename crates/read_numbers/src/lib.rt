// Numbers of the text form, read from a slice at a position.
#![tactic(auto)]

ghost use Rattle.std.specs.Prelude.{◌≡◌};
ghost use Rattle.format.specs.Text.{read_number};

use bytes_at::digit_at;

// Reads a number, one to three digits with no leading zero: the number and the position past it.
#[tactic(auto, unfolding(format::specs::Text::read_number))]
pub fn read_number(s: &[u8], at: usize) -> Option<(u16, usize)>
    ensures { result ≡ read_number s.now at }
{
    let a = digit_at(s, at);
    if 9 < a {
        return None;
    }
    let p = at + 1;
    if a == 0 {
        return Some((0, p));
    }
    let b = digit_at(s, p);
    if 9 < b {
        return Some((a, p));
    }
    let q = p + 1;
    let c = digit_at(s, q);
    if 9 < c {
        return Some((a * 10 + b, q));
    }
    let next = q + 1;
    Some((a * 100 + b * 10 + c, next))
}
