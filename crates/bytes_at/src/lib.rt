// The byte and the digit that stand at a position of a slice.
#![tactic(auto)]

ghost use Rattle.std.specs.Prelude.{◌≡◌};
ghost use Rattle.format.specs.Text.{byte_at, digit_at};

// The byte at a position, and 0 past the end: no byte of the format is 0.
pub fn byte_at(s: &[u8], at: usize) -> u8
    ensures { result ≡ byte_at s.now at }
{
    s.get(at).copied().unwrap_or(0)
}

// The value of the decimal digit at a position, and 10 where there is none.
#[tactic(auto, unfolding(format::specs::Text::digit_at, format::specs::Text::digit_of))]
pub fn digit_at(s: &[u8], at: usize) -> u16
    ensures { result ≡ digit_at s.now at }
{
    let b = byte_at(s, at);
    if b < b'0' {
        return 10;
    }
    if b'9' < b {
        return 10;
    }
    b as u16 - 48
}
