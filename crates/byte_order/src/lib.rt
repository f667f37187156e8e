// The larger and the smaller of two bytes, by std's `max` and `min`.
#![tactic(auto)]

ghost use Rattle.std.specs.Prelude.{◌≡◌, min, max};

// The larger number.
pub fn larger(a: u8, b: u8) -> u8
    ensures { result ≡ max a b }
{
    a.max(b)
}

// The smaller number.
pub fn smaller(a: u8, b: u8) -> u8
    ensures { result ≡ min a b }
{
    a.min(b)
}
