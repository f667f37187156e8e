// How many bytes the text of a number takes, told by its size; nothing is written.
#![tactic(auto)]

ghost use Rattle.std.specs.Prelude.{◌≡◌, length};
ghost use Rattle.format.specs.Text.{argument};

// The length of a number with the space before it.
#[tactic(auto, using(crate::proofs::Digits::one_digit, crate::proofs::Digits::two_digits, crate::proofs::Digits::three_digits), unfolding(format::specs::Text::argument))]
pub fn argument_length(n: u8) -> usize
    ensures { result ≡ length (argument n) }
{
    match n {
        0..=9 => 2,
        10..=99 => 3,
        _ => 4,
    }
}
