// Which numbers were seen: a byte for each, 1 where it was seen. The marks are lent, and each step answers whether a number was seen again.
#![tactic(auto)]

ghost use Rattle.std.specs.Prelude.{[], ◌∷◌};
ghost use Rattle.seen.specs.Seen.{Adds};

// Every u8 can be seen.
pub const NUMBERS: usize = 256;

// One number more: whether it was seen already.
#[tactic(auto, using(crate::proofs::Marking::adds_one))]
fn see(marks: &mut [u8; NUMBERS], n: u8) -> bool
    ensures { Adds marks.old (n ∷ []) marks.new result }
{
    let i = n as usize;
    let again = marks[i] != 0;
    marks[i] = 1;
    again
}

// Some numbers more, in their order: whether one was seen already.
#[tactic(auto, using(crate::proofs::Marking::adds_none, crate::proofs::Marking::adds_more))]
pub fn see_few(marks: &mut [u8; NUMBERS], numbers: &[u8]) -> bool
    ensures { Adds marks.old numbers.now marks.new result }
{
    let mut again = false;
    for &n in numbers {
        again |= see(marks, n);
    }
    again
}
