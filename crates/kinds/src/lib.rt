// The kinds of the forms, 2 to 15, as places of a table. They are numbers since they are bytes of the store, which C lends.
#![tactic(auto)]

ghost use Rattle.std.specs.Prelude.{◌≡◌};
ghost use Rattle.format.specs.Forms.{arity};
ghost use Rattle.kinds.specs.Kinds.{form_place};

// The place of a kind's form: any number that is no form's kind counts as the last, apply.
#[tactic(auto, unfolding(crate::specs::Kinds::form_place))]
pub fn form_place(kind: u8) -> usize
    ensures { result ≡ form_place kind }
{
    if kind < 2 {
        return 13;
    }
    if 15 < kind {
        return 13;
    }
    kind as usize - 2
}

// How many numbers a form of this kind holds.
pub fn arity(kind: u8) -> usize
    ensures { result ≡ arity kind }
{
    let counts = [0, 0, 2, 1, 2, 1, 1, 3, 1, 1, 1, 1, 5, 2];
    counts[form_place(kind)]
}
