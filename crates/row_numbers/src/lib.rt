// The rows that a row points at, and the names that it binds: three at most, in their order.
#![tactic(auto)]

ghost use Rattle.std.specs.Prelude.{◌≡◌, ◌≤◌, ◌<◌, [], ◌∷◌, ◌++◌, List, ℕ, length, take};
ghost use Rattle.program.specs.Program.{rows_of, binders_of, pointers, binders};

use program::{Form, Row};
use std::marker::Model;

// Up to three numbers; behind these every byte is 0, so that the list tells the fields and a copy may be made.
#[derive(Clone, Copy, PartialEq, Eq)]
pub struct Few {
    numbers: [u8; 3],
    len: u8,
}

impl Model for Few {
    ghost use Rattle.std.specs.Prelude.{◌≡◌, ◌≤◌, List, ℕ, length, take};
    ghost use Rattle.row_numbers.specs.Padded.{padded};
    ghost use Rattle.std.proofs.Common.{sym, subst, length-take-le};

    ghost Value = { List ℕ };

    ghost view = { λ few. take few.len few.numbers };

    ghost invariant = { λ few. (few.len ≤ 3) × ((length few.numbers ≡ 3) × (padded (take few.len few.numbers) ≡ few.numbers)) };

    ghost inverse = { λ ns. record { numbers = padded ns; len = length ns } };

    ghost inverse_ok = { λ few h i. record {
      numbers = h.1.1 i;
      len = length-take-le few.len few.numbers (subst (λ n. few.len ≤ n) (sym h.1.0) h.0) i;
    } };
}

impl Few {
    fn none() -> Self
        ensures { result ≡ [] }
    {
        Few {
            numbers: [0; 3],
            len: 0,
        }
    }

    fn one(a: u8) -> Self
        ensures { result ≡ a ∷ [] }
    {
        Few {
            numbers: [a, 0, 0],
            len: 1,
        }
    }

    fn two(a: u8, b: u8) -> Self
        ensures { result ≡ a ∷ b ∷ [] }
    {
        Few {
            numbers: [a, b, 0],
            len: 2,
        }
    }

    fn three(a: u8, b: u8, c: u8) -> Self
        ensures { result ≡ a ∷ b ∷ c ∷ [] }
    {
        Few {
            numbers: [a, b, c],
            len: 3,
        }
    }

    pub fn numbers(&self) -> &[u8]
        ensures { result.now ≡ self.now }
    {
        &self.numbers[..self.len as usize]
    }
}

// The rows that a form points at, then the rest.
fn rows_of(form: Form, rest: u8) -> Few
    ensures { result ≡ rows_of form ++ (rest ∷ []) }
{
    match form {
        Form::Fun { body, .. } => Few::two(body, rest),
        Form::Spawn { child } => Few::two(child, rest),
        Form::Case { left, right, .. } => Few::three(left, right, rest),
        _ => Few::one(rest),
    }
}

// The rows that a row points at.
#[tactic(auto, unfolding(program::specs::Program::pointers))]
pub fn pointers_of(row: Row) -> Few
    ensures { result ≡ pointers row }
{
    match row {
        Row::Result(_) => Few::none(),
        Row::Bind(b) => rows_of(b.form, b.rest),
    }
}

// A name, then the names that a form binds.
fn names_of(name: u8, form: Form) -> Few
    ensures { result ≡ name ∷ binders_of form }
{
    match form {
        Form::Fun { own, parameter, .. } => Few::three(name, own, parameter),
        Form::Case {
            left_name,
            right_name,
            ..
        } => Few::three(name, left_name, right_name),
        _ => Few::one(name),
    }
}

// The names that a row binds.
#[tactic(auto, unfolding(program::specs::Program::binders))]
pub fn binders_of(row: Row) -> Few
    ensures { result ≡ binders row }
{
    match row {
        Row::Result(_) => Few::none(),
        Row::Bind(b) => names_of(b.name, b.form),
    }
}
