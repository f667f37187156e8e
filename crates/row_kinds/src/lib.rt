// The rows of a program in a store as far as row steps ask: their kinds.
#![tactic(auto)]

ghost use Rattle.std.specs.Prelude.{◌≡◌};
ghost use Rattle.store.specs.Rows.{store_program};
ghost use Rattle.row_kinds.specs.Kinds.{kind_of, kind_at};

use forms::row_in;
use program::{Form, Row};

// What a row is, as far as row steps ask.
#[derive(Clone, Copy, PartialEq, Eq)]
pub enum Kind {
    End,
    Next {
        rest: u8,
    },
    Body {
        body: u8,
        rest: u8,
    },
    Fork {
        child: u8,
        rest: u8,
    },
    Branch {
        subject: u8,
        left: u8,
        right: u8,
        rest: u8,
    },
    Call {
        function: u8,
        rest: u8,
    },
}

// The kind of a bind.
fn kind_of(form: Form, rest: u8) -> Kind
    ensures { result ≡ kind_of rest form }
{
    match form {
        Form::Fun { body, .. } => Kind::Body { body, rest },
        Form::Spawn { child } => Kind::Fork { child, rest },
        Form::Case {
            subject,
            left,
            right,
            ..
        } => Kind::Branch {
            subject,
            left,
            right,
            rest,
        },
        Form::Apply { function, .. } => Kind::Call { function, rest },
        _ => Kind::Next { rest },
    }
}

// The kind of row r.
#[tactic(auto, unfolding(crate::specs::Kinds::kind_at, crate::specs::Kinds::kind_of_row))]
pub fn kind_at(store: &[u8], rows: u8, r: u8) -> Kind
    ensures { result ≡ kind_at (store_program rows store.now) r }
{
    match row_in(store, rows, r) {
        Row::Result(_) => Kind::End,
        Row::Bind(b) => kind_of(b.form, b.rest),
    }
}
