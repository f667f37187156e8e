// The rows of the program in a store, and the forms that they hold.
#![tactic(auto)]

ghost use Rattle.std.specs.Prelude.{◌≡◌};
ghost use Rattle.program.specs.Program.{row_at, chan_row};
ghost use Rattle.store.specs.Rows.{store_program};
ghost use Rattle.forms.specs.Forms.{form_in};

use program::{Form, Row};
use stored_rows::row_at;

// Row r of the program, and past the last one a result.
#[inline(always)]
pub fn row_in(store: &[u8], rows: u8, r: u8) -> Row
    ensures { result ≡ row_at (store_program rows store.now) r }
{
    if rows <= r {
        return Row::Result(0);
    }
    row_at(store, r)
}

// The form of a row; of a result, unit, which holds no name and no row.
#[tactic(auto, unfolding(crate::specs::Forms::form_in))]
#[inline(always)]
pub fn form_at(store: &[u8], rows: u8, r: u8) -> Form
    ensures { result ≡ form_in (row_at (store_program rows store.now) r) }
{
    match row_in(store, rows, r) {
        Row::Result(_) => Form::Unit,
        Row::Bind(b) => b.form,
    }
}

// Whether row r is a chan row.
pub fn is_chan(store: &[u8], rows: u8, r: u8) -> bool
    ensures { result ≡ chan_row (store_program rows store.now) r }
{
    matches!(form_at(store, rows, r), Form::Chan)
}
