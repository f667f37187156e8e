// A row written into a store: eight bytes to a row, which are kind, name, rest and five arguments.
#![tactic(auto)]

ghost use Rattle.std.specs.Prelude.{◌≡◌, ◌+◌, ◌*◌, ◌≤◌, length};
ghost use Rattle.std.proofs.lemmas.List.Edits.{sets};
ghost use Rattle.calls.specs.Layout.{row_size, row_bytes};

use program::{Form, Row};
use store::Store;

// The bytes of a bind with form f; a kind is a byte of the store, which C lends.
#[tactic(auto, unfolding(calls::specs::Layout::row_bytes, calls::specs::Layout::padded, format::specs::Forms::form_code, format::specs::Print::form_numbers))]
fn cells_of_form(f: Form, name: u8, rest: u8) -> [u8; Store::ROW_SIZE]
    ensures { result ≡ row_bytes (Row.Bind (record { name = name; form = f; rest = rest })) }
{
    match f {
        Form::Unit => [2, name, rest, 0, 0, 0, 0, 0],
        Form::Chan => [3, name, rest, 0, 0, 0, 0, 0],
        Form::Send { channel, message } => [4, name, rest, channel, message, 0, 0, 0],
        Form::Recv { channel } => [5, name, rest, channel, 0, 0, 0, 0],
        Form::Pair { first, second } => [6, name, rest, first, second, 0, 0, 0],
        Form::Left { value } => [7, name, rest, value, 0, 0, 0, 0],
        Form::Right { value } => [8, name, rest, value, 0, 0, 0, 0],
        Form::Fun {
            own,
            parameter,
            body,
        } => [9, name, rest, own, parameter, body, 0, 0],
        Form::Spawn { child } => [10, name, rest, child, 0, 0, 0, 0],
        Form::Sync { event } => [11, name, rest, event, 0, 0, 0, 0],
        Form::First { pair } => [12, name, rest, pair, 0, 0, 0, 0],
        Form::Second { pair } => [13, name, rest, pair, 0, 0, 0, 0],
        Form::Case {
            subject,
            left_name,
            left,
            right_name,
            right,
        } => [14, name, rest, subject, left_name, left, right_name, right],
        Form::Apply { function, argument } => [15, name, rest, function, argument, 0, 0, 0],
    }
}

// The bytes of a row.
#[tactic(auto, unfolding(calls::specs::Layout::row_bytes, calls::specs::Layout::padded))]
fn cells_of(row: Row) -> [u8; Store::ROW_SIZE]
    ensures { result ≡ row_bytes row }
{
    match row {
        Row::Result(name) => [1, name, 0, 0, 0, 0, 0, 0],
        Row::Bind(b) => cells_of_form(b.form, b.name, b.rest),
    }
}

// Writes row r.
pub fn put_row(store: &mut [u8], r: u8, row: Row)
    requires { r * row_size + row_size ≤ length store.old }
    ensures { store.new ≡ sets store.old (r * row_size) (row_bytes row) }
{
    let p = r as usize * Store::ROW_SIZE;
    store[p..p + Store::ROW_SIZE].copy_from_slice(&cells_of(row));
}
