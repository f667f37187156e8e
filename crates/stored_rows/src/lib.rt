// A row of a store, read: eight bytes to a row, which are kind, name, rest and five arguments.
#![tactic(auto)]

ghost use Rattle.std.specs.Prelude.{◌≡◌};
ghost use Rattle.format.specs.Forms.{form_with};
ghost use Rattle.calls.specs.Layout.{row_of};
ghost use Rattle.store.specs.Rows.{cells_at, store_row};

use program::{Bind, Form, Row};
use read_text::byte_at;
use store::Store;

// The bytes of row r; past the store's end they are 0.
#[tactic(auto, unfolding(store::specs::Rows::cells_at))]
fn cells_at(store: &[u8], r: u8) -> [u8; Store::ROW_SIZE]
    ensures { result ≡ cells_at store.now r }
{
    let p = r as usize * Store::ROW_SIZE;
    [
        byte_at(store, p),
        byte_at(store, p + 1),
        byte_at(store, p + 2),
        byte_at(store, p + 3),
        byte_at(store, p + 4),
        byte_at(store, p + 5),
        byte_at(store, p + 6),
        byte_at(store, p + 7),
    ]
}

// The form of a kind, 2 to 15, with its arguments. Any other kind reads as an apply: a kind is a byte of the store, which C lends.
pub fn form_of(kind: u8, a: u8, b: u8, c: u8, d: u8, e: u8) -> Form
    ensures { result ≡ form_with kind a b c d e }
{
    match kind {
        2 => Form::Unit,
        3 => Form::Chan,
        4 => Form::Send {
            channel: a,
            message: b,
        },
        5 => Form::Recv { channel: a },
        6 => Form::Pair {
            first: a,
            second: b,
        },
        7 => Form::Left { value: a },
        8 => Form::Right { value: a },
        9 => Form::Fun {
            own: a,
            parameter: b,
            body: c,
        },
        10 => Form::Spawn { child: a },
        11 => Form::Sync { event: a },
        12 => Form::First { pair: a },
        13 => Form::Second { pair: a },
        14 => Form::Case {
            subject: a,
            left_name: b,
            left: c,
            right_name: d,
            right: e,
        },
        _ => Form::Apply {
            function: a,
            argument: b,
        },
    }
}

// The row of its bytes. Kind 1 is a result.
#[tactic(auto, unfolding(calls::specs::Layout::row_of, format::specs::Forms::form_of))]
fn row_of(cells: [u8; Store::ROW_SIZE]) -> Row
    ensures { result ≡ row_of cells }
{
    let [kind, name, rest, a, b, c, d, e] = cells;
    if kind == 1 {
        return Row::Result(name);
    }
    let form = form_of(kind, a, b, c, d, e);
    Row::Bind(Bind { name, form, rest })
}

// Row r. A kind above 15, and 0, which is no row, reads as an apply.
#[inline(always)]
pub fn row_at(store: &[u8], r: u8) -> Row
    ensures { result ≡ store_row store.now r }
{
    row_of(cells_at(store, r))
}
