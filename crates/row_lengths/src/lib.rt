// How long the lines of rows are, by their kinds and numbers; nothing is written. A row is read as it stands in the store: its kind, its name, its rest and five numbers.
// These stand beside the writers, and are not one function with them: a text that is written only for its length is made twice.
#![tactic(auto)]

ghost use Rattle.std.specs.Prelude.{◌≡◌, ◌≤◌, length};
ghost use Rattle.program.specs.Each.{collect};
ghost use Rattle.format.specs.Text.{arguments};
ghost use Rattle.format.specs.Forms.{form_of};
ghost use Rattle.format.specs.Document.{row};
ghost use Rattle.format.specs.Print.{form_text, row_text, line_text, row_lines};
ghost use Rattle.calls.specs.Layout.{row_size, store_size, row_of};
ghost use Rattle.store.specs.Rows.{store_program};
ghost use Rattle.write_forms.specs.Texts.{kind_word};

use kinds::{arity, form_place};
use number_lengths::argument_length;
use store::Store;

// The length of numbers, each with a space before it.
#[tactic(auto, using(crate::proofs::Rows::numbers_next, crate::proofs::Rows::numbers_end, crate::proofs::Rows::sizes))]
fn arguments_length(numbers: &[u8]) -> usize
    requires { length numbers.now ≤ 5 }
    ensures { result ≡ length (arguments numbers.now) }
{
    // `map` and `sum` were tried: the check didn't find that the sum fits.
    let mut total = 0;
    for &n in numbers {
        total += argument_length(n);
    }
    total
}

// The length of the word of a kind, with the bracket before it; told by the kind's place, as its word is.
#[tactic(auto, using(kinds::proofs::Counts::place_below, crate::proofs::Rows::word_length))]
fn kind_length(kind: u8) -> usize
    ensures { result ≡ length (kind_word kind) }
{
    let lengths = [5, 5, 5, 5, 5, 5, 6, 4, 6, 5, 6, 7, 5, 6];
    let p = form_place(kind);
    lengths[p]
}

// The length of the form of a kind and five numbers, of which it holds the first.
#[tactic(auto, using(write_forms::proofs::Words::arity_few, crate::proofs::Rows::word_short, crate::proofs::Rows::form_sum, crate::proofs::Rows::sizes))]
fn form_length(kind: u8, numbers: &[u8]) -> usize
    requires { length numbers.now ≡ 5 }
    ensures { result ≡ length (form_text (form_of kind numbers.now)) }
{
    let count = arity(kind);
    let word = kind_length(kind);
    let rest = arguments_length(&numbers[..count]);
    word + rest + 1
}

// The length of a row.
#[tactic(auto, using(write_store::proofs::Bounds::row_length, crate::proofs::Rows::result_sum, crate::proofs::Rows::bind_sum, crate::proofs::Rows::sizes))]
fn row_length(row: &[u8]) -> usize
    requires { length row.now ≡ row_size }
    ensures { result ≡ length (row_text (row_of row.now)) }
{
    let kind = row[0];
    let name = argument_length(row[1]);
    if kind == 1 {
        return name + 8;
    }
    let form = form_length(kind, &row[3..]);
    let rest = argument_length(row[2]);
    name + form + rest + 7
}

// The length of the line of row r.
#[tactic(auto, using(write_store::proofs::Bounds::row_length, crate::proofs::Rows::line_sum, crate::proofs::Rows::sizes))]
fn row_line_length(r: u8, x: &[u8]) -> usize
    requires { length x.now ≡ row_size }
    ensures { result ≡ length (line_text (row r (row_of x.now))) }
{
    let number = argument_length(r);
    let text = row_length(x);
    number + text + 7
}

// The length of the lines of the first rows of a store.
#[tactic(auto, using(number_lengths::proofs::Sums::onward, number_lengths::proofs::Sums::within, number_lengths::proofs::Sums::finished, crate::proofs::Rows::lines_all, crate::proofs::Rows::lines_next, crate::proofs::Rows::lines_end, crate::proofs::Rows::rows_short))]
pub fn rows_length(store: &[u8], rows: u8) -> usize
    requires { store_size ≤ length store.now }
    ensures { result ≡ length (collect line_text (row_lines 0 (store_program rows store.now))) }
{
    let mut total = 0;
    for r in 0..rows {
        let from = r as usize * Store::ROW_SIZE;
        let to = from + Store::ROW_SIZE;
        total += row_line_length(r, &store[from..to]);
    }
    total
}
