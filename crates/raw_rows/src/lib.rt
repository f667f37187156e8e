// Rows as read, with numbers up to 999: the limit of their numbers, and the row where none is above it.
#![tactic(auto)]

ghost use Rattle.std.specs.Prelude.{false, ◌≡◌, ◌%◌, not, ltb};
ghost use Rattle.format.specs.Limits.{row_limit};
ghost use Rattle.format.specs.Forms.{form_of};
ghost use Rattle.format.specs.Print.{form_numbers};
ghost use Rattle.raw_rows.specs.Raw.{raw_row, row_above, numbers_above};

use program::{Bind, Form, Row};
use read_forms::RawForm;
use store::Store;

// A row as read, with numbers up to 999.
#[derive(Clone, Copy, PartialEq, Eq)]
pub enum RawRow {
    Result(u16),
    Bind { name: u16, form: RawForm, rest: u16 },
}

// Whether a row has a number above the limit.
pub fn row_above(raw: RawRow) -> bool
    ensures { result ≡ row_above (raw_row raw) }
{
    match raw {
        RawRow::Result(name) => is_above(name),
        RawRow::Bind { name, form, rest } => is_above(name)
            || is_above(rest)
            || form_above(form.kind, &form.numbers),
    }
}

// Whether a form has a number above the limit.
fn form_above(kind: u8, numbers: &[u16; 5]) -> bool
    ensures { result ≡ numbers_above (form_numbers (form_of kind numbers.now)) }
{
    numbers_above(&numbers[..kinds::arity(kind)])
}

// Whether a number is above the limit of rows and of names.
fn is_above(n: u16) -> bool
    ensures { result ≡ not (ltb n row_limit) }
{
    Store::ROWS <= n as usize
}

// Whether one of these numbers is above the limit.
#[tactic(auto, unfolding(program::specs::Each::every))]
fn numbers_above(numbers: &[u16]) -> bool
    ensures { result ≡ numbers_above numbers.now }
{
    for &n in numbers {
        if is_above(n) {
            return true;
        }
    }
    false
}

// The low byte of a number: a form's numbers that it does not hold may be any.
fn low(n: u16) -> u8
    ensures { result ≡ n % 256 }
{
    (n % 256) as u8
}

// The form of which no number is above the limit.
fn form_of(kind: u8, numbers: &[u16; 5]) -> Form
    requires { numbers_above (form_numbers (form_of kind numbers.now)) ≡ false }
    ensures { result ≡ form_of kind numbers.now }
{
    let [a, b, c, d, e] = *numbers;
    stored_rows::form_of(kind, low(a), low(b), low(c), low(d), low(e))
}

// The row of which no number is above the limit.
pub fn row_of(raw: RawRow) -> Row
    requires { row_above (raw_row raw) ≡ false }
    ensures { result ≡ raw_row raw }
{
    match raw {
        RawRow::Result(name) => Row::Result(low(name)),
        RawRow::Bind { name, form, rest } => Row::Bind(Bind {
            name: low(name),
            form: form_of(form.kind, &form.numbers),
            rest: low(rest),
        }),
    }
}
