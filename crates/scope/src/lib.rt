// Scope, down the tree of a program's rows in a store. A scope has a byte for each name: 1 where the name is in scope.
#![tactic(auto)]

ghost use Rattle.std.specs.Prelude.{◌≡◌, get_or, set, ◌+◌, ◌*◌, ◌-◌, ◌<◌, min, None};
ghost use Rattle.format.specs.Limits.{row_limit};
ghost use Rattle.format.specs.Scope.{use_fault, row_fault, form_fault, scope_fault};
ghost use Rattle.format.specs.Structure.{scope_line};
ghost use Rattle.store.specs.Rows.{store_program};

use program::{Form, Row};
use store::Store;
use stored_rows::row_at;

// No row: what the cycle below answers where it finds none. An Option<u8> and its branches in each step would need more stack,
// and the frames of the cycle, two for a row of 160, are most of what a call may use.
const NO_ROW: u8 = Store::ROWS as u8;

// Row r if its name n is not in scope, else NO_ROW.
#[tactic(auto, unfolding(format::specs::Scope::use_fault))]
fn use_of(r: u8, n: u8, scope: &[u8]) -> u8
    ensures { result ≡ use_fault r n scope.now }
{
    if read_text::byte_at(scope, n as usize) == 0 {
        return r;
    }
    NO_ROW
}

// Stores the byte of name n and answers the byte that stood there. A name past the last has none: nothing changes, and
// the answer is 0.
fn put_name(scope: &mut [u8], n: u8, byte: u8) -> u8
    ensures was { result ≡ get_or scope.old n 0 }
    ensures left { scope.new ≡ set scope.old n byte }
{
    let i = n as usize;
    if scope.len() <= i {
        return 0;
    }
    let old = scope[i];
    scope[i] = byte;
    old
}

// The smallest row with a use out of scope, from row r down, or NO_ROW. A row below from or past the last is passed over.
// The scope is lent and left as it was: a name that is added gets its old byte back. The rest comes before the form, so
// that little of a row waits on the stack while its rest is looked at.
#[cycle(scope_form_scope_row)]
fn scope_row(store: &[u8], rows: u8, from: u8, r: u8, scope: &mut [u8; Store::NAMES]) -> u8
    ensures fault { result ≡ row_fault (2 * (rows - from) + 1) (store_program rows store.now) from r scope.old }
    ensures undone { scope.new ≡ scope.old }
{
    if r < from {
        return NO_ROW;
    }
    if rows <= r {
        return NO_ROW;
    }
    match row_at(store, r) {
        Row::Result(n) => use_of(r, n, scope),
        Row::Bind(b) => {
            let old = put_name(scope, b.name, 1);
            let below = scope_row(store, rows, r + 1, b.rest, scope);
            put_name(scope, b.name, old);
            let here = scope_form(store, rows, r, b.form, scope);
            here.min(below)
        }
    }
}

// The same of row r's form.
#[cycle(scope_form_scope_row)]
#[tactic(auto, using(crate::proofs::Fuel::form_fuel), unfolding(format::specs::Scope::form_fault))]
fn scope_form(store: &[u8], rows: u8, r: u8, form: Form, scope: &mut [u8; Store::NAMES]) -> u8
    requires { r < rows }
    ensures fault { result ≡ form_fault (2 * (rows - r)) (store_program rows store.now) r form scope.old }
    ensures undone { scope.new ≡ scope.old }
{
    match form {
        Form::Unit => NO_ROW,
        Form::Chan => NO_ROW,
        Form::Send { channel, message } => use_of(r, channel, scope).min(use_of(r, message, scope)),
        Form::Recv { channel } => use_of(r, channel, scope),
        Form::Pair { first, second } => use_of(r, first, scope).min(use_of(r, second, scope)),
        Form::Left { value } => use_of(r, value, scope),
        Form::Right { value } => use_of(r, value, scope),
        Form::Fun {
            own,
            parameter,
            body,
        } => {
            let old_own = put_name(scope, own, 1);
            let old_parameter = put_name(scope, parameter, 1);
            let inside = scope_row(store, rows, r + 1, body, scope);
            put_name(scope, parameter, old_parameter);
            put_name(scope, own, old_own);
            inside
        }
        Form::Spawn { child } => scope_row(store, rows, r + 1, child, scope),
        Form::Sync { event } => use_of(r, event, scope),
        Form::First { pair } => use_of(r, pair, scope),
        Form::Second { pair } => use_of(r, pair, scope),
        Form::Case {
            subject,
            left_name,
            left,
            right_name,
            right,
        } => {
            let here = use_of(r, subject, scope);
            let old_left = put_name(scope, left_name, 1);
            let in_left = scope_row(store, rows, r + 1, left, scope);
            put_name(scope, left_name, old_left);
            let old_right = put_name(scope, right_name, 1);
            let in_right = scope_row(store, rows, r + 1, right, scope);
            put_name(scope, right_name, old_right);
            here.min(in_left.min(in_right))
        }
        Form::Apply { function, argument } => use_of(r, function, scope).min(use_of(
            r, argument, scope,
        )),
    }
}

// The smallest of the first rows of a store with a use out of scope.
#[tactic(auto, using(crate::proofs::Fuel::line_is, crate::proofs::Fuel::line_none, crate::proofs::Fuel::no_fault))]
pub fn scope_fault(store: &[u8], rows: u8) -> Option<u8>
    ensures row { result ≡ scope_line (store_program rows store.now) }
    ensures none { result ≡ None → scope_fault (store_program rows store.now) ≡ row_limit }
{
    let mut scope = [0; Store::NAMES];
    let r = scope_row(store, rows, 0, 0, &mut scope);
    if r < rows { Some(r) } else { None }
}
