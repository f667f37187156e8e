// What the rule of a row asks of a member of its set is added.
ghost use Rattle.std.specs.Prelude.{◌<◌};
ghost use Rattle.store.specs.Rows.{store_program};
ghost use Rattle.asks.specs.Asks.{Names};
ghost use Rattle.send_adds.specs.Sends.{Ready};
ghost use Rattle.spreading.specs.Growing.{Grows};

use forms::row_in;
use marks::{KIND, NAME, SYNC, cell};
use program::{Form, Row};
use recv_adds::recvs_add;
use row_adds::row_adds;
use rule_adds::{Ask, member_adds};

// Adds what the rule of row r asks of row k, if it is in its set. A sync's receives are had together.
fn member_grows(store: &mut [u8], rows: u8, r: u8, names: &[u8], k: u8) -> bool
    requires ready { Ready rows store.old }
    requires names { Names (store_program rows store.old) names.now }
    requires r_lt_rows { (r < rows) × (k < rows) }
    ensures { Grows rows store.old store.new result }
{
    let Row::Bind(b) = row_in(store, rows, r) else {
        return false;
    };
    let n = b.name;
    match b.form {
        Form::Sync { event } => member_adds(store, rows, n, Ask::Send, names, event, k),
        Form::First { pair } => member_adds(store, rows, n, Ask::First, names, pair, k),
        Form::Second { pair } => member_adds(store, rows, n, Ask::Second, names, pair, k),
        Form::Case {
            subject,
            left_name,
            left,
            right_name,
            right,
        } => {
            let left_result = read_text::byte_at(names, left as usize);
            let right_result = read_text::byte_at(names, right as usize);
            let ask = Ask::Case {
                left_name,
                left_result,
                right_name,
                right_result,
            };
            member_adds(store, rows, n, ask, names, subject, k)
        }
        Form::Apply { function, argument } => member_adds(
            store,
            rows,
            n,
            Ask::Apply(argument),
            names,
            function,
            k,
        ),
        _ => false,
    }
}

// The same, unless there is nothing new to ask.
fn member_visit(
    store: &mut [u8],
    rows: u8,
    r: u8,
    names: &[u8],
    parts: &[u8],
    marks: &mut [u8],
    all: bool,
    k: u8,
) -> bool
    requires ready { Ready rows store.old }
    requires names { Names (store_program rows store.old) names.now }
    requires r_lt_rows { (r < rows) × (k < rows) }
    ensures { Grows rows store.old store.new result }
{
    if !marks::asks_member(store, marks, r, all, k) {
        return false;
    }
    marks::see(marks, r, k);
    let more = member_grows(store, rows, r, names, k);
    if more {
        marks::note_added(store, marks, parts, r, k);
    }
    more
}

// Adds what a sync at row r asks of all receives in its set.
fn receives_grow(store: &mut [u8], rows: u8, r: u8) -> bool
    requires ready { Ready rows store.old }
    requires r_lt_rows { r < rows }
    ensures { Grows rows store.old store.new result }
{
    let Row::Bind(b) = row_in(store, rows, r) else {
        return false;
    };
    let Form::Sync { event } = b.form else {
        return false;
    };
    recvs_add(store, rows, b.name, event)
}

// The same, unless there is nothing new to ask.
fn receives_visit(store: &mut [u8], rows: u8, r: u8, parts: &[u8], marks: &mut [u8]) -> bool
    requires ready { Ready rows store.old }
    requires r_lt_rows { r < rows }
    ensures { Grows rows store.old store.new result }
{
    if cell(store, r, KIND) != SYNC || !marks::asks_some(store, marks, parts, r, true) {
        return false;
    }
    let more = receives_grow(store, rows, r);
    if more {
        marks::note(marks, parts, cell(store, r, NAME));
    }
    more
}

// Adds what the rule of row r asks of the rows in its set, each apart unless there is nothing new to ask.
fn members_visit(
    store: &mut [u8],
    rows: u8,
    r: u8,
    names: &[u8],
    parts: &[u8],
    marks: &mut [u8],
    all: bool,
) -> bool
    requires ready { Ready rows store.old }
    requires names { Names (store_program rows store.old) names.now }
    requires r_lt_rows { r < rows }
    ensures { Grows rows store.old store.new result }
{
    let mut more = false;
    for k in 0..rows {
        more |= member_visit(store, rows, r, names, parts, marks, all, k);
    }
    more
}

// The same, unless there is nothing new to ask of any.
fn apart_visit(
    store: &mut [u8],
    rows: u8,
    r: u8,
    names: &[u8],
    parts: &[u8],
    marks: &mut [u8],
) -> bool
    requires ready { Ready rows store.old }
    requires names { Names (store_program rows store.old) names.now }
    requires r_lt_rows { r < rows }
    ensures { Grows rows store.old store.new result }
{
    let all = marks::asks_all(store, names, marks, r);
    (all || marks::asks_some(store, marks, parts, r, false))
        && members_visit(store, rows, r, names, parts, marks, all)
}

// Adds what the rule of row r asks, unless there is nothing new to ask.
pub fn visit(
    store: &mut [u8],
    rows: u8,
    r: u8,
    names: &[u8],
    parts: &[u8],
    marks: &mut [u8],
) -> bool
    requires ready { Ready rows store.old }
    requires names { Names (store_program rows store.old) names.now }
    requires r_lt_rows { r < rows }
    ensures { Grows rows store.old store.new result }
{
    if cell(store, r, KIND) < SYNC {
        return row_adds(store, rows, r, names);
    }
    let together = receives_visit(store, rows, r, parts, marks);
    let apart = apart_visit(store, rows, r, names, parts, marks);
    together | apart
}
