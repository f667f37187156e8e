// The rule of a form: what it asks of each row in its set is added.
#![tactic(auto)]

ghost use Rattle.std.specs.Prelude.{◌&&◌, ◌<◌, ◌≤◌, length};
ghost use Rattle.program.specs.Flow.{lies, for_each};
ghost use Rattle.format.specs.Limits.{row_limit};
ghost use Rattle.calls.specs.Layout.{store_size};
ghost use Rattle.store.specs.Rows.{store_program};
ghost use Rattle.asks.specs.Asks.{Names};
ghost use Rattle.set_adds.specs.Adding.{Adds};
ghost use Rattle.send_adds.specs.Sends.{Ready};
ghost use Rattle.rule_adds.specs.Rules.{ask_rule, member_rule, AskLow};

use forms::form_at;
use program::Form;
use send_adds::send_adds;
use set_adds::{Variable, add_set};
use tables::flow_has;

// What a form asks of each row in its set: its kind, and the names whose sets it compares with that of the row. Of a sync, what it sends; what it receives is asked of all rows together (recv_adds).
// Not the Ask of asks, which has no Send: shared, it would be wrapped wherever one is made or matched. And no closure for each row: it would change the store that it captures, of which no proof is had then.
#[derive(Clone, Copy)]
pub enum Ask {
    Send,
    First,
    Second,
    Case {
        left_name: u8,
        left_result: u8,
        right_name: u8,
        right_result: u8,
    },
    Apply(u8),
}

// Adds the set of name a to that of name x, and the set of name b to that of name n.
fn both_add(store: &mut [u8], rows: u8, a: u8, x: u8, b: u8, n: u8) -> bool
    requires { (store_size ≤ length store.old) × (rows ≤ row_limit) × (a < row_limit) × (x < row_limit) × (b < row_limit) × (n < row_limit) }
    ensures { let p = store_program rows store.old in Adds (λ flow comm. lies p (flow a) (flow x) && lies p (flow b) (flow n)) store.old store.new result }
{
    let one = add_set(store, rows, Variable::Name(a), Variable::Name(x));
    let two = add_set(store, rows, Variable::Name(b), Variable::Name(n));
    one | two
}

// Adds what a form asks of row k: a first or a second of a pair, a case of a left or a right, an apply of a function.
#[tactic(auto, unfolding(crate::specs::Rules::AskLow, crate::specs::Rules::ask_rule))]
fn asked_adds(store: &mut [u8], rows: u8, n: u8, ask: Ask, names: &[u8], k: u8) -> bool
    requires ready { Ready rows store.old }
    requires names { Names (store_program rows store.old) names.now }
    requires n_lt_row_limit { (n < row_limit) × AskLow ask }
    ensures { Adds (ask_rule (store_program rows store.old) n ask k) store.old store.new result }
{
    match (ask, form_at(store, rows, k)) {
        (Ask::Send, _) => send_adds(store, rows, n, k),
        (Ask::First, Form::Pair { first, .. }) => add_set(
            store,
            rows,
            Variable::Name(first),
            Variable::Name(n),
        ),
        (Ask::Second, Form::Pair { second, .. }) => add_set(
            store,
            rows,
            Variable::Name(second),
            Variable::Name(n),
        ),
        (
            Ask::Case {
                left_name,
                left_result,
                ..
            },
            Form::Left { value },
        ) => both_add(store, rows, value, left_name, left_result, n),
        (
            Ask::Case {
                right_name,
                right_result,
                ..
            },
            Form::Right { value },
        ) => both_add(store, rows, value, right_name, right_result, n),
        (
            Ask::Apply(argument),
            Form::Fun {
                parameter,
                body,
                ..
            },
        ) => {
            let result = read_text::byte_at(names, body as usize);
            both_add(store, rows, argument, parameter, result, n)
        }
        _ => false,
    }
}

// The same of row k, if it is in the set of name a.
pub fn member_adds(store: &mut [u8], rows: u8, n: u8, ask: Ask, names: &[u8], a: u8, k: u8) -> bool
    requires ready { Ready rows store.old }
    requires names { Names (store_program rows store.old) names.now }
    requires n_lt_row_limit { (n < row_limit) × AskLow ask }
    ensures { Adds (member_rule (store_program rows store.old) n ask a k) store.old store.new result }
{
    flow_has(store, a, k) && asked_adds(store, rows, n, ask, names, k)
}

// The same of each row in the set of name a.
pub fn each_adds(store: &mut [u8], rows: u8, n: u8, ask: Ask, names: &[u8], a: u8) -> bool
    requires ready { Ready rows store.old }
    requires names { Names (store_program rows store.old) names.now }
    requires n_lt_row_limit { (n < row_limit) × AskLow ask }
    ensures { let p = store_program rows store.old in Adds (λ flow comm. for_each p (flow a) (λ k. ask_rule p n ask k flow comm)) store.old store.new result }
{
    let mut more = false;
    for k in 0..rows {
        more |= member_adds(store, rows, n, ask, names, a, k);
    }
    more
}
