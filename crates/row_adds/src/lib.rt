// The rule of a row: what it asks is added.
#![tactic(auto)]

ghost use Rattle.std.specs.Prelude.{◌<◌};
ghost use Rattle.program.specs.Flow.{keeps_form, keeps_at};
ghost use Rattle.program.specs.Each.{Each};
ghost use Rattle.format.specs.Limits.{row_limit};
ghost use Rattle.format.specs.Print.{form_numbers};
ghost use Rattle.store.specs.Rows.{store_program};
ghost use Rattle.asks.specs.Asks.{Names};
ghost use Rattle.set_adds.specs.Adding.{Adds};
ghost use Rattle.send_adds.specs.Sends.{Ready};

use forms::row_in;
use program::{Form, Row};
use recv_adds::recvs_add;
use rule_adds::{Ask, each_adds};
use set_adds::put_member;

// Adds what the rule of a form at row r asks, where its bind has the name n. The last arm is that of the value rows other than fun.
#[tactic(auto, using(crate::proofs::Rows::own_low), unfolding(program::specs::Flow::keeps_form, inference::specs::Inference::abstract_of))]
fn form_adds(store: &mut [u8], rows: u8, r: u8, n: u8, form: Form, names: &[u8]) -> bool
    requires ready { Ready rows store.old }
    requires names { Names (store_program rows store.old) names.now }
    requires r_lt_row_limit { (r < row_limit) × (n < row_limit) × Each (λ a. a < row_limit) (form_numbers form) }
    ensures { Adds (λ flow comm. keeps_form (store_program rows store.old) flow comm r n form) store.old store.new result }
{
    let member = r as usize + 1;
    match form {
        Form::Unit => put_member(store, n, 0),
        Form::Fun { own, .. } => {
            let value = put_member(store, n, member);
            let inner = put_member(store, own, member);
            value | inner
        }
        Form::Spawn { .. } => put_member(store, n, 0),
        Form::Sync { event } => {
            let sent = each_adds(store, rows, n, Ask::Send, names, event);
            let received = recvs_add(store, rows, n, event);
            sent | received
        }
        Form::First { pair } => each_adds(store, rows, n, Ask::First, names, pair),
        Form::Second { pair } => each_adds(store, rows, n, Ask::Second, names, pair),
        Form::Case {
            subject,
            left_name,
            left,
            right_name,
            right,
        } => {
            let left_result = read_text::byte_at(names, left as usize);
            let right_result = read_text::byte_at(names, right as usize);
            let ask = Ask::Case {
                left_name,
                left_result,
                right_name,
                right_result,
            };
            each_adds(store, rows, n, ask, names, subject)
        }
        Form::Apply { function, argument } => each_adds(
            store,
            rows,
            n,
            Ask::Apply(argument),
            names,
            function,
        ),
        _ => put_member(store, n, member),
    }
}

// Adds what the rule of row r asks; a result has none.
#[tactic(auto, using(crate::proofs::Rows::result_keeps))]
pub fn row_adds(store: &mut [u8], rows: u8, r: u8, names: &[u8]) -> bool
    requires ready { Ready rows store.old }
    requires names { Names (store_program rows store.old) names.now }
    requires r_lt_row_limit { r < row_limit }
    ensures { Adds (λ flow comm. keeps_at (store_program rows store.old) flow comm r) store.old store.new result }
{
    let Row::Bind(b) = row_in(store, rows, r) else {
        return false;
    };
    form_adds(store, rows, r, b.name, b.form, names)
}
