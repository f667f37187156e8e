// The rule of a sync for what it sends: what it asks of the channels of a send row in its set is added.
#![tactic(auto)]

ghost use Rattle.std.specs.Prelude.{◌<◌, ◌≤◌, length};
ghost use Rattle.program.specs.Flow.{for_each_chan};
ghost use Rattle.format.specs.Limits.{row_limit};
ghost use Rattle.calls.specs.Layout.{store_size};
ghost use Rattle.store.specs.Rows.{store_program};
ghost use Rattle.set_adds.specs.Adding.{Adds};
ghost use Rattle.send_adds.specs.Sends.{Ready, sent_rule, chan_rule, send_row_rule};

use forms::{form_at, is_chan};
use program::Form;
use set_adds::{Variable, add_set, put_member};
use tables::flow_has;

// Adds what a sync whose bind has the name n asks of channel row k, to which a message is sent: unit in its own set, and the message's set in the channel's.
fn sent_adds(store: &mut [u8], rows: u8, n: u8, message: u8, k: u8) -> bool
    requires { (store_size ≤ length store.old) × (rows ≤ row_limit) × (n < row_limit) × (k < row_limit) × (message < row_limit) }
    ensures { Adds (sent_rule (store_program rows store.old) n message k) store.old store.new result }
{
    let unit = put_member(store, n, 0);
    let sent = add_set(store, rows, Variable::Name(message), Variable::Channel(k));
    unit | sent
}

// The same of row k, if it is a chan row in the set of name c.
fn chan_adds(store: &mut [u8], rows: u8, n: u8, message: u8, c: u8, k: u8) -> bool
    requires { (store_size ≤ length store.old) × (rows ≤ row_limit) × (n < row_limit) × (k < row_limit) × (message < row_limit) }
    ensures { Adds (chan_rule (store_program rows store.old) n message c k) store.old store.new result }
{
    flow_has(store, c, k) && is_chan(store, rows, k) && sent_adds(store, rows, n, message, k)
}

// The same of each chan row in the set of name c.
fn chans_add(store: &mut [u8], rows: u8, n: u8, message: u8, c: u8) -> bool
    requires { (store_size ≤ length store.old) × (rows ≤ row_limit) × (n < row_limit) × (message < row_limit) }
    ensures { let p = store_program rows store.old in Adds (λ flow comm. for_each_chan p (flow c) (λ j. sent_rule p n message j flow comm)) store.old store.new result }
{
    let mut more = false;
    for k in 0..rows {
        more |= chan_adds(store, rows, n, message, c, k);
    }
    more
}

// Adds what a sync asks of the channels of row k, if that is a send row.
#[tactic(auto, using(forms::proofs::Forms::send_at_lem, set_adds::proofs::Adding::adds_none, crate::proofs::Sending::send_low, crate::proofs::Sending::send_sent), unfolding(crate::specs::Sends::send_row_rule, program::specs::Maybe::when))]
pub fn send_adds(store: &mut [u8], rows: u8, n: u8, k: u8) -> bool
    requires ready { Ready rows store.old }
    requires n_lt_row_limit { n < row_limit }
    ensures { Adds (send_row_rule (store_program rows store.old) n k) store.old store.new result }
{
    let Form::Send { channel, message } = form_at(store, rows, k) else {
        return false;
    };
    chans_add(store, rows, n, message, channel)
}
