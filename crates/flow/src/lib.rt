// The flow rules over the sets of a store: the smallest row whose rule fails.
#![tactic(auto)]

ghost use Rattle.std.specs.Prelude.{true, false, not, ◌≡◌, ◌≤◌, length};
ghost use Rattle.program.specs.Test.{least};
ghost use Rattle.program.specs.Flow.{keeps_at};
ghost use Rattle.format.specs.Limits.{row_limit};
ghost use Rattle.calls.specs.Layout.{store_size};
ghost use Rattle.store.specs.Rows.{store_program};
ghost use Rattle.tables.specs.Tables.{store_flow, store_comm};
ghost use Rattle.sets.specs.Sets.{Sized};
ghost use Rattle.channel_asks.specs.Channels.{Sends};
ghost use Rattle.asks.specs.Asks.{Names};

use asks::result_names;
use channel_asks::passing_sends;
use form_rule::keeps_form;
use forms::row_in;
use program::Row;
use row_lists::Kind;

// Whether row r keeps the rule of its form; a result has none.
#[tactic(auto, unfolding(program::specs::Flow::keeps_at, program::specs::Program::bind_at, program::specs::Program::bind_of, program::specs::Maybe::when))]
fn keeps_row(store: &[u8], rows: u8, r: u8, names: &[u8], with: &[u8], without: &[u8]) -> bool
    requires sized { Sized rows store.now }
    requires names { Names (store_program rows store.now) names.now }
    requires sends { Sends rows store.now true with.now }
    requires sends_2 { Sends rows store.now false without.now }
    ensures { let bytes = store.now in result ≡ keeps_at (store_program rows bytes) (store_flow bytes) (store_comm bytes) r }
{
    let Row::Bind(b) = row_in(store, rows, r) else {
        return true;
    };
    keeps_form(store, rows, r, b.name, b.form, names, with, without)
}

// The smallest row whose flow rule fails. What a sync asks of a send row depends on the sync only by unit in its set, so the
// send rows that pass are found once for each of the two cases. Not inlined: its lists are on the stack only while it runs.
#[inline(never)]
pub fn failing_row(store: &[u8], rows: u8) -> Option<u8>
    requires store_size_in_bounds { store_size ≤ length store.now }
    requires rows_le_row_limit { rows ≤ row_limit }
    ensures { let bytes = store.now in result ≡ least rows (λ r. not (keeps_at (store_program rows bytes) (store_flow bytes) (store_comm bytes) r)) }
{
    let names = result_names(store, rows);
    let chans = Kind::Chan.listed(store, rows);
    let sends = Kind::Send.listed(store, rows);
    let with = passing_sends(store, rows, chans.rows(), sends.rows(), true);
    let without = passing_sends(store, rows, chans.rows(), sends.rows(), false);
    (0..rows).find(|&r| !keeps_row(store, rows, r, &names, &with, &without))
}
