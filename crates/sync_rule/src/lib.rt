// The flow rule of a sync over the sets of a store: what it asks of the send rows and of the recv rows in the set of its event.
#![tactic(auto)]

ghost use Rattle.std.specs.Prelude.{true, false, ◌≡◌};
ghost use Rattle.program.specs.Flow.{for_each};
ghost use Rattle.store.specs.Rows.{store_program};
ghost use Rattle.tables.specs.Tables.{store_flow, store_comm};
ghost use Rattle.sets.specs.Sets.{Sized};
ghost use Rattle.channel_asks.specs.Channels.{Sends, send_test};
ghost use Rattle.sync_rule.specs.Rules.{sync_test};

use members::has_unit;
use received::{heard, held};
use sets::{flow_lies, flow_set, lies_in};

// Whether each send row in the set of name e passes a sync, by the sets of those that pass one with unit in its set and one without.
fn sends_pass(store: &[u8], rows: u8, e: u8, given: bool, with: &[u8], without: &[u8]) -> bool
    requires sized { Sized rows store.now }
    requires sends { Sends rows store.now true with.now }
    requires sends_2 { Sends rows store.now false without.now }
    ensures { let bytes = store.now in result ≡ for_each (store_program rows bytes) (store_flow bytes e) (send_test (store_program rows bytes) (store_flow bytes) (store_comm bytes) given) }
{
    let passing = if given { with } else { without };
    flow_lies(store, rows, e, passing)
}

// Whether each row in the set of name e passes a sync whose bind has the name n: its send rows, and then all that it may receive at once.
#[tactic(auto, using(crate::proofs::Syncs::sync_recvs, crate::proofs::Syncs::sync_fails, crate::proofs::Syncs::all_received))]
pub fn keeps_sync(store: &[u8], rows: u8, n: u8, e: u8, with: &[u8], without: &[u8]) -> bool
    requires sized { Sized rows store.now }
    requires sends { Sends rows store.now true with.now }
    requires sends_2 { Sends rows store.now false without.now }
    ensures { let bytes = store.now in result ≡ sync_test (store_program rows bytes) (store_flow bytes) (store_comm bytes) (store_flow bytes n) e }
{
    let to = flow_set(store, n);
    if !sends_pass(store, rows, e, has_unit(to), with, without) {
        return false;
    }
    let channels = heard(store, rows, e);
    let values = held(store, rows, &channels);
    lies_in(&values, to, rows)
}
