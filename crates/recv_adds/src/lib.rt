// What a sync may receive, gathered in one set, is added to the sync's own set at once.
#![tactic(auto)]

ghost use Rattle.std.specs.Prelude.{◌<◌};
ghost use Rattle.format.specs.Limits.{row_limit};
ghost use Rattle.store.specs.Rows.{store_program};
ghost use Rattle.sets.specs.Sets.{Sized};
ghost use Rattle.set_adds.specs.Adding.{Adds};
ghost use Rattle.received.specs.Received.{recvs_rule};

use received::{heard, held};
use set_adds::add_members;

// Adds what a sync whose bind has the name n asks of the recv rows in the set of name e.
#[tactic(auto, using(crate::proofs::Receiving::received))]
pub fn recvs_add(store: &mut [u8], rows: u8, n: u8, e: u8) -> bool
    requires sized { Sized rows store.old }
    requires n_lt_row_limit { n < row_limit }
    ensures { Adds (recvs_rule (store_program rows store.old) n e) store.old store.new result }
{
    let channels = heard(store, rows, e);
    let values = held(store, rows, &channels);
    add_members(store, rows, n, &values)
}
