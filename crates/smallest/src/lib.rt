// The smallest tables of the program in a store: what the flow rules ask is added to empty sets until they hold.
#![tactic(auto)]

ghost use Rattle.std.specs.Prelude.{◌≤◌, length};
ghost use Rattle.program.specs.Flow.{keeps_all};
ghost use Rattle.calls.specs.Layout.{store_size};
ghost use Rattle.store.specs.Rows.{store_program};
ghost use Rattle.asks.specs.Asks.{Names};
ghost use Rattle.set_adds.specs.Adding.{Adds};
ghost use Rattle.send_adds.specs.Sends.{Ready};
ghost use Rattle.smallest.specs.Smallest.{Settles, Cleared, Least};

use flow::failing_row;
use row_adds::row_adds;
use spreading::spread;
use store::Store;

// Adds what the rules ask, one row after the other.
fn round(store: &mut [u8], rows: u8, names: &[u8]) -> bool
    requires ready { Ready rows store.old }
    requires names { Names (store_program rows store.old) names.now }
    ensures { Adds (λ flow comm. keeps_all (store_program rows store.old) flow comm) store.old store.new result }
{
    let mut more = false;
    for r in 0..rows {
        more |= row_adds(store, rows, r, names);
    }
    more
}

// Rounds until one adds nothing: a loop on that, which counts no index. Each but the last adds a member, so the bytes that are 0 grow fewer.
#[tactic(auto, using(spreading::proofs::Growing::program_reset, spreading::proofs::Growing::ready_reset, spreading::proofs::Growing::grows_by, spreading::proofs::Growing::rounds_fall, crate::proofs::Settling::spreads_none, crate::proofs::Settling::spreads_more, crate::proofs::Settling::settles))]
fn settle(store: &mut [u8], rows: u8, names: &[u8])
    requires ready { Ready rows store.old }
    requires names { Names (store_program rows store.old) names.now }
    ensures { Settles rows store.old store.new }
{
    let mut more = true;
    while more {
        more = round(store, rows, names);
    }
}

// Empties all sets.
fn clear_sets(store: &mut [u8])
    requires { store_size ≤ length store.old }
    ensures { Cleared store.old store.new }
{
    store[Store::FLOWS..Store::CLAIMS].fill(0);
}

// Rounds over the rows until the rules hold, if they do not.
#[tactic(auto, using(crate::proofs::Settling::settled, crate::proofs::Settling::no_row_fails))]
fn settle_rest(store: &mut [u8], rows: u8, names: &[u8])
    requires ready { Ready rows store.old }
    requires names { Names (store_program rows store.old) names.now }
    ensures { Settles rows store.old store.new }
{
    if failing_row(store, rows).is_some() {
        settle(store, rows, names);
    }
}

// Puts the smallest tables of a store's program in the place of its sets. What is spread is only what the rules ask, but need not be all of it.
#[tactic(auto, using(spreading::proofs::Growing::program_reset, spreading::proofs::Growing::ready_reset, spreading::proofs::Growing::still_ready, crate::proofs::Settling::settles_grown, crate::proofs::Settling::least_left))]
pub fn smallest_sets(store: &mut [u8], rows: u8)
    requires { Ready rows store.old }
    ensures { Least rows store.old store.new }
{
    let names = asks::result_names(store, rows);
    clear_sets(store);
    spread(store, rows, &names);
    settle_rest(store, rows, &names);
}
