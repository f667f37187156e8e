// What a sync may receive, as one set: the channels of all receives in its set, and what these channels hold.
#![tactic(auto)]

ghost use Rattle.std.specs.Prelude.{ℕ, true, false, ◌≡◌, ◌<◌, ◌≤◌, length};
ghost use Rattle.program.specs.Flow.{Abstract, row, Set};
ghost use Rattle.format.specs.Limits.{row_limit};
ghost use Rattle.calls.specs.Layout.{member_limit};
ghost use Rattle.store.specs.Rows.{store_program};
ghost use Rattle.tables.specs.Tables.{store_flow, store_comm};
ghost use Rattle.sets.specs.Sets.{Sized, set_of};
ghost use Rattle.received.specs.Received.{Takes, Gathered, Gives, Free, hears, gives};

use forms::form_at;
use program::Form;
use sets::{comm_set, flow_set};
use store::Store;
use tables::flow_has;

// Joins a set to another, as bytes of 0 and 1.
#[tactic(auto, using(crate::proofs::Gathering::takes_short, crate::proofs::Gathering::taken_all))]
fn join(set: &mut [u8], other: &[u8])
    requires { member_limit ≤ length set.old }
    ensures { Takes (set_of other.now) set.old set.new }
{
    if other.len() < Store::MEMBERS {
        return;
    }
    for i in 0..Store::MEMBERS {
        let new = other[i].min(1);
        set[i] = set[i].max(new);
    }
}

// So many rows are passed over at once where none of them is in a set.
const BLOCK: u8 = 16;

// Whether a block begins at row k and none of its rows is in a set. Every row is looked at, so that the loop has no way out but its end.
#[tactic(auto, using(crate::proofs::Gathering::free_none))]
fn block_free(set: &[u8], k: u8) -> bool
    requires { k < row_limit }
    ensures { result ≡ true → Free set.now k 16 }
{
    if k % BLOCK != 0 {
        return false;
    }
    let from = k as usize + 1;
    let rows = BLOCK as usize;
    if set.len() < from + rows {
        return false;
    }
    let mut found = 0;
    for i in 0..rows {
        found = found.max(set[from + i]);
    }
    found == 0
}

// The sets that some rows give, joined. Each of these rows is in the set `among`; `given` is asked what a row gives, if anything.
#[tactic(auto, unfolding(crate::specs::Received::Gives))]
fn gather<'a, F: Fn(u8) -> Option<&'a [u8]>>(
    rows: u8,
    among: &[u8],
    given: F,
) -> [u8; Store::MEMBERS]
    requires few { rows ≤ row_limit }
    requires callable { F.IsAlwaysCallable given }
    ensures { (f : ℕ → Set) → ((k : ℕ) → set_of among.now (row k) ≡ false → (a : Abstract) → f k a ≡ false) → ((k : ℕ) (o : _) → k < rows → F.post given k o → Gives (f k) o) → Gathered rows f result }
{
    let mut set = [0u8; Store::MEMBERS];
    let mut k = 0;
    // Not a count: a step is one row or a block of them.
    while k < rows {
        if block_free(among, k) {
            k = (k + BLOCK).min(rows);
        } else {
            if let Some(other) = given(k) {
                join(&mut set, other);
            }
            k += 1;
        }
    }
    set
}

// The set of row k's channel, if it is a recv row in the set of name e.
#[tactic(auto, using(crate::proofs::Receiving::hears_none, crate::proofs::Receiving::hears_recv, crate::proofs::Receiving::hears_other, forms::proofs::Forms::lacks_recv), unfolding(crate::specs::Received::Gives))]
fn heard_at(store: &[u8], rows: u8, e: u8, k: u8) -> Option<&[u8]>
    requires { Sized rows store.now }
    ensures { let bytes = store.now in Gives (hears (store_program rows bytes) (store_flow bytes) e k) result }
{
    if !flow_has(store, e, k) {
        return None;
    }
    let Form::Recv { channel } = form_at(store, rows, k) else {
        return None;
    };
    Some(flow_set(store, channel))
}

// The channels of all receives in the set of name e.
pub fn heard(store: &[u8], rows: u8, e: u8) -> [u8; Store::MEMBERS]
    requires { Sized rows store.now }
    ensures { let bytes = store.now in Gathered rows (hears (store_program rows bytes) (store_flow bytes) e) result }
{
    gather(rows, flow_set(store, e), |k| heard_at(store, rows, e, k))
}

// The set of row k, if it is a chan row among the channels.
#[tactic(auto, using(crate::proofs::Receiving::gives_none, crate::proofs::Receiving::gives_chan, crate::proofs::Receiving::gives_other, crate::proofs::Receiving::among), unfolding(crate::specs::Received::Gives))]
fn held_at<'a>(store: &'a [u8], rows: u8, channels: &[u8], k: u8) -> Option<&'a [u8]>
    requires sized { Sized rows store.now }
    requires member_limit_in_bounds { member_limit ≤ length channels.now }
    ensures { let bytes = store.now in Gives (gives (store_program rows bytes) (store_comm bytes) (set_of channels.now) k) result }
{
    if read_text::byte_at(channels, k as usize + 1) == 0 {
        return None;
    }
    let Form::Chan = form_at(store, rows, k) else {
        return None;
    };
    Some(comm_set(store, k))
}

// What the channels hold, of a set of rows.
pub fn held(store: &[u8], rows: u8, channels: &[u8]) -> [u8; Store::MEMBERS]
    requires sized { Sized rows store.now }
    requires member_limit_in_bounds { member_limit ≤ length channels.now }
    ensures { let bytes = store.now in Gathered rows (gives (store_program rows bytes) (store_comm bytes) (set_of channels.now)) result }
{
    gather(rows, channels, |k| held_at(store, rows, channels, k))
}
