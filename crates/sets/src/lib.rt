// Sets as bytes, a byte for each member: unit first, then the rows. The sets of a store, and whether one lies in another.
#![tactic(auto)]

ghost use Rattle.std.specs.Prelude.{◌≡◌, ◌≤◌, length};
ghost use Rattle.program.specs.Flow.{lies};
ghost use Rattle.format.specs.Limits.{row_limit};
ghost use Rattle.calls.specs.Layout.{store_size};
ghost use Rattle.store.specs.Rows.{store_program};
ghost use Rattle.tables.specs.Tables.{store_flow, store_comm};
ghost use Rattle.tables.specs.Starts.{start};
ghost use Rattle.sets.specs.Sets.{Sized, set_of, part_at, within, lies_below, unless_in};

use store::Store;
use tables::Table;

// The byte of a member in a set, or 0 where another set has it too.
#[tactic(auto, unfolding(crate::specs::Sets::unless_in))]
pub fn unless_in(a: u8, b: u8) -> u8
    ensures { result ≡ unless_in a b }
{
    if b == 0 { a } else { 0 }
}

// Whether b has each of the first members that a has. Every member is looked at, so that the loop has no way out but its end.
#[tactic(auto, unfolding(crate::specs::Sets::within, program::specs::Test::all))]
fn within(a: &[u8], b: &[u8], members: usize) -> bool
    requires { (members ≤ length a.now) × (members ≤ length b.now) }
    ensures { result ≡ within members a.now b.now }
{
    let mut rest = 0;
    for i in 0..members {
        rest = rest.max(unless_in(a[i], b[i]));
    }
    rest == 0
}

// Whether the first set lies in the second, where a program has so many rows.
#[tactic(auto, using(crate::proofs::Members::lies_short, crate::proofs::Members::within_lies))]
pub fn lies_in(a: &[u8], b: &[u8], rows: u8) -> bool
    requires { rows ≤ row_limit }
    ensures { result ≡ lies_below rows (set_of a.now) (set_of b.now) }
{
    let members = rows as usize + 1;
    if a.len() < Store::MEMBERS {
        return true;
    }
    if b.len() < Store::MEMBERS {
        let none = [0u8; Store::MEMBERS];
        return within(a, &none, members);
    }
    // Of all members first: a sound store has no others, and a loop of a fixed length takes them many at a time to the end.
    within(a, b, Store::MEMBERS) || within(a, b, members)
}

// The bytes of set n of a table; no bytes where there is no such set.
#[tactic(auto, unfolding(crate::specs::Sets::part_at))]
fn set_at(store: &[u8], table: Table, n: u8) -> &[u8]
    requires { store_size ≤ length store.now }
    ensures { result.now ≡ part_at store.now (start table) n }
{
    let k = n as usize;
    if Store::ROWS <= k {
        return &store[0..0];
    }
    let from = table.start() + k * Store::MEMBERS;
    let to = from + Store::MEMBERS;
    &store[from..to]
}

// The set of name n.
#[tactic(auto, using(crate::proofs::Members::flow_part), unfolding(tables::specs::Starts::start))]
pub fn flow_set(store: &[u8], n: u8) -> &[u8]
    requires { store_size ≤ length store.now }
    ensures { set_of result.now ≡ store_flow store.now n }
{
    set_at(store, Table::Flow, n)
}

// The set of channel row c.
#[tactic(auto, using(crate::proofs::Members::comm_part), unfolding(tables::specs::Starts::start))]
pub fn comm_set(store: &[u8], c: u8) -> &[u8]
    requires { store_size ≤ length store.now }
    ensures { set_of result.now ≡ store_comm store.now c }
{
    set_at(store, Table::Comm, c)
}

// Whether the set of name n lies in a set.
#[tactic(auto, using(crate::proofs::Members::lies_at))]
pub fn flow_lies(store: &[u8], rows: u8, n: u8, to: &[u8]) -> bool
    requires { Sized rows store.now }
    ensures { let bytes = store.now in result ≡ lies (store_program rows bytes) (store_flow bytes n) (set_of to.now) }
{
    lies_in(flow_set(store, n), to, rows)
}

// Whether the set of channel row c lies in a set.
#[tactic(auto, using(crate::proofs::Members::lies_at))]
pub fn comm_lies(store: &[u8], rows: u8, c: u8, to: &[u8]) -> bool
    requires { Sized rows store.now }
    ensures { let bytes = store.now in result ≡ lies (store_program rows bytes) (store_comm bytes c) (set_of to.now) }
{
    lies_in(comm_set(store, c), to, rows)
}

// Whether a set lies in the set of channel row c.
#[tactic(auto, using(crate::proofs::Members::lies_at))]
pub fn lies_in_comm(store: &[u8], rows: u8, from: &[u8], c: u8) -> bool
    requires { Sized rows store.now }
    ensures { let bytes = store.now in result ≡ lies (store_program rows bytes) (set_of from.now) (store_comm bytes c) }
{
    lies_in(from, comm_set(store, c), rows)
}
