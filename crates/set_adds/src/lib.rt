// Sets of a store that are added to: a set joined to another, a member put in.
#![tactic(auto)]

ghost use Rattle.std.specs.Prelude.{◌≡◌, ℕ, ◌+◌, ◌<◌, ◌≤◌, length};
ghost use Rattle.format.specs.Limits.{row_limit};
ghost use Rattle.format.specs.Text.{byte_at};
ghost use Rattle.calls.specs.Layout.{member_limit, store_size};
ghost use Rattle.inference.specs.Inference.{abstract_of};
ghost use Rattle.program.specs.Flow.{lies};
ghost use Rattle.store.specs.Rows.{store_program};
ghost use Rattle.sets.specs.Sets.{set_of};
ghost use Rattle.set_adds.specs.Adding.{set_at, position_of, number_of, joined, Copied, Joined, Adds};

use sets::unless_in;
use store::Store;

// The set of a name or of a channel row. A struct of a table and a number would say the same in more words at each call.
#[derive(Clone, Copy, PartialEq, Eq)]
pub enum Variable {
    Name(u8),
    Channel(u8),
}

impl Variable {
    // Where the set stands in a store.
    #[tactic(auto, unfolding(crate::specs::Adding::position_of))]
    fn position(self) -> usize
        requires { number_of self < row_limit }
        ensures { result ≡ position_of self }
    {
        match self {
            Variable::Name(n) => Store::FLOWS + n as usize * Store::MEMBERS,
            Variable::Channel(c) => Store::COMMS + c as usize * Store::MEMBERS,
        }
    }
}

// A member's byte with that of another set joined to it.
#[tactic(auto, unfolding(crate::specs::Adding::joined))]
fn join(own: u8, other: u8) -> u8
    ensures { result ≡ joined own other }
{
    if own == 0 { other } else { own }
}

// The first members of the set at a position. It is read from this copy while the store is written, so that the loop takes many bytes at a time.
fn copy_set(store: &[u8], at: usize, members: usize) -> [u8; Store::MEMBERS]
    requires { (members ≤ member_limit) × (at + members ≤ length store.now) }
    ensures { Copied at members store.now result }
{
    let mut set = [0u8; Store::MEMBERS];
    set[..members].copy_from_slice(&store[at..at + members]);
    set
}

// Joins the first members of a set to those at a position. Whether there was any that was not there; every member is looked at, so that the loop has no way out but its end.
fn join_set(store: &mut [u8], at: usize, members: usize, set: &[u8]) -> bool
    requires { (members ≤ length set.now) × (at + members ≤ length store.old) }
    ensures { Joined at members set.now store.old store.new result }
{
    let mut more = 0;
    for i in 0..members {
        let own = store[at + i];
        let other = set[i];
        more = more.max(unless_in(other, own));
        store[at + i] = join(own, other);
    }
    0 < more
}

// Adds a set to another, as far as the program's rows go.
#[tactic(auto, using(crate::proofs::Variables::before_claims))]
pub fn add_set(store: &mut [u8], rows: u8, from: Variable, to: Variable) -> bool
    requires store_size_in_bounds { (store_size ≤ length store.old) × (rows ≤ row_limit) }
    requires from_bound { (number_of from < row_limit) × (number_of to < row_limit) }
    ensures { Adds (λ flow comm. lies (store_program rows store.old) (set_at from flow comm) (set_at to flow comm)) store.old store.new result }
{
    let members = rows as usize + 1;
    let set = copy_set(store, from.position(), members);
    join_set(store, to.position(), members, &set)
}

// Adds the members of a set of bytes to the set of a name, as far as the program's rows go.
pub fn add_members(store: &mut [u8], rows: u8, n: u8, set: &[u8]) -> bool
    requires store_size_in_bounds { (store_size ≤ length store.old) × (rows ≤ row_limit) × (n < row_limit) }
    requires member_limit_in_bounds { (member_limit ≤ length set.now) × ((i : ℕ) → byte_at set.now i < 2) }
    ensures { let bytes = store.old in Adds (λ flow comm. lies (store_program rows bytes) (set_of set.now) (flow n)) bytes store.new result }
{
    join_set(store, Variable::Name(n).position(), rows as usize + 1, set)
}

// Puts a member into the set of a name.
#[tactic(auto, using(crate::proofs::Adding::put_there))]
pub fn put_member(store: &mut [u8], n: u8, member: usize) -> bool
    requires { (store_size ≤ length store.old) × (n < row_limit) × (member < member_limit) }
    ensures { Adds (λ flow comm. flow n (abstract_of member)) store.old store.new result }
{
    let at = Store::FLOWS + n as usize * Store::MEMBERS + member;
    let missing = store[at] == 0;
    if missing {
        store[at] = 1;
    }
    missing
}
