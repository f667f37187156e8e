// The sets of a store: whether a member is in the set of a name or of a channel row.
#![tactic(auto)]

ghost use Rattle.std.specs.Prelude.{◌≡◌};
ghost use Rattle.program.specs.Flow.{row};
ghost use Rattle.tables.specs.Tables.{flow_flag, comm_flag, store_flow};
ghost use Rattle.tables.specs.Starts.{flag};

use store::Store;

// The two tables of sets in a store: those of the names and those of the channel rows.
#[derive(Clone, Copy, PartialEq, Eq)]
pub enum Table {
    Flow,
    Comm,
}

impl Table {
    ghost use Rattle.std.specs.Prelude.{◌≡◌, ◌≤◌};
    ghost use Rattle.calls.specs.Layout.{comms_start};
    ghost use Rattle.tables.specs.Starts.{start};

    // Where its sets begin.
    #[tactic(auto, unfolding(crate::specs::Starts::start))]
    pub fn start(self) -> usize
        ensures is { result ≡ start self }
        ensures low { result ≤ comms_start }
    {
        match self {
            Table::Flow => Store::FLOWS,
            Table::Comm => Store::COMMS,
        }
    }
}

// The byte of a member in set n of a table: 1 or 0 in a sound store; 0 where there is no such set or member.
#[tactic(auto, unfolding(crate::specs::Starts::flag, crate::specs::Tables::flag_at))]
fn flag(store: &[u8], table: Table, n: u8, member: u8) -> u8
    ensures { result ≡ flag store.now table n member }
{
    let set = n as usize;
    let m = member as usize;
    if Store::ROWS <= set || Store::MEMBERS <= m {
        return 0;
    }
    read_text::byte_at(store, table.start() + set * Store::MEMBERS + m)
}

// The byte of a member in the set of name n: 1 or 0 in a sound store; 0 where there is no such name or member.
#[tactic(auto, unfolding(crate::specs::Starts::flag, crate::specs::Starts::start, crate::specs::Tables::flow_flag))]
pub fn flow_flag(store: &[u8], n: u8, member: u8) -> u8
    ensures { result ≡ flow_flag store.now n member }
{
    flag(store, Table::Flow, n, member)
}

// The same of the set of channel row c.
#[tactic(auto, unfolding(crate::specs::Starts::flag, crate::specs::Starts::start, crate::specs::Tables::comm_flag))]
pub fn comm_flag(store: &[u8], c: u8, member: u8) -> u8
    ensures { result ≡ comm_flag store.now c member }
{
    flag(store, Table::Comm, c, member)
}

// Whether row r is in the set of name n.
#[tactic(auto, using(crate::proofs::Tables::row_past, crate::proofs::Tables::row_flag))]
pub fn flow_has(store: &[u8], n: u8, r: u8) -> bool
    ensures { result ≡ store_flow store.now n (row r) }
{
    (r as usize) < Store::ROWS && 0 < flow_flag(store, n, r + 1)
}
