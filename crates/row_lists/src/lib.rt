// Lists of rows, and the rows of a kind as a list.
#![tactic(auto)]

ghost use Rattle.std.specs.Prelude.{◌≡◌, ◌<◌, ◌≤◌, [], ◌∷◌, ◌++◌, length};
ghost use Rattle.format.specs.Limits.{row_limit};
ghost use Rattle.row_lists.specs.Lists.{Lists, of_kind};
ghost use Rattle.row_lists.specs.Kinds.{code_of};

use std::marker::Model;
use store::Store;

// A list of rows, with room for all rows of a store.
#[derive(Drop)]
pub struct RowList {
    rows: [u8; Store::ROWS],
    len: u8,
}

// Clauses see the rows that are in the list.
impl Model for RowList {
    ghost use Rattle.std.specs.Prelude.{ℕ, ◌≤◌, List, take};
    ghost use Rattle.format.specs.Limits.{row_limit};

    ghost Value = { List ℕ };

    ghost view = { λ l. take l.len l.rows };

    ghost invariant = { λ l. l.len ≤ row_limit };
}

impl RowList {
    pub fn new() -> Self
        ensures { result ≡ [] }
    {
        RowList {
            rows: [0; Store::ROWS],
            len: 0,
        }
    }

    // Puts a row at the end.
    pub fn push(&mut self, r: u8)
        requires { length self.old < row_limit }
        ensures { self.new ≡ self.old ++ r ∷ [] }
    {
        self.rows[self.len as usize] = r;
        self.len += 1;
    }

    pub fn rows(&self) -> &[u8]
        ensures { result.now ≡ self.now }
    {
        let rows = &self.rows[..];
        &rows[..self.len as usize]
    }
}

// The kinds that are listed, as they stand in a store.
#[derive(Clone, Copy, PartialEq, Eq)]
pub enum Kind {
    Chan = 3,
    Send = 4,
    Recv = 5,
    Spawn = 10,
    Sync = 11,
}

// The rows of a kind, rising, by its code: any code, since a `Kind` would ask more of a caller.
#[tactic(auto, using(crate::proofs::Listing::has_none, crate::proofs::Listing::lists_done, crate::proofs::OfKind::below_none))]
pub fn rows_of_kind(store: &[u8], rows: u8, kind: u8) -> RowList
    requires { rows ≤ row_limit }
    ensures { Lists rows (of_kind store.now kind) result }
{
    let mut list = RowList::new();
    for r in 0..rows {
        let at = r as usize * Store::ROW_SIZE;
        if read_text::byte_at(store, at) == kind {
            list.push(r);
        }
    }
    list
}

impl Kind {
    // The rows of the kind, rising.
    pub fn listed(self, store: &[u8], rows: u8) -> RowList
        requires { rows ≤ row_limit }
        ensures { Lists rows (of_kind store.now (code_of self)) result }
    {
        rows_of_kind(store, rows, self as u8)
    }
}
