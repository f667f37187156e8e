// A file loaded into a store that is long enough: refusals 1 to 9, or its counts.
#![tactic(auto)]

ghost use Rattle.std.specs.Prelude.{◌≤◌, length};
ghost use Rattle.format.specs.Limits.{row_limit};
ghost use Rattle.format.specs.Refusals.{refused};
ghost use Rattle.format.specs.Check.{check};
ghost use Rattle.calls.specs.Layout.{store_size};
ghost use Rattle.calls.specs.Calls.{Leaves, loaded};
ghost use Rattle.load_file.specs.Finish.{Finishes};

use calls::{Counts, LoadAnswer};
use format::{Reason, Refusal};
use progress::Progress;
use store::Store;

// A refusal leaves the store empty.
fn refuse(store: &mut [u8], refusal: Refusal) -> LoadAnswer
    requires { store_size ≤ length store.old }
    ensures { Leaves (loaded store.old (refused refusal)) result store.new }
{
    store::clear(store);
    Err(refusal)
}

// Refusals 6 to 9 of a store that holds the lines of a file, or its counts.
fn finish(store: &mut [u8], p: Progress) -> LoadAnswer
    requires store_size_in_bounds { store_size ≤ length store.old }
    requires rows_le_row_limit { p.rows ≤ row_limit }
    ensures { Finishes p store.old result store.new }
{
    let rows = p.rows as u8;
    match structure::structure_fault(store, rows) {
        Err(refusal) => refuse(store, refusal),
        Ok(()) => Ok(Counts {
            rows: p.rows,
            flows: p.flows,
            comms: p.comms,
            claims: p.claims,
        }),
    }
}

// Refusals 1 to 9 of a file, which is read into the store, or its counts.
pub fn load_file(file: &[u8], store: &mut [u8]) -> LoadAnswer
    requires { store_size ≤ length store.old }
    ensures { Leaves (loaded store.old (check file.now)) result store.new }
{
    if Store::FILE_BYTES < file.len() {
        return refuse(store, Reason::TooLong.at(0));
    }
    store::clear(store);
    match load_lines::load_lines(file, store) {
        Err(refusal) => refuse(store, refusal),
        Ok(p) => finish(store, p),
    }
}
