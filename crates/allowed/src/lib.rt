// Refusal 9: the first flow, comm or claim line that names what it may not.
#![tactic(auto)]

ghost use Rattle.std.specs.Prelude.{◌≡◌, ◌≤◌, length};
ghost use Rattle.std.specs.Result.{result_err};
ghost use Rattle.program.specs.Each.{collect};
ghost use Rattle.program.specs.Program.{binders};
ghost use Rattle.format.specs.Limits.{row_limit};
ghost use Rattle.format.specs.Structure.{not_allowed};
ghost use Rattle.calls.specs.Layout.{store_size};
ghost use Rattle.store.specs.Rows.{store_program};
ghost use Rattle.store.specs.Document.{store_document};
ghost use Rattle.seen.specs.Seen.{Marks};

use allowed_lines::{allowed_members, chan_rows, check_claims, check_sets};
use store::Store;

// Checks the flow, comm and claim lines, in this order: the line after the last, or the first line that names what it may not.
fn check_lines(store: &[u8], rows: u8, names: &[u8]) -> Result<usize, usize>
    requires rows_le_row_limit { rows ≤ row_limit }
    requires store_size_in_bounds { store_size ≤ length store.now }
    requires marks { Marks (collect binders (store_program rows store.now)) names.now }
    ensures { result_err result ≡ not_allowed (store_document rows store.now) }
{
    let members = allowed_members(store, rows);
    let chans = chan_rows(store, rows);
    let flows = rows as usize + 2;
    let comms = check_sets(store, Store::FLOWS, flows, names, &members)?;
    let claims = check_sets(store, Store::COMMS, comms, &chans, &members)?;
    check_claims(store, claims, &chans)
}

// The first flow, comm or claim line that names what it may not. The names that the rows bind are marked.
pub fn not_allowed(store: &[u8], rows: u8, names: &[u8]) -> Option<usize>
    requires rows_le_row_limit { rows ≤ row_limit }
    requires store_size_in_bounds { store_size ≤ length store.now }
    requires marks { Marks (collect binders (store_program rows store.now)) names.now }
    ensures { result ≡ not_allowed (store_document rows store.now) }
{
    check_lines(store, rows, names).err()
}
