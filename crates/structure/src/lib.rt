// The structure of a program in a store: the rows that its rows point at, the names that they bind, and what its sets and claims may name.
#![tactic(auto)]

ghost use Rattle.std.specs.Prelude.{◌≡◌, [], ◌≤◌, length, Ok};
ghost use Rattle.std.specs.Result.{result_err};
ghost use Rattle.program.specs.Each.{collect};
ghost use Rattle.program.specs.Program.{binders};
ghost use Rattle.format.specs.Limits.{row_limit};
ghost use Rattle.calls.specs.Layout.{store_size};
ghost use Rattle.format.specs.Structure.{structure_fault};
ghost use Rattle.store.specs.Document.{store_document};
ghost use Rattle.store.specs.Rows.{store_program};
ghost use Rattle.seen.specs.Seen.{Marks};
ghost use Rattle.structure.specs.Answer.{tree_fault};

use format::{Reason, Refusal};
use seen::NUMBERS;

// The first refusal of 6, 7 and 8 of a store with this many rows. Where there is none, the names that the rows bind are then marked.
#[tactic(auto, using(crate::proofs::Refusing::pointer_refused, crate::proofs::Refusing::binder_refused, crate::proofs::Refusing::scope_refused, crate::proofs::Refusing::tree_sound))]
pub fn tree_fault(store: &[u8], rows: u8, names: &mut [u8; NUMBERS]) -> Result<(), Refusal>
    requires rows_le_row_limit { rows ≤ row_limit }
    requires marks { Marks [] names.old }
    ensures fault { result_err result ≡ tree_fault (store_program rows store.now) }
    ensures names { result ≡ Ok tt → Marks (collect binders (store_program rows store.now)) names.new }
{
    if let Some(r) = pointers::pointer_fault(store, rows) {
        return Err(Reason::WrongPointer.at_row(r));
    }
    if let Some(r) = binders::binder_fault(store, rows, names) {
        return Err(Reason::BoundTwice.at_row(r));
    }
    if let Some(r) = scope::scope_fault(store, rows) {
        return Err(Reason::OutOfScope.at_row(r));
    }
    Ok(())
}

// The first refusal of 6, 7, 8 and 9 of a store with this many rows. The sets go line by line only where a line may be wrong.
#[tactic(auto, using(crate::proofs::Refusing::tree_refused, crate::proofs::Refusing::lines_pass, crate::proofs::Refusing::line_refused, crate::proofs::Refusing::none_refused))]
pub fn structure_fault(store: &[u8], rows: u8) -> Result<(), Refusal>
    requires rows_le_row_limit { rows ≤ row_limit }
    requires store_size_in_bounds { store_size ≤ length store.now }
    ensures { result_err result ≡ structure_fault (store_document rows store.now) }
{
    let mut names = [0; NUMBERS];
    tree_fault(store, rows, &mut names)?;
    if sound_lines::lines_sound(store, rows, &names) {
        return Ok(());
    }
    if let Some(line) = allowed::not_allowed(store, rows, &names) {
        return Err(Reason::NotAllowed.at(line));
    }
    Ok(())
}
