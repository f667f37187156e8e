// Refusal 7: the smallest row with a name bound earlier; and the names that are bound.
#![tactic(auto)]

ghost use Rattle.std.specs.Prelude.{◌≡◌, [], None};
ghost use Rattle.program.specs.Test.{least};
ghost use Rattle.program.specs.Each.{collect};
ghost use Rattle.program.specs.Program.{binders};
ghost use Rattle.format.specs.Structure.{binder_fault};
ghost use Rattle.store.specs.Rows.{store_program};
ghost use Rattle.seen.specs.Seen.{Marks};

use row_numbers::binders_of;
use seen::{NUMBERS, see_few};
use stored_rows::row_at;

// The names that the first rows bind.
#[tactic(auto, using(seen::proofs::Smallest::marks_first, seen::proofs::Smallest::marks_row))]
pub fn bound(store: &[u8], rows: u8) -> [u8; NUMBERS]
    ensures { Marks (collect binders (store_program rows store.now)) result }
{
    let mut marks = [0; NUMBERS];
    for r in 0..rows {
        see_few(&mut marks, binders_of(row_at(store, r)).numbers());
    }
    marks
}

// The smallest row with a name that is bound earlier. Where there is none, the names that the rows bind are then marked.
#[tactic(auto, using(seen::proofs::Smallest::no_row, seen::proofs::Smallest::marks_row, crate::proofs::Faults::binder_row), unfolding(program::specs::Each::collect, store::specs::Rows::store_program, calls::specs::Layout::counting))]
pub fn binder_fault(store: &[u8], rows: u8, marks: &mut [u8; NUMBERS]) -> Option<u8>
    requires { Marks [] marks.old }
    ensures fault { result ≡ least rows (binder_fault (store_program rows store.now)) }
    ensures names { result ≡ None → Marks (collect binders (store_program rows store.now)) marks.new }
{
    for r in 0..rows {
        if see_few(marks, binders_of(row_at(store, r)).numbers()) {
            return Some(r);
        }
    }
    None
}
