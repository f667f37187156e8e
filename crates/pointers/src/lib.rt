// Refusal 6: the smallest row with a wrong pointer.
#![tactic(auto)]

ghost use Rattle.std.specs.Prelude.{◌≡◌, true, not, ◌&&◌, None, List, ℕ, ltb};
ghost use Rattle.program.specs.Test.{least};
ghost use Rattle.program.specs.Each.{collect, elem};
ghost use Rattle.program.specs.Program.{pointers};
ghost use Rattle.format.specs.Structure.{pointer_fault};
ghost use Rattle.store.specs.Rows.{store_program};
ghost use Rattle.seen.specs.Seen.{Marks};
ghost use Rattle.pointers.specs.Strays.{stray, strays};

use row_numbers::pointers_of;
use seen::{NUMBERS, see_few};
use stored_rows::row_at;

// Whether row r may not point at row t: it is absent or not greater.
fn is_stray(rows: u8, r: u8, t: u8) -> bool
    ensures { result ≡ stray rows r t }
{
    t <= r || rows <= t
}

// Whether row r may not point at one of these rows.
#[tactic(auto, using(crate::proofs::Faults::strays_none, crate::proofs::Faults::strays_more))]
fn has_stray(rows: u8, r: u8, targets: &[u8]) -> bool
    ensures { result ≡ strays rows r targets.now }
{
    let mut stray = false;
    for &t in targets {
        stray |= is_stray(rows, r, t);
    }
    stray
}

// The rows that the first rows point at.
#[tactic(auto, using(seen::proofs::Smallest::marks_first, seen::proofs::Smallest::marks_row))]
fn pointed(store: &[u8], rows: u8) -> [u8; NUMBERS]
    ensures { Marks (collect pointers (store_program rows store.now)) result }
{
    let mut marks = [0; NUMBERS];
    for r in 0..rows {
        see_few(&mut marks, pointers_of(row_at(store, r)).numbers());
    }
    marks
}

// Whether row r, which is not row 0, is not among the rows that are pointed at.
fn is_lost(marks: &[u8; NUMBERS], r: u8) -> bool
    ensures { (xs : List ℕ) → Marks xs marks.now → result ≡ (ltb 0 r && not (elem r xs)) }
{
    r != 0 && marks[r as usize] == 0
}

// Whether each row points only at later rows that are there, none of them twice, and each but row 0 is pointed at from an earlier row.
#[tactic(auto, using(seen::proofs::Smallest::marks_first, seen::proofs::Smallest::marks_row, seen::proofs::Smallest::no_row, crate::proofs::Faults::row_in_order))]
fn in_order(store: &[u8], rows: u8) -> bool
    ensures { result ≡ true → least rows (pointer_fault (store_program rows store.now)) ≡ None }
{
    let mut marks = [0; NUMBERS];
    for r in 0..rows {
        let lost = is_lost(&marks, r);
        let few = pointers_of(row_at(store, r));
        let targets = few.numbers();
        let again = see_few(&mut marks, targets);
        if again | has_stray(rows, r, targets) | lost {
            return false;
        }
    }
    true
}

// The smallest row with a pointer to a row that is absent, not greater or pointed at earlier, or that no row points at.
#[tactic(auto, using(seen::proofs::Smallest::marks_first, seen::proofs::Smallest::marks_row, seen::proofs::Smallest::first_row, seen::proofs::Smallest::no_row, crate::proofs::Faults::row_amiss, crate::proofs::Faults::pointer_row))]
fn first_wrong(store: &[u8], rows: u8) -> Option<u8>
    ensures { result ≡ least rows (pointer_fault (store_program rows store.now)) }
{
    let all = pointed(store, rows);
    let mut marks = [0; NUMBERS];
    for r in 0..rows {
        let few = pointers_of(row_at(store, r));
        let targets = few.numbers();
        let again = see_few(&mut marks, targets);
        if again | has_stray(rows, r, targets) | is_lost(&all, r) {
            return Some(r);
        }
    }
    None
}

// The same, by one look at each row where all are in order.
pub fn pointer_fault(store: &[u8], rows: u8) -> Option<u8>
    ensures { result ≡ least rows (pointer_fault (store_program rows store.now)) }
{
    if in_order(store, rows) {
        return None;
    }
    first_wrong(store, rows)
}
