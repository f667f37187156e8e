// A set that is handed over as a yes or no for unit and a list of rows: marked in bytes as a store has its sets, and put in the place of one.
#![tactic(auto)]

ghost use Rattle.std.specs.Prelude.{◌≡◌, ◌+◌, ◌≤◌, length, take, drop, replicate};
ghost use Rattle.std.proofs.lemmas.List.Edits.{sets};
ghost use Rattle.calls.specs.Layout.{member_limit};
ghost use Rattle.handed_sets.specs.Handed.{Marked};

use read_text::byte_at;

// Marks unit and the rows of a list, where the list rises and has no row but of allowed members; else tells that it is no set.
#[tactic(auto, using(crate::proofs::Marking::is_not_allowed, crate::proofs::Marking::a_set))]
pub fn mark_members(unit: bool, list: &[u8], allowed: &[u8], set: &mut [u8]) -> bool
    requires { (set.old ≡ replicate member_limit 0) × (length allowed.now ≤ member_limit) }
    ensures { Marked unit list.now allowed.now result set.new }
{
    if unit {
        set[0] = 1;
    }
    let mut least = 0;
    for &row in list {
        let r = row as usize;
        let m = r + 1;
        if r < least {
            return false;
        }
        if byte_at(allowed, m) == 0 {
            return false;
        }
        set[m] = 1;
        least = m;
    }
    true
}

// Puts the bytes of a set in the place of those at a position, which are then in the set's place: done once more, it undoes itself.
pub fn swap_set(store: &mut [u8], at: usize, set: &mut [u8])
    requires { at + length set.old ≤ length store.old }
    ensures store_after { store.new ≡ sets store.old at set.old }
    ensures set_after { set.new ≡ take (length set.old) (drop at store.old) }
{
    store[at..at + set.len()].swap_with_slice(set);
}
