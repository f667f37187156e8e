// For replace and preview: whether a set may be put in the place of a name's, and putting it there.
#![tactic(auto)]

ghost use Rattle.std.specs.Prelude.{◌≡◌, ◌<◌, ◌≤◌, length, take, drop, replicate};
ghost use Rattle.std.proofs.lemmas.List.Edits.{sets};
ghost use Rattle.format.specs.Limits.{row_limit};
ghost use Rattle.calls.specs.Layout.{member_limit, store_size, flow_at};
ghost use Rattle.replacing.specs.Replacing.{ReplaceableIs};

use format::{Reason, Refusal};
use store::Store;

// 20 to 22 of a store, 32 of a name, 33 of a set that is handed over. Where there is none of them, marks the set and answers how many rows the store has.
pub fn replaceable(
    store: &[u8],
    name: usize,
    unit: bool,
    list: &[u8],
    set: &mut [u8],
) -> Result<u8, Refusal>
    requires { set.old ≡ replicate member_limit 0 }
    ensures { ReplaceableIs store.now name unit list.now set.new result }
{
    let rows = opening::open(store)?;
    let fixed = &store[..Store::SIZE];
    let marks = binders::bound(fixed, rows);
    if read_text::byte_at(&marks, name) == 0 {
        return Err(Reason::NotBound.at(0));
    }
    let members = allowed_lines::allowed_members(fixed, rows);
    if handed_sets::mark_members(unit, list, &members, set) {
        return Ok(rows);
    }
    Err(Reason::SetNotAllowed.at(0))
}

// Puts a set in the place of a name's, which is then in the set's place.
pub fn swap_flow(store: &mut [u8], name: usize, set: &mut [u8])
    requires { (name < row_limit) × (store_size ≤ length store.old) × (length set.old ≡ member_limit) }
    ensures store_after { store.new ≡ sets store.old (flow_at name) set.old }
    ensures set_after { set.new ≡ take member_limit (drop (flow_at name) store.old) }
{
    let at = Store::FLOWS + name * Store::MEMBERS;
    handed_sets::swap_set(store, at, set);
}
