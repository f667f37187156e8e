// The lines of sets, written at a position. A set has a byte for each member, which is not 0 where the member is in the set. The count of the lines is passed on.
#![tactic(auto)]

ghost use Rattle.std.specs.Prelude.{[], ◌≤◌, length};
ghost use Rattle.program.specs.Each.{collect};
ghost use Rattle.format.specs.Limits.{row_limit};
ghost use Rattle.calls.specs.Layout.{sets_size, members_from, with_entry, decode_sets};
ghost use Rattle.write_bytes.specs.Write.{Room, Wrote};
ghost use Rattle.write_sets.specs.Texts.{entry_text};
ghost use Rattle.write_sets.specs.Keys.{Keyed};

pub use set_counts::count_sets;
use set_counts::has_member;
use store::Store;
use write_members::put_set;

// Writes the line of a set, or nothing where the set is empty.
fn put_set_line(out: &mut [u8], at: usize, word: &[u8], n: u16, flags: &[u8]) -> usize
    requires flags_len_bound { length flags.now ≤ 65536 }
    requires room { Room out.old at (collect (entry_text word.now) (with_entry n (members_from 0 flags.now) [])) }
    ensures { Wrote out.old at (collect (entry_text word.now) (with_entry n (members_from 0 flags.now) [])) result out.new }
{
    if !has_member(flags) {
        return at;
    }
    let p = write_text::put_head(out, at, word, n);
    let q = put_set(out, p, flags);
    write_text::put_word(out, q, b"]\n")
}

// Writes the lines of the sets of all names or channels; their bytes stand at the head of a slice. Only the sets of marked keys are looked at.
pub fn put_sets(out: &mut [u8], at: usize, word: &[u8], sets: &[u8], keys: &[u8]) -> usize
    requires sets_size_in_bounds { sets_size ≤ length sets.now }
    requires keyed { Keyed keys.now sets.now }
    requires room { Room out.old at (collect (entry_text word.now) (decode_sets row_limit 0 sets.now)) }
    ensures { Wrote out.old at (collect (entry_text word.now) (decode_sets row_limit 0 sets.now)) result out.new }
{
    let mut next = at;
    for n in 0..Store::ROWS {
        if keys[n] == 0 {
            continue;
        }
        let from = n * Store::MEMBERS;
        let to = from + Store::MEMBERS;
        next = put_set_line(out, next, word, n as u16, &sets[from..to]);
    }
    next
}
