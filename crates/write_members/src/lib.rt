// A set, written at a position. It has a byte for each member, which is not 0 where the member is in the set: unit is member 0, and row r is r + 1.
#![tactic(auto)]

ghost use Rattle.std.proofs.Math.Bool.{So};
ghost use Rattle.std.specs.Prelude.{◌≡◌, ◌<◌, ◌≤◌, length};
ghost use Rattle.format.specs.Text.{byte_at};
ghost use Rattle.format.specs.Print.{member_text, set_text};
ghost use Rattle.format.specs.Read.{present};
ghost use Rattle.calls.specs.Layout.{members_from};
ghost use Rattle.write_bytes.specs.Write.{Room, Wrote};
ghost use Rattle.write_members.specs.Passing.{Passes};

use set_counts::has_member;

// Writes a member: `u`, or the row's number.
#[tactic(auto, unfolding(format::specs::Print::member_text, format::specs::Text::ascii))]
fn put_member(out: &mut [u8], at: usize, m: usize) -> usize
    requires m_bound { m ≤ 65536 }
    requires room { Room out.old at (member_text m) }
    ensures { Wrote out.old at (member_text m) result out.new }
{
    if m == 0 {
        return write_text::put_byte(out, at, b'u');
    }
    let row = (m - 1) as u16;
    write_text::put_number(out, at, row)
}

// How many bytes are passed over from byte m on, which is 0: sixteen where it begins a block of sixteen that are 0, else one.
#[tactic(auto, using(crate::proofs::Members::passes_one, crate::proofs::Members::passes_block))]
fn passed(flags: &[u8], m: usize) -> usize
    requires m_in_bounds { (m < length flags.now) × (byte_at flags.now m ≡ 0) }
    requires flags_len_bound { length flags.now ≤ 65536 }
    ensures { Passes flags.now m result }
{
    let end = m + 16;
    if m % 16 == 0 && end <= flags.len() && !has_member(&flags[m..end]) {
        16
    } else {
        1
    }
}

// Writes a set that has a member. Blocks of sixteen bytes that are 0 are passed over at once.
pub fn put_set(out: &mut [u8], at: usize, flags: &[u8]) -> usize
    requires flags_len_bound { length flags.now ≤ 65536 }
    requires so { So (present (members_from 0 flags.now)) }
    requires room { Room out.old at (set_text (members_from 0 flags.now)) }
    ensures { Wrote out.old at (set_text (members_from 0 flags.now)) result out.new }
{
    let mut next = at;
    let mut sep = b'[';
    let mut m = 0;
    // A step passes over one byte or sixteen, so m is no counter of a `for`.
    while m < flags.len() {
        if flags[m] == 0 {
            let k = passed(flags, m);
            m += k;
            continue;
        }
        let p = write_text::put_byte(out, next, sep);
        next = put_member(out, p, m);
        sep = b' ';
        m += 1;
    }
    write_text::put_byte(out, next, b']')
}
