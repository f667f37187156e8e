// Whether a set has a member, and how many sets have one. A set has a byte for each member, which is not 0 where the member is in the set: unit is member 0, and row r is r + 1.
#![tactic(auto)]

ghost use Rattle.std.specs.Prelude.{◌≡◌, ◌≤◌, length};
ghost use Rattle.format.specs.Limits.{row_limit};
ghost use Rattle.format.specs.Read.{present};
ghost use Rattle.calls.specs.Layout.{sets_size, members_from, decode_sets};

use store::Store;

// Whether a set has a member. Every byte is looked at, so that the loop takes many at a time.
#[tactic(auto, using(crate::proofs::Members::found_start, crate::proofs::Members::found_more, crate::proofs::Members::found_end))]
pub fn has_member(flags: &[u8]) -> bool
    ensures { result ≡ present (members_from 0 flags.now) }
{
    let mut most = 0;
    for &b in flags {
        most = most.max(b);
    }
    0 < most
}

// How many of these sets have a member, and so a line.
pub fn count_sets(sets: &[u8]) -> usize
    requires { sets_size ≤ length sets.now }
    ensures { result ≡ length (decode_sets row_limit 0 sets.now) }
{
    let mut lines = 0;
    for k in 0..Store::ROWS {
        let start = k * Store::MEMBERS;
        let end = start + Store::MEMBERS;
        if has_member(&sets[start..end]) {
            lines += 1;
        }
    }
    lines
}
