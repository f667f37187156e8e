// Sets, read from a slice at a position: their members are marked in bytes of 0 and 1, and their fault is told.
#![tactic(auto)]

ghost use Rattle.std.specs.Prelude.{◌≡◌, length, set};
ghost use Rattle.format.specs.Read.{read_members, read_set};
ghost use Rattle.read_sets.specs.Sets.{set_fault, fault_after, fault_from, SetIs};

use read_numbers::read_number;
use read_text::{expect, read_argument};
use store::Store;

// What is wrong with a set: a row is above the limit (3), or else its members do not rise (5).
#[derive(Clone, Copy, PartialEq, Eq)]
pub enum SetFault {
    AboveLimit,
    NotRising,
}

// Marks a member, where there is a byte for it.
fn mark(flags: &mut [u8], m: usize)
    ensures { flags.new ≡ set flags.old m 1 }
{
    if m < flags.len() {
        flags[m] = 1;
    }
}

// The fault of a set that goes on with member m, where a rising one goes on with at least `least`.
#[tactic(auto, unfolding(crate::specs::Sets::fault_after))]
fn fault_after(fault: Option<SetFault>, least: usize, m: usize) -> Option<SetFault>
    ensures { result ≡ fault_after fault least m }
{
    if Store::MEMBERS <= m {
        return Some(SetFault::AboveLimit);
    }
    if least <= m {
        return fault;
    }
    fault.or(Some(SetFault::NotRising))
}

// Reads the rest of a set, with a space before each row, and marks its members: the position past it and its fault.
#[tactic(auto, using(crate::proofs::Members::members_end, crate::proofs::Members::members_stop, crate::proofs::Members::members_row))]
fn read_members(
    s: &[u8],
    from: usize,
    earlier: Option<SetFault>,
    low: usize,
    flags: &mut [u8],
) -> Option<(usize, Option<SetFault>)>
    ensures { SetIs (fault_from earlier low) (read_members (length s.now) s.now from) flags.old result flags.new }
{
    let mut at = from;
    let mut fault = earlier;
    let mut least = low;
    for _ in 0..s.len() {
        if let Some(end) = expect(s, at, b"]") {
            return Some((end, fault));
        }
        let (n, next) = read_argument(s, at)?;
        let m = n as usize + 1;
        fault = fault_after(fault, least, m);
        mark(flags, m);
        least = m + 1;
        at = next;
    }
    None
}

// Reads a set and marks its members: the position past it and its fault.
#[tactic(auto, using(crate::proofs::Members::set_stop, crate::proofs::Members::set_unit, crate::proofs::Members::set_row))]
pub fn read_set(s: &[u8], at: usize, flags: &mut [u8]) -> Option<(usize, Option<SetFault>)>
    ensures { SetIs set_fault (read_set s.now at) flags.old result flags.new }
{
    let p = expect(s, at, b"[")?;
    if let Some(q) = expect(s, p, b"u") {
        mark(flags, 0);
        return read_members(s, q, None, 1, flags);
    }
    let (n, q) = read_number(s, p)?;
    let m = n as usize + 1;
    let fault = fault_after(None, 0, m);
    mark(flags, m);
    let least = m + 1;
    read_members(s, q, fault, least, flags)
}
