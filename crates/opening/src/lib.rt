// 20, 21 and 22: what a store must be for judge, verdict and write.
#![tactic(auto)]

ghost use Rattle.std.specs.Prelude.{◌≡◌, not, ◌≤◌, length, take};
ghost use Rattle.format.specs.Limits.{row_limit};
ghost use Rattle.calls.specs.Layout.{store_size};
ghost use Rattle.calls.specs.Canonical.{count_rows};
ghost use Rattle.calls.specs.Calls.{is_empty, unsound, opened_fixed, opened};
ghost use Rattle.opening.specs.Opening.{OpenedIs};

use format::{Reason, Refusal};
use seen::NUMBERS;
use store::Store;

// 21: whether every byte is 0. Where the first is not, no other is looked at.
#[tactic(auto, using(crate::proofs::Opening::first_byte, crate::proofs::Opening::all_zeros))]
fn is_empty(fixed: &[u8]) -> bool
    requires { length fixed.now ≡ store_size }
    ensures { result ≡ is_empty fixed.now }
{
    if fixed[0] != 0 {
        return false;
    }
    byte_tests::all_zero(fixed)
}

// 22: whether these bytes, which have so many rows, are such as a load leaves, the length limit set aside.
#[tactic(auto, using(crate::proofs::Opening::rows_fail, crate::proofs::Opening::tree_fails, crate::proofs::Opening::lines_decide))]
fn is_sound(fixed: &[u8], rows: u8) -> bool
    requires fixed_len { length fixed.now ≡ store_size }
    requires rows_value { (rows ≡ count_rows row_limit fixed.now) × (rows ≤ row_limit) }
    ensures { result ≡ not (unsound fixed.now) }
{
    if canonical::rows_canonical(fixed, rows) {
        let mut names = [0; NUMBERS];
        let Ok(()) = structure::tree_fault(fixed, rows, &mut names) else {
            return false;
        };
        return sound_lines::lines_sound(fixed, rows, &names);
    }
    false
}

// 21 and 22 of a store's fixed size.
#[tactic(auto, using(crate::proofs::Opening::empty_refused, crate::proofs::Opening::unsound_refused, crate::proofs::Opening::store_opens, crate::proofs::Rulesets::open_fixed_facts))]
fn open_fixed(fixed: &[u8]) -> Result<u8, Refusal>
    requires { length fixed.now ≡ store_size }
    ensures { OpenedIs (opened_fixed fixed.now) fixed.now result }
{
    if is_empty(fixed) {
        return Err(Reason::StoreEmpty.at(0));
    }
    let rows = row_bytes::count_rows(fixed);
    if is_sound(fixed, rows) {
        return Ok(rows);
    }
    Err(Reason::StoreUnsound.at(0))
}

// 20, 21 and 22 of a store, at the head of a slice.
#[tactic(auto, using(crate::proofs::Opening::too_short_refused))]
pub fn open(store: &[u8]) -> Result<u8, Refusal>
    ensures { OpenedIs (opened store.now) (take store_size store.now) result }
{
    if store.len() < Store::SIZE {
        return Err(Reason::StoreTooShort.at(0));
    }
    open_fixed(&store[..Store::SIZE])
}
