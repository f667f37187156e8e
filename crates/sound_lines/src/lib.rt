// The sets and the claims of a store: whether each byte is one that a load could leave there, yes or no, without the line of a fault.
#![tactic(auto)]

ghost use Rattle.std.specs.Prelude.{◌≡◌, ◌&&◌, ◌+◌, ◌≤◌, length, take, drop};
ghost use Rattle.program.specs.Each.{collect};
ghost use Rattle.program.specs.Program.{binders};
ghost use Rattle.format.specs.Limits.{row_limit};
ghost use Rattle.format.specs.Structure.{not_allowed};
ghost use Rattle.calls.specs.Layout.{member_limit, store_size, comms_start, claims_start};
ghost use Rattle.calls.specs.Canonical.{flags_sound};
ghost use Rattle.store.specs.Rows.{store_program};
ghost use Rattle.store.specs.Document.{store_document};
ghost use Rattle.seen.specs.Seen.{Marks};
ghost use Rattle.sound_lines.specs.Sound.{within, sets_sound, claim_limit, claims_within, codes_sound, NextKey, passes};

use allowed_lines::{allowed_members, chan_rows};
use byte_tests::all_below;
use store::Store;

// Whether each byte of the set at a position is at most that of its member. Every byte is looked at, so that the loop takes many at a time.
#[tactic(auto, using(crate::proofs::Bytes::within_goes, crate::proofs::Bytes::within_ends))]
fn set_within(store: &[u8], at: usize, members: &[u8]) -> bool
    requires at_le_store_size { at ≤ store_size }
    requires member_limit_in_bounds { (at + member_limit ≤ length store.now) × (member_limit ≤ length members.now) }
    ensures { result ≡ within members.now 0 (take member_limit (drop at store.now)) }
{
    let mut most = 0u8;
    for m in 0..Store::MEMBERS {
        most = most.max(store[at + m].saturating_sub(members[m]));
    }
    most == 0
}

// The first key from n on that is marked, or the number of keys: the sets before it end there, also where none is marked.
fn next_key(keys: &[u8], n: usize) -> usize
    requires { (n ≤ row_limit) × (row_limit ≤ length keys.now) }
    ensures { NextKey keys.now n result }
{
    for k in n..Store::ROWS {
        if keys[k] != 0 {
            return k;
        }
    }
    Store::ROWS
}

// Whether the sets that begin at base are sound: the set of a marked key has allowed members only, and any other is empty. The sets
// between two marked keys are looked at as one part.
#[tactic(auto, using(crate::proofs::Bytes::none_left, crate::proofs::Bytes::between_fails, crate::proofs::Bytes::between_ends, crate::proofs::Bytes::set_fails, crate::proofs::Bytes::set_passes))]
fn sets_sound(store: &[u8], base: usize, keys: &[u8], members: &[u8]) -> bool
    requires base_le_comms_start { base ≤ comms_start }
    requires store_size_in_bounds { (store_size ≤ length store.now) × (row_limit ≤ length keys.now) × (member_limit ≤ length members.now) }
    ensures { result ≡ sets_sound keys.now members.now row_limit 0 (drop base store.now) }
{
    let mut n = 0;
    // A turn takes all keys up to the next marked one, so this counts no index.
    while n < Store::ROWS {
        let k = next_key(keys, n);
        let from = base + n * Store::MEMBERS;
        let at = base + k * Store::MEMBERS;
        if !all_below(&store[from..at], 1) {
            return false;
        }
        if Store::ROWS <= k {
            return true;
        }
        if !set_within(store, at, members) {
            return false;
        }
        n = k + 1;
    }
    true
}

// The largest code of a claim on a row, where chan is 0 if the row is no chan row.
fn claim_limit(chan: u8) -> u8
    ensures { result ≡ claim_limit chan }
{
    if chan == 0 { 0 } else { Store::CODES - 1 }
}

// Whether each claim is on a chan row and has the code of a word. Every byte is looked at, so that the loop takes many at a time.
#[tactic(auto, using(crate::proofs::Bytes::claims_go, crate::proofs::Bytes::claims_finish))]
fn claims_within(store: &[u8], chans: &[u8]) -> bool
    requires { (store_size ≤ length store.now) × (row_limit ≤ length chans.now) }
    ensures { result ≡ claims_within chans.now 0 (take row_limit (drop claims_start store.now)) }
{
    let mut most = 0u8;
    for c in 0..Store::ROWS {
        most = most.max(store[Store::CLAIMS + c].saturating_sub(claim_limit(chans[c])));
    }
    most == 0
}

// Whether the bytes of the sets and the claims are such as a load leaves, where the names that the rows bind are marked.
pub fn lines_sound(store: &[u8], rows: u8, names: &[u8]) -> bool
    requires rows_le_row_limit { (rows ≤ row_limit) × (store_size ≤ length store.now) }
    requires marks { Marks (collect binders (store_program rows store.now)) names.now }
    ensures { result ≡ (flags_sound store.now && codes_sound store.now && passes (not_allowed (store_document rows store.now))) }
{
    let members = allowed_members(store, rows);
    let chans = chan_rows(store, rows);
    sets_sound(store, Store::FLOWS, names, &members)
        && sets_sound(store, Store::COMMS, &chans, &members)
        && claims_within(store, &chans)
}
