// What the flow, comm and claim lines may name, as flags; and checking the lines of a part, one by one.
#![tactic(auto)]

ghost use Rattle.std.specs.Prelude.{◌≡◌, ◌+◌, ◌*◌, ◌≤◌, length, drop, take};
ghost use Rattle.program.specs.Program.{chan_row};
ghost use Rattle.format.specs.Limits.{row_limit, line_limit};
ghost use Rattle.format.specs.Structure.{member_allowed};
ghost use Rattle.calls.specs.Layout.{member_limit, store_size, decode_sets, decode_claims, comms_start, claims_start};
ghost use Rattle.store.specs.Rows.{store_program};
ghost use Rattle.seen.specs.Flags.{Tells};
ghost use Rattle.allowed_lines.specs.Lines.{is_value_row, is_chan_row, member_code, set_code, line_allowed, set_at, entry_marked, claim_marked, checked};

use program::{Form, Row};
use store::Store;
use stored_rows::row_at;

// Whether the row is a value row.
fn is_value_row(row: Row) -> bool
    ensures { result ≡ is_value_row row }
{
    let Row::Bind(b) = row else {
        return false;
    };
    matches!(
        b.form,
        Form::Chan
            | Form::Send { .. }
            | Form::Recv { .. }
            | Form::Pair { .. }
            | Form::Left { .. }
            | Form::Right { .. }
            | Form::Fun { .. }
    )
}

// Whether the row is a chan row.
fn is_chan_row(row: Row) -> bool
    ensures { result ≡ is_chan_row row }
{
    let Row::Bind(b) = row else {
        return false;
    };
    matches!(b.form, Form::Chan)
}

// The members that a set may have: unit, and the value rows.
#[tactic(auto, using(crate::proofs::Sets::members_none, crate::proofs::Sets::members_more, crate::proofs::Rulesets::allowed_members_facts))]
pub fn allowed_members(store: &[u8], rows: u8) -> [u8; Store::MEMBERS]
    requires { rows ≤ row_limit }
    ensures { Tells (member_allowed (store_program rows store.now)) result }
{
    let mut members = [0; Store::MEMBERS];
    members[0] = 1;
    for r in 0..rows {
        members[r as usize + 1] = is_value_row(row_at(store, r)) as u8;
    }
    members
}

// The chan rows.
#[tactic(auto, using(crate::proofs::Sets::chans_none, crate::proofs::Sets::chans_more, crate::proofs::Rulesets::chan_rows_facts))]
pub fn chan_rows(store: &[u8], rows: u8) -> [u8; Store::ROWS]
    requires { rows ≤ row_limit }
    ensures { Tells (chan_row (store_program rows store.now)) result }
{
    let mut chans = [0; Store::ROWS];
    for r in 0..rows {
        chans[r as usize] = is_chan_row(row_at(store, r)) as u8;
    }
    chans
}

// 0 if a member is not marked, 1 if it is marked and allowed, 2 if it is marked and not allowed.
fn member_code(mark: u8, allowed: u8) -> u8
    ensures { result ≡ member_code mark allowed }
{
    if mark == 0 {
        return 0;
    }
    if allowed == 0 {
        return 2;
    }
    1
}

// The set at a position: 0 if it has no member, 1 if all its members are allowed, 2 if one is not. Every member is looked at, so that
// the loop takes many bytes at a time.
#[tactic(auto, using(crate::proofs::Sets::set_start, crate::proofs::Sets::set_step, crate::proofs::Sets::set_end))]
fn set_code(store: &[u8], at: usize, members: &[u8]) -> u8
    requires at_le_store_size { at ≤ store_size }
    requires member_limit_in_bounds { (at + member_limit ≤ length store.now) × (member_limit ≤ length members.now) }
    ensures { result ≡ set_code members.now (set_at store.now at) }
{
    let mut code = 0u8;
    for m in 0..Store::MEMBERS {
        code = code.max(member_code(store[at + m], members[m]));
    }
    code
}

// The set of name or channel n, where the sets begin at base: no line if it has no member, else whether its key and its members are allowed.
#[tactic(auto, using(crate::proofs::Sets::allowed_none, crate::proofs::Sets::allowed_key, crate::proofs::Sets::allowed_other))]
fn line_allowed(store: &[u8], base: usize, n: usize, keys: &[u8], members: &[u8]) -> Option<bool>
    requires member_limit_bound { base + n * member_limit ≤ store_size }
    requires member_limit_in_bounds { (base + n * member_limit + member_limit ≤ length store.now) × (member_limit ≤ length members.now) }
    ensures { result ≡ line_allowed keys.now members.now n (set_at store.now (base + n * member_limit)) }
{
    let at = base + n * Store::MEMBERS;
    match set_code(store, at, members) {
        0 => None,
        1 => Some(read_text::byte_at(keys, n) != 0),
        _ => Some(false),
    }
}

// Checks the sets that begin at base, each of which is a line if it has members; the first line is given. Answers the line after the
// last, or the first line that is not allowed.
#[tactic(auto, using(crate::proofs::Checking::sets_none, crate::proofs::Checking::sets_failing, crate::proofs::Checking::sets_passing, crate::proofs::Checking::sets_end))]
pub fn check_sets(
    store: &[u8],
    base: usize,
    line: usize,
    keys: &[u8],
    members: &[u8],
) -> Result<usize, usize>
    requires base_le_comms_start { base ≤ comms_start }
    requires line_le_line_limit { line ≤ line_limit }
    requires store_size_in_bounds { (store_size ≤ length store.now) × (member_limit ≤ length members.now) }
    ensures { result ≡ checked (entry_marked keys.now members.now) line (decode_sets row_limit 0 (drop base store.now)) }
{
    let mut next = line;
    for n in 0..Store::ROWS {
        let Some(allowed) = line_allowed(store, base, n, keys, members) else {
            continue;
        };
        if !allowed {
            return Err(next);
        }
        next += 1;
    }
    Ok(next)
}

// The same of the claims, each of which is a line.
#[tactic(auto, using(crate::proofs::Checking::claims_none, crate::proofs::Checking::claims_failing, crate::proofs::Checking::claims_passing, crate::proofs::Checking::claims_end))]
pub fn check_claims(store: &[u8], line: usize, keys: &[u8]) -> Result<usize, usize>
    requires { line ≤ line_limit }
    ensures { result ≡ checked (claim_marked keys.now) line (decode_claims 0 (take row_limit (drop (claims_start) store.now))) }
{
    let mut next = line;
    for c in 0..Store::ROWS {
        if read_text::byte_at(store, Store::CLAIMS + c) == 0 {
            continue;
        }
        if read_text::byte_at(keys, c) == 0 {
            return Err(next);
        }
        next += 1;
    }
    Ok(next)
}
