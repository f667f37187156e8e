// Judge and verdict of a store that opens: the flow rules, then the words of a channel, or the claims in turn.
#![tactic(auto)]

ghost use Rattle.std.specs.Prelude.{false, ◌≡◌, ◌≤◌, length};
ghost use Rattle.format.specs.Limits.{row_limit, line_limit};
ghost use Rattle.format.specs.Structure.{claim_line};
ghost use Rattle.calls.specs.Layout.{store_size, decode};
ghost use Rattle.calls.specs.Canonical.{count_rows};
ghost use Rattle.calls.specs.Judging.{judge_document};
ghost use Rattle.calls.specs.Calls.{judge_answered, verdict_given, verdict_of};
ghost use Rattle.store.specs.Rows.{store_program};
ghost use Rattle.tables.specs.Tables.{store_flow};
ghost use Rattle.grids.specs.Grid.{grid_size, Shows};
ghost use Rattle.claims.specs.Claims.{claim_in, store_claims, claims_held, holding, judged_at};
ghost use Rattle.judging.specs.Judged.{Judged};

use calls::{JudgeAnswer, VerdictAnswer};
use claims::Held;
use format::Reason;
use grids::GRID;
use judge_answers::{flow_refusal, no_verdict, not_a_channel};
use row_lists::Kind;
use store::Store;

// The line of the first claim in the text that write would give.
fn claim_line(store: &[u8], rows: u8) -> usize
    requires store_len { length store.now ≡ store_size }
    requires rows_value { rows ≡ count_rows row_limit store.now }
    ensures { (result ≡ claim_line (decode store.now)) × (result ≤ line_limit) }
{
    let flows = write_sets::count_sets(&store[Store::FLOWS..]);
    let comms = write_sets::count_sets(&store[Store::COMMS..]);
    let head = rows as usize + 2;
    let behind = head + flows;
    behind + comms
}

// What judge answers of the claims: their count, or 11 at the line of the first that fails. Only then the lines before it are counted.
#[tactic(auto, unfolding(claims::specs::Claims::judged_at, claims::specs::Claims::holding))]
fn claims_answer(store: &[u8], rows: u8, held: Held) -> JudgeAnswer
    requires store_len { length store.now ≡ store_size }
    requires rows_value { rows ≡ count_rows row_limit store.now }
    requires held_bound { holding held ≤ row_limit }
    ensures { result ≡ judged_at (claim_line (decode store.now)) held }
{
    match held {
        Ok(count) => Ok(count),
        Err(count) => {
            let line = claim_line(store, rows);
            Err(Reason::ClaimFails.at(line + count))
        }
    }
}

// How the claims fare, by a grid: a function of its own, since the grid's bytes are set to 0 where the function that has them begins.
fn held_by_grid(store: &[u8], rows: u8) -> Held
    requires store_len { length store.now ≡ store_size }
    requires rows_le_row_limit { rows ≤ row_limit }
    ensures { let bytes = store.now in (result ≡ claims_held (claim_in (store_program rows bytes) (store_flow bytes)) 0 (store_claims bytes)) × (holding result ≤ row_limit) }
{
    let mut grid = [0u8; GRID];
    reach::fill_reach(store, rows, &mut grid);
    claims::judge_claims(store, rows, &grid)
}

// How the claims fare, with a grid only where there is a claim and a sync: without a sync no channel has a place, and every claim holds.
fn claims_held(store: &[u8], rows: u8) -> Held
    requires store_len { length store.now ≡ store_size }
    requires rows_le_row_limit { rows ≤ row_limit }
    ensures { let bytes = store.now in (result ≡ claims_held (claim_in (store_program rows bytes) (store_flow bytes)) 0 (store_claims bytes)) × (holding result ≤ row_limit) }
{
    let many = line_counts::count_claims(&store[Store::CLAIMS..]);
    if many == 0 {
        return Ok(many);
    }
    let syncs = Kind::Sync.listed(store, rows);
    if syncs.rows().is_empty() {
        return Ok(many);
    }
    held_by_grid(store, rows)
}

// Judges the store.
#[tactic(auto, using(crate::proofs::Documents::few_rows))]
pub fn judge_rows(store: &[u8], rows: u8) -> JudgeAnswer
    requires store_len { length store.now ≡ store_size }
    requires rows_value { rows ≡ count_rows row_limit store.now }
    ensures { result ≡ judge_answered (judge_document (decode store.now)) }
{
    if let Some(first) = flow::failing_row(store, rows) {
        return Err(flow_refusal(first));
    }
    let held = claims_held(store, rows);
    claims_answer(store, rows, held)
}

// Judges the store, with a lent grid of zeros. Where it is accepted, the grid tells which rows reach which.
#[tactic(auto, using(crate::proofs::Documents::few_rows))]
pub fn judge_store(store: &[u8], rows: u8, grid: &mut [u8]) -> JudgeAnswer
    requires store_len { length store.now ≡ store_size }
    requires rows_value { rows ≡ count_rows row_limit store.now }
    requires grid_size_in_bounds { grid_size ≤ length grid.old }
    requires shows { Shows (λ r s. false) grid.old }
    ensures { Judged rows store.now result grid.new }
{
    if let Some(row) = flow::failing_row(store, rows) {
        return Err(flow_refusal(row));
    }
    reach::fill_reach(store, rows, grid);
    let held = claims::judge_claims(store, rows, grid);
    claims_answer(store, rows, held)
}

// The verdict of a channel: 24 where the number is no chan row, then 10, then the five words.
#[tactic(auto, using(crate::proofs::Documents::few_rows, crate::proofs::Documents::no_channel))]
pub fn verdict_rows(store: &[u8], rows: u8, channel: usize) -> VerdictAnswer
    requires store_len { length store.now ≡ store_size }
    requires rows_value { rows ≡ count_rows row_limit store.now }
    ensures { result ≡ verdict_given (verdict_of channel (decode store.now)) }
{
    if rows as usize <= channel {
        return not_a_channel();
    }
    let c = channel as u8;
    if !forms::is_chan(store, rows, c) {
        return not_a_channel();
    }
    if let Some(row) = flow::failing_row(store, rows) {
        return no_verdict(flow_refusal(row));
    }
    VerdictAnswer {
        status: Ok(()),
        words: verdicts::lone_words(store, rows, c),
    }
}
