// The claims of a store, judged in turn over a grid of which rows reach which.
#![tactic(auto)]

ghost use Rattle.std.specs.Prelude.{◌≡◌, ◌≤◌, length};
ghost use Rattle.program.specs.Verdict.{reach};
ghost use Rattle.format.specs.Limits.{row_limit};
ghost use Rattle.store.specs.Rows.{store_program};
ghost use Rattle.tables.specs.Tables.{store_flow};
ghost use Rattle.grids.specs.Grid.{grid_size, Shows};
ghost use Rattle.claims.specs.Claims.{claim_in, store_claims, claims_held, holding};

use claim_words::word_of;
use row_lists::Kind;
use store::Store;

// How the claims fare: how many there are, if all hold, or how many hold before the first that fails.
pub type Held = Result<usize, usize>;

// The claims in turn. Not inlined: its lists are on the stack only while it runs.
#[inline(never)]
pub fn judge_claims(store: &[u8], rows: u8, grid: &[u8]) -> Held
    requires rows_le_row_limit { (rows ≤ row_limit) × (grid_size ≤ length grid.now) }
    requires shows { Shows (reach (store_program rows store.now) (store_flow store.now)) grid.now }
    ensures { let bytes = store.now in (result ≡ claims_held (claim_in (store_program rows bytes) (store_flow bytes)) 0 (store_claims bytes)) × (holding result ≤ row_limit) }
{
    let comes = walks::reached_rows(grid, rows);
    let sends = Kind::Send.listed(store, rows);
    let receives = Kind::Recv.listed(store, rows);
    let syncs = Kind::Sync.listed(store, rows);
    let spawns = Kind::Spawn.listed(store, rows);
    let mut held = 0;
    for c in 0..Store::ROWS {
        let code = read_text::byte_at(store, Store::CLAIMS + c);
        if code == 0 {
            continue;
        }
        let word = word_of(code);
        if !verdicts::word_holds(
            store,
            rows,
            grid,
            &comes,
            sends.rows(),
            receives.rows(),
            syncs.rows(),
            spawns.rows(),
            c as u8,
            word,
        ) {
            return Err(held);
        }
        held += 1;
    }
    Ok(held)
}
