// Which row of a program in a store is reached from which by row steps, shown by a grid with a byte for each pair of rows.
#![tactic(auto)]

ghost use Rattle.std.specs.Prelude.{false, ◌≤◌, length};
ghost use Rattle.program.specs.Verdict.{reach};
ghost use Rattle.format.specs.Limits.{row_limit};
ghost use Rattle.store.specs.Rows.{store_program};
ghost use Rattle.tables.specs.Tables.{store_flow};
ghost use Rattle.grids.specs.Grid.{grid_size, Shows, Fills};

pub mod edges; // edges.rt: the single row steps

use edges::take_steps;
use grids::close;

// How often the steps are taken before the grid is closed by rounds over all rows: rests rise, so few programs need more.
const PASSES: u8 = 9;

// Fills a grid of zeros: the byte of r and s is 1 if row s is reached from row r by one or more row steps, else 0, also where one of the
// two is no row of the program. The bytes past the grid are kept. Not inlined: its lists are on the stack only while it runs.
#[inline(never)]
pub fn fill_reach(store: &[u8], rows: u8, grid: &mut [u8])
    requires rows_le_row_limit { (rows ≤ row_limit) × (grid_size ≤ length grid.old) }
    requires shows { Shows (λ r s. false) grid.old }
    ensures { Fills (reach (store_program rows store.now) (store_flow store.now)) grid.old grid.new }
{
    let results = results::result_rows(store, rows);
    for _ in 0..PASSES {
        if !take_steps(store, rows, &results, grid) {
            return;
        }
    }
    close(grid, rows as usize);
}
