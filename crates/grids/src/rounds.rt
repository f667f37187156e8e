// Steps taken in a grid, one by one, and Warshall's rounds over it: what reaches row k reaches what row k reaches. Row i of the grid tells
// which rows reach row i. All of it works on the first n rows.
ghost use Rattle.std.specs.Prelude.{◌≡◌, ◌<◌, ◌≤◌, length, ltb};
ghost use Rattle.program.specs.Test.{pick};
ghost use Rattle.format.specs.Limits.{row_limit};
ghost use Rattle.grids.specs.Grid.{grid_size, step, Follows, Closes};
ghost use Rattle.grids.specs.Rounds.{RowIs, RowChanged, RowPassed, AllPassed};

use store::Store;

// Row k of the grid, all of it. It is read from this copy while the grid is written, so that the loop over a row takes many bytes at a time.
fn row_of(grid: &[u8], k: usize) -> [u8; Store::ROWS]
    requires { (k < row_limit) × (grid_size ≤ length grid.now) }
    ensures { RowIs row_limit grid.now k result }
{
    let from = k * Store::ROWS;
    let mut row = [0u8; Store::ROWS];
    row.copy_from_slice(&grid[from..from + Store::ROWS]);
    row
}

// 1 if a byte is below another, which is joined into it, else 0. A byte and no bool, so that the loop over a row takes many at a time.
fn grows(own: u8, other: u8) -> u8
    ensures { result ≡ pick (ltb own other) 1 0 }
{
    if own < other { 1 } else { 0 }
}

// Joins a row into row i of the grid. Whether that alters it; every byte is looked at, so that the loop takes many at a time.
fn join_row(grid: &mut [u8], n: usize, i: usize, way: &[u8]) -> bool
    requires { (n ≤ row_limit) × (i < n) × (n ≤ length way.now) × (grid_size ≤ length grid.old) }
    ensures { RowChanged n grid.old i way.now grid.new result }
{
    let a = i * Store::ROWS;
    let mut changed = 0;
    for j in 0..n {
        let own = grid[a + j];
        let other = way[j];
        changed = changed.max(grows(own, other));
        grid[a + j] = own.max(other);
    }
    0 < changed
}

// Takes the step from row a to row b: what reaches row a, and a itself, reaches row b. Whether that alters the grid.
pub fn take_step(grid: &mut [u8], n: usize, a: usize, b: usize) -> bool
    requires { (n ≤ row_limit) × (a < n) × (b < n) × (grid_size ≤ length grid.old) }
    ensures { Follows n (step a b) grid.old grid.new result }
{
    let mut way = row_of(grid, a);
    way[a] = 1;
    join_row(grid, n, b, &way)
}

// Lets row i, if it reaches row k, reach what is in the row beside the grid.
fn pass_row(grid: &mut [u8], n: usize, i: usize, k: usize, way: &[u8])
    requires { (n ≤ row_limit) × (i < n) × (k < n) × (n ≤ length way.now) × (grid_size ≤ length grid.old) }
    ensures { RowPassed n grid.old i k way.now grid.new }
{
    let at = i * Store::ROWS + k;
    if grid[at] == 0 {
        return;
    }
    join_row(grid, n, i, way);
}

// Lets every row that reaches row k reach what row k reaches.
fn pass_all(grid: &mut [u8], n: usize, k: usize)
    requires { (n ≤ row_limit) × (k < n) × (grid_size ≤ length grid.old) }
    ensures { AllPassed n grid.old k grid.new }
{
    let way = row_of(grid, k);
    for i in 0..n {
        pass_row(grid, n, i, k, &way);
    }
}

// Closes a grid that tells a relation: from single steps to one or more.
pub fn close(grid: &mut [u8], n: usize)
    requires { (n ≤ row_limit) × (grid_size ≤ length grid.old) }
    ensures { Closes n grid.old grid.new }
{
    for k in 0..n {
        pass_all(grid, n, k);
    }
}
