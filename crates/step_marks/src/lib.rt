// Single row steps, taken in a grid: one alone, those of a call, and those of a case's branches. Each tells whether it altered the grid.
#![tactic(auto)]

ghost use Rattle.std.specs.Prelude.{◌≤◌, length};
ghost use Rattle.format.specs.Limits.{row_limit};
ghost use Rattle.grids.specs.Grid.{grid_size, step, Follows};
ghost use Rattle.step_marks.specs.Marks.{call_steps, into_both, from_both};

// Takes the step from row a to row b, where both are there.
pub fn mark(grid: &mut [u8], rows: u8, a: u8, b: u8) -> bool
    requires { (rows ≤ row_limit) × (grid_size ≤ length grid.old) }
    ensures { Follows rows (step a b) grid.old grid.new result }
{
    if rows <= a || rows <= b {
        return false;
    }
    grids::take_step(grid, rows as usize, a as usize, b as usize)
}

// Takes the steps of a call of row t from row q: to t, and from t's result row to q's rest.
#[tactic(auto, using(grids::proofs::Stepping::follows_then), unfolding(crate::specs::Marks::call_steps))]
pub fn mark_call(grid: &mut [u8], rows: u8, q: u8, rest: u8, t: u8, res: u8) -> bool
    requires { (rows ≤ row_limit) × (grid_size ≤ length grid.old) }
    ensures { Follows rows (call_steps q rest t res) grid.old grid.new result }
{
    let to = mark(grid, rows, q, t);
    let from = mark(grid, rows, res, rest);
    to | from
}

// Takes the steps into the branches of case row q: both are entered.
#[tactic(auto, using(grids::proofs::Stepping::follows_then), unfolding(crate::specs::Marks::into_both))]
pub fn mark_entering(grid: &mut [u8], rows: u8, q: u8, left: u8, right: u8) -> bool
    requires { (rows ≤ row_limit) × (grid_size ≤ length grid.old) }
    ensures { Follows rows (into_both q left right) grid.old grid.new result }
{
    let first = mark(grid, rows, q, left);
    let second = mark(grid, rows, q, right);
    first | second
}

// Takes the steps from the result rows of the branches to the rest.
#[tactic(auto, using(grids::proofs::Stepping::follows_then), unfolding(crate::specs::Marks::from_both))]
pub fn mark_returning(
    grid: &mut [u8],
    rows: u8,
    left_result: u8,
    right_result: u8,
    rest: u8,
) -> bool
    requires { (rows ≤ row_limit) × (grid_size ≤ length grid.old) }
    ensures { Follows rows (from_both rest left_result right_result) grid.old grid.new result }
{
    let first = mark(grid, rows, left_result, rest);
    let second = mark(grid, rows, right_result, rest);
    first | second
}
