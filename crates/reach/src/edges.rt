// The row steps of a program in a store, taken in a grid: for each row those that it gives, from itself and from the results of what it
// calls. Each function tells whether it altered the grid.
ghost use Rattle.std.specs.Prelude.{◌<◌, ◌≤◌, length};
ghost use Rattle.program.specs.Walk.{edge};
ghost use Rattle.format.specs.Limits.{row_limit};
ghost use Rattle.store.specs.Rows.{store_program};
ghost use Rattle.tables.specs.Tables.{store_flow};
ghost use Rattle.results.specs.Results.{ResultRows};
ghost use Rattle.grids.specs.Grid.{grid_size, Follows};
ghost use Rattle.reach.specs.Edges.{body_steps, any_body, row_steps};

use results::result_of;
use row_kinds::{Kind, kind_at};
use step_marks::{mark, mark_call, mark_entering, mark_returning};
use tables::flow_has;

// Takes the steps of the call of row k from row q, where row k is a fun row in the set of name f.
fn mark_body(
    store: &[u8],
    rows: u8,
    results: &[u8],
    grid: &mut [u8],
    q: u8,
    rest: u8,
    f: u8,
    k: u8,
) -> bool
    requires rows_le_row_limit { (rows ≤ row_limit) × (grid_size ≤ length grid.old) × (k < rows) }
    requires result_rows { ResultRows (store_program rows store.now) rows results.now }
    ensures { Follows rows (body_steps (store_program rows store.now) (store_flow store.now) q rest f k) grid.old grid.new result }
{
    if !flow_has(store, f, k) {
        return false;
    }
    let Kind::Body { body, .. } = kind_at(store, rows, k) else {
        return false;
    };
    let result = result_of(rows, results, body);
    mark_call(grid, rows, q, rest, body, result)
}

// Takes those of the calls from apply row q of every fun row in the set of name f.
fn mark_bodies(
    store: &[u8],
    rows: u8,
    results: &[u8],
    grid: &mut [u8],
    q: u8,
    rest: u8,
    f: u8,
) -> bool
    requires rows_le_row_limit { (rows ≤ row_limit) × (grid_size ≤ length grid.old) }
    requires result_rows { ResultRows (store_program rows store.now) rows results.now }
    ensures { Follows rows (any_body (store_program rows store.now) (store_flow store.now) q rest f rows) grid.old grid.new result }
{
    let mut changed = false;
    for k in 0..rows {
        changed |= mark_body(store, rows, results, grid, q, rest, f, k);
    }
    changed
}

// Takes the row steps that row q gives.
fn mark_row(store: &[u8], rows: u8, results: &[u8], grid: &mut [u8], q: u8) -> bool
    requires rows_le_row_limit { (rows ≤ row_limit) × (grid_size ≤ length grid.old) }
    requires result_rows { ResultRows (store_program rows store.now) rows results.now }
    ensures { Follows rows (row_steps (store_program rows store.now) (store_flow store.now) q) grid.old grid.new result }
{
    match kind_at(store, rows, q) {
        Kind::End => false,
        Kind::Next { rest } => mark(grid, rows, q, rest),
        Kind::Body { rest, .. } => mark(grid, rows, q, rest),
        Kind::Fork { child, rest } => {
            let on = mark(grid, rows, q, rest);
            let off = mark(grid, rows, q, child);
            on | off
        }
        Kind::Branch {
            left,
            right,
            rest,
            ..
        } => {
            let left_result = result_of(rows, results, left);
            let right_result = result_of(rows, results, right);
            let into = mark_entering(grid, rows, q, left, right);
            let back = mark_returning(grid, rows, left_result, right_result, rest);
            into | back
        }
        Kind::Call { function, rest } => mark_bodies(store, rows, results, grid, q, rest, function),
    }
}

// Takes every row step once, row by row.
pub fn take_steps(store: &[u8], rows: u8, results: &[u8], grid: &mut [u8]) -> bool
    requires rows_le_row_limit { (rows ≤ row_limit) × (grid_size ≤ length grid.old) }
    requires result_rows { ResultRows (store_program rows store.now) rows results.now }
    ensures { Follows rows (edge (store_program rows store.now) (store_flow store.now)) grid.old grid.new result }
{
    let mut changed = false;
    for q in 0..rows {
        changed |= mark_row(store, rows, results, grid, q);
    }
    changed
}
