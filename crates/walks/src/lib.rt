// What walks come to, told by a grid of which rows reach which.
#![tactic(auto)]

ghost use Rattle.std.specs.Prelude.{◌≡◌, ◌+◌, ◌≤◌, length};
ghost use Rattle.format.specs.Limits.{row_limit};
ghost use Rattle.store.specs.Rows.{store_program};
ghost use Rattle.grids.specs.Grid.{grid_size};
ghost use Rattle.row_lists.specs.Lists.{Lists, of_kind, spawn_kind};
ghost use Rattle.row_marks.specs.RowMarks.{Marked};
ghost use Rattle.walks.specs.Walks.{comes_to, JoinsMarks, ahead_of, leads_on, forks_on, rivals_on};

use forms::row_in;
use program::{Form, Row};
use store::Store;

// The rows that a walk comes to: row 0, and what it reaches.
#[tactic(auto, unfolding(row_marks::specs::RowMarks::on))]
pub fn reached_rows(grid: &[u8], rows: u8) -> [u8; Store::ROWS]
    requires { (rows ≤ row_limit) × (grid_size ≤ length grid.now) }
    ensures { Marked rows (comes_to grid.now) result }
{
    let mut marks = [0u8; Store::ROWS];
    for r in 0..rows as usize {
        marks[r] = grid[r * Store::ROWS];
    }
    marks[0] = 1;
    marks
}

// Joins the row of a grid that begins at a position into marks.
fn join_marks(marks: &mut [u8], grid: &[u8], at: usize, n: usize)
    requires { (n ≤ length marks.old) × (at + n ≤ length grid.now) }
    ensures { JoinsMarks n grid.now at marks.old marks.new }
{
    for j in 0..n {
        marks[j] = marks[j].max(grid[at + j]);
    }
}

// The rows from which one of the places is reached by one or more row steps: for each place the row of the grid that tells them.
pub fn rows_ahead(grid: &[u8], rows: u8, places: &[u8]) -> [u8; Store::ROWS]
    requires { (rows ≤ row_limit) × (grid_size ≤ length grid.now) × (row_limit ≤ length places.now) }
    ensures { Marked rows (ahead_of rows grid.now places.now) result }
{
    let n = rows as usize;
    let mut marks = [0u8; Store::ROWS];
    for r in 0..n {
        if places[r] == 0 {
            continue;
        }
        let at = r * Store::ROWS;
        join_marks(&mut marks, grid, at, n);
    }
    marks
}

// Whether row r is a place or has one ahead.
#[tactic(auto, unfolding(crate::specs::Walks::leads_on, row_marks::specs::RowMarks::on))]
fn leads(rows: u8, places: &[u8], ahead: &[u8], r: u8) -> bool
    ensures { result ≡ leads_on rows places.now ahead.now r }
{
    let i = r as usize;
    r < rows && (0 < read_text::byte_at(places, i) || 0 < read_text::byte_at(ahead, i))
}

// Whether row q is a spawn row whose spawned row and whose rest both lead to places.
fn forks(store: &[u8], rows: u8, places: &[u8], ahead: &[u8], q: u8) -> bool
    ensures { result ≡ forks_on rows (store_program rows store.now) places.now ahead.now q }
{
    let Row::Bind(b) = row_in(store, rows, q) else {
        return false;
    };
    let Form::Spawn { child } = b.form else {
        return false;
    };
    leads(rows, places, ahead, child) && leads(rows, places, ahead, b.rest)
}

// Whether a walk comes to such a row, by the list of the spawns.
pub fn rivals(
    store: &[u8],
    rows: u8,
    spawns: &[u8],
    reached: &[u8],
    places: &[u8],
    ahead: &[u8],
) -> bool
    requires { Lists rows (of_kind store.now spawn_kind) spawns.now }
    ensures { result ≡ rivals_on rows (store_program rows store.now) reached.now places.now ahead.now }
{
    for &q in spawns {
        if read_text::byte_at(reached, q as usize) == 0 {
            continue;
        }
        if forks(store, rows, places, ahead, q) {
            return true;
        }
    }
    false
}
