// The lines of a report about the chan rows of a store, written at a position.
#![tactic(auto)]

ghost use Rattle.std.specs.Prelude.{◌≤◌, length, ◌≡◌};
ghost use Rattle.program.specs.Verdict.{reach};
ghost use Rattle.format.specs.Limits.{row_limit};
ghost use Rattle.calls.specs.Layout.{store_size, decode};
ghost use Rattle.calls.specs.Canonical.{count_rows};
ghost use Rattle.report.specs.Report.{channel_line, channel_lines};
ghost use Rattle.write_bytes.specs.Write.{Room, Wrote};
ghost use Rattle.store.specs.Rows.{store_program};
ghost use Rattle.tables.specs.Tables.{store_flow};
ghost use Rattle.grids.specs.Grid.{grid_size, Shows};

use report_lines::put_channel;

// Writes the line of a chan row, told by a grid of which rows reach which; nothing of another row.
fn put_row(out: &mut [u8], at: usize, store: &[u8], rows: u8, grid: &[u8], row: u8) -> usize
    requires store_size_in_bounds { (store_size ≤ length store.now) × (rows ≡ count_rows row_limit store.now) × (grid_size ≤ length grid.now) }
    requires shows { Shows (reach (store_program rows store.now) (store_flow store.now)) grid.now }
    requires room { Room out.old at (channel_line (decode store.now) row) }
    ensures { Wrote out.old at (channel_line (decode store.now) row) result out.new }
{
    if !forms::is_chan(store, rows, row) {
        return at;
    }
    let told = verdicts::words(store, rows, grid, row);
    put_channel(out, at, row as u16, told)
}

// Writes the lines of the chan rows, rows rising. Not inlined: its lists are on the stack only while it runs.
#[inline(never)]
pub fn put_channels(out: &mut [u8], at: usize, store: &[u8], rows: u8, grid: &[u8]) -> usize
    requires store_size_in_bounds { (store_size ≤ length store.now) × (rows ≡ count_rows row_limit store.now) × (grid_size ≤ length grid.now) }
    requires shows { Shows (reach (store_program rows store.now) (store_flow store.now)) grid.now }
    requires room { Room out.old at (channel_lines (decode store.now)) }
    ensures { Wrote out.old at (channel_lines (decode store.now)) result out.new }
{
    let mut next = at;
    for row in 0..rows {
        next = put_row(out, next, store, rows, grid, row);
    }
    next
}
