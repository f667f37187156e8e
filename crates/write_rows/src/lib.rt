// Rows and their lines, written into a slice at a position.
// A row is read as it stands in the store: its kind, its name, its rest and five numbers.
#![tactic(auto)]

ghost use Rattle.std.specs.Prelude.{◌≡◌, ◌≤◌, length};
ghost use Rattle.program.specs.Each.{collect};
ghost use Rattle.format.specs.Print.{row_text, line_text, row_lines};
ghost use Rattle.format.specs.Document.{row};
ghost use Rattle.calls.specs.Layout.{row_size, store_size, row_of};
ghost use Rattle.store.specs.Rows.{store_program};
ghost use Rattle.write_bytes.specs.Write.{Room, Wrote};
ghost use Rattle.write_rows.specs.Texts.{result_text};

use store::Store;
use write_forms::put_form;

// Writes a result row.
fn put_result(out: &mut [u8], at: usize, name: u8) -> usize
    requires { Room out.old at (result_text name) }
    ensures { Wrote out.old at (result_text name) result out.new }
{
    let p = write_text::put_word(out, at, b"[result");
    let q = write_text::put_argument(out, p, name as u16);
    write_text::put_byte(out, q, b']')
}

// Writes a row.
fn put_row(out: &mut [u8], at: usize, row: &[u8]) -> usize
    requires row_len { length row.now ≡ row_size }
    requires room { Room out.old at (row_text (row_of row.now)) }
    ensures { Wrote out.old at (row_text (row_of row.now)) result out.new }
{
    let kind = row[0];
    let name = row[1];
    let rest = row[2];
    if kind == 1 {
        return put_result(out, at, name);
    }
    let p = write_text::put_head(out, at, b"[bind", name as u16);
    let q = put_form(out, p, kind, &row[3..]);
    let s = write_text::put_argument(out, q, rest as u16);
    write_text::put_byte(out, s, b']')
}

// Writes the line of row r.
fn put_row_line(out: &mut [u8], at: usize, r: u8, x: &[u8]) -> usize
    requires x_len { length x.now ≡ row_size }
    requires room { Room out.old at (line_text (row r (row_of x.now))) }
    ensures { Wrote out.old at (line_text (row r (row_of x.now))) result out.new }
{
    let p = write_text::put_head(out, at, b"[row", r as u16);
    let q = put_row(out, p, x);
    write_text::put_word(out, q, b"]\n")
}

// Writes the lines of the first rows of a store.
pub fn put_rows(out: &mut [u8], at: usize, store: &[u8], rows: u8) -> usize
    requires store_size_in_bounds { store_size ≤ length store.now }
    requires room { Room out.old at (collect line_text (row_lines 0 (store_program rows store.now))) }
    ensures { Wrote out.old at (collect line_text (row_lines 0 (store_program rows store.now))) result out.new }
{
    let mut next = at;
    for r in 0..rows {
        let from = r as usize * Store::ROW_SIZE;
        let to = from + Store::ROW_SIZE;
        next = put_row_line(out, next, r, &store[from..to]);
    }
    next
}
