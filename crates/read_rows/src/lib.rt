// Rows, read from a slice at a position with numbers up to 999.
#![tactic(auto)]

ghost use Rattle.std.specs.Prelude.{◌≡◌};
ghost use Rattle.format.specs.Read.{read_result, read_bind, read_row};
ghost use Rattle.read_rows.specs.Reads.{row_read};

use raw_rows::RawRow;
use read_forms::read_form;
use read_text::{expect, read_argument};

// Reads the rest of a bind behind its name: the row and the position past it.
fn read_bind(s: &[u8], at: usize, name: u16) -> Option<(RawRow, usize)>
    ensures { row_read result ≡ read_bind name s.now at }
{
    let p = expect(s, at, b" ")?;
    let (form, q) = read_form(s, p)?;
    let (rest, t) = read_argument(s, q)?;
    let next = expect(s, t, b"]")?;
    Some((RawRow::Bind { name, form, rest }, next))
}

// Reads the rest of a result behind its name: the row and the position past it.
fn read_result(s: &[u8], at: usize, name: u16) -> Option<(RawRow, usize)>
    ensures { row_read result ≡ read_result name s.now at }
{
    let next = expect(s, at, b"]")?;
    Some((RawRow::Result(name), next))
}

// Reads a row, and the position past it.
pub fn read_row(s: &[u8], at: usize) -> Option<(RawRow, usize)>
    ensures { row_read result ≡ read_row s.now at }
{
    if let Some(p) = expect(s, at, b"[result") {
        let (name, q) = read_argument(s, p)?;
        return read_result(s, q, name);
    }
    let p = expect(s, at, b"[bind")?;
    let (name, q) = read_argument(s, p)?;
    read_bind(s, q, name)
}
