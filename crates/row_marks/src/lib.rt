// Sets of rows as bytes: a row is in the set if its byte is not 0.
#![tactic(auto)]

ghost use Rattle.std.specs.Prelude.{true, ◌≡◌, ◌≤◌, length};
ghost use Rattle.format.specs.Limits.{row_limit};
ghost use Rattle.row_marks.specs.RowMarks.{three_meet, NoneMarked};

use store::Store;

// Whether one of the first n rows is in all three sets. Every row is looked at, so that the loop has no way out but its end.
pub fn three_meet(a: &[u8], b: &[u8], c: &[u8], n: usize) -> bool
    requires { (n ≤ length a.now) × (n ≤ length b.now) × (n ≤ length c.now) }
    ensures { result ≡ three_meet n a.now b.now c.now }
{
    let mut found = 0;
    for i in 0..n {
        let x = b[i].min(c[i]);
        let y = a[i].min(x);
        found = found.max(y);
    }
    0 < found
}

// Whether no row is marked. Every byte is looked at, so that the loop has no way out but its end.
pub fn none_marked(marks: &[u8]) -> bool
    requires { row_limit ≤ length marks.now }
    ensures { result ≡ true → NoneMarked marks.now }
{
    let mut found = 0;
    for r in 0..Store::ROWS {
        found = found.max(marks[r]);
    }
    found == 0
}
