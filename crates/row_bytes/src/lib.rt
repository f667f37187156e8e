// The rows of a store as bytes: how many there are, and whether each has the bytes of a row.
#![tactic(auto)]

ghost use Rattle.std.specs.Prelude.{◌≡◌, ◌≤◌, length};
ghost use Rattle.format.specs.Limits.{row_limit};
ghost use Rattle.calls.specs.Layout.{row_size, store_size};
ghost use Rattle.calls.specs.Canonical.{count_rows, row_sound, rows_sound};
ghost use Rattle.row_bytes.specs.Rows.{used_bytes};

use byte_tests::all_below;
use store::Store;

// How many bytes a row of this kind uses; 0 for a number that is no kind.
#[tactic(auto, unfolding(crate::specs::Rows::used_bytes))]
fn used_bytes(kind: u8) -> usize
    ensures { (result ≡ used_bytes kind) × (result ≤ row_size) }
{
    let used = [0, 2, 3, 3, 5, 4, 5, 4, 4, 6, 4, 4, 4, 4, 8, 5];
    used.get(kind as usize).copied().unwrap_or(0)
}

// Whether some row with numbers below the limit has these bytes.
#[tactic(auto, using(crate::proofs::RowBytes::row_none, crate::proofs::RowBytes::row_unused))]
fn row_sound(row: &[u8]) -> bool
    requires { length row.now ≡ row_size }
    ensures { result ≡ row_sound row.now }
{
    let used = used_bytes(row[0]);
    if used == 0 {
        return false;
    }
    if all_below(&row[used..], 1) {
        let limit = Store::ROWS as u8;
        return all_below(&row[1..used], limit);
    }
    false
}

// How many rows stand before the first of kind 0.
#[tactic(auto, using(crate::proofs::Counting::counted_stops, crate::proofs::Counting::counted_goes, crate::proofs::Counting::counted_all))]
pub fn count_rows(store: &[u8]) -> u8
    ensures { (result ≡ count_rows row_limit store.now) × (result ≤ row_limit) }
{
    for r in 0..Store::ROWS {
        if read_text::byte_at(store, r * Store::ROW_SIZE) == 0 {
            return r as u8;
        }
    }
    Store::ROWS as u8
}

// Whether each of the first rows has the bytes of a row.
#[tactic(auto, using(crate::proofs::FirstRows::rows_go, crate::proofs::FirstRows::rows_fail, crate::proofs::FirstRows::rows_end))]
pub fn rows_sound(store: &[u8], rows: u8) -> bool
    requires store_len { length store.now ≡ store_size }
    requires rows_le_row_limit { rows ≤ row_limit }
    ensures { result ≡ rows_sound rows store.now }
{
    for r in (0..rows as usize).rev() {
        let at = r * Store::ROW_SIZE;
        if !row_sound(&store[at..at + Store::ROW_SIZE]) {
            return false;
        }
    }
    true
}
