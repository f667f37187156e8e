// The rows of a store, tested where they stand: whether some document has these bytes.
#![tactic(auto)]

ghost use Rattle.std.specs.Prelude.{◌≡◌, ◌&&◌, ◌≤◌, length, ltb};
ghost use Rattle.format.specs.Limits.{row_limit};
ghost use Rattle.calls.specs.Layout.{store_size};
ghost use Rattle.calls.specs.Canonical.{rows_sound, rest_zero};

use byte_tests::all_below;
use row_bytes::rows_sound;
use store::Store;

// Whether some program, its structure set aside, has the bytes that stand where a store has so many rows.
#[tactic(auto, using(crate::proofs::Parts::no_rows, crate::proofs::Parts::rows_unsound, crate::proofs::Parts::rest_decides))]
pub fn rows_canonical(store: &[u8], rows: u8) -> bool
    requires store_len { length store.now ≡ store_size }
    requires rows_le_row_limit { rows ≤ row_limit }
    ensures { result ≡ (ltb 0 rows && rows_sound rows store.now && rest_zero rows store.now) }
{
    if rows == 0 {
        return false;
    }
    let rest = rows as usize * Store::ROW_SIZE;
    rows_sound(store, rows) && all_below(&store[rest..Store::FLOWS], 1)
}
