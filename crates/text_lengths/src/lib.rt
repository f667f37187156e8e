// How long the text of the document in the bytes of a store is, as a sum of the lengths of its lines.
#![tactic(auto)]

ghost use Rattle.std.specs.Prelude.{◌≡◌, length};
ghost use Rattle.format.specs.Print.{document_text};
ghost use Rattle.calls.specs.Layout.{store_size};
ghost use Rattle.store.specs.Document.{store_document};
ghost use Rattle.write_sets.specs.Keys.{StoreKeys};

use claim_lengths::claims_length;
use row_lengths::rows_length;
use set_lengths::sets_length;
use store::Store;

// The length of the text of the bytes of a store with so many rows, of which only the marked names and channel rows can have sets.
pub fn store_length(store: &[u8], rows: u8, names: &[u8], chans: &[u8]) -> usize
    requires store_len { length store.now ≡ store_size }
    requires store_keys { StoreKeys names.now chans.now store.now }
    ensures { result ≡ length (document_text (store_document rows store.now)) }
{
    let lines = rows_length(store, rows);
    let flows = sets_length(b"[flow", &store[Store::FLOWS..], names);
    let comms = sets_length(b"[comm", &store[Store::COMMS..], chans);
    let claims = claims_length(&store[Store::CLAIMS..]);
    lines + flows + comms + claims + 14
}
