// The text of the document in the bytes of a store, written into a slice that has room for it.
#![tactic(auto)]

ghost use Rattle.std.specs.Prelude.{◌≡◌, length};
ghost use Rattle.format.specs.Print.{document_text};
ghost use Rattle.calls.specs.Layout.{store_size};
ghost use Rattle.write_bytes.specs.Write.{Room, Wrote};
ghost use Rattle.store.specs.Document.{store_document};
ghost use Rattle.write_sets.specs.Keys.{StoreKeys};

use store::Store;
use write_claims::put_claims;
use write_rows::put_rows;
use write_sets::put_sets;

// Writes the document of the bytes of a store with so many rows, of which only the marked names and channel rows can have sets.
pub fn put_store(out: &mut [u8], store: &[u8], rows: u8, names: &[u8], chans: &[u8]) -> usize
    requires store_len { length store.now ≡ store_size }
    requires store_keys { StoreKeys names.now chans.now store.now }
    requires room { Room out.old 0 (document_text (store_document rows store.now)) }
    ensures { Wrote out.old 0 (document_text (store_document rows store.now)) result out.new }
{
    let a = write_text::put_word(out, 0, b"[dispenser 1]\n");
    let b = put_rows(out, a, store, rows);
    let c = put_sets(out, b, b"[flow", &store[Store::FLOWS..], names);
    let d = put_sets(out, c, b"[comm", &store[Store::COMMS..], chans);
    put_claims(out, d, &store[Store::CLAIMS..])
}
