// The text of the document in the store at the head of a slice, written into another, and its length.
#![tactic(auto)]

ghost use Rattle.std.specs.Prelude.{◌≡◌, ◌≤◌, length, take};
ghost use Rattle.format.specs.Print.{document_text};
ghost use Rattle.calls.specs.Layout.{store_size};
ghost use Rattle.write_bytes.specs.Write.{Room, Wrote};
ghost use Rattle.store.specs.Document.{store_document};
ghost use Rattle.write_sets.specs.Keys.{StoreKeys};

use store::Store;
use text_lengths::store_length;
use write_store::put_store;

// Writes the document of the store at the head of a slice, with so many rows, and returns the length of its text. Only the marked names and channel rows can have sets.
pub fn put_document(out: &mut [u8], store: &[u8], rows: u8, names: &[u8], chans: &[u8]) -> usize
    requires store_size_in_bounds { store_size ≤ length store.now }
    requires store_keys { StoreKeys names.now chans.now (take store_size store.now) }
    requires room { Room out.old 0 (document_text (store_document rows (take store_size store.now))) }
    ensures { Wrote out.old 0 (document_text (store_document rows (take store_size store.now))) result out.new }
{
    put_store(out, &store[..Store::SIZE], rows, names, chans)
}

// The length of that text, counted.
pub fn document_length(store: &[u8], rows: u8, names: &[u8], chans: &[u8]) -> usize
    requires store_size_in_bounds { store_size ≤ length store.now }
    requires store_keys { StoreKeys names.now chans.now (take store_size store.now) }
    ensures { result ≡ length (document_text (store_document rows (take store_size store.now))) }
{
    store_length(&store[..Store::SIZE], rows, names, chans)
}
