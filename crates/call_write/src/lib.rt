// The call write.
#![tactic(auto)]

ghost use Rattle.calls.specs.Calls.{Leaves, write};

use calls::WriteAnswer;
use format::Reason;
use store::Store;

// Writes the text of a store into the lent output: its length, or refusals 20 to 23. In a store that opens only bound names and chan rows have sets.
pub fn write(store: &[u8], out: &mut [u8]) -> WriteAnswer
    ensures { Leaves (write store.now out.old) result out.new }
{
    let rows = opening::open(store)?;
    let fixed = &store[..Store::SIZE];
    let names = binders::bound(fixed, rows);
    let chans = allowed_lines::chan_rows(fixed, rows);
    let length = writing::document_length(store, rows, &names, &chans);
    if out.len() < length {
        return Err(Reason::OutputTooShort.at(0));
    }
    writing::put_document(out, store, rows, &names, &chans);
    Ok(length)
}
