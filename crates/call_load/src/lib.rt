// The call load.
#![tactic(auto)]

ghost use Rattle.calls.specs.Calls.{Leaves, load};

use calls::LoadAnswer;
use format::Reason;
use store::Store;

// Loads a file into the lent store: its counts, or refusals 20 and 1 to 9.
pub fn load(file: &[u8], store: &mut [u8]) -> LoadAnswer
    ensures { Leaves (load file.now store.old) result store.new }
{
    if store.len() < Store::SIZE {
        return Err(Reason::StoreTooShort.at(0));
    }
    load_file::load_file(file, store)
}
