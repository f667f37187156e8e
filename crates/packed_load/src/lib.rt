// The call load, its answer as one number.
#![tactic(auto)]

ghost use Rattle.std.specs.Prelude.{◌≡◌};
ghost use Rattle.calls.specs.Calls.{load};
ghost use Rattle.calls.specs.Answers.{load_answer};
ghost use Rattle.packing.specs.Packing.{packed, count_bits};

// Loads a file into the lent store: rows, flows, comms and claims.
pub fn load(file: &[u8], store: &mut [u8]) -> u64
    ensures value { result ≡ packed count_bits (load_answer (load file.now store.old).answer) }
    ensures store_after { store.new ≡ (load file.now store.old).bytes }
{
    packing::pack_load(call_load::load(file, store))
}
