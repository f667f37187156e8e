// The call write, its answer as one number.
#![tactic(auto)]

ghost use Rattle.std.specs.Prelude.{◌≡◌};
ghost use Rattle.calls.specs.Calls.{write};
ghost use Rattle.calls.specs.Answers.{write_answer};
ghost use Rattle.packing.specs.Packing.{packed, number_bits};

// Writes the text of a store into the lent output: the bytes written.
pub fn write(store: &[u8], out: &mut [u8]) -> u64
    ensures value { result ≡ packed number_bits (write_answer (write store.now out.old).answer) }
    ensures out_after { out.new ≡ (write store.now out.old).bytes }
{
    packing::pack_write(call_write::write(store, out))
}
