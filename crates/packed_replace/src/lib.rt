// The call replace, its answer as one number and the yes or no for unit as another: 0 is no.
#![tactic(auto)]

ghost use Rattle.std.specs.Prelude.{◌≡◌, ltb};
ghost use Rattle.replacement.specs.Replacement.{replace};
ghost use Rattle.calls.specs.Answers.{load_answer};
ghost use Rattle.packing.specs.Packing.{packed, count_bits};

// Puts a set of rows, and unit if it is not 0, in the place of the set of a bound name: rows, flows, comms and claims then.
pub fn replace(store: &mut [u8], name: usize, unit: u8, rows: &[u8]) -> u64
    ensures value { result ≡ packed count_bits (load_answer (replace store.old name (ltb 0 unit) rows.now).answer) }
    ensures store_after { store.new ≡ (replace store.old name (ltb 0 unit) rows.now).bytes }
{
    packing::pack_load(call_replace::replace(store, name, 0 < unit, rows))
}
