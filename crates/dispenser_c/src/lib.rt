// The checker's calls as C functions on numbers, byte slices and a list of thread records; `include/dispenser.h` declares them.
// A slice is a pointer and a length. An answer is one number, packed as `Packing` of crate packing says.
#![tactic(auto)]

ghost use Rattle.std.specs.Prelude.{◌≡◌, ltb};
ghost use Rattle.calls.specs.Layout.{store_size};
ghost use Rattle.calls.specs.Calls.{load, judge, verdict, write};
ghost use Rattle.inference.specs.Inference.{infer};
ghost use Rattle.replacement.specs.Replacement.{replace, preview};
ghost use Rattle.report.specs.Report.{report_limit, reported};
ghost use Rattle.calls.specs.Answers.{load_answer, judge_answer, verdict_answer, write_answer};
ghost use Rattle.run_memory.specs.RunMemory.{run_size};
ghost use Rattle.run_calls.specs.RunCalls.{run_answer, begin, move, meet};
ghost use Rattle.packing.specs.Packing.{packed, count_bits, word_bits, number_bits};

use machine::ThreadRecord;

// The bytes that a store must have.
#[unsafe(no_mangle)]
pub extern "C" fn dispenser_store_size() -> u64
    ensures { result ≡ store_size }
{
    lent_sizes::store_size()
}

// Loads a file into the lent store: rows, flows, comms and claims.
#[unsafe(no_mangle)]
pub extern "C" fn dispenser_load(file: &[u8], store: &mut [u8]) -> u64
    ensures value { result ≡ packed count_bits (load_answer (load file.now store.old).answer) }
    ensures store_after { store.new ≡ (load file.now store.old).bytes }
{
    packed_load::load(file, store)
}

// Judges the claims of a store: how many there are.
#[unsafe(no_mangle)]
pub extern "C" fn dispenser_judge(store: &[u8]) -> u64
    ensures value { result ≡ packed number_bits (judge_answer (judge store.now)) }
    ensures store_after { store.exit.now ≡ store.entry.now }
{
    packed_judge::judge(store)
}

// The verdict of a channel row: its five words.
#[unsafe(no_mangle)]
pub extern "C" fn dispenser_verdict(store: &[u8], channel: usize) -> u64
    ensures value { result ≡ packed word_bits (verdict_answer (verdict store.now channel)) }
    ensures store_after { store.exit.now ≡ store.entry.now }
{
    packed_verdict::verdict(store, channel)
}

// Writes the text of a store into the lent output: the bytes written.
#[unsafe(no_mangle)]
pub extern "C" fn dispenser_write(store: &[u8], out: &mut [u8]) -> u64
    ensures value { result ≡ packed number_bits (write_answer (write store.now out.old).answer) }
    ensures out_after { out.new ≡ (write store.now out.old).bytes }
{
    packed_write::write(store, out)
}

// Puts the smallest tables in the place of the lent store's own: rows, flows, comms and claims then.
#[unsafe(no_mangle)]
pub extern "C" fn dispenser_infer(store: &mut [u8]) -> u64
    ensures value { result ≡ packed count_bits (load_answer (infer store.old).answer) }
    ensures store_after { store.new ≡ (infer store.old).bytes }
{
    packed_infer::infer(store)
}

// Puts a set of rows, and unit if it is not 0, in the place of the set of a bound name: rows, flows, comms and claims then.
#[unsafe(no_mangle)]
pub extern "C" fn dispenser_replace(store: &mut [u8], name: usize, unit: u8, rows: &[u8]) -> u64
    ensures value { result ≡ packed count_bits (load_answer (replace store.old name (ltb 0 unit) rows.now).answer) }
    ensures store_after { store.new ≡ (replace store.old name (ltb 0 unit) rows.now).bytes }
{
    packed_replace::replace(store, name, unit, rows)
}

// Judges the claims of a store with such a set in the place of the set of a bound name: how many there are. The store is as before.
#[unsafe(no_mangle)]
pub extern "C" fn dispenser_preview(store: &mut [u8], name: usize, unit: u8, rows: &[u8]) -> u64
    ensures value { result ≡ packed number_bits (judge_answer (preview store.old name (ltb 0 unit) rows.now)) }
    ensures store_unchanged { store.new ≡ store.old }
{
    packed_preview::preview(store, name, unit, rows)
}

// The bytes that the output of a report must have.
#[unsafe(no_mangle)]
pub extern "C" fn dispenser_report_size() -> u64
    ensures { result ≡ report_limit }
{
    lent_sizes::report_size()
}

// Writes the report of a file into the lent output, and loads the file into the lent store: the bytes written.
#[unsafe(no_mangle)]
pub extern "C" fn dispenser_report(file: &[u8], store: &mut [u8], out: &mut [u8]) -> u64
    ensures value { result ≡ packed number_bits (write_answer (reported file.now store.old out.old).answer) }
    ensures store_after { store.new ≡ (reported file.now store.old out.old).store }
    ensures out_after { out.new ≡ (reported file.now store.old out.old).out }
{
    packed_report::report(file, store, out)
}

// The bytes that run memory must have.
#[unsafe(no_mangle)]
pub extern "C" fn dispenser_run_size() -> u64
    ensures { result ≡ run_size }
{
    packed_run::run_size()
}

// Begins a run of a store's program in the lent run memory and thread records: the threads in use, which is 1.
#[unsafe(no_mangle)]
pub extern "C" fn dispenser_begin(store: &[u8], run: &mut [u8], threads: &mut [ThreadRecord]) -> u64
    ensures value { result ≡ packed number_bits (run_answer (begin store.now run.old threads.old).answer) }
    ensures run_after { run.new ≡ (begin store.now run.old threads.old).run }
    ensures threads_after { threads.new ≡ (begin store.now run.old threads.old).threads }
{
    packed_run::begun(store, run, threads)
}

// A thread's own move: the threads then in use.
#[unsafe(no_mangle)]
pub extern "C" fn dispenser_move(
    store: &[u8],
    run: &mut [u8],
    threads: &mut [ThreadRecord],
    thread: usize,
) -> u64
    ensures value { result ≡ packed number_bits (run_answer (move store.now run.old threads.old thread).answer) }
    ensures run_after { run.new ≡ (move store.now run.old threads.old thread).run }
    ensures threads_after { threads.new ≡ (move store.now run.old threads.old thread).threads }
{
    packed_run::moved(store, run, threads, thread)
}

// A sending and a receiving thread that meet: the threads then in use.
#[unsafe(no_mangle)]
pub extern "C" fn dispenser_meet(
    store: &[u8],
    run: &mut [u8],
    threads: &mut [ThreadRecord],
    sender: usize,
    receiver: usize,
) -> u64
    ensures value { result ≡ packed number_bits (run_answer (meet store.now run.old threads.old sender receiver).answer) }
    ensures run_after { run.new ≡ (meet store.now run.old threads.old sender receiver).run }
    ensures threads_after { threads.new ≡ (meet store.now run.old threads.old sender receiver).threads }
{
    packed_run::met(store, run, threads, sender, receiver)
}
