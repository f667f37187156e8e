// The report of a file, its answer as one number.
#![tactic(auto)]

ghost use Rattle.std.specs.Prelude.{◌≡◌};
ghost use Rattle.report.specs.Report.{reported};
ghost use Rattle.calls.specs.Answers.{write_answer};
ghost use Rattle.packing.specs.Packing.{packed, number_bits};

// Writes the report of a file into the lent output, and loads the file into the lent store: the bytes written.
#[tactic(auto, using(lossless::proofs::Lossless::report_lossless))]
pub fn report(file: &[u8], store: &mut [u8], out: &mut [u8]) -> u64
    ensures value { result ≡ packed number_bits (write_answer (reported file.now store.old out.old).answer) }
    ensures store_after { store.new ≡ (reported file.now store.old out.old).store }
    ensures out_after { out.new ≡ (reported file.now store.old out.old).out }
{
    packing::pack_write(reporting::report(file, store, out))
}
