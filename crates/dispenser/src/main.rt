// Reads a task file from standard input and prints its report: the count of its claims and each channel's verdict, or its refusal.
#![tactic(auto)]

ghost use Rattle.std.specs.Prelude.{◌≤◌, length};

use calls::WriteAnswer;
use lent_sizes::REPORT_BYTES;
use std::env::{Env, FillError};
use store::Store;

// The program takes no arguments: given any, it says on standard error how it is used, and reads nothing.
fn main(rt: HostRuntime) {
    if has_argument(&rt) {
        print_usage(&rt);
    } else {
        report_input(&rt);
    }
}

// Whether an argument comes behind the program's name: also an empty one, and one that is longer than the byte lent.
fn has_argument(rt: &impl Env) -> bool {
    let mut start = [0u8; 1];
    !matches!(rt.arg(1, &mut start), Err(FillError::NotPresent))
}

// Here and where the report is printed, the exit status stays 0 if a write fails. Not inlined, nor are `read_input` and `print_written`, so
// that what they take of stack is free when the file is judged.
#[inline(never)]
fn print_usage(rt: &impl Eprint) {
    let _ = rt.eprint(
        "usage: dispenser < FILE\nReads a task file from standard input and prints its verdicts, or [refused NUMBER LINE].\nThe exit status is always 0; channel-check explains refusals and has an exit status.\n",
    );
}

// The bytes of the input, as many as there is room for.
#[inline(never)]
fn read_input(rt: &impl Input, file: &mut [u8]) -> usize
    ensures { result ≤ length file.new }
{
    reading::read_full(&mut rt.reader(), file)
}

// Prints the report of a file.
fn report_file(rt: &impl Print, file: &[u8]) {
    let mut store = [0u8; Store::SIZE];
    let mut out = [0u8; REPORT_BYTES];
    let answer = reporting::report(file, &mut store, &mut out);
    print_written(rt, answer, &out);
}

// A longer file than may be loaded is read by one byte more, which is enough to refuse it.
fn report_input(rt: &(impl Input + Print)) {
    let mut file = [0u8; Store::FILE_BYTES + 1];
    let n = read_input(rt, &mut file);
    report_file(rt, &file[..n]);
}

// The bytes written. Store and output are long enough, so that there is always a report.
#[inline(never)]
fn print_written(rt: &impl Print, answer: WriteAnswer, out: &[u8]) {
    if let Ok(length) = answer {
        if let Some(report) = out.get(..length) {
            let _ = rt.write_all(report);
        }
    }
}
