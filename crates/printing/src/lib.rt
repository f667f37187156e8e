// What a call answers, printed on standard output, by the writer of files and not by Display, which divides. Each function ends at the
// first write that fails, with its error.
#![tactic(auto)]

use calls::{JudgeAnswer, LoadAnswer, VerdictAnswer, WriteAnswer};
use format::Refusal;
use refusal_numbers::number;
use std::io;
use write_text::put_argument;

// Prints a number behind a space, written as files and reports have it. What is answered has 16 bits, but for the length of a text that is too long for a file.
fn print_number(rt: &impl Print, n: usize) -> io::Result<()> {
    if n > 65535 {
        return rt.write_all(b" over 65535");
    }
    let mut text = [0; 6];
    let end = put_argument(&mut text, 0, n as u16);
    rt.write_all(&text[..end])
}

// A refusal, as a report has it.
pub fn print_refusal(rt: &impl Print, refusal: Refusal) -> io::Result<()> {
    rt.write_all(b"[refused")?;
    print_number(rt, number(refusal.reason) as usize)?;
    print_number(rt, refusal.line)?;
    rt.write_all(b"]\n")
}

// A word and the numbers of an accepted call in a line, or its refusal.
fn print_answer<const N: usize>(
    rt: &impl Print,
    word: &[u8],
    answer: Result<[usize; N], Refusal>,
) -> io::Result<()> {
    match answer {
        Ok(numbers) => {
            rt.write_all(word)?;
            for n in numbers {
                print_number(rt, n)?;
            }
            rt.write_all(b"\n")
        }
        Err(refusal) => print_refusal(rt, refusal),
    }
}

pub fn print_loaded(rt: &impl Print, answer: LoadAnswer) -> io::Result<()> {
    print_answer(
        rt,
        b"loaded",
        answer.map(|n| [n.rows, n.flows, n.comms, n.claims]),
    )
}

pub fn print_judged(rt: &impl Print, answer: JudgeAnswer) -> io::Result<()> {
    print_answer(rt, b"accepted", answer.map(|n| [n]))
}

// Whether a verdict is given; its words are in the report. In one write, for which `print_answer` has two.
pub fn print_verdict(rt: &impl Print, answer: VerdictAnswer) -> io::Result<()> {
    match answer.status {
        Ok(()) => rt.write_all(b"given\n"),
        Err(refusal) => print_refusal(rt, refusal),
    }
}

// The text itself where it was written, in lines of its own.
pub fn print_written(rt: &impl Print, answer: WriteAnswer, out: &[u8]) -> io::Result<()> {
    print_answer(rt, b"written", answer.map(|n| [n]))?;
    match answer {
        Ok(n) => print_start(rt, n, out),
        Err(_) => Ok(()),
    }
}

// The first n bytes, where there are so many.
fn print_start(rt: &impl Print, n: usize, out: &[u8]) -> io::Result<()> {
    match out.get(..n) {
        Some(start) => rt.write_all(start),
        None => Ok(()),
    }
}

// A name, in a line of its own.
pub fn print_name(rt: &impl Print, name: &[u8]) -> io::Result<()> {
    rt.write_all(name)?;
    rt.write_all(b":\n")
}

// The bytes of a report.
pub fn print_report(rt: &impl Print, answer: WriteAnswer, out: &[u8]) -> io::Result<()> {
    match answer {
        Ok(n) => print_start(rt, n, out),
        Err(refusal) => print_refusal(rt, refusal),
    }
}
