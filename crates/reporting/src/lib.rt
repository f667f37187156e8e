// What the program prints of a file, written into lent bytes: the count of its claims and each channel's verdict, or its refusal.
#![tactic(auto)]

ghost use Rattle.std.specs.Prelude.{Ok, ◌≤◌, length, take, ◌≡◌};
ghost use Rattle.calls.specs.Layout.{store_size};
ghost use Rattle.calls.specs.Calls.{Leaves, load, opened};
ghost use Rattle.report.specs.Report.{checked_text, report, report_limit, LeavesReport, reported};
ghost use Rattle.write_bytes.specs.Write.{Wrote};
ghost use Rattle.opening.specs.Opening.{OpenedIs};
ghost use Rattle.reporting.specs.Reports.{FileReported};

use calls::{LoadAnswer, WriteAnswer};
use channel_lines::put_channels;
use format::{Reason, Refusal};
use grids::GRID;
use lent_sizes::REPORT_BYTES;
use report_lines::{put_accepted, put_refused};
use store::Store;

// Writes the report of a store that opens, with so many rows: what judging it gives. Not inlined, nor are the next two, so that of loading,
// opening and judging none has its arrays on the stack while another runs.
#[inline(never)]
fn put_judged(out: &mut [u8], store: &[u8], rows: u8) -> usize
    requires opened_is { OpenedIs (opened store.now) (take store_size store.now) (Ok rows) }
    requires report_limit_in_bounds { report_limit ≤ length out.old }
    ensures { Wrote out.old 0 (checked_text (opened store.now)) result out.new }
{
    let fixed = &store[..Store::SIZE];
    let mut grid = [0u8; GRID];
    match judging::judge_store(fixed, rows, &mut grid) {
        Err(refusal) => put_refused(out, 0, refusal),
        Ok(claims) => {
            let count = claims as u16;
            let next = put_accepted(out, 0, count);
            put_channels(out, next, fixed, rows, &grid)
        }
    }
}

// The count of rows of a store that opens, or why it does not.
#[inline(never)]
fn open(store: &[u8]) -> Result<u8, Refusal>
    ensures { OpenedIs (opened store.now) (take store_size store.now) result }
{
    opening::open(store)
}

// Loads a file into the store.
#[inline(never)]
fn load(file: &[u8], store: &mut [u8]) -> LoadAnswer
    ensures { Leaves (load file.now store.old) result store.new }
{
    call_load::load(file, store)
}

// Writes the report of a store: why it does not open, or what judging it gives.
fn put_store(out: &mut [u8], store: &[u8]) -> usize
    requires { report_limit ≤ length out.old }
    ensures { Wrote out.old 0 (checked_text (opened store.now)) result out.new }
{
    match open(store) {
        Err(refusal) => put_refused(out, 0, refusal),
        Ok(rows) => put_judged(out, store, rows),
    }
}

// Writes the report of a file, which is loaded into the store.
fn put_file(file: &[u8], store: &mut [u8], out: &mut [u8]) -> usize
    requires store_size_in_bounds { store_size ≤ length store.old }
    requires report_limit_in_bounds { report_limit ≤ length out.old }
    ensures { FileReported file.now store.old out.old result store.new out.new }
{
    match load(file, store) {
        Err(refusal) => put_refused(out, 0, refusal),
        Ok(_) => put_store(out, store),
    }
}

// Writes the report of a file into the lent output, and loads the file into the lent store: the report's length, or refusals 20 and 23.
pub fn report(file: &[u8], store: &mut [u8], out: &mut [u8]) -> WriteAnswer
    ensures { LeavesReport (reported file.now store.old out.old) result store.new out.new }
{
    if store.len() < Store::SIZE {
        return Err(Reason::StoreTooShort.at(0));
    }
    if out.len() < REPORT_BYTES {
        return Err(Reason::OutputTooShort.at(0));
    }
    let length = put_file(file, store, out);
    Ok(length)
}
