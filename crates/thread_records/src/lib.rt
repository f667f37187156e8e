// Thread records in a lent list: those that may be in use taken out of it by value, and put back. The calls of lent_runs go on
// these; those of call_run, and C's, on the lent list, and `public` of lent_runs says that these may as well go on records.
#![tactic(auto)]

ghost use Rattle.std.specs.Prelude.{◌≡◌, ◌<◌, min, get_or, set};
ghost use Rattle.machine.specs.Machine.{thread_limit};
ghost use Rattle.thread_records.specs.Records.{no_record, no_records, with_record, records_in, put_records};

use machine::ThreadRecord;
use run_memory::Run;

// The records that may be in use, the first of those lent, and how many are lent.
#[derive(Clone, Copy, PartialEq, Eq)]
pub struct Records {
    pub lent: usize,
    pub list: [ThreadRecord; Run::THREADS as usize],
}

// The record of this number.
pub fn record_at(records: Records, k: usize) -> ThreadRecord
    requires { k < thread_limit }
    ensures { result ≡ get_or records.list k no_record }
{
    records.list[k]
}

// Another record of this number.
pub fn with_record(mut records: Records, k: usize, t: ThreadRecord) -> Records
    requires { k < thread_limit }
    ensures { result ≡ with_record records k t }
{
    records.list[k] = t;
    records
}

// No record yet, of a list of this length.
pub fn no_records(lent: usize) -> Records
    ensures { result ≡ no_records lent }
{
    let none = ThreadRecord {
        row: 0,
        cell: 0,
        frame: 0,
    };
    Records {
        lent,
        list: [none; Run::THREADS as usize],
    }
}

// How many of the records lent may be in use.
pub fn in_use(lent: usize) -> usize
    ensures { result ≡ min lent thread_limit }
{
    lent.min(Run::THREADS as usize)
}

// The records of a lent list, one by one, as the definition has them.
pub fn records_in(threads: &[ThreadRecord]) -> Records
    ensures { result ≡ records_in threads.now }
{
    let mut records = no_records(threads.len());
    for k in (0..in_use(threads.len())).rev() {
        records.list[k] = threads[k];
    }
    records
}

// Puts records in the place of the first ones of a lent list.
pub fn put_records(threads: &mut [ThreadRecord], records: Records)
    ensures { threads.new ≡ put_records threads.old records }
{
    for k in (0..in_use(threads.len())).rev() {
        threads[k] = records.list[k];
    }
}
