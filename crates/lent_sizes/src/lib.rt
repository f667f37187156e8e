// How many bytes a caller lends at least.
#![tactic(auto)]

ghost use Rattle.std.specs.Prelude.{◌≡◌};
ghost use Rattle.calls.specs.Layout.{store_size};
ghost use Rattle.report.specs.Report.{report_limit};

use store::Store;

// No report is longer: 36 bytes for each row's line and for a first line.
pub const REPORT_BYTES: usize = 36 * (Store::ROWS + 1);

// The bytes that a store must have.
pub fn store_size() -> u64
    ensures { result ≡ store_size }
{
    Store::SIZE as u64
}

// The bytes that the output of a report must have.
pub fn report_size() -> u64
    ensures { result ≡ report_limit }
{
    REPORT_BYTES as u64
}
