// The counts of a store's lines, where its rows have been counted.
#![tactic(auto)]

ghost use Rattle.std.specs.Prelude.{◌≡◌, length};
ghost use Rattle.calls.specs.Layout.{store_size, decode_claims};
ghost use Rattle.line_counts.specs.Counting.{store_counts};

use calls::Counts;
use store::Store;

// How many rows have a claim, of which each has a code.
#[tactic(auto, using(crate::proofs::Counting::claims_counted))]
pub fn count_claims(codes: &[u8]) -> usize
    ensures { result ≡ length (decode_claims 0 codes.now) }
{
    codes.iter().filter(|code| **code != 0).count()
}

// The counts of the lines of a store with so many rows.
pub fn store_counts(fixed: &[u8], rows: u8) -> Counts
    requires { length fixed.now ≡ store_size }
    ensures { result ≡ store_counts rows fixed.now }
{
    let flows = write_sets::count_sets(&fixed[Store::FLOWS..]);
    let comms = write_sets::count_sets(&fixed[Store::COMMS..]);
    let claims = count_claims(&fixed[Store::CLAIMS..]);
    Counts {
        rows: rows as usize,
        flows,
        comms,
        claims,
    }
}
