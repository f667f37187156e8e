// The refusals of judge and verdict: 10 with its line, 24, and a verdict that is not given.
#![tactic(auto)]

ghost use Rattle.std.specs.Prelude.{◌≡◌};
ghost use Rattle.format.specs.Refusals.{refusal};
ghost use Rattle.format.specs.Structure.{row_line};
ghost use Rattle.calls.specs.Calls.{no_verdict};

use calls::VerdictAnswer;
use format::{Reason, Refusal};

// 10, at the line of a row.
pub fn flow_refusal(row: u8) -> Refusal
    ensures { result ≡ refusal Reason.FlowRuleFails (row_line row) }
{
    Reason::FlowRuleFails.at_row(row)
}

// A verdict that is not given: no word holds.
pub fn no_verdict(refusal: Refusal) -> VerdictAnswer
    ensures { result ≡ no_verdict refusal }
{
    VerdictAnswer {
        status: Err(refusal),
        words: [false; 5],
    }
}

// 24: the number is no chan row.
pub fn not_a_channel() -> VerdictAnswer
    ensures { result ≡ no_verdict (refusal Reason.NotAChannel 0) }
{
    no_verdict(Reason::NotAChannel.at(0))
}
