// The answer of the run calls. `specs/RunCalls` has the calls, and the numbers and values of each answer.
#![tactic(auto)]

use format::Refusal;

// The number of threads then in use.
pub type RunAnswer = Result<u8, Refusal>;
