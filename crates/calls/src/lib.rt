// The answers of the four calls. `specs/Answers` gives the numbers and values of each case.
#![tactic(auto)]

use format::Refusal;

// The counts of row, flow, comm and claim lines.
#[derive(Clone, Copy, PartialEq, Eq)]
pub struct Counts {
    pub rows: usize,
    pub flows: usize,
    pub comms: usize,
    pub claims: usize,
}

pub type LoadAnswer = Result<Counts, Refusal>;

// The count of claims, all of which hold.
pub type JudgeAnswer = Result<usize, Refusal>;

// Whether a verdict was given, and the five words in the order one-shot, one-to-one, fan-out, fan-in, one-sync; all no
// where the call is refused.
#[derive(Clone, Copy, PartialEq, Eq)]
pub struct VerdictAnswer {
    pub status: Result<(), Refusal>,
    pub words: [bool; 5],
}

// The bytes written.
pub type WriteAnswer = Result<usize, Refusal>;
