// The examples, by computation. There is no code here: `proofs/Marked` has the files and what the calls answer of them.
#![tactic(auto)]
