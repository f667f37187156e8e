// How large an answer can be. There is no code here: `proofs/Bounds` has the bounds of its lines, counts and words.
#![tactic(auto)]
