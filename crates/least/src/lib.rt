// The smallest tables of a program, as a definition with its theorems. There is no code here: `specs/Least` has the definition, `proofs/Least` what holds of it.
#![tactic(auto)]
