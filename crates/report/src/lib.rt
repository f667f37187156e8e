// The report of a file. There is no code here: `specs/Report` has its text and the call that writes it; crate reporting writes it.
#![tactic(auto)]
