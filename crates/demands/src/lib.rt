// The demands. There is no code here: `proofs/Demands` has them of the definitions of the calls, `proofs/Promises` of the functions of crate checker.
#![tactic(auto)]
