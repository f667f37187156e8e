// The call infer as a definition with its theorems. There is no code here: `specs/Inference` has the definition, `proofs/Inference` what holds of it.
#![tactic(auto)]
