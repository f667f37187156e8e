// The calls replace and preview as definitions with their theorems. There is no code here: `specs/Replacement` has the definitions, `proofs/Replacement` what holds of them.
#![tactic(auto)]
