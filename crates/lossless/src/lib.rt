// Answers as numbers lose nothing. There is no code here: `proofs/Lossless` says it of every answer of the calls.
#![tactic(auto)]
