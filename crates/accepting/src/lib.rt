// Loading and judging a file at once, as a definition with demand 3 in it. There is no code here.
#![tactic(auto)]
