// The files of the examples, and the calls opened for computing with them. There is no code here.
#![tactic(auto)]
