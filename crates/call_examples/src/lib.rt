// Examples of the calls verdict and write, and of what the program prints, by computation. There is no code here.
#![tactic(auto)]
