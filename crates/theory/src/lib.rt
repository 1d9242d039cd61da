// What follows from the scope's definitions alone: theorems, no code.
#![tactic(auto)]
