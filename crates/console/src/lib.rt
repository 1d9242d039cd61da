// What is printed for any input: no code, but theorems over the definitions of the crates that read and print.
#![tactic(auto)]
