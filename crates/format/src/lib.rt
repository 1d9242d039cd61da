// A layer in a file as definitions, run on examples: no code.
#![tactic(auto)]
