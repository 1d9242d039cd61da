// The scope as definitions, run on examples: no code.
#![tactic(auto)]
