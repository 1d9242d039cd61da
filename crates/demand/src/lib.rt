// What is promised of a move, over every outcome that its contract allows: laws alone, no code.
#![tactic(auto)]
