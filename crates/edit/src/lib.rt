// The promises of the three edits: laws alone, over what the calls answer and what they leave in the slice.
#![tactic(auto)]
