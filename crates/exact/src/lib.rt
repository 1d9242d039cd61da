// When each call refuses, by which number and at which place, as facts about the entries: laws, no code.
#![tactic(auto)]
