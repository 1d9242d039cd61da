// What is promised of combining two layers: only laws stand here, over the contract of `combine::combine`.
#![tactic(auto)]
