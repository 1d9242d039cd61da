// Lists and numbers: the laws of specs/ and proofs/. There is no code here.
#![tactic(auto)]
