// What a file keeps: read back as it was written, accepted exactly where it was; theorems, no code.
#![tactic(auto)]
