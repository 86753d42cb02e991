// The laws of the walk: theorems about the definitions of crate rules, in specs/. There is no code here.
#![tactic(auto)]
