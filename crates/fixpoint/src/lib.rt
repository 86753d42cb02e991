// The laws of liveness: theorems about the definitions of crate rules, in specs/. There is no code here.
#![tactic(auto)]
