// The two runs of demand 3: theorems about the definitions of crate rules, in specs/. There is no code here.
#![tactic(auto)]
