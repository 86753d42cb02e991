// Demand 3: what is written is read back, and the two runs agree. Theorems about the definitions of crate rules, in specs/. There is no code here.
#![tactic(auto)]
