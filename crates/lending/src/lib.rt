// Steps of a proof by hand over a plain struct that is lent by `&mut`: theorems of the program's logic, in specs/. No function here needs
// them any more; there is no code here.
#![tactic(auto)]
