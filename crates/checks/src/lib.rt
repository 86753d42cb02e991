// Refusals 3, 4 and 6: each test of document 01 as a function. Refusal 5 is a test of each record by itself (`checks.Numbers`), which the pass of 7 makes.
#![tactic(auto)]

pub mod counts;
pub mod definitions;
pub mod order;
