// The lists of all safepoints as rows, from the final live-out, and which values are spilled.
#![tactic(auto)]

pub mod blocks;
pub mod firsts;
pub mod indexed;
pub mod instructions;
pub mod numbers;
pub mod runs;
pub mod safepoints;
