// What each block uses and kills, read off its records: all that liveness needs to know of a block.
#![tactic(auto)]

pub mod blocks;
pub mod operands;
