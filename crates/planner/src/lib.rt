// `SafepointSpiller`, from a block on: slots and numbers for the instructions of a block, last first, for its parameters, and
// for all reachable blocks.
#![tactic(auto)]

pub mod blocks;
pub mod functions;
