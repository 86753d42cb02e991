// `SafepointSpiller`, as far as one instruction: slots and numbers for its results, its list, its edges and its uses.
#![tactic(auto)]

pub mod instructions;
