// One instruction of the rewritten function: loads before it, itself with its map, edges and stores behind it.
#![tactic(auto)]

pub mod entries;
pub mod instructions;
