// Edges and landings of the rewritten function, over the runs of `writing`.
#![tactic(auto)]

pub mod edges;
