// `SafepointSpiller`, as far as an edge: slots and numbers for landings and for what other edges pass, over planning's tables.
#![tactic(auto)]

pub mod edges;
pub mod landings;
