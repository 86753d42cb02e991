// The tables of places, the post-order walk and the lists of predecessors: what every later layer reads a file by.
#![tactic(auto)]

pub mod blocks;
pub mod edges;
pub mod places;
pub mod predecessors;
pub mod walk;
