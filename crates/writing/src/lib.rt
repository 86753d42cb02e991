// The rewritten function, written in layout order: each writer puts its records behind those of the last.
#![tactic(auto)]

pub mod parts;
pub mod plan;
pub mod put;
pub mod run;
