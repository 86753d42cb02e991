// The services that say what a file is: the check, liveness and the list of one safepoint. Each takes any bytes, owns the tables that
// it needs, and asks nothing of its caller.
#![tactic(auto)]

pub mod check;
pub mod list;
pub mod liveness;
