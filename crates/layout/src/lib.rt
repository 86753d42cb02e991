// The rewritten function laid out: its blocks with their landings behind them, and the whole.
#![tactic(auto)]

pub mod blocks;
pub mod laying;
pub mod tables;
pub mod whole;
