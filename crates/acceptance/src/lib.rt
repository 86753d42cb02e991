// Whether a file is refused by 2 to 8, and the tables that later layers read an accepted file by.
#![tactic(auto)]

pub mod accepted;
pub mod contexts;
pub mod survey;
pub mod verdict;
