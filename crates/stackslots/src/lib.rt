// The Rust's `StackSlots` and `SlotSizeMap`: which slot each value has, and which slots are free, by class. Planning notes
// only which value is given a slot and whose slot is freed; here these steps are replayed over lent tables. Whether every
// spilled value has a size that a slot can have is told before.
#![tactic(auto)]

mod freelists;
mod placing;
pub mod replaying;
pub mod sizes;
