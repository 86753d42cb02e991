// Planning: which values are given slots and whose slots are freed, in document 01's order, and the numbers of new values
// and blocks. Slots themselves are no part of it: a new value's number never depends on a slot's, only on whether a value
// has been asked for. So asks and frees are noted as a list of steps, which is replayed afterwards.
#![tactic(auto)]

pub mod asks;
pub mod operands;
pub mod runs;
pub mod spilled;
pub mod steps;

// How far planning has come.
#[derive(Clone, Copy)]
pub struct Progress {
    // the size of an address
    pub pointer: u32,
    // how many values the file has, and how many are new
    pub given: usize,
    pub made: usize,
    // how many blocks there are, landings with the file's
    pub blocks: usize,
    // how many steps are noted
    pub steps: usize,
}

// How far planning has come, over lent tables of fixed memory (document 01), so with their counts beside them, and with steps and tags as the
// numbers that `step_of` and `made` of specs/ read: the row of the values asked for, the steps noted, the sizes of new values, and beside each
// record of the file the number that is made for it. A caller makes it by a literal: behind a function that took the four tables, nothing
// would be known of what they are at the end.
#[derive(Drop)]
pub struct SafepointSpiller<'t> {
    pub asked: &'t mut [u64],
    pub steps: &'t mut [u32],
    pub sizes: &'t mut [u32],
    pub numbers: &'t mut [u32],
    // how far it has come, as `Progress` says it; `noted` is its `steps`
    pub pointer: u32,
    pub given: usize,
    pub made: usize,
    pub blocks: usize,
    pub noted: usize,
}
