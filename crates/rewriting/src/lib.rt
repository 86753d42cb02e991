// Rewriting of a file whose live sets and lists are found: planned, counted, written.
#![tactic(auto)]

use acceptance::survey::BlockCounts;
use rules::LivenessCounts;

pub mod output;
pub mod plans;
pub mod spilled;

// What has been found of a file: its blocks, the visits and pushes of liveness, and how many instructions it has.
#[derive(Clone, Copy)]
pub struct Found {
    pub blocks: BlockCounts,
    pub live: LivenessCounts,
    pub instructions: usize,
}

// The rows that planning reads: what is live out of each block, the list of each instruction, and the spilled values.
#[derive(Clone, Copy)]
pub struct FoundRows<'a> {
    pub outs: &'a [u64],
    pub lists: &'a [u64],
    pub spilled: &'a [u64],
}

// What has been planned of a file, for a pointer size: how many values and slots are made, and how many blocks there are,
// landings with the file's.
#[derive(Clone, Copy)]
pub struct Planned {
    pub pointer: u32,
    pub made: usize,
    pub slots: usize,
    pub blocks: usize,
}

// The tables of a plan: the numbers beside the records of the file, the slot of each value, and the sizes of new values and of slots.
#[derive(Clone, Copy)]
pub struct PlannedTables<'a> {
    pub numbers: &'a [u32],
    pub slots: &'a [u32],
    pub new_sizes: &'a [u32],
    pub slot_sizes: &'a [u32],
}
