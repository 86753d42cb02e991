// Slot holders: a lent table of entries, entry k for slot k. A core by value says what taking and giving make of one entry;
// thin functions read, change and store an entry of the table where it stands; one function replays planning's steps over it.
// What a lent table of entries needs of a proof stays in this crate: callers above pass numbers.
#![tactic(auto)]

pub mod changes;
pub mod entries;
pub mod table;

// Who holds a slot: the slot's size, 0 for one that is not made yet; the value that was given it last; and whether that
// value holds it still. Document 01 names this form: a slice of structs with size, owner and held flag.
#[derive(Clone, Copy, Debug, Default, PartialEq, Eq)]
pub struct Holder {
    pub size: u32,
    pub owner: u32,
    pub held: bool,
}

// What a step does to the holders: its value takes the slot at a place, or gives that slot back, or neither. Each case tells whose
// step it is, `owner`, and that value's size; only taking writes them into the table.
#[derive(Clone, Copy, Debug, PartialEq, Eq)]
pub enum Change {
    Takes { at: usize, owner: u32, size: u32 },
    Gives { at: usize, owner: u32, size: u32 },
    Nothing { owner: u32, size: u32 },
}
