// The sizes that a slot can have, by class.
#![tactic(auto)]

ghost use Rattle.std.specs.Prelude.{◌≡◌, ◌<◌};
ghost use Rattle.slots.specs.Classes.{class_of, index};

// The class of a slot's size, as the Rust has them: their names are in bits.
#[derive(Clone, Copy, Debug, PartialEq, Eq)]
pub enum SlotSize {
    Size8,
    Size16,
    Size32,
    Size64,
    Size128,
}

impl SlotSize {
    // How many classes there are: the Rust's `SLOT_SIZE_LEN`.
    pub const LEN: usize = 5;

    // The class of a size in bytes; none for another size, where the Rust panics and rewriting refuses with 9.
    pub fn new(bytes: u32) -> Option<SlotSize>
        ensures { result ≡ class_of bytes }
    {
        match bytes {
            1 => Some(SlotSize::Size8),
            2 => Some(SlotSize::Size16),
            4 => Some(SlotSize::Size32),
            8 => Some(SlotSize::Size64),
            16 => Some(SlotSize::Size128),
            _ => None,
        }
    }

    // The number of a class, below LEN: its place in a map by size, and the logarithm of its size.
    pub fn index(self) -> usize
        ensures { (result ≡ index self) × (result < 5) }
    {
        match self {
            SlotSize::Size8 => 0,
            SlotSize::Size16 => 1,
            SlotSize::Size32 => 2,
            SlotSize::Size64 => 3,
            SlotSize::Size128 => 4,
        }
    }
}
