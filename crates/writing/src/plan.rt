// What a writer reads: a file, and the tables of a plan beside it.
ghost use Rattle.std.specs.Prelude.{◌≡◌};
ghost use Rattle.writing.specs.Parts.{Readable, slot_in};

use records::file::File;

// A file, and by value the tag of its slot: 0 for none, or one more than the number. The definitions `slot_in` and `made` read tags so, and
// an Option would take twice the memory, which is fixed (document 01).
#[derive(Clone, Copy)]
pub struct Homes<'a> {
    pub file: File<'a>,
    pub slots: &'a [u32],
}

// The slot of value v, by its tag; 0 where it has none.
pub fn slot_of(slots: &[u32], v: u32) -> u32
    ensures { result ≡ slot_in slots.now v }
{
    slots.get(v as usize).map_or(0, |tag| tag.saturating_sub(1))
}

// The same, and beside each record of the file the tag of what is made for it.
#[derive(Clone, Copy)]
pub struct Plan<'a> {
    pub file: File<'a>,
    pub numbers: &'a [u32],
    pub slots: &'a [u32],
    ghost readable: { Readable file.bytes.now numbers.now },
}

impl<'a> Plan<'a> {
    // Its file and slots.
    pub fn homes(self) -> Homes<'a>
        ensures { result ≡ record { file = self.entry.file; slots = self.entry.slots } }
    {
        Homes {
            file: self.file,
            slots: self.slots,
        }
    }
}
