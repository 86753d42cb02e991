// The types that code and definitions share, and the limits. A definition in specs/ speaks of these very types, so a
// contract needs no translation.
#![tactic(auto)]

ghost use Rattle.std.specs.Prelude.{◌≡◌};
ghost use Rattle.rules.specs.Refusals.{refusal_number};

// What an edge passes to a parameter of its target.
#[derive(Clone, Copy)]
pub enum EdgeArgument {
    Value(u32),
    // `TryCallRet`, by its index
    Returned(u32),
    // `TryCallExn`, by its index
    Exception(u32),
}

// One record of a file, of any of the fifteen kinds.
#[derive(Clone, Copy)]
pub enum Record {
    Value {
        size: u32,
        marked: bool,
    },
    Block {
        cold: bool,
        number: u32,
    },
    Parameter(u32),
    Instruction {
        safepoint: bool,
        terminator: bool,
        tag: u32,
    },
    Result(u32),
    Argument(u32),
    Edge(u32),
    EdgeArgument(EdgeArgument),
    Context(u32),
    Slot(u32),
    MapEntry {
        slot: u32,
        size: u32,
    },
    SlotAddress {
        result: u32,
        slot: u32,
    },
    Store {
        value: u32,
        address: u32,
    },
    Load {
        result: u32,
        address: u32,
        size: u32,
    },
    Jump,
    // A kind or a word outside the table.
    Outside,
}

// The kinds of records, by document 01's numbers. They are no enum: the first word of a record is any number until refusal 4 is past, the
// definitions `kind`, `named` and `follows` speak of these numbers, and a record that is decoded is a `Record`.
pub mod kinds {
    pub const VALUE: u32 = 1;

    pub const BLOCK: u32 = 2;

    pub const PARAMETER: u32 = 3;

    pub const INSTRUCTION: u32 = 4;

    pub const RESULT: u32 = 5;

    pub const ARGUMENT: u32 = 6;

    pub const EDGE: u32 = 7;

    pub const EDGE_ARGUMENT: u32 = 8;

    pub const CONTEXT: u32 = 9;

    pub const SLOT: u32 = 10;

    pub const MAP_ENTRY: u32 = 11;

    pub const SLOT_ADDRESS: u32 = 12;

    pub const STORE: u32 = 13;

    pub const LOAD: u32 = 14;

    pub const JUMP: u32 = 15;
}

// The four words of a record: its kind, and words 2, 3, 4.
#[derive(Clone, Copy)]
pub struct Words {
    pub kind: u32,
    pub second: u32,
    pub third: u32,
    pub fourth: u32,
}

// Why a call is refused; `refusal_number` of specs/Refusals.antt gives document 01's number.
#[derive(Clone, Copy, Debug, PartialEq, Eq)]
pub enum Refusal {
    PointerSize,
    Length,
    TooMany,
    Malformed,
    NotInFile,
    NotDefinedOnce,
    Unsound,
    MarkedContext,
    SlotSize,
    NoSafepoint,
    // With how many are needed: words of a live table, numbers of a list, or records.
    TooShort(u32),
}

// The number, as a caller in another language has it.
impl From<Refusal> for u32 {
    ghost from_gives = { λ e n. n ≡ refusal_number e };

    fn from(refusal: Refusal) -> u32 {
        match refusal {
            Refusal::PointerSize => 1,
            Refusal::Length => 2,
            Refusal::TooMany => 3,
            Refusal::Malformed => 4,
            Refusal::NotInFile => 5,
            Refusal::NotDefinedOnce => 6,
            Refusal::Unsound => 7,
            Refusal::MarkedContext => 8,
            Refusal::SlotSize => 9,
            Refusal::NoSafepoint => 10,
            Refusal::TooShort(_) => 11,
        }
    }
}

// What liveness answers, beside its two lent tables.
#[derive(Clone, Copy)]
pub struct LivenessCounts {
    pub visits: u32,
    pub pushes: u32,
}

// What rewriting answers, beside the lent output; of an unchanged file too, where document 01 wants all counts.
#[derive(Clone, Copy)]
pub struct RewritingAnswer {
    pub records: u32,
    pub slots: u32,
    pub landings: u32,
    pub visits: u32,
    pub pushes: u32,
    pub unchanged: bool,
}

// The limits; specs/Limits.antt has the same numbers, which the contracts speak of.
pub const RECORD_BYTES: usize = 16;

pub const LARGEST_RECORDS: usize = 2048;

pub const LARGEST_VALUES: usize = 512;

pub const LARGEST_BLOCKS: usize = 64;

pub const LARGEST_INSTRUCTIONS: usize = 1024;

pub const LARGEST_EDGES: usize = 256;
// The words of a block's row in a live table, and of a whole table.
pub const ROW_WORDS: usize = 8;

pub const TABLE_WORDS: usize = 512;
