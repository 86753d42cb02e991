// Refusal 3: the largest counts, of all records and of values, blocks, instructions and edges.
ghost use Rattle.std.specs.Prelude.{◌≡◌, ◌≤◌, ltb};
ghost use Rattle.rules.specs.Limits.{largest_records};
ghost use Rattle.rules.specs.Records.{record_count};
ghost use Rattle.checks.specs.Counts.{CountsOf, above_largest};

use records::word_at;
use rules::{
    LARGEST_BLOCKS, LARGEST_EDGES, LARGEST_INSTRUCTIONS, LARGEST_RECORDS, LARGEST_VALUES,
    RECORD_BYTES, kinds,
};

// How many values, blocks, instructions and edges a file has, by the first words of its records alone.
#[derive(Clone, Copy)]
pub struct KindCounts {
    pub values: usize,
    pub blocks: usize,
    pub instructions: usize,
    pub edges: usize,
}

// All four in one pass. They are counted as the words are read, in 32 bits, so that several words are compared at once.
pub fn count_kinds(s: &[u8]) -> KindCounts
    requires { record_count s.now ≤ largest_records }
    ensures { CountsOf s.now result }
{
    let mut values: u32 = 0;
    let mut blocks: u32 = 0;
    let mut instructions: u32 = 0;
    let mut edges: u32 = 0;
    for i in 0..s.len() / RECORD_BYTES {
        let k = word_at(s, RECORD_BYTES * i);
        values += u32::from(k == kinds::VALUE);
        blocks += u32::from(k == kinds::BLOCK);
        instructions += u32::from(k == kinds::INSTRUCTION);
        edges += u32::from(k == kinds::EDGE);
    }
    KindCounts {
        values: values as usize,
        blocks: blocks as usize,
        instructions: instructions as usize,
        edges: edges as usize,
    }
}

// Whether a file has more records than the largest count.
pub fn too_long(s: &[u8]) -> bool
    ensures { result ≡ ltb largest_records (record_count s.now) }
{
    LARGEST_RECORDS < s.len() / RECORD_BYTES
}

// Whether it has more of a kind than the largest count.
pub fn above_largest(of: KindCounts) -> bool
    ensures { result ≡ above_largest of }
{
    LARGEST_VALUES < of.values
        || LARGEST_BLOCKS < of.blocks
        || LARGEST_INSTRUCTIONS < of.instructions
        || LARGEST_EDGES < of.edges
}
