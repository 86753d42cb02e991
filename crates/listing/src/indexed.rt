// The blocks of a file with their indices, and with the numbers of their first instructions.
ghost use Rattle.listing.specs.Firsts.{Firsts};
ghost use Rattle.listing.specs.Tables.{IndexTables};

use graph::blocks::Blocks;

// A file's blocks, and of each block one more than its index, 0 where it is not reachable: `index_table` of specs/ is such numbers, and an
// Option would take twice the memory, which is fixed (document 01).
#[derive(Clone, Copy)]
pub struct Indexed<'a> {
    pub blocks: Blocks<'a>,
    pub index: &'a [usize],
    ghost indexed: { IndexTables blocks.file.bytes.now blocks.places.now index.now },
}

// These, and the number of each block's first instruction, behind the last how many instructions there are.
#[derive(Clone, Copy)]
pub struct Numbered<'a> {
    pub indexed: Indexed<'a>,
    pub firsts: &'a [usize],
    ghost numbered: { Firsts indexed.blocks.file.bytes.now firsts.now },
}
