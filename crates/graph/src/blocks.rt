// The blocks of a file by the table of their places, and the reachable ones by their index, each with their number and without it.
ghost use Rattle.std.specs.Prelude.{◌≡◌, ◌+◌, ◌<◌, ◌≤◌, length, get_or};
ghost use Rattle.rules.specs.Records.{record_count};
ghost use Rattle.rules.specs.File.{function_in};
ghost use Rattle.graph.specs.Links.{Walked};
ghost use Rattle.graph.specs.Tables.{Given};

use records::file::File;
use std::ops::Range;

// A file that refusals 3 to 5 let pass, and the place of each block's record, behind the last the number of records.
#[derive(Clone, Copy)]
pub struct BlockTable<'a> {
    pub file: File<'a>,
    pub places: &'a [usize],
    ghost given: { Given file.bytes.now places.now },
}

impl BlockTable<'_> {
    // Where block b's record stands.
    pub fn place(self, b: usize) -> usize
        requires { b < length (function_in self.file.bytes.now).blocks }
        ensures { (result ≡ get_or self.entry.places.now b 0) × (result < record_count self.entry.file.bytes.now) }
    {
        self.places[b]
    }

    // Where the records of block b stand that belong to it, behind its own.
    pub fn body(self, b: usize) -> Range<usize>
        requires { b < length (function_in self.file.bytes.now).blocks }
        ensures start { result.start ≡ get_or self.entry.places.now b 0 + 1 }
        ensures end { result.end ≡ get_or self.entry.places.now (b + 1) 0 }
        ensures up { result.start ≤ result.end }
        ensures in_file { result.end ≤ record_count self.entry.file.bytes.now }
    {
        self.place(b) + 1..self.places[b + 1]
    }

    // How many values the file has: they stand first, before block 0.
    pub fn values(self) -> usize
        ensures { result ≡ length (function_in self.entry.file.bytes.now).values }
    {
        self.places[0]
    }
}

// These, and how many blocks there are.
#[derive(Clone, Copy)]
pub struct Blocks<'a> {
    pub file: File<'a>,
    pub places: &'a [usize],
    pub count: usize,
    ghost given: { Given file.bytes.now places.now },
    ghost counted: { count ≡ length (function_in file.bytes.now).blocks },
}

impl<'a> Blocks<'a> {
    // The same without how many there are, for whoever does not ask for that.
    pub fn table(self) -> BlockTable<'a>
        ensures { (result.file.bytes.now ≡ self.entry.file.bytes.now) × (result.places.now ≡ self.entry.places.now) }
    {
        BlockTable {
            file: self.file,
            places: self.places,
        }
    }

    // Where block b's record stands.
    pub fn place(self, b: usize) -> usize
        requires { b < self.count }
        ensures { (result ≡ get_or self.entry.places.now b 0) × (result < record_count self.entry.file.bytes.now) }
    {
        self.table().place(b)
    }

    // Where the records of block b stand that belong to it, behind its own.
    pub fn body(self, b: usize) -> Range<usize>
        requires { b < self.count }
        ensures start { result.start ≡ get_or self.entry.places.now b 0 + 1 }
        ensures end { result.end ≡ get_or self.entry.places.now (b + 1) 0 }
        ensures up { result.start ≤ result.end }
        ensures in_file { result.end ≤ record_count self.entry.file.bytes.now }
    {
        self.table().body(b)
    }

    // How many values the file has.
    pub fn values(self) -> usize
        ensures { result ≡ length (function_in self.entry.file.bytes.now).values }
    {
        self.table().values()
    }
}

// The reachable blocks by ascending index.
#[derive(Clone, Copy)]
pub struct ReachableTable<'a> {
    pub blocks: BlockTable<'a>,
    pub order: &'a [usize],
    ghost walked: { Walked blocks.file.bytes.now blocks.places.now order.now (length order.now) },
}

// These, and how many blocks there are in all.
#[derive(Clone, Copy)]
pub struct Reachable<'a> {
    pub blocks: Blocks<'a>,
    pub order: &'a [usize],
    ghost walked: { Walked blocks.file.bytes.now blocks.places.now order.now (length order.now) },
}

impl<'a> Reachable<'a> {
    // The same without how many there are in all.
    pub fn table(self) -> ReachableTable<'a>
        ensures { (result.blocks.file.bytes.now ≡ self.entry.blocks.file.bytes.now) × (result.blocks.places.now ≡ self.entry.blocks.places.now) × (result.order.now ≡ self.entry.order.now) }
    {
        ReachableTable {
            blocks: self.blocks.table(),
            order: self.order,
        }
    }
}
