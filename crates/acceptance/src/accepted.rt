// An accepted file, as the layers behind read it: by the tables that a survey filled, in memory that a caller lends for them.
ghost use Rattle.std.specs.Prelude.{◌≡◌, ◌≤◌, length, false, T, is_ok};
ghost use Rattle.rules.specs.Limits.{largest_blocks};
ghost use Rattle.rules.specs.File.{function_in};
ghost use Rattle.rules.specs.Refusals.{first_of, file_refusals};
ghost use Rattle.graph.specs.Links.{Walked};
ghost use Rattle.graph.specs.Tables.{index_table};
ghost use Rattle.acceptance.specs.Survey.{survey_tables, BlankTables, Indexed};

use crate::survey::{BlockCounts, SurveyAnswer, survey};
use graph::blocks::{Blocks, Reachable};
use records::file::File;
use rules::{LARGEST_BLOCKS, LARGEST_VALUES};

// The tables that a survey fills, in memory of its caller's, and whether one did: until then they are zeros. A caller makes it and lends it, so
// that no table is moved.
#[derive(Drop)]
pub struct SurveyMemory {
    counts: [u32; LARGEST_VALUES],
    places: [usize; LARGEST_BLOCKS + 1],
    order: [usize; LARGEST_BLOCKS],
    index: [usize; LARGEST_BLOCKS],
    stack: [usize; LARGEST_BLOCKS],
    next: [usize; LARGEST_BLOCKS],
    used: bool,
    ghost blank: { used ≡ false → BlankTables (survey_tables counts places order index stack next) },
}

impl SurveyMemory {
    // No file was surveyed in it.
    pub fn new() -> SurveyMemory
        ensures { result.used ≡ false }
    {
        SurveyMemory {
            counts: [0; LARGEST_VALUES],
            places: [0; LARGEST_BLOCKS + 1],
            order: [0; LARGEST_BLOCKS],
            index: [0; LARGEST_BLOCKS],
            stack: [0; LARGEST_BLOCKS],
            next: [0; LARGEST_BLOCKS],
            used: false,
        }
    }

    // Zeros again, if a file was surveyed in it.
    fn clear(&mut self)
        ensures { self.new.used ≡ false }
    {
        if self.used {
            self.counts.fill(0);
            self.places.fill(0);
            self.order.fill(0);
            self.index.fill(0);
            self.stack.fill(0);
            self.next.fill(0);
            self.used = false;
        }
    }

    // Refusals 2 to 8 of a file, and its tables, whatever the memory holds.
    pub fn survey(&mut self, s: &[u8]) -> SurveyAnswer
        ensures says { result.verdict ≡ first_of (file_refusals s.now) }
        ensures tables { T (is_ok result.verdict) → Indexed s.now self.new.places self.new.order self.new.index result.blocks }
    {
        self.clear();
        self.used = true;
        survey(
            s,
            &mut self.counts,
            &mut self.places,
            &mut self.order,
            &mut self.index,
            &mut self.stack,
            &mut self.next,
        )
    }

    // The accepted file, by the tables that its survey left.
    pub fn accepted<'a>(&'a self, s: &'a [u8], blocks: BlockCounts) -> Survey<'a>
        requires { Indexed s.now self.now.places self.now.order self.now.index blocks }
        ensures file { result.file.bytes.now ≡ s.now }
        ensures tables { (result.places.now ≡ self.now.places) × (result.order.now ≡ self.now.order) × (result.index.now ≡ self.now.index) }
    {
        Survey {
            file: File { bytes: s },
            places: &self.places,
            order: &self.order,
            index: &self.index,
            count: blocks.all,
            reachable: blocks.reachable,
        }
    }
}

// An accepted file, with the places of its blocks, the reachable ones by index, and of each block one more than its index, where a survey
// left them.
#[derive(Clone, Copy)]
pub struct Survey<'a> {
    pub file: File<'a>,
    pub places: &'a [usize],
    pub order: &'a [usize],
    pub index: &'a [usize],
    pub count: usize,
    pub reachable: usize,
    ghost accepted: { T (is_ok (first_of (file_refusals file.bytes.now))) },
    ghost counted: { count ≡ length (function_in file.bytes.now).blocks },
    ghost walked: { Walked file.bytes.now places.now order.now reachable },
    ghost indexed: { index.now ≡ index_table (function_in file.bytes.now) (length index.now) },
    ghost index_long: { largest_blocks ≤ length index.now },
}

impl Survey<'_> {
    // Its blocks.
    pub fn blocks(&self) -> Blocks<'_>
        ensures { (result.file.bytes.now ≡ self.now.file.bytes.now) × (result.places.now ≡ self.now.places.now) }
    {
        Blocks {
            file: self.file,
            places: self.places,
            count: self.count,
        }
    }

    // Its reachable blocks.
    pub fn reachable(&self) -> Reachable<'_>
        ensures { (result.blocks.file.bytes.now ≡ self.now.file.bytes.now) × (result.blocks.places.now ≡ self.now.places.now) }
    {
        Reachable {
            blocks: self.blocks(),
            order: &self.order[..self.reachable],
        }
    }
}
