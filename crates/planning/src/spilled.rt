// A file with its spilled values, and with the places of its blocks.
ghost use Rattle.std.specs.Prelude.{◌≡◌, ◌<◌};
ghost use Rattle.rules.specs.Records.{record_count};
ghost use Rattle.graph.specs.Tables.{Given};
ghost use Rattle.rows.specs.Rows.{rows};
ghost use Rattle.planning.specs.Operands.{Reading, among_of, operand_at};

use crate::operands::{among, operand_at};
use records::file::File;

// A file in order, and the row of its spilled values.
#[derive(Clone, Copy)]
pub struct Spilled<'a> {
    pub file: File<'a>,
    pub row: &'a [u64],
    ghost reading: { Reading file.bytes.now row.now },
}

impl<'a> Spilled<'a> {
    // The spilled value that the record at a place names, if it is of this kind and names one.
    pub fn operand_at(self, kind: u32, place: usize) -> Option<u32>
        requires { place < record_count self.file.bytes.now }
        ensures { result ≡ among_of (rows self.entry.row.now 0) (operand_at self.entry.file.bytes.now kind place) }
    {
        among(self.row, operand_at(self.file, kind, place))
    }
}

// These, and the place of each block's record, behind the last the number of records.
#[derive(Clone, Copy)]
pub struct SpilledBlocks<'a> {
    pub spilled: Spilled<'a>,
    pub places: &'a [usize],
    ghost given: { Given spilled.file.bytes.now places.now },
}
