// Which value a record names.
ghost use Rattle.std.specs.Prelude.{◌≡◌, ◌<◌};
ghost use Rattle.rules.specs.Records.{record_count};
ghost use Rattle.rows.specs.Rows.{rows, HasRow};
ghost use Rattle.planning.specs.Operands.{among_of, operand_at};

use records::file::File;
use rows::contains;
use rules::{EdgeArgument, LARGEST_VALUES, Record, kinds};

// The value that the record at a place names, if it is of this kind. An edge argument that is a returned or an exception word names none:
// it is made on the edge.
#[tactic(auto, unfolding(crate::specs::Operands::operand_at))]
pub fn operand_at(file: File<'_>, kind: u32, place: usize) -> Option<u32>
    requires { place < record_count file.bytes.now }
    ensures { result ≡ operand_at file.entry.bytes.now kind place }
{
    if file.kind_at(place) != kind {
        return None;
    }
    if kind != kinds::EDGE_ARGUMENT {
        return Some(file.words_at(place).second);
    }
    match file.decoded_at(place) {
        Record::EdgeArgument(EdgeArgument::Value(v)) => Some(v),
        _ => None,
    }
}

// Whether a row has a value; no row has one that it has no bit for.
fn is_in(t: &[u64], v: u32) -> bool
    requires { HasRow t.now 0 }
    ensures { result ≡ rows t.now 0 v }
{
    let i = v as usize;
    i < LARGEST_VALUES && contains(t, 0, i)
}

// A value, if a row has it.
pub fn among(t: &[u64], x: Option<u32>) -> Option<u32>
    requires { HasRow t.now 0 }
    ensures { result ≡ among_of (rows t.now 0) x }
{
    x.filter(|v| is_in(t, *v))
}
