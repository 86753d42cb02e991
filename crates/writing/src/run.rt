// Runs of records: what a part has for each record between two places.
ghost use Rattle.std.specs.Prelude.{◌≡◌, ◌≤◌, eqb};
ghost use Rattle.rules.specs.Records.{record_count};
ghost use Rattle.writing.specs.Parts.{of_argument, part_at};
ghost use Rattle.writing.specs.Places.{from_to};
ghost use Rattle.writing.specs.Put.{Fits, Put};

use crate::parts::Part;
use crate::plan::Plan;
use crate::put::Output;

// What a part has for the records of a kind from a place on and before place end. Parts of edge arguments are asked of
// kind 8 alone, and others not of it.
pub fn put_parts(
    plan: Plan<'_>,
    kind: u32,
    part: Part,
    from: usize,
    end: usize,
    out: &mut Output<'_>,
)
    requires { (from ≤ end) × (end ≤ record_count plan.file.bytes.now) × Fits out.old (from_to (part_at plan.file.bytes.now plan.numbers.now plan.slots.now kind part) from end) × (of_argument part ≡ eqb kind 8) }
    ensures { Put out.old (from_to (part_at plan.entry.file.bytes.now plan.entry.numbers.now plan.entry.slots.now kind part) from end) out.new }
{
    for i in from..end {
        if plan.file.kind_at(i) == kind {
            out.put_written(plan.homes().part_of(part, i, plan.numbers[i]));
        }
    }
}
