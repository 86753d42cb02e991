// What is planned, counted and then written, or refused where it does not fit.
ghost use Rattle.std.specs.Prelude.{◌≡◌, ◌<◌, ◌^◌, length, replicate};
ghost use Rattle.rules.specs.Records.{IsBytes, record_count};
ghost use Rattle.rules.specs.Services.{records_of};
ghost use Rattle.rewriting.specs.Answers.{Outcome};
ghost use Rattle.rewriting.specs.Plans.{PlanFound};

use crate::{Found, Planned, PlannedTables};
use counting::{count_added, count_entries};
use layout::whole::{Counts, write_function};
use listing::indexed::{Indexed, Numbered};
use rules::{RECORD_BYTES, Refusal, RewritingAnswer};
use writing::plan::Plan;

// How many records a file has, whose items are bytes: that they are is known of a slice that is handed over, and not of a field.
fn own_records(s: &[u8]) -> usize
    ensures count { result ≡ record_count s.now }
    ensures bytes { IsBytes s.now }
{
    s.len() / RECORD_BYTES
}

// How many records there will be: the file's, a value and a slot for each that is made, what is added to each block, and
// the map entries.
fn count_records(
    indexed: Indexed<'_>,
    lists: &[u64],
    tables: PlannedTables<'_>,
    found: Found,
    planned: Planned,
) -> usize
    requires { PlanFound indexed.blocks.file.bytes.now indexed.blocks.places.now indexed.index.now lists.now tables.numbers.now tables.slots.now tables.new_sizes.now tables.slot_sizes.now found planned }
    ensures { (result ≡ records_of indexed.entry.blocks.file.bytes.now planned.pointer) × (result < 2 ^ 20) }
{
    let own = own_records(indexed.blocks.file.bytes);
    let added = count_added(indexed, tables.numbers);
    let entries = count_entries(lists, found.instructions);
    own + planned.made + planned.slots + added + entries
}

// The answer, with the records at the front of a cleared output; or 11, with their count, where they do not fit.
pub fn write_planned<'a>(
    numbered: Numbered<'a>,
    lists: &'a [u64],
    tables: PlannedTables<'a>,
    found: Found,
    planned: Planned,
    out: &mut [u8],
) -> Result<RewritingAnswer, Refusal>
    requires { PlanFound numbered.indexed.blocks.file.bytes.now numbered.indexed.blocks.places.now numbered.indexed.index.now lists.now tables.numbers.now tables.slots.now tables.new_sizes.now tables.slot_sizes.now found planned × (out.old ≡ replicate (length out.old) 0) }
    ensures { Outcome numbered.entry.indexed.blocks.file.bytes.now planned.pointer (length out.old) result out.new }
{
    let blocks = numbered.indexed.blocks;
    let records = count_records(numbered.indexed, lists, tables, found, planned);
    if out.len() < RECORD_BYTES * records {
        return Err(Refusal::TooShort(records as u32));
    }
    let counts = Counts {
        values: blocks.values(),
        blocks: found.blocks.all,
        made: planned.made,
        slots: planned.slots,
    };
    let plan = Plan {
        file: blocks.file,
        numbers: tables.numbers,
        slots: tables.slots,
    };
    write_function(
        numbered,
        plan,
        lists,
        tables.new_sizes,
        tables.slot_sizes,
        counts,
        out,
    );
    Ok(RewritingAnswer {
        records: records as u32,
        slots: planned.slots as u32,
        landings: (planned.blocks - found.blocks.all) as u32,
        visits: found.live.visits,
        pushes: found.live.pushes,
        unchanged: false,
    })
}
