// Rewriting of a file of which some value is spilled.
ghost use Rattle.std.specs.Prelude.{◌≡◌, length, replicate};
ghost use Rattle.rewriting.specs.Answers.{Outcome};
ghost use Rattle.rewriting.specs.Rows.{Spilling};

use crate::output::write_planned;
use crate::plans::plan_records;
use crate::{Found, FoundRows, PlannedTables};
use graph::blocks::Reachable;
use listing::indexed::Numbered;
use rules::{LARGEST_RECORDS, LARGEST_VALUES, Refusal, RewritingAnswer};

// The answer, with the rewritten records at the front of a cleared output, or 11 where they do not fit.
pub fn rewrite_spilled(
    numbered: Numbered<'_>,
    order: &[usize],
    rows: FoundRows<'_>,
    found: Found,
    pointer: u32,
    out: &mut [u8],
) -> Result<RewritingAnswer, Refusal>
    requires { Spilling numbered.indexed.blocks.file.bytes.now numbered.indexed.blocks.places.now order.now numbered.indexed.index.now rows.outs.now rows.lists.now rows.spilled.now found pointer × (out.old ≡ replicate (length out.old) 0) }
    ensures { Outcome numbered.entry.indexed.blocks.file.bytes.now pointer (length out.old) result out.new }
{
    let mut numbers: [u32; LARGEST_RECORDS] = [0; LARGEST_RECORDS];
    let mut slots: [u32; LARGEST_VALUES] = [0; LARGEST_VALUES];
    let mut new_sizes: [u32; 2 * LARGEST_RECORDS] = [0; 2 * LARGEST_RECORDS];
    let mut slot_sizes: [u32; LARGEST_VALUES] = [0; LARGEST_VALUES];
    let blocks = numbered.indexed.blocks;
    let order = &order[..found.blocks.reachable];
    let planned = plan_records(
        Reachable { blocks, order },
        numbered.firsts,
        rows,
        found,
        pointer,
        &mut numbers,
        &mut slots,
        &mut new_sizes,
        &mut slot_sizes,
    );
    let tables = PlannedTables {
        numbers: &numbers,
        slots: &slots,
        new_sizes: &new_sizes,
        slot_sizes: &slot_sizes,
    };
    write_planned(numbered, rows.lists, tables, found, planned, out)
}
