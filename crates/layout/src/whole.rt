// The whole rewritten function, from the file and the tables that planning leaves: values, slots, blocks.
ghost use Rattle.std.specs.Prelude.{ℕ, ◌≡◌, ◌≤◌, length};
ghost use Rattle.rules.specs.File.{function_records, function_in};
ghost use Rattle.rules.specs.Rewriting.{rewritten};
ghost use Rattle.rows.specs.Rows.{rows};
ghost use Rattle.writing.specs.Wrote.{room, Wrote};
ghost use Rattle.layout.specs.Whole.{FunctionTables, function_run, PlanTables};

use crate::blocks::copy_records;
use crate::laying::{Laying, put_blocks};
use crate::tables::{put_new_values, put_slots};
use listing::indexed::Numbered;
use writing::plan::Plan;
use writing::put::Output;
use writing_instructions::entries::Lists;

// How many there are: values and blocks of the file, new values, and slots.
#[derive(Clone, Copy)]
pub struct Counts {
    pub values: usize,
    pub blocks: usize,
    pub made: usize,
    pub slots: usize,
}

// Writes what the tables say, and answers how many bytes that takes; where they are the tables of a plan, that is the
// rewritten function.
pub fn write_function<'a>(
    numbered: Numbered<'a>,
    plan: Plan<'a>,
    lists: &'a [u64],
    new_sizes: &[u32],
    slot_sizes: &[u32],
    counts: Counts,
    out: &mut [u8],
) -> usize
    requires { FunctionTables plan.file.bytes.now numbered.indexed.blocks.places.now numbered.indexed.index.now plan.numbers.now lists.now new_sizes.now slot_sizes.now counts × (plan.file.bytes.now ≡ numbered.indexed.blocks.file.bytes.now) × (room (function_run plan.file.bytes.now numbered.indexed.blocks.places.now plan.numbers.now plan.slots.now (rows lists.now) new_sizes.now slot_sizes.now counts) ≤ length out.old) }
    ensures wrote { Wrote out.old (function_run plan.entry.file.bytes.now numbered.entry.indexed.blocks.places.now plan.entry.numbers.now plan.entry.slots.now (rows lists.now) new_sizes.now slot_sizes.now counts) result out.new }
    ensures by_plan { (pointer : ℕ) → PlanTables plan.entry.file.bytes.now plan.entry.numbers.now plan.entry.slots.now lists.now new_sizes.now slot_sizes.now counts pointer → Wrote out.old (function_records (rewritten (function_in plan.entry.file.bytes.now) pointer)) result out.new }
{
    let mut output = Output { bytes: out, at: 0 };
    copy_records(plan.file, 0, counts.values, &mut output);
    put_new_values(&new_sizes[..counts.made], &mut output);
    put_slots(&slot_sizes[..counts.slots], &mut output);
    let lists = Lists {
        rows: lists,
        values: counts.values,
    };
    put_blocks(
        Laying {
            numbered,
            plan,
            lists,
        },
        &mut output,
    );
    output.at
}
