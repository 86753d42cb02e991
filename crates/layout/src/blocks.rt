// One block: its record, parameters and their stores, its instructions, and the landings behind it; or the block copied.
ghost use Rattle.std.specs.Prelude.{◌≡◌, ◌+◌, ◌*◌, ◌<◌, ◌≤◌, length};
ghost use Rattle.rules.specs.Limits.{row_words};
ghost use Rattle.rules.specs.Records.{record_count};
ghost use Rattle.graph.specs.Tails.{TailLast};
ghost use Rattle.rows.specs.Rows.{rows};
ghost use Rattle.listing.specs.Stepping.{BlockRecords};
ghost use Rattle.writing.specs.Places.{from_to};
ghost use Rattle.writing.specs.Put.{Fits, Put};
ghost use Rattle.layout.specs.BlockRuns.{number_at, instruction_part_at, landing_part_at, head_run, block_run, copy_at};
ghost use Rattle.layout.specs.Stepped.{InstructionsFrom};

use graph::edges::tail_from;
use graph::places::next_place;
use records::file::File;
use rules::kinds;
use writing::parts::Part;
use writing::plan::Plan;
use writing::put::Output;
use writing::run::put_parts;
use writing_edges::edges::{EdgePart, put_edges};
use writing_instructions::entries::Lists;
use writing_instructions::instructions::{instruction_runs, put_instruction};

// The instructions from a place on and before place end, the first one first; the number of the first one is given.
fn put_instructions(
    plan: Plan<'_>,
    lists: Lists<'_>,
    first: usize,
    from: usize,
    end: usize,
    out: &mut Output<'_>,
)
    requires { (from ≤ end) × (end ≤ record_count plan.file.bytes.now) × (row_words * number_at plan.file.bytes.now end ≤ length lists.rows.now) × (first ≡ number_at plan.file.bytes.now from) × Fits out.old (from_to (instruction_part_at plan.file.bytes.now plan.numbers.now plan.slots.now lists.values (rows lists.rows.now) end) from end) × InstructionsFrom plan.file.bytes.now from end }
    ensures { Put out.old (from_to (instruction_part_at plan.entry.file.bytes.now plan.entry.numbers.now plan.entry.slots.now lists.entry.values (rows lists.entry.rows.now) end) from end) out.new }
{
    let mut number = first;
    let mut p = from;
    // From instruction to instruction, each of which ends where the next one stands: a `for` would read every record once more.
    while p < end {
        let runs = instruction_runs(plan.file, p, end);
        put_instruction(plan, lists, number, runs, out);
        number += 1;
        p = runs.end;
    }
}

// The landings of a block whose first instruction stands at place from: those of its edges, which stand in its tail.
fn put_landings(plan: Plan<'_>, from: usize, end: usize, out: &mut Output<'_>)
    requires { (from ≤ end) × (end ≤ record_count plan.file.bytes.now) × Fits out.old (from_to (landing_part_at plan.file.bytes.now plan.numbers.now plan.slots.now end) from end) × InstructionsFrom plan.file.bytes.now from end × TailLast plan.file.bytes.now from end }
    ensures { Put out.old (from_to (landing_part_at plan.entry.file.bytes.now plan.entry.numbers.now plan.entry.slots.now end) from end) out.new }
{
    let tail = tail_from(plan.file, from, end);
    put_edges(plan, EdgePart::Landing, tail, end, out);
}

// The record of the block at place p, its parameters, and their stores.
fn put_head(plan: Plan<'_>, p: usize, end: usize, out: &mut Output<'_>)
    requires { (p < end) × (end ≤ record_count plan.file.bytes.now) × Fits out.old (head_run plan.file.bytes.now plan.numbers.now plan.slots.now p end) }
    ensures { Put out.old (head_run plan.entry.file.bytes.now plan.entry.numbers.now plan.entry.slots.now p end) out.new }
{
    out.put_copy(plan.file, p);
    put_parts(plan, kinds::PARAMETER, Part::Parameter, p + 1, end, out);
    put_parts(plan, kinds::PARAMETER, Part::Store, p + 1, end, out);
}

// The block at place p, whose records end before place end, with its landings; the number of its first instruction is given.
pub fn put_block(
    plan: Plan<'_>,
    lists: Lists<'_>,
    first: usize,
    p: usize,
    end: usize,
    out: &mut Output<'_>,
)
    requires { (p < end) × (end ≤ record_count plan.file.bytes.now) × (row_words * number_at plan.file.bytes.now end ≤ length lists.rows.now) × (first ≡ number_at plan.file.bytes.now (p + 1)) × Fits out.old (block_run plan.file.bytes.now plan.numbers.now plan.slots.now lists.values (rows lists.rows.now) p end) × BlockRecords plan.file.bytes.now (p + 1) end × TailLast plan.file.bytes.now (p + 1) end }
    ensures { Put out.old (block_run plan.entry.file.bytes.now plan.entry.numbers.now plan.entry.slots.now lists.entry.values (rows lists.entry.rows.now) p end) out.new }
{
    let front = next_place(plan.file, kinds::INSTRUCTION, p + 1, end);
    put_head(plan, p, front, out);
    put_instructions(plan, lists, first, front, end, out);
    put_landings(plan, front, end, out);
}

// The records from a place on and before place end, as they are.
pub fn copy_records(file: File<'_>, from: usize, end: usize, out: &mut Output<'_>)
    requires { (from ≤ end) × (end ≤ record_count file.bytes.now) × Fits out.old (from_to (copy_at file.bytes.now) from end) }
    ensures { Put out.old (from_to (copy_at file.entry.bytes.now) from end) out.new }
{
    for i in from..end {
        out.put_copy(file, i);
    }
}
