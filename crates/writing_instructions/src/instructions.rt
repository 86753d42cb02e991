// One instruction: loads before it, its record with what belongs to it and its map, stores behind it.
ghost use Rattle.std.specs.Prelude.{◌≡◌, ◌+◌, ◌<◌, ◌≤◌, T};
ghost use Rattle.rules.specs.Records.{record_count};
ghost use Rattle.records.specs.Parts.{is_instruction};
ghost use Rattle.rows.specs.Rows.{rows, HasRow};
ghost use Rattle.listing.specs.Across.{section_at};
ghost use Rattle.graph.specs.Next.{next_place};
ghost use Rattle.writing.specs.Put.{Fits, Put};
ghost use Rattle.writing_instructions.specs.Runs.{exits_run};
ghost use Rattle.writing_instructions.specs.Narrowed.{Ascend, loads_in, operands_in, itself_in, instruction_in, runs_of};

use crate::entries::{Lists, put_entries};
use graph::places::next_place;
use listing::runs::run_end;
use records::file::File;
use rules::kinds;
use writing::parts::Part;
use writing::plan::Plan;
use writing::put::Output;
use writing::run::put_parts;
use writing_edges::edges::{EdgePart, put_edges};

// Where an instruction's runs stand: its own place, its results behind its arguments, its edges and contexts behind them, and
// where they end.
#[derive(Clone, Copy)]
pub struct InstructionRuns {
    pub place: usize,
    pub results: usize,
    pub exits: usize,
    pub end: usize,
}

// The runs of the instruction at place p, in a block whose records end before place end. Its arguments and results end before
// the next instruction, which is looked for behind them.
pub fn instruction_runs(file: File<'_>, p: usize, end: usize) -> InstructionRuns
    requires { (p < end) × (end ≤ record_count file.bytes.now) × T (is_instruction (section_at file.bytes.now p (next_place file.bytes.now 4 (p + 1) end))) }
    ensures { result ≡ runs_of file.entry.bytes.now p end }
{
    let results = run_end(file, kinds::ARGUMENT, p + 1, end);
    let exits = run_end(file, kinds::RESULT, results, end);
    InstructionRuns {
        place: p,
        results,
        exits,
        end: next_place(file, kinds::INSTRUCTION, exits, end),
    }
}

// The loads that an instruction asks for: of its arguments, which stand before its results, and of what its edges pass.
fn put_loads(plan: Plan<'_>, at: InstructionRuns, out: &mut Output<'_>)
    requires { Ascend at × (at.end ≤ record_count plan.file.bytes.now) × Fits out.old (loads_in plan.file.bytes.now plan.numbers.now plan.slots.now (at.place + 1) at.results at.exits at.end) }
    ensures { Put out.old (loads_in plan.entry.file.bytes.now plan.entry.numbers.now plan.entry.slots.now (at.place + 1) at.results at.exits at.end) out.new }
{
    let first = at.place + 1;
    put_parts(plan, kinds::ARGUMENT, Part::Load, first, at.results, out);
    put_edges(plan, EdgePart::Loads, at.exits, at.end, out);
}

// Its arguments and results.
fn put_operands(plan: Plan<'_>, at: InstructionRuns, out: &mut Output<'_>)
    requires { Ascend at × (at.end ≤ record_count plan.file.bytes.now) × Fits out.old (operands_in plan.file.bytes.now plan.numbers.now plan.slots.now (at.place + 1) at.results at.exits) }
    ensures { Put out.old (operands_in plan.entry.file.bytes.now plan.entry.numbers.now plan.entry.slots.now (at.place + 1) at.results at.exits) out.new }
{
    put_parts(
        plan,
        kinds::ARGUMENT,
        Part::Argument,
        at.place + 1,
        at.results,
        out,
    );
    put_parts(plan, kinds::RESULT, Part::Result, at.results, at.exits, out);
}

// Its edges and contexts.
fn put_exits(plan: Plan<'_>, at: InstructionRuns, out: &mut Output<'_>)
    requires { Ascend at × (at.end ≤ record_count plan.file.bytes.now) × Fits out.old (exits_run plan.file.bytes.now plan.numbers.now plan.slots.now at.exits at.end) }
    ensures { Put out.old (exits_run plan.entry.file.bytes.now plan.entry.numbers.now plan.entry.slots.now at.exits at.end) out.new }
{
    put_edges(plan, EdgePart::Itself, at.exits, at.end, out);
    put_parts(plan, kinds::CONTEXT, Part::Context, at.exits, at.end, out);
}

// The instruction itself, whose list is row i.
fn put_itself(plan: Plan<'_>, lists: Lists<'_>, i: usize, at: InstructionRuns, out: &mut Output<'_>)
    requires { Ascend at × (at.end ≤ record_count plan.file.bytes.now) × HasRow lists.rows.now i × Fits out.old (itself_in plan.file.bytes.now plan.numbers.now plan.slots.now (rows lists.rows.now i) lists.values at.place at.results at.exits at.end) }
    ensures { Put out.old (itself_in plan.entry.file.bytes.now plan.entry.numbers.now plan.entry.slots.now (rows lists.entry.rows.now i) lists.entry.values at.place at.results at.exits at.end) out.new }
{
    out.put_copy(plan.file, at.place);
    put_operands(plan, at, out);
    put_exits(plan, at, out);
    put_entries(plan.homes(), lists, i, out);
}

// The instruction with its loads and stores, each over its own run; its list is row i.
pub fn put_instruction(
    plan: Plan<'_>,
    lists: Lists<'_>,
    i: usize,
    at: InstructionRuns,
    out: &mut Output<'_>,
)
    requires { Ascend at × (at.end ≤ record_count plan.file.bytes.now) × HasRow lists.rows.now i × Fits out.old (instruction_in plan.file.bytes.now plan.numbers.now plan.slots.now (rows lists.rows.now i) lists.values at.place at.results at.exits at.end) }
    ensures { Put out.old (instruction_in plan.entry.file.bytes.now plan.entry.numbers.now plan.entry.slots.now (rows lists.entry.rows.now i) lists.entry.values at.place at.results at.exits at.end) out.new }
{
    put_loads(plan, at, out);
    put_itself(plan, lists, i, at, out);
    put_parts(plan, kinds::RESULT, Part::Store, at.results, at.exits, out);
}
