// One instruction: rule 1 for its results; at a safepoint rule 2, with slots for the values on its list; rule 3.
ghost use Rattle.std.proofs.Math.Option.{none, some};
ghost use Rattle.rules.specs.Lists.{keep, members};
ghost use Rattle.rules.specs.Records.{encode, is_safepoint, record_at};
ghost use Rattle.planning.specs.Lent.{SameLent, tables_of};
ghost use Rattle.rows.specs.Rows.{rows, HasRow};
ghost use Rattle.spiller.specs.Instructions.{list_if, InstructionNoted};
ghost use Rattle.spiller.specs.InstructionSteps.{InstructionRecords, InstructionReady};

use listing::instructions::is_safepoint;
use listing::runs::run_end;
use planning::SafepointSpiller;
use planning::spilled::SpilledBlocks;
use planning_edges::edges::plan_edges;
use rules::kinds;

// Where an instruction stands: its own place, the one behind its records, and its number.
#[derive(Clone, Copy)]
pub struct InstructionSpot {
    pub place: usize,
    pub end: usize,
    pub number: usize,
}

// An instruction without a list: its results, its arguments, its edges.
fn plan_plain(
    spiller: &mut SafepointSpiller<'_>,
    blocks: SpilledBlocks<'_>,
    place: usize,
    end: usize,
)
    requires { InstructionRecords blocks.spilled.file.bytes.now place end × InstructionReady blocks.spilled.file.bytes.now place end (tables_of spiller.old) spiller.old.numbers.now }
    ensures lent { SameLent spiller.old spiller.new }
    ensures noted { InstructionNoted blocks.entry.spilled.file.bytes.now spiller.old.pointer none place end (tables_of spiller.old) spiller.old.numbers.now (tables_of spiller.new) spiller.new.numbers.now }
{
    let spilled = blocks.spilled;
    let a = run_end(spilled.file, kinds::ARGUMENT, place + 1, end);
    let b = run_end(spilled.file, kinds::RESULT, a, end);
    spiller.plan_definitions(spilled, kinds::RESULT, a, b);
    spiller.plan_uses(spilled, kinds::ARGUMENT, place + 1, a);
    plan_edges(spiller, blocks, false, b, end);
}

// A safepoint, whose list is a row: its results, slots for the list, its edges, its arguments.
fn plan_safepoint(
    spiller: &mut SafepointSpiller<'_>,
    blocks: SpilledBlocks<'_>,
    lists: &[u64],
    at: InstructionSpot,
)
    requires { HasRow lists.now at.number × InstructionRecords blocks.spilled.file.bytes.now at.place at.end × InstructionReady blocks.spilled.file.bytes.now at.place at.end (tables_of spiller.old) spiller.old.numbers.now }
    ensures lent { SameLent spiller.old spiller.new }
    ensures noted { InstructionNoted blocks.entry.spilled.file.bytes.now spiller.old.pointer (some (keep (rows blocks.entry.spilled.row.now 0) (members spiller.old.given (rows lists.now at.number)))) at.place at.end (tables_of spiller.old) spiller.old.numbers.now (tables_of spiller.new) spiller.new.numbers.now }
{
    let spilled = blocks.spilled;
    let first = at.place + 1;
    let a = run_end(spilled.file, kinds::ARGUMENT, first, at.end);
    let b = run_end(spilled.file, kinds::RESULT, a, at.end);
    let values = spiller.given;
    spiller.plan_definitions(spilled, kinds::RESULT, a, b);
    spiller.ask_all(spilled.row, lists, at.number, values);
    plan_edges(spiller, blocks, true, b, at.end);
    spiller.plan_uses(spilled, kinds::ARGUMENT, first, a);
}

// An instruction; the lists of all safepoints are rows by number.
pub fn plan_instruction(
    spiller: &mut SafepointSpiller<'_>,
    blocks: SpilledBlocks<'_>,
    lists: &[u64],
    at: InstructionSpot,
)
    requires { HasRow lists.now at.number × InstructionRecords blocks.spilled.file.bytes.now at.place at.end × InstructionReady blocks.spilled.file.bytes.now at.place at.end (tables_of spiller.old) spiller.old.numbers.now }
    ensures lent { SameLent spiller.old spiller.new }
    ensures noted { InstructionNoted blocks.entry.spilled.file.bytes.now spiller.old.pointer (list_if (is_safepoint (encode (record_at blocks.entry.spilled.file.bytes.now at.place)).second) (keep (rows blocks.entry.spilled.row.now 0) (members spiller.old.given (rows lists.now at.number)))) at.place at.end (tables_of spiller.old) spiller.old.numbers.now (tables_of spiller.new) spiller.new.numbers.now }
{
    if is_safepoint(blocks.spilled.file, at.place) {
        plan_safepoint(spiller, blocks, lists, at);
    } else {
        plan_plain(spiller, blocks, at.place, at.end);
    }
}
