// The edges of an instruction: at a safepoint rule 2, else rule 3 for their arguments.
ghost use Rattle.std.specs.Prelude.{◌≡◌, ◌-◌, ◌≤◌, length};
ghost use Rattle.rules.specs.Records.{record_count};
ghost use Rattle.rules.specs.File.{function_in};
ghost use Rattle.planning.specs.Lent.{SameLent, tables_of};
ghost use Rattle.planning.specs.Operands.{Range};
ghost use Rattle.planning_edges.specs.Edges.{EdgeNoted, EdgesIn, EdgesNoted};
ghost use Rattle.planning_edges.specs.Landings.{edge_kind, EdgeRecords};
ghost use Rattle.planning_edges.specs.Noted.{Within, Blank, Able};
ghost use Rattle.planning_edges.specs.Spans.{next_edge_place};

use crate::landings::plan_safepoint_edge;
use graph::places::next_place;
use planning::SafepointSpiller;
use planning::spilled::SpilledBlocks;
use records::file::File;
use rules::kinds;

// The place of the first edge from a place on and before place end, or end.
fn next_edge_place(file: File<'_>, from: usize, end: usize) -> usize
    requires { (from ≤ end) × (end ≤ record_count file.bytes.now) }
    ensures { result ≡ next_edge_place file.entry.bytes.now from end }
{
    next_place(file, kinds::EDGE, from, end)
}

// The edge at a place, whose records end before place end. A safepoint's goes by rule 2: the definition `EdgeNoted` has this flag.
fn plan_edge(
    spiller: &mut SafepointSpiller<'_>,
    blocks: SpilledBlocks<'_>,
    safepoint: bool,
    place: usize,
    end: usize,
)
    requires { EdgeRecords blocks.spilled.file.bytes.now place end × (end ≤ length spiller.old.numbers.now) × Blank (Within blocks.spilled.file.bytes.now edge_kind place end) spiller.old.numbers.now × Able (function_in blocks.spilled.file.bytes.now) (tables_of spiller.old) (end - place) }
    ensures lent { SameLent spiller.old spiller.new }
    ensures noted { EdgeNoted blocks.entry.spilled.file.bytes.now spiller.old.pointer safepoint place end (tables_of spiller.old) spiller.old.numbers.now (tables_of spiller.new) spiller.new.numbers.now }
{
    if safepoint {
        plan_safepoint_edge(spiller, blocks, place, end);
    } else {
        spiller.plan_uses(blocks.spilled, kinds::EDGE_ARGUMENT, place + 1, end);
    }
}

// The edges of an instruction, from a place on and before place end. A `while`, since it goes from edge to edge, each of which ends where
// the next one stands: a `for` over the places would have to keep the edge before as well.
pub fn plan_edges(
    spiller: &mut SafepointSpiller<'_>,
    blocks: SpilledBlocks<'_>,
    safepoint: bool,
    start: usize,
    end: usize,
)
    requires { Range blocks.spilled.file.bytes.now spiller.old.numbers.now start end × EdgesIn blocks.spilled.file.bytes.now start end × Blank (Within blocks.spilled.file.bytes.now edge_kind start end) spiller.old.numbers.now × Able (function_in blocks.spilled.file.bytes.now) (tables_of spiller.old) (end - start) }
    ensures lent { SameLent spiller.old spiller.new }
    ensures noted { EdgesNoted blocks.entry.spilled.file.bytes.now spiller.old.pointer safepoint start end (tables_of spiller.old) spiller.old.numbers.now (tables_of spiller.new) spiller.new.numbers.now }
{
    let mut i = next_edge_place(blocks.spilled.file, start, end);
    while i < end {
        let next = next_edge_place(blocks.spilled.file, i + 1, end);
        plan_edge(spiller, blocks, safepoint, i, next);
        i = next;
    }
}
