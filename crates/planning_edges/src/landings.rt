// Rule 2 for an edge of a safepoint: if it passes a spilled value it gets a landing block.
ghost use Rattle.std.specs.Prelude.{true, ◌≡◌, ◌+◌, ◌-◌, ◌<◌, ◌≤◌, length};
ghost use Rattle.rules.specs.Records.{encode, record_at, record_count};
ghost use Rattle.rules.specs.File.{function_in};
ghost use Rattle.rules.specs.Liveness.{is_spilled};
ghost use Rattle.rules.specs.Plan.{plan_landing};
ghost use Rattle.graph.specs.Between.{between};
ghost use Rattle.numbering.specs.Beside.{edge_plan_at};
ghost use Rattle.planning.specs.Standing.{Good, Walked};
ghost use Rattle.planning.specs.Lent.{SameLent, tables_of};
ghost use Rattle.planning.specs.Operands.{Range};
ghost use Rattle.planning_edges.specs.Landed.{is_word, landed_at};
ghost use Rattle.planning_edges.specs.Landings.{edge_kind, edge_at, EdgeRecords};
ghost use Rattle.planning_edges.specs.Noted.{Within, Blank, Able, Noted};
ghost use Rattle.planning_edges.specs.Passing.{passing};
ghost use Rattle.planning_edges.specs.Edges.{EdgeNoted};

use planning::SafepointSpiller;
use planning::spilled::{Spilled, SpilledBlocks};
use records::file::File;
use rules::{EdgeArgument, Record, kinds};

// Whether the record at a place is an edge argument that is a returned or an exception word.
fn is_word(file: File<'_>, place: usize) -> bool
    requires { place < record_count file.bytes.now }
    ensures { result ≡ is_word (encode (record_at file.entry.bytes.now place)) }
{
    matches!(
        file.decoded_at(place),
        Record::EdgeArgument(EdgeArgument::Returned(_) | EdgeArgument::Exception(_))
    )
}

// One record of an edge that gets a landing: an argument's value is loaded there if it is spilled, and a word becomes a
// parameter, as large as the parameter of the target that stands as far behind place first as this record behind start.
fn plan_landed(
    spiller: &mut SafepointSpiller<'_>,
    spilled: Spilled<'_>,
    first: usize,
    start: usize,
    place: usize,
)
    requires { (start ≤ place) × (place < record_count spilled.file.bytes.now) × (place < length spiller.old.numbers.now) × (first ≤ record_count spilled.file.bytes.now) × Good (function_in spilled.file.bytes.now) (tables_of spiller.old) 1 }
    ensures lent { SameLent spiller.old spiller.new }
    ensures walked { Walked (function_in spilled.entry.file.bytes.now) (landed_at spilled.entry.file.bytes.now spiller.old.pointer start first) place 1 (tables_of spiller.old) spiller.old.numbers.now (tables_of spiller.new) spiller.new.numbers.now }
{
    if !is_word(spilled.file, place) {
        return spiller.plan_use(spilled, kinds::EDGE_ARGUMENT, place);
    }
    let w = spilled.file.words_from(first + (place - start));
    spiller.numbers[place] = (spiller.given + spiller.made + 1) as u32;
    spiller.sizes[spiller.made] = spilled.file.size_of(w.second);
    spiller.made += 1;
}

// Those from a place on and before place end.
fn plan_all_landed(
    spiller: &mut SafepointSpiller<'_>,
    spilled: Spilled<'_>,
    first: usize,
    start: usize,
    end: usize,
)
    requires { Range spilled.file.bytes.now spiller.old.numbers.now start end × (first ≤ record_count spilled.file.bytes.now) × Good (function_in spilled.file.bytes.now) (tables_of spiller.old) (end - start) }
    ensures lent { SameLent spiller.old spiller.new }
    ensures walked { Walked (function_in spilled.entry.file.bytes.now) (landed_at spilled.entry.file.bytes.now spiller.old.pointer start first) start (end - start) (tables_of spiller.old) spiller.old.numbers.now (tables_of spiller.new) spiller.new.numbers.now }
{
    for place in start..end {
        plan_landed(spiller, spilled, first, start, place);
    }
}

// Whether an edge argument from a place on and before place end is a spilled value.
fn passes_spilled(spilled: Spilled<'_>, start: usize, end: usize) -> bool
    requires { (start ≤ end) × (end ≤ record_count spilled.file.bytes.now) }
    ensures { result ≡ passing (is_spilled (function_in spilled.entry.file.bytes.now)) (between spilled.entry.file.bytes.now start end) }
{
    (start..end).any(|place| spilled.operand_at(kinds::EDGE_ARGUMENT, place).is_some())
}

// The landing of the edge at a place, whose records end before place end: its number beside the edge, and its arguments.
fn plan_landing(
    spiller: &mut SafepointSpiller<'_>,
    blocks: SpilledBlocks<'_>,
    place: usize,
    end: usize,
)
    requires { EdgeRecords blocks.spilled.file.bytes.now place end × (end ≤ length spiller.old.numbers.now) × Blank (Within blocks.spilled.file.bytes.now edge_kind place end) spiller.old.numbers.now × Able (function_in blocks.spilled.file.bytes.now) (tables_of spiller.old) (end - place) }
    ensures lent { SameLent spiller.old spiller.new }
    ensures noted { Noted (function_in blocks.entry.spilled.file.bytes.now) (Within blocks.entry.spilled.file.bytes.now edge_kind place end) (λ ns. edge_plan_at blocks.entry.spilled.file.bytes.now ns place end) (plan_landing (function_in blocks.entry.spilled.file.bytes.now) spiller.old.pointer (edge_at blocks.entry.spilled.file.bytes.now place end)) (end - place) (tables_of spiller.old) spiller.old.numbers.now (tables_of spiller.new) spiller.new.numbers.now }
{
    let w = blocks.spilled.file.words_at(place);
    let first = blocks.places[w.second as usize] + 1;
    spiller.blocks += 1;
    spiller.numbers[place] = spiller.blocks as u32;
    plan_all_landed(spiller, blocks.spilled, first, place + 1, end);
}

// An edge of a safepoint.
pub fn plan_safepoint_edge(
    spiller: &mut SafepointSpiller<'_>,
    blocks: SpilledBlocks<'_>,
    place: usize,
    end: usize,
)
    requires { EdgeRecords blocks.spilled.file.bytes.now place end × (end ≤ length spiller.old.numbers.now) × Blank (Within blocks.spilled.file.bytes.now edge_kind place end) spiller.old.numbers.now × Able (function_in blocks.spilled.file.bytes.now) (tables_of spiller.old) (end - place) }
    ensures lent { SameLent spiller.old spiller.new }
    ensures noted { EdgeNoted blocks.entry.spilled.file.bytes.now spiller.old.pointer true place end (tables_of spiller.old) spiller.old.numbers.now (tables_of spiller.new) spiller.new.numbers.now }
{
    if passes_spilled(blocks.spilled, place + 1, end) {
        plan_landing(spiller, blocks, place, end);
    }
}
