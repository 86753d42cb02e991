// Edges: what each asks to be loaded before its instruction, the edge itself, and its landing.
ghost use Rattle.std.specs.Prelude.{◌≡◌, true, ◌<◌, ◌≤◌};
ghost use Rattle.rules.specs.Records.{record_count};
ghost use Rattle.writing_edges.specs.Edges.{edge_and, landing_head, landing_jump, edge_part, edge_part_at};
ghost use Rattle.writing.specs.Parts.{of_argument};
ghost use Rattle.writing.specs.Places.{from_to};
ghost use Rattle.writing.specs.Put.{Fits, Put};
ghost use Rattle.writing_edges.specs.declared.edges.EdgePart.TheVariants.{Loads as LoadsOf, Itself as EdgeOf, Landing as LandingOf};

use graph::places::next_place;
use rules::{Record, kinds};
use writing::parts::Part;
use writing::plan::Plan;
use writing::put::Output;
use writing::run::put_parts;

// The parts of the output that an edge has. They stay an enum, and no closures: the definition `edge_records_of` and the theorems on
// edges speak of them by name.
#[derive(Clone, Copy)]
pub enum EdgePart {
    // addresses and loads of its values before the instruction, where it has no landing
    Loads,
    Itself,
    Landing,
}

// An edge to a block, and what a part has for its arguments.
fn put_edge_to(
    plan: Plan<'_>,
    target: u32,
    part: Part,
    from: usize,
    end: usize,
    out: &mut Output<'_>,
)
    requires { (from ≤ end) × (end ≤ record_count plan.file.bytes.now) × Fits out.old (edge_and plan.file.bytes.now plan.numbers.now plan.slots.now target part from end) × (of_argument part ≡ true) }
    ensures { Put out.old (edge_and plan.entry.file.bytes.now plan.entry.numbers.now plan.entry.slots.now target part from end) out.new }
{
    out.put(Record::Edge(target));
    put_parts(plan, kinds::EDGE_ARGUMENT, part, from, end, out);
}

// The addresses and loads that the edge at a place asks for before its instruction.
fn put_edge_loads(plan: Plan<'_>, p: usize, end: usize, out: &mut Output<'_>)
    requires { (p < end) × (end ≤ record_count plan.file.bytes.now) × Fits out.old (edge_part plan.file.bytes.now plan.numbers.now plan.slots.now LoadsOf p end) }
    ensures { Put out.old (edge_part plan.entry.file.bytes.now plan.entry.numbers.now plan.entry.slots.now LoadsOf p end) out.new }
{
    if plan.numbers[p] == 0 {
        put_parts(
            plan,
            kinds::EDGE_ARGUMENT,
            Part::PassedLoad,
            p + 1,
            end,
            out,
        );
    }
}

// The edge at a place, with its operands replaced or led to its landing with only the words.
fn put_edge(plan: Plan<'_>, p: usize, end: usize, out: &mut Output<'_>)
    requires { (p < end) × (end ≤ record_count plan.file.bytes.now) × Fits out.old (edge_part plan.file.bytes.now plan.numbers.now plan.slots.now EdgeOf p end) }
    ensures { Put out.old (edge_part plan.entry.file.bytes.now plan.entry.numbers.now plan.entry.slots.now EdgeOf p end) out.new }
{
    match plan.numbers[p].checked_sub(1) {
        None => put_edge_to(
            plan,
            plan.file.words_at(p).second,
            Part::Passed,
            p + 1,
            end,
            out,
        ),
        Some(landing) => put_edge_to(plan, landing, Part::Word, p + 1, end, out),
    }
}

// A landing's block with a parameter for each word; its cold word is 0.
fn put_landing_head(plan: Plan<'_>, number: u32, p: usize, end: usize, out: &mut Output<'_>)
    requires { (p < end) × (end ≤ record_count plan.file.bytes.now) × Fits out.old (landing_head plan.file.bytes.now plan.numbers.now plan.slots.now number p end) }
    ensures { Put out.old (landing_head plan.entry.file.bytes.now plan.entry.numbers.now plan.entry.slots.now number p end) out.new }
{
    out.put(Record::Block {
        cold: false,
        number,
    });
    put_parts(
        plan,
        kinds::EDGE_ARGUMENT,
        Part::LandingParameter,
        p + 1,
        end,
        out,
    );
}

// A landing's jump with its edge.
fn put_landing_jump(plan: Plan<'_>, p: usize, end: usize, out: &mut Output<'_>)
    requires { (p < end) × (end ≤ record_count plan.file.bytes.now) × Fits out.old (landing_jump plan.file.bytes.now plan.numbers.now plan.slots.now p end) }
    ensures { Put out.old (landing_jump plan.entry.file.bytes.now plan.entry.numbers.now plan.entry.slots.now p end) out.new }
{
    let target = plan.file.words_at(p).second;
    out.put(Record::Jump);
    put_edge_to(plan, target, Part::Landed, p + 1, end, out);
}

// The landing of the edge at a place, where it has one.
fn put_landing(plan: Plan<'_>, p: usize, end: usize, out: &mut Output<'_>)
    requires { (p < end) × (end ≤ record_count plan.file.bytes.now) × Fits out.old (edge_part plan.file.bytes.now plan.numbers.now plan.slots.now LandingOf p end) }
    ensures { Put out.old (edge_part plan.entry.file.bytes.now plan.entry.numbers.now plan.entry.slots.now LandingOf p end) out.new }
{
    if let Some(number) = plan.numbers[p].checked_sub(1) {
        put_landing_head(plan, number, p, end, out);
        put_parts(
            plan,
            kinds::EDGE_ARGUMENT,
            Part::PassedLoad,
            p + 1,
            end,
            out,
        );
        put_landing_jump(plan, p, end, out);
    }
}

// What a part has for the edge at a place.
fn put_edge_part(plan: Plan<'_>, part: EdgePart, p: usize, end: usize, out: &mut Output<'_>)
    requires { (p < end) × (end ≤ record_count plan.file.bytes.now) × Fits out.old (edge_part plan.file.bytes.now plan.numbers.now plan.slots.now part p end) }
    ensures { Put out.old (edge_part plan.entry.file.bytes.now plan.entry.numbers.now plan.entry.slots.now part p end) out.new }
{
    match part {
        EdgePart::Loads => put_edge_loads(plan, p, end, out),
        EdgePart::Itself => put_edge(plan, p, end, out),
        EdgePart::Landing => put_landing(plan, p, end, out),
    }
}

// What a part has for the edges from a place on and before place end.
pub fn put_edges(plan: Plan<'_>, part: EdgePart, from: usize, end: usize, out: &mut Output<'_>)
    requires { (from ≤ end) × (end ≤ record_count plan.file.bytes.now) × Fits out.old (from_to (edge_part_at plan.file.bytes.now plan.numbers.now plan.slots.now part end) from end) }
    ensures { Put out.old (from_to (edge_part_at plan.entry.file.bytes.now plan.entry.numbers.now plan.entry.slots.now part end) from end) out.new }
{
    let mut i = next_place(plan.file, kinds::EDGE, from, end);
    // From edge to edge, each of which ends where the next one stands: a `for` would read every record once more.
    while i < end {
        let next = next_place(plan.file, kinds::EDGE, i + 1, end);
        put_edge_part(plan, part, i, next, out);
        i = next;
    }
}
