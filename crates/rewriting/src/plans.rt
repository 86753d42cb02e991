// The plan of a file whose live sets and lists are found: its numbers, and the slots that its steps leave.
ghost use Rattle.listing.specs.Firsts.{Firsts};
ghost use Rattle.rewriting.specs.Planning.{Plannable, PlanLent, RecordsPlanned};

use crate::{Found, FoundRows, Planned};
use graph::blocks::Reachable;
use planner::functions::plan_function;
use planning::SafepointSpiller;
use rules::{LARGEST_RECORDS, LARGEST_VALUES, ROW_WORDS};
use slots::SlotSize;
use stackslots::replaying::replay;

// Plans the file over lent tables of zeros: the numbers beside its records, the slot of each value, and the sizes of new
// values and of slots. The four are lent one by one: a struct of them would have to say that it still holds the same ones.
pub fn plan_records(
    reachable: Reachable<'_>,
    firsts: &[usize],
    rows: FoundRows<'_>,
    found: Found,
    pointer: u32,
    numbers: &mut [u32],
    slots: &mut [u32],
    new_sizes: &mut [u32],
    slot_sizes: &mut [u32],
) -> Planned
    requires { Plannable reachable.blocks.file.bytes.now reachable.blocks.places.now reachable.order.now rows.outs.now rows.lists.now rows.spilled.now found × PlanLent numbers.old slots.old new_sizes.old slot_sizes.old × Firsts reachable.blocks.file.bytes.now firsts.now }
    ensures { RecordsPlanned reachable.entry.blocks.file.bytes.now reachable.entry.blocks.places.now rows.entry.lists.now found pointer numbers.new slots.new new_sizes.new slot_sizes.new result }
{
    let mut asked: [u64; ROW_WORDS] = [0; ROW_WORDS];
    let mut steps: [u32; LARGEST_VALUES + LARGEST_RECORDS] = [0; LARGEST_VALUES + LARGEST_RECORDS];
    let mut heads: [usize; SlotSize::LEN] = [0; SlotSize::LEN];
    let mut older: [usize; LARGEST_VALUES + LARGEST_RECORDS] = [0; LARGEST_VALUES
        + LARGEST_RECORDS];
    let blocks = reachable.blocks;
    let mut spiller = SafepointSpiller {
        asked: &mut asked,
        steps: &mut steps,
        sizes: new_sizes,
        numbers,
        pointer,
        given: blocks.values(),
        made: 0,
        blocks: blocks.count,
        noted: 0,
    };
    plan_function(
        &mut spiller,
        reachable.table(),
        firsts,
        rows.spilled,
        rows.lists,
        rows.outs,
    );
    let made = spiller.made;
    let landed = spiller.blocks;
    let noted = spiller.noted;
    let slots = replay(
        blocks.file,
        &steps[..noted],
        &mut heads,
        &mut older,
        slots,
        slot_sizes,
    );
    Planned {
        pointer,
        made,
        slots,
        blocks: landed,
    }
}
