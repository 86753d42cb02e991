// One block: slots for what is live out of it, its instructions, the last one first, and its parameters.
ghost use Rattle.std.specs.Prelude.{◌≡◌, ◌+◌, ◌-◌, ◌<◌, ◌≤◌, length, get_or};
ghost use Rattle.rules.specs.Records.{kind, record_at, record_count};
ghost use Rattle.rules.specs.File.{function_in};
ghost use Rattle.planning.specs.Lent.{SameLent, tables_of};
ghost use Rattle.rows.specs.Rows.{rows};
ghost use Rattle.listing.specs.Stepping.{heads_from};
ghost use Rattle.spiller.specs.Instructions.{any_kind};
ghost use Rattle.planning_edges.specs.Noted.{Within, Ready};
ghost use Rattle.planner.specs.Backward.{LastBefore, Walk, InstructionsNoted};
ghost use Rattle.planner.specs.Blocks.{BlockGiven, BlockReady, BlockNoted};

use listing::runs::run_end;
use planning::SafepointSpiller;
use planning::spilled::SpilledBlocks;
use records::file::File;
use rules::kinds;
use spiller::instructions::{InstructionSpot, plan_instruction};

// Where a block's records stand: the first behind its own, its first instruction, the place behind it, and the number
// behind its last instruction's.
#[derive(Clone, Copy)]
pub struct BlockSpot {
    pub start: usize,
    pub front: usize,
    pub end: usize,
    pub behind: usize,
}

// The last instruction from place front on and before place end; one stands at place front.
fn last_instruction(file: File<'_>, front: usize, end: usize) -> usize
    requires { (front < end) × (end ≤ record_count file.bytes.now) × (kind (record_at file.bytes.now front) ≡ 4) }
    ensures { LastBefore file.entry.bytes.now front end result }
{
    for i in (front..end).rev() {
        if file.kind_at(i) == kinds::INSTRUCTION {
            return i;
        }
    }
    front
}

// The instructions of a block; the lists of all safepoints are rows by number. A `while`, since it goes back from instruction to
// instruction: a `for` over the places between would have to keep where the last one began as well.
pub fn plan_instructions(
    spiller: &mut SafepointSpiller<'_>,
    blocks: SpilledBlocks<'_>,
    lists: &[u64],
    block: BlockSpot,
)
    requires { Walk blocks.spilled.file.bytes.now lists.now block.start block.front block.end block.behind × Ready (function_in blocks.spilled.file.bytes.now) (Within blocks.spilled.file.bytes.now any_kind block.front block.end) block.end (block.end - block.front) (tables_of spiller.old) spiller.old.numbers.now }
    ensures lent { SameLent spiller.old spiller.new }
    ensures noted { InstructionsNoted blocks.entry.spilled.file.bytes.now lists.now (rows blocks.entry.spilled.row.now 0) block.end spiller.old.pointer block.front (block.behind - length (heads_from blocks.entry.spilled.file.bytes.now block.front block.end)) (tables_of spiller.old) spiller.old.numbers.now (tables_of spiller.new) spiller.new.numbers.now }
{
    let mut i = block.end;
    let mut number = block.behind;
    while i > block.front {
        let place = last_instruction(blocks.spilled.file, block.front, i);
        number -= 1;
        let at = InstructionSpot {
            place,
            end: i,
            number,
        };
        plan_instruction(spiller, blocks, lists, at);
        i = place;
    }
}

// A block by its number, and the number behind its last instruction's.
#[derive(Clone, Copy)]
pub struct BlockNumber {
    pub block: usize,
    pub behind: usize,
}

// A block, whose live-out is a row.
pub fn plan_block(
    spiller: &mut SafepointSpiller<'_>,
    blocks: SpilledBlocks<'_>,
    lists: &[u64],
    outs: &[u64],
    at: BlockNumber,
)
    requires { BlockGiven blocks.spilled.file.bytes.now lists.now outs.now at.block at.behind (get_or blocks.places.now at.block 0 + 1) (get_or blocks.places.now (at.block + 1) 0) × BlockReady blocks.spilled.file.bytes.now at.block (tables_of spiller.old) spiller.old.numbers.now }
    ensures lent { SameLent spiller.old spiller.new }
    ensures noted { BlockNoted blocks.entry.spilled.file.bytes.now spiller.old.pointer at.block (tables_of spiller.old) spiller.old.numbers.now (tables_of spiller.new) spiller.new.numbers.now }
{
    let b = at.block;
    let spilled = blocks.spilled;
    let start = blocks.places[b] + 1;
    let end = blocks.places[b + 1];
    let front = run_end(spilled.file, kinds::PARAMETER, start, end);
    let values = spiller.given;
    spiller.ask_all(spilled.row, outs, b, values);
    let block = BlockSpot {
        start,
        front,
        end,
        behind: at.behind,
    };
    plan_instructions(spiller, blocks, lists, block);
    spiller.plan_definitions(spilled, kinds::PARAMETER, start, front);
}
