// The whole function: all reachable blocks by ascending index.
ghost use Rattle.std.specs.Prelude.{◌≡◌, ◌≤◌, length};
ghost use Rattle.rules.specs.Records.{record_count};
ghost use Rattle.rules.specs.File.{function_in};
ghost use Rattle.rules.specs.Graph.{reachable as reachable_in};
ghost use Rattle.graph.specs.Zeros.{Zeros};
ghost use Rattle.listing.specs.Firsts.{Firsts};
ghost use Rattle.planning.specs.Lent.{SameLent, tables_of};
ghost use Rattle.planning.specs.Operands.{Reading};
ghost use Rattle.planning_edges.specs.Noted.{Able};
ghost use Rattle.planner.specs.AllBlocks.{BlocksNoted};
ghost use Rattle.planner.specs.BlockTables.{PlanTables};
ghost use Rattle.planner.specs.Functions.{PlanGiven, PlanLent, Begun, FunctionPlanned};

use crate::blocks::{BlockNumber, plan_block};
use graph::blocks::ReachableTable;
use planning::SafepointSpiller;
use planning::spilled::{Spilled, SpilledBlocks};

// The reachable blocks; a table has the number of each block's first instruction, and a row the spilled values.
pub fn plan_blocks(
    spiller: &mut SafepointSpiller<'_>,
    reachable: ReachableTable<'_>,
    firsts: &[usize],
    row: &[u64],
    lists: &[u64],
    outs: &[u64],
)
    requires { Reading reachable.blocks.file.bytes.now row.now × PlanTables reachable.blocks.file.bytes.now reachable.blocks.places.now lists.now outs.now × Firsts reachable.blocks.file.bytes.now firsts.now × Zeros spiller.old.numbers.now × (record_count reachable.blocks.file.bytes.now ≤ length spiller.old.numbers.now) × Able (function_in reachable.blocks.file.bytes.now) (tables_of spiller.old) (record_count reachable.blocks.file.bytes.now) }
    ensures lent { SameLent spiller.old spiller.new }
    ensures noted { BlocksNoted reachable.entry.blocks.file.bytes.now spiller.old.pointer (reachable_in (function_in reachable.entry.blocks.file.bytes.now)) (tables_of spiller.old) spiller.old.numbers.now (tables_of spiller.new) spiller.new.numbers.now }
{
    let spilled = Spilled {
        file: reachable.blocks.file,
        row,
    };
    let blocks = SpilledBlocks {
        spilled,
        places: reachable.blocks.places,
    };
    for &block in reachable.order {
        let at = BlockNumber {
            block,
            behind: firsts[block + 1],
        };
        plan_block(spiller, blocks, lists, outs, at);
    }
}

// The whole function, over a spiller at its start.
pub fn plan_function(
    spiller: &mut SafepointSpiller<'_>,
    reachable: ReachableTable<'_>,
    firsts: &[usize],
    row: &[u64],
    lists: &[u64],
    outs: &[u64],
)
    requires { PlanGiven reachable.blocks.file.bytes.now firsts.now row.now lists.now outs.now × PlanLent reachable.blocks.file.bytes.now spiller.old.asked.now spiller.old.steps.now spiller.old.sizes.now spiller.old.numbers.now × Begun reachable.blocks.file.bytes.now (tables_of spiller.old) }
    ensures lent { SameLent spiller.old spiller.new }
    ensures planned { FunctionPlanned reachable.entry.blocks.file.bytes.now spiller.old.pointer (tables_of spiller.old) (tables_of spiller.new) spiller.old.numbers.now spiller.new.numbers.now }
{
    plan_blocks(spiller, reachable, firsts, row, lists, outs);
}
