// `LivenessAnalysis`, over lent tables. The live sets of an accepted file: predecessors are linked, each block's uses and kills are read, and the process runs.
#![tactic(auto)]

ghost use Rattle.analysis.specs.Analysis.{live_tables, Analysable, Analysed};

use blocksets::blocks::block_sets;
use graph::blocks::Reachable;
use graph::predecessors::link_predecessors;
use rules::LivenessCounts;
use solving::equations::{Equations, Predecessors, Rules};
use solving::solve;

pub mod tables;

// Both live tables of a file that was surveyed and not refused, with the tables that the process needs. They are lent one by one, as
// whoever reads them behind it does: a struct of them would have to say that it still holds the same ones.
pub fn analyse<'t>(
    reachable: Reachable<'t>,
    first: &'t mut [usize],
    from: &'t mut [usize],
    next: &'t mut [usize],
    uses: &'t mut [u64],
    kills: &'t mut [u64],
    ins: &mut [u64],
    outs: &mut [u64],
) -> LivenessCounts
    requires { Analysable reachable.blocks.file.bytes.now (live_tables first.old from.old next.old uses.old kills.old ins.old outs.old) }
    ensures { Analysed reachable.entry.blocks.file.bytes.now (live_tables first.old from.old next.old uses.old kills.old ins.old outs.old) (live_tables first.new from.new next.new uses.new kills.new ins.new outs.new) result }
{
    let table = reachable.table();
    link_predecessors(table, first, from, next);
    block_sets(reachable.blocks, uses, kills);
    let equations = Equations {
        reachable: table,
        predecessors: Predecessors { first, from, next },
        rules: Rules { uses, kills },
    };
    solve(equations, ins, outs)
}
