// The survey of a file: refusals 2 to 8, lowest first, over lent tables. They are filled on the way, and what lies behind reads an accepted
// file by them.
ghost use Rattle.std.specs.Prelude.{◌≡◌};
ghost use Rattle.rules.specs.Refusals.{first_of};
ghost use Rattle.acceptance.specs.Stages.{walk_refusals};
ghost use Rattle.acceptance.specs.Survey.{survey_tables, BlankTables, Surveyed};

use crate::contexts::marked_context;
use crate::verdict::{function_verdict, records_verdict};
use graph::blocks::ReachableTable;
use graph::places::places_of;
use graph::walk::post_order;
use rules::{Refusal, kinds};

// In a module of their own: the names `survey` and `Survey` cannot stand in one.
pub use crate::accepted::{Survey, SurveyMemory};

// How many blocks a file has, and how many of them are reachable.
#[derive(Clone, Copy)]
pub struct BlockCounts {
    pub all: usize,
    pub reachable: usize,
}

// What is said of a file, and its blocks counted if it was walked.
#[derive(Clone, Copy)]
pub struct SurveyAnswer {
    pub verdict: Result<(), Refusal>,
    pub blocks: BlockCounts,
}

// Refusal 8: what is wrong with the reachable blocks.
pub fn walk_verdict(reachable: ReachableTable<'_>) -> Result<(), Refusal>
    ensures { result ≡ first_of (walk_refusals reachable.entry.blocks.file.bytes.now) }
{
    if marked_context(reachable) {
        return Err(Refusal::MarkedContext);
    }
    Ok(())
}

// Refusals 2 to 8, and the tables as far as the file was read.
pub fn survey(
    s: &[u8],
    counts: &mut [u32],
    places: &mut [usize],
    order: &mut [usize],
    index: &mut [usize],
    stack: &mut [usize],
    next: &mut [usize],
) -> SurveyAnswer
    requires { BlankTables (survey_tables counts.old places.old order.old index.old stack.old next.old) }
    ensures { Surveyed s.now (survey_tables counts.old places.old order.old index.old stack.old next.old) (survey_tables counts.new places.new order.new index.new stack.new next.new) result.verdict result.blocks }
{
    let none = BlockCounts {
        all: 0,
        reachable: 0,
    };
    let file = match records_verdict(s) {
        Ok(file) => file,
        Err(of_records) => {
            return SurveyAnswer {
                verdict: Err(of_records),
                blocks: none,
            };
        }
    };
    let all = places_of(file, kinds::BLOCK, places);
    let blocks = match function_verdict(file, counts, places, all) {
        Ok(blocks) => blocks,
        Err(of_function) => {
            return SurveyAnswer {
                verdict: Err(of_function),
                blocks: none,
            };
        }
    };
    let table = blocks.table();
    let reachable = post_order(table, order, index, stack, next);
    SurveyAnswer {
        verdict: walk_verdict(ReachableTable {
            blocks: table,
            order: &order[..reachable],
        }),
        blocks: BlockCounts { all, reachable },
    }
}
