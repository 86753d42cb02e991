// The service of rewriting: the function with its stores, reloads, maps and landings. It takes any bytes, owns the tables that it needs, and
// asks nothing of its caller.
#![tactic(auto)]

ghost use Rattle.std.specs.Prelude.{◌≡◌, length, replicate};
ghost use Rattle.outcomes.specs.Outcomes.{RewritingAllows};
ghost use Rattle.rewriting.specs.Answers.{Outcome};
ghost use Rattle.rewriting.specs.Rows.{LiveRows, PointerFine};

use acceptance::survey::{BlockCounts, Survey, SurveyMemory};
use analysis::tables::{live_tables, numbered};
use listing::blocks::list_safepoints;
use listing::firsts::number_instructions;
use listing::indexed::Numbered;
use planning::spilled::Spilled;
use rewriting::spilled::rewrite_spilled;
use rewriting::{Found, FoundRows};
use rows::count;
use rules::{
    LARGEST_BLOCKS, LARGEST_INSTRUCTIONS, ROW_WORDS, Refusal, RewritingAnswer, TABLE_WORDS,
};
use stackslots::sizes::has_slot_sizes;

// The answer for an accepted file, from its live sets and lists: refusal 9, unchanged, or what is written into a cleared output.
fn rewrite_live<'a>(
    numbered: Numbered<'a>,
    order: &'a [usize],
    rows: FoundRows<'a>,
    found: Found,
    pointer: u32,
    out: &mut [u8],
) -> Result<RewritingAnswer, Refusal>
    requires { LiveRows numbered.indexed.blocks.file.bytes.now numbered.indexed.blocks.places.now order.now numbered.indexed.index.now rows.outs.now rows.lists.now rows.spilled.now found × PointerFine pointer × (out.old ≡ replicate (length out.old) 0) }
    ensures { Outcome numbered.entry.indexed.blocks.file.bytes.now pointer (length out.old) result out.new }
{
    let blocks = numbered.indexed.blocks;
    let spilled = Spilled {
        file: blocks.file,
        row: rows.spilled,
    };
    if !has_slot_sizes(spilled, blocks.values()) {
        return Err(Refusal::SlotSize);
    }
    if count(rows.spilled, 0) == 0 {
        return Ok(RewritingAnswer {
            records: blocks.file.record_count() as u32,
            slots: 0,
            landings: 0,
            visits: found.live.visits,
            pushes: found.live.pushes,
            unchanged: true,
        });
    }
    rewrite_spilled(numbered, order, rows, found, pointer, out)
}

// The answer for an accepted file, with the output cleared.
fn rewrite_accepted(
    survey: &Survey<'_>,
    pointer: u32,
    out: &mut [u8],
) -> Result<RewritingAnswer, Refusal>
    requires { PointerFine pointer × (out.old ≡ replicate (length out.old) 0) }
    ensures { Outcome survey.now.file.bytes.now pointer (length out.old) result out.new }
{
    let mut firsts: [usize; LARGEST_BLOCKS + 1] = [0; LARGEST_BLOCKS + 1];
    let mut ins: [u64; TABLE_WORDS] = [0; TABLE_WORDS];
    let mut outs: [u64; TABLE_WORDS] = [0; TABLE_WORDS];
    let mut lists: [u64; LARGEST_INSTRUCTIONS * ROW_WORDS] = [0; LARGEST_INSTRUCTIONS * ROW_WORDS];
    let mut spilled: [u64; ROW_WORDS] = [0; ROW_WORDS];
    number_instructions(survey.blocks(), &mut firsts);
    let reachable = survey.reachable();
    let live = live_tables(reachable, &mut ins, &mut outs);
    let numbered = numbered(survey, &firsts);
    list_safepoints(numbered, &outs, &mut lists, &mut spilled);
    let found = Found {
        blocks: BlockCounts {
            all: survey.count,
            reachable: survey.reachable,
        },
        live,
        instructions: firsts[survey.count],
    };
    let rows = FoundRows {
        outs: &outs,
        lists: &lists,
        spilled: &spilled,
    };
    rewrite_live(numbered, reachable.order, rows, found, pointer, out)
}

// The rewritten records at the front of the output, with zeros behind them, and the counts of the answer; zeros alone where
// no value is spilled, for then the file is unchanged, and where the call is refused: by 1, by 2 to 8, by 9, and by 11, with
// the count of records that is needed, where the output is too short.
pub fn rewrite(s: &[u8], pointer: u32, out: &mut [u8]) -> Result<RewritingAnswer, Refusal>
    ensures { RewritingAllows s.now pointer (length out.old) result out.new }
{
    out.fill(0);
    if pointer != 4 && pointer != 8 {
        return Err(Refusal::PointerSize);
    }
    let mut memory = SurveyMemory::new();
    let found = memory.survey(s);
    found.verdict?;
    let survey = memory.accepted(s, found.blocks);
    rewrite_accepted(&survey, pointer, out)
}
