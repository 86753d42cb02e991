// The list of one safepoint: the values that are live across it, ascending.
ghost use Rattle.std.specs.Prelude.{◌≡◌, length, replicate};
ghost use Rattle.outcomes.specs.Outcomes.{ListAllows};
ghost use Rattle.rows.specs.Rows.{rows, HasRow};
ghost use Rattle.services.specs.ListRow.{row_answer, row_numbers};

use acceptance::survey::{Survey, SurveyMemory};
use analysis::tables::{live_tables, numbered};
use listing::blocks::list_safepoints;
use listing::firsts::number_instructions;
use listing::numbers::list_numbers;
use listing::safepoints::is_reachable_safepoint;
use rows::count;
use rules::{LARGEST_BLOCKS, LARGEST_INSTRUCTIONS, ROW_WORDS, Refusal, TABLE_WORDS};

// Refusal 11, with the count that is needed, or the list, at the front of a cleared buffer; by the rows of all lists.
fn list_row(lists: &[u64], i: usize, out: &mut [u32]) -> Result<u32, Refusal>
    requires { HasRow lists.now i × (out.old ≡ replicate (length out.old) 0) }
    ensures { (result ≡ row_answer (rows lists.now i) (length out.old)) × (out.new ≡ row_numbers (rows lists.now i) (length out.old)) }
{
    let needed = count(lists, i);
    if out.len() < needed {
        return Err(Refusal::TooShort(needed as u32));
    }
    Ok(list_numbers(lists, i, out) as u32)
}

// The answer for an accepted file, with the buffer cleared.
fn list_instruction(survey: &Survey<'_>, instruction: u32, out: &mut [u32]) -> Result<u32, Refusal>
    requires { out.old ≡ replicate (length out.old) 0 }
    ensures { ListAllows survey.now.file.bytes.now instruction (length out.old) result out.new }
{
    let mut firsts: [usize; LARGEST_BLOCKS + 1] = [0; LARGEST_BLOCKS + 1];
    let mut ins: [u64; TABLE_WORDS] = [0; TABLE_WORDS];
    let mut outs: [u64; TABLE_WORDS] = [0; TABLE_WORDS];
    let mut lists: [u64; LARGEST_INSTRUCTIONS * ROW_WORDS] = [0; LARGEST_INSTRUCTIONS * ROW_WORDS];
    let mut spilled: [u64; ROW_WORDS] = [0; ROW_WORDS];
    number_instructions(survey.blocks(), &mut firsts);
    live_tables(survey.reachable(), &mut ins, &mut outs);
    let numbered = numbered(survey, &firsts);
    list_safepoints(numbered, &outs, &mut lists, &mut spilled);
    let i = instruction as usize;
    if !is_reachable_safepoint(numbered, i) {
        return Err(Refusal::NoSafepoint);
    }
    list_row(&lists, i, out)
}

// The list of a reachable safepoint, by its instruction's number, with zeros behind it, and its count. Zeros alone where
// the call is refused: by 2 to 8, by 10 where it is no reachable safepoint, and by 11, with the count that is needed, where
// the buffer is too short.
pub fn list(s: &[u8], instruction: u32, out: &mut [u32]) -> Result<u32, Refusal>
    ensures { ListAllows s.now instruction (length out.old) result out.new }
{
    out.fill(0);
    let mut memory = SurveyMemory::new();
    let found = memory.survey(s);
    found.verdict?;
    let survey = memory.accepted(s, found.blocks);
    list_instruction(&survey, instruction, out)
}
