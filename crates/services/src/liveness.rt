// Liveness: the two live tables of a file, and the visits and pushes of the process that finds them.
ghost use Rattle.std.specs.Prelude.{length};
ghost use Rattle.outcomes.specs.Outcomes.{LivenessAllows};

use acceptance::survey::SurveyMemory;
use analysis::tables::live_tables;
use rules::{LivenessCounts, Refusal, TABLE_WORDS};

// The two live tables, eight words a block, with zeros behind them, and the visits and pushes of the process. Zeros alone
// where the call is refused: by 2 to 8, and by 11 where a table is too short.
pub fn liveness(s: &[u8], ins: &mut [u64], outs: &mut [u64]) -> Result<LivenessCounts, Refusal>
    ensures { LivenessAllows s.now (length ins.old) (length outs.old) result ins.new outs.new }
{
    ins.fill(0);
    outs.fill(0);
    let mut memory = SurveyMemory::new();
    let found = memory.survey(s);
    found.verdict?;
    let survey = memory.accepted(s, found.blocks);
    if ins.len() < TABLE_WORDS || outs.len() < TABLE_WORDS {
        return Err(Refusal::TooShort(TABLE_WORDS as u32));
    }
    Ok(live_tables(survey.reachable(), ins, outs))
}
