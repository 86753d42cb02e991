// Whether a file is refused by what every service refuses of a file.
ghost use Rattle.outcomes.specs.Outcomes.{CheckAllows};

use acceptance::survey::SurveyMemory;
use rules::Refusal;

// Refusals 2 to 8 of a file: the lowest that applies.
pub fn check_file(s: &[u8]) -> Result<(), Refusal>
    ensures { CheckAllows s.now result }
{
    let mut memory = SurveyMemory::new();
    memory.survey(s).verdict
}
