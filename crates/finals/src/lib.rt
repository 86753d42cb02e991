// The final records: a part of the input or a part of the output, by the answer of a rewriting.
#![tactic(auto)]

ghost use Rattle.std.specs.Prelude.{◌≡◌};
ghost use Rattle.outcomes.specs.Outcomes.{FinalAllows};
ghost use Rattle.finals.specs.Finals.{first_records};

use rules::{RECORD_BYTES, Refusal, RewritingAnswer};

// The first records of a buffer; none where it is shorter.
fn first_records<'a>(buffer: &'a [u8], records: u32) -> &'a [u8]
    ensures { result.now ≡ first_records buffer.now records }
{
    match buffer.get(..RECORD_BYTES * (records as usize)) {
        Some(first) => first,
        None => &[],
    }
}

// The first records of the input where it is unchanged, else of the output, as many as an answer says. The answer may be
// any, also one that no call gave: for a refusal, and where the chosen buffer is shorter, there are none.
pub fn final_records<'a>(
    answer: Result<RewritingAnswer, Refusal>,
    input: &'a [u8],
    output: &'a [u8],
) -> &'a [u8]
    ensures { FinalAllows answer input.now output.now result.now }
{
    let Ok(rewritten) = answer else {
        return &[];
    };
    let chosen = if rewritten.unchanged { input } else { output };
    first_records(chosen, rewritten.records)
}
