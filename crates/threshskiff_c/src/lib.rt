// The static library for C: each function of `threshskiff` under its own name, with its clauses. `include/threshskiff.h` declares them.
#![tactic(auto)]

ghost use Rattle.std.specs.Prelude.{length};
ghost use Rattle.threshskiff.specs.Outcomes.{CheckAllows, LivenessAllows, ListAllows, RewritingAllows, FinalAllows};

use threshskiff::{ThreshskiffFinal, ThreshskiffList, ThreshskiffLiveness, ThreshskiffRewriting};

// The number of the lowest refusal of 2 to 8 that applies to a file, 0 where none does.
#[unsafe(no_mangle)]
pub extern "C" fn threshskiff_check(file: &[u8]) -> u32
    ensures { CheckAllows file.now result }
{
    threshskiff::threshskiff_check(file)
}

// Liveness: both live tables, visits and pushes.
#[unsafe(no_mangle)]
pub extern "C" fn threshskiff_liveness(
    file: &[u8],
    live_in: &mut [u64],
    live_out: &mut [u64],
) -> ThreshskiffLiveness
    ensures { LivenessAllows file.now (length live_in.old) (length live_out.old) result live_in.new live_out.new }
{
    threshskiff::threshskiff_liveness(file, live_in, live_out)
}

// The list of one safepoint, ascending, and its count.
#[unsafe(no_mangle)]
pub extern "C" fn threshskiff_list(
    file: &[u8],
    instruction: u32,
    numbers: &mut [u32],
) -> ThreshskiffList
    ensures { ListAllows file.now instruction (length numbers.old) result numbers.new }
{
    threshskiff::threshskiff_list(file, instruction, numbers)
}

// Rewriting: the rewritten records, and what they count.
#[unsafe(no_mangle)]
pub extern "C" fn threshskiff_rewrite(
    file: &[u8],
    pointer_size: u32,
    output: &mut [u8],
) -> ThreshskiffRewriting
    ensures { RewritingAllows file.now pointer_size (length output.old) result output.new }
{
    threshskiff::threshskiff_rewrite(file, pointer_size, output)
}

// Where the final records of an answer are, whatever its numbers are.
#[unsafe(no_mangle)]
pub extern "C" fn threshskiff_final<'a>(
    answer: ThreshskiffRewriting,
    input: &'a [u8],
    output: &'a [u8],
) -> ThreshskiffFinal
    ensures { FinalAllows answer input.now output.now result }
{
    threshskiff::threshskiff_final(answer, input, output)
}
