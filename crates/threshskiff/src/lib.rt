// The services as C has them: an answer is a struct of plain numbers in C's layout, and a refusal is its number. `threshskiff_c` exports each
// of these functions under its own name; `include/threshskiff.h` has the same for C, and what each promises in words.
#![tactic(auto)]

ghost use Rattle.std.specs.Prelude.{◌≡◌, length};
ghost use Rattle.rules.specs.Refusals.{needed};
ghost use Rattle.threshskiff.specs.Numbers.{answer_of};
ghost use Rattle.threshskiff.specs.Outcomes.{CheckAllows, LivenessAllows, ListAllows, RewritingAllows, FinalAllows};

use finals::final_records;
use rewriter::rewrite;
use rules::{Refusal, RewritingAnswer};
use services::check::check_file;
use services::list::list;
use services::liveness::liveness;

// What liveness answers: the number of the refusal, 0 where there is none, and two counts.
#[repr(C)]
#[derive(Clone, Copy)]
pub struct ThreshskiffLiveness {
    pub refusal: u32,
    pub visits: u32,
    pub pushes: u32,
}

// What the list of one safepoint answers.
#[repr(C)]
#[derive(Clone, Copy)]
pub struct ThreshskiffList {
    pub refusal: u32,
    pub count: u32,
}

// What rewriting answers; `unchanged` is 1 or 0.
#[repr(C)]
#[derive(Clone, Copy)]
pub struct ThreshskiffRewriting {
    pub refusal: u32,
    pub records: u32,
    pub slots: u32,
    pub landings: u32,
    pub visits: u32,
    pub pushes: u32,
    pub unchanged: u32,
}

// Where the final records are: `length` bytes from `offset` of the output, where `of_output` is 1, or of the input, where it is 0.
#[repr(C)]
#[derive(Clone, Copy)]
pub struct ThreshskiffFinal {
    pub of_output: u32,
    pub offset: usize,
    pub length: usize,
}

// The number of the lowest refusal of 2 to 8 that applies to a file, 0 where none does.
pub fn threshskiff_check(file: &[u8]) -> u32
    ensures { CheckAllows file.now result }
{
    match check_file(file) {
        Ok(()) => 0,
        Err(refusal) => u32::from(refusal),
    }
}

// Liveness: both live tables, visits and pushes.
pub fn threshskiff_liveness(
    file: &[u8],
    live_in: &mut [u64],
    live_out: &mut [u64],
) -> ThreshskiffLiveness
    ensures { LivenessAllows file.now (length live_in.old) (length live_out.old) result live_in.new live_out.new }
{
    match liveness(file, live_in, live_out) {
        Ok(live) => ThreshskiffLiveness {
            refusal: 0,
            visits: live.visits,
            pushes: live.pushes,
        },
        Err(refusal) => ThreshskiffLiveness {
            refusal: u32::from(refusal),
            visits: 0,
            pushes: 0,
        },
    }
}

// The list of one safepoint, ascending, and its count.
pub fn threshskiff_list(file: &[u8], instruction: u32, numbers: &mut [u32]) -> ThreshskiffList
    ensures { ListAllows file.now instruction (length numbers.old) result numbers.new }
{
    match list(file, instruction, numbers) {
        Ok(count) => ThreshskiffList { refusal: 0, count },
        Err(refusal) => ThreshskiffList {
            refusal: u32::from(refusal),
            count: needed(refusal),
        },
    }
}

// The length needed, which 11 tells.
fn needed(refusal: Refusal) -> u32
    ensures { result ≡ needed refusal }
{
    match refusal {
        Refusal::TooShort(needed) => needed,
        _ => 0,
    }
}

// Rewriting: the rewritten records, and what they count.
pub fn threshskiff_rewrite(
    file: &[u8],
    pointer_size: u32,
    output: &mut [u8],
) -> ThreshskiffRewriting
    ensures { RewritingAllows file.now pointer_size (length output.old) result output.new }
{
    match rewrite(file, pointer_size, output) {
        Ok(rewritten) => ThreshskiffRewriting {
            refusal: 0,
            records: rewritten.records,
            slots: rewritten.slots,
            landings: rewritten.landings,
            visits: rewritten.visits,
            pushes: rewritten.pushes,
            unchanged: u32::from(rewritten.unchanged),
        },
        Err(refusal) => ThreshskiffRewriting {
            refusal: u32::from(refusal),
            records: needed(refusal),
            slots: 0,
            landings: 0,
            visits: 0,
            pushes: 0,
            unchanged: 0,
        },
    }
}

// The answer that any numbers stand for: any refusal but 0 refuses.
fn answer_of(numbers: ThreshskiffRewriting) -> Result<RewritingAnswer, Refusal>
    ensures { result ≡ answer_of numbers }
{
    if numbers.refusal != 0 {
        return Err(Refusal::Malformed);
    }
    Ok(RewritingAnswer {
        records: numbers.records,
        slots: numbers.slots,
        landings: numbers.landings,
        visits: numbers.visits,
        pushes: numbers.pushes,
        unchanged: numbers.unchanged != 0,
    })
}

// Where the final records of an answer are, whatever its numbers are: at the front of the input, where it says "unchanged" by any
// number but 0, else at the front of the output.
pub fn threshskiff_final<'a>(
    answer: ThreshskiffRewriting,
    input: &'a [u8],
    output: &'a [u8],
) -> ThreshskiffFinal
    ensures { FinalAllows answer input.now output.now result }
{
    let part = final_records(answer_of(answer), input, output);
    ThreshskiffFinal {
        of_output: u32::from(answer.unchanged == 0),
        offset: 0,
        length: part.len(),
    }
}
