// Refusal 7, but for whether edges fit: blocks that end once, and what an instruction has by its flags. The pass that asks
// for it holds numbers against the file too, for refusal 5, and counts definitions, for refusal 6.
ghost use Rattle.std.specs.Prelude.{◌≡◌, true, not, cond, ◌&&◌, ◌||◌, length, eqb, ltb};
ghost use Rattle.rules.specs.Records.{is_terminator, records};
ghost use Rattle.rules.specs.File.{function_in};
ghost use Rattle.rules.specs.Refusals.{numbers_in_file};
ghost use Rattle.checks.specs.Definitions.{noted_all, Countable};
ghost use Rattle.checks.specs.Numbers.{numbers_fit};
ghost use Rattle.soundness.specs.Standing.{safepoint_flags, may_stand, flags_behind, standing};

use checks::definitions::note_definition;
use records::file::File;
use rules::{Words, kinds};

// Whether the flags are 3.
fn is_safepoint_terminator(flags: u32) -> bool
    ensures { result ≡ safepoint_flags flags }
{
    flags % 2 == 1 && 2 <= flags
}

// Whether an edge to a block may stand where the last instruction in front of it has these flags.
fn edge_stands(flags: u32, target: u32) -> bool
    ensures { result ≡ (is_terminator flags && not (eqb target 0)) }
{
    2 <= flags && target != 0
}

// Whether an edge argument, by its word 2, may stand there: one that passes a value anywhere, a returned or exception word in a safepoint's edge.
fn argument_stands(flags: u32, passes: u32) -> bool
    ensures { result ≡ (safepoint_flags flags || eqb passes 0) }
{
    passes == 0 || is_safepoint_terminator(flags)
}

// Whether an edge argument, by its words 2 and 3, names a value of the file, or none.
fn argument_in_file(passes: u32, value: u32, values: usize) -> bool
    ensures { result ≡ cond (eqb passes 0) (ltb value values) true }
{
    passes != 0 || (value as usize) < values
}

// What is found of one record: whether the numbers that it names are in the file, whether it may stand where it does, and the
// flags of the last instruction in front of what stands behind it.
#[derive(Clone, Copy)]
struct Judged {
    in_file: bool,
    stands: bool,
    flags: u32,
}

// Flags are word 2 of an instruction, 0 to 3, as document 01 and `may_stand` have them. All of it by one look at the record's kind, where the last instruction in front of it has these flags, 2 at the start of a
// file and 0 at the start of a block.
fn judge(flags: u32, w: Words, values: usize, blocks: usize) -> Judged
    ensures { (result.in_file ≡ numbers_fit values blocks w) × (result.stands ≡ may_stand flags w) × (result.flags ≡ flags_behind flags w) }
{
    let a = w.second;
    let value_fits = (a as usize) < values;
    let (in_file, stands, flags) = match w.kind {
        kinds::BLOCK => (true, 2 <= flags, 0),
        kinds::PARAMETER | kinds::ARGUMENT => (value_fits, true, flags),
        kinds::INSTRUCTION => (true, flags < 2, a),
        kinds::RESULT => (value_fits, flags < 2, flags),
        kinds::EDGE => ((a as usize) < blocks, edge_stands(flags, a), flags),
        kinds::EDGE_ARGUMENT => (
            argument_in_file(a, w.third, values),
            argument_stands(flags, a),
            flags,
        ),
        kinds::CONTEXT => (value_fits, is_safepoint_terminator(flags), flags),
        _ => (true, true, flags),
    };
    Judged {
        in_file,
        stands,
        flags,
    }
}

// What one pass over the records of a file finds: whether the numbers that they name are in it, and whether they stand where
// they may.
#[derive(Clone, Copy)]
pub struct Standing {
    pub in_file: bool,
    pub stands: bool,
}

// Whether the records of a file of so many values and blocks name none that it does not have; and whether every one may stand
// where it does, and a terminator ends the file. It goes over all of them whatever it finds, but for the values, which stand
// first, where they may, and name and define nothing; the table then has how often each value is defined.
pub fn all_stand(file: File<'_>, counts: &mut [u32], values: usize, blocks: usize) -> Standing
    requires { Countable file.bytes.now counts.old × (values ≡ length (function_in file.bytes.now).values) × (blocks ≡ length (function_in file.bytes.now).blocks) }
    ensures { (result.in_file ≡ numbers_in_file (function_in file.entry.bytes.now)) × (result.stands ≡ standing 2 (records file.entry.bytes.now)) × (counts.new ≡ noted_all counts.old (records file.entry.bytes.now)) }
{
    let mut flags: u32 = 2;
    let mut in_file = true;
    let mut stands = true;
    for i in values..file.record_count() {
        let w = file.words_at(i);
        let judged = judge(flags, w, values, blocks);
        in_file &= judged.in_file;
        stands &= judged.stands;
        flags = judged.flags;
        note_definition(w, counts);
    }
    stands &= 2 <= flags;
    Standing { in_file, stands }
}
