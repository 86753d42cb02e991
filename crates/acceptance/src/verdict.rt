// What is said of a file before and without the walk: refusals 2 to 4, of its records, and 5 to 7, of its function.
ghost use Rattle.std.specs.Prelude.{◌≡◌, length, Ok, Err, MatchResult};
ghost use Rattle.rules.specs.Lists.{padded};
ghost use Rattle.rules.specs.Records.{records};
ghost use Rattle.rules.specs.File.{function_in};
ghost use Rattle.rules.specs.Refusals.{first_of};
ghost use Rattle.checks.specs.Definitions.{noted_all, Countable};
ghost use Rattle.graph.specs.Blocks.{block_table};
ghost use Rattle.acceptance.specs.Stages.{record_refusals, function_refusals};

use checks::counts::{above_largest, count_kinds, too_long};
use checks::definitions::each_once;
use checks::order::malformed;
use graph::blocks::Blocks;
use records::file::File;
use rules::{RECORD_BYTES, Refusal};
use soundness::standing::all_stand;
use soundness::unsound;

// Refusals 2 to 4: what is wrong with the records of a file, or the file, whose records are in order.
pub fn records_verdict(s: &[u8]) -> Result<File<'_>, Refusal>
    ensures { MatchResult result (λ file. (first_of (record_refusals s.now) ≡ Ok tt) × (file.bytes.now ≡ s.now)) (λ e. first_of (record_refusals s.now) ≡ Err e) }
{
    if s.len() % RECORD_BYTES != 0 {
        return Err(Refusal::Length);
    }
    if too_long(s) || above_largest(count_kinds(s)) {
        return Err(Refusal::TooMany);
    }
    if malformed(s) {
        return Err(Refusal::Malformed);
    }
    Ok(File { bytes: s })
}

// Refusals 5 to 7: what is wrong with the function that they are, by its block table, or its blocks. The table of counts then has
// how often each value is defined.
pub fn function_verdict<'a>(
    file: File<'a>,
    counts: &mut [u32],
    places: &'a [usize],
    count: usize,
) -> Result<Blocks<'a>, Refusal>
    requires { Countable file.bytes.now counts.old × (places.now ≡ padded (length places.now) (block_table file.bytes.now)) × (count ≡ length (function_in file.bytes.now).blocks) }
    ensures verdict { MatchResult result (λ blocks. (first_of (function_refusals file.entry.bytes.now) ≡ Ok tt) × (blocks.file.bytes.now ≡ file.entry.bytes.now) × (blocks.places.now ≡ places.now) × (blocks.count ≡ count)) (λ e. first_of (function_refusals file.entry.bytes.now) ≡ Err e) }
    ensures noted { counts.new ≡ noted_all counts.old (records file.entry.bytes.now) }
{
    let found = all_stand(file, counts, places[0], count);
    if !found.in_file {
        return Err(Refusal::NotInFile);
    }
    if !each_once(counts, places[0]) {
        return Err(Refusal::NotDefinedOnce);
    }
    let blocks = Blocks {
        file,
        places,
        count,
    };
    if unsound(blocks, found.stands) {
        return Err(Refusal::Unsound);
    }
    Ok(blocks)
}
