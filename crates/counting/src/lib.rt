// How many records the rewritten function has, from the numbers planned for it and before anything is written.
#![tactic(auto)]

ghost use Rattle.std.specs.Prelude.{◌≡◌, ◌*◌, ◌≤◌, ◌<◌, length};
ghost use Rattle.rules.specs.Lists.{up_from};
ghost use Rattle.rules.specs.Limits.{row_words, largest_records, largest_blocks, largest_instructions};
ghost use Rattle.rules.specs.Records.{record_count};
ghost use Rattle.fixpoint.specs.Sums.{sum};
ghost use Rattle.graph.specs.Between.{between};
ghost use Rattle.rows.specs.Rows.{rows, size, HasRow};
ghost use Rattle.counting.specs.Weights.{weight, weighed, beside_records};
ghost use Rattle.counting.specs.Totals.{block_added};

use listing::indexed::Indexed;
use records::file::File;
use rows::{count, is_empty};
use rules::kinds;
use std::ops::Range;

// What the tag beside a record of a kind adds.
fn weight_of(kind: u32, tag: u32) -> usize
    ensures { (result ≡ weight kind tag) × (result < 4) }
{
    match kind {
        _ if tag == 0 => 0,
        kinds::EDGE => 3,
        kinds::PARAMETER | kinds::RESULT | kinds::ARGUMENT | kinds::EDGE_ARGUMENT => 2,
        _ => 0,
    }
}

// What the tags beside the records of a range add.
fn count_between(file: File<'_>, numbers: &[u32], range: Range<usize>) -> usize
    requires { (range.start ≤ range.end) × (range.end ≤ record_count file.bytes.now) × (range.end ≤ length numbers.now) × (range.end ≤ largest_records) }
    ensures { (result ≡ weighed (beside_records numbers.now) range.start (between file.entry.bytes.now range.start range.end)) × (result ≤ 3 * largest_records) }
{
    range.map(|i| weight_of(file.kind_at(i), numbers[i])).sum()
}

// What is added to block b, if it is reachable.
fn count_block(indexed: Indexed<'_>, numbers: &[u32], b: usize) -> usize
    requires { (b < indexed.blocks.count) × (record_count indexed.blocks.file.bytes.now ≤ length numbers.now) × (record_count indexed.blocks.file.bytes.now ≤ largest_records) }
    ensures { (result ≡ block_added indexed.entry.blocks.file.bytes.now numbers.now b) × (result ≤ 3 * largest_records) }
{
    if indexed.index[b] == 0 {
        return 0;
    }
    let blocks = indexed.blocks;
    count_between(blocks.file, numbers, blocks.body(b))
}

// What is added to all blocks.
pub fn count_added(indexed: Indexed<'_>, numbers: &[u32]) -> usize
    requires { (indexed.blocks.count ≤ largest_blocks) × (record_count indexed.blocks.file.bytes.now ≤ length numbers.now) × (record_count indexed.blocks.file.bytes.now ≤ largest_records) }
    ensures { let blocks = indexed.entry.blocks in (result ≡ sum (block_added blocks.file.bytes.now numbers.now) (up_from 0 blocks.count)) × (result ≤ blocks.count * (3 * largest_records)) }
{
    (0..indexed.blocks.count)
        .map(|b| count_block(indexed, numbers, b))
        .sum()
}

// How many map entries the list of instruction i has. Most instructions are no safepoints and have none, so that not all rows are
// counted.
fn count_listed(lists: &[u64], i: usize) -> usize
    requires { HasRow lists.now i }
    ensures { result ≡ size (rows lists.now i) }
{
    if is_empty(lists, i) {
        0
    } else {
        count(lists, i)
    }
}

// How many map entries the lists of so many instructions have.
pub fn count_entries(lists: &[u64], instructions: usize) -> usize
    requires { (row_words * instructions ≤ length lists.now) × (instructions ≤ largest_instructions) }
    ensures { (result ≡ sum (λ i. size (rows lists.now i)) (up_from 0 instructions)) × (result ≤ instructions * 512) }
{
    (0..instructions).map(|i| count_listed(lists, i)).sum()
}
