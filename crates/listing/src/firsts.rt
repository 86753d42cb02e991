// The number of each block's first instruction, as a table that is made once and read wherever instructions go by their
// numbers.
ghost use Rattle.std.specs.Prelude.{◌≡◌, ◌+◌, ◌<◌, ◌≤◌, length};
ghost use Rattle.rules.specs.Records.{record_count};
ghost use Rattle.listing.specs.Stepping.{heads_from};
ghost use Rattle.listing.specs.Firsts.{NumberedTo};

use graph::blocks::Blocks;
use records::file::File;
use rules::kinds;

// How many instructions start from a place on and before place end. A sum of ones, since `filter(..).count()` branches at each record.
fn count_instructions(file: File<'_>, start: usize, end: usize) -> usize
    requires { (start ≤ end) × (end ≤ record_count file.bytes.now) }
    ensures { result ≡ length (heads_from file.entry.bytes.now start end) }
{
    (start..end)
        .map(|p| usize::from(file.kind_at(p) == kinds::INSTRUCTION))
        .sum()
}

// Notes the number of each block's first instruction, and behind the last block how many instructions there are.
pub fn number_instructions(blocks: Blocks<'_>, firsts: &mut [usize])
    requires { blocks.count < length firsts.old }
    ensures { NumberedTo blocks.entry.file.bytes.now (blocks.entry.count + 1) firsts.old firsts.new }
{
    let mut first: usize = 0;
    for b in 0..blocks.count {
        firsts[b] = first;
        let body = blocks.body(b);
        first += count_instructions(blocks.file, body.start, body.end);
    }
    firsts[blocks.count] = first;
}
