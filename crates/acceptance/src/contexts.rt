// Refusal 8: a marked context in a reachable block.
ghost use Rattle.std.specs.Prelude.{◌≡◌, ◌<◌, ◌≤◌, length};
ghost use Rattle.rules.specs.Lists.{any};
ghost use Rattle.rules.specs.Records.{record_count};
ghost use Rattle.rules.specs.File.{named, function_in};
ghost use Rattle.rules.specs.Graph.{is_marked};
ghost use Rattle.rules.specs.Refusals.{marked_context};
ghost use Rattle.graph.specs.Between.{between};
ghost use Rattle.graph.specs.Tails.{TailsLast, TailLast};
ghost use Rattle.acceptance.specs.Marked.{block_marked};

use graph::blocks::{BlockTable, ReachableTable};
use records::file::File;
use rules::kinds;

// Whether a marked context stands from a place on and before the block's end. Contexts stand last in a block, so they are read from
// its end, and nothing else is.
fn marked_between(file: File<'_>, start: usize, end: usize) -> bool
    requires { (start ≤ end) × (end ≤ record_count file.bytes.now) × TailLast file.bytes.now start end }
    ensures { result ≡ any (is_marked (function_in file.entry.bytes.now)) (named 9 (between file.entry.bytes.now start end)) }
{
    for i in (start..end).rev() {
        let w = file.words_at(i);
        if w.kind != kinds::CONTEXT {
            return false;
        }
        if file.is_marked(w.second) {
            return true;
        }
    }
    false
}

// Whether a marked context stands in block b.
fn marked_in_block(blocks: BlockTable<'_>, b: usize) -> bool
    requires { (b < length (function_in blocks.file.bytes.now).blocks) × TailsLast blocks.file.bytes.now }
    ensures { result ≡ block_marked (function_in blocks.entry.file.bytes.now) b }
{
    let body = blocks.body(b);
    marked_between(blocks.file, body.start, body.end)
}

// Whether a marked context stands in a reachable block.
pub fn marked_context(reachable: ReachableTable<'_>) -> bool
    ensures { result ≡ marked_context (function_in reachable.entry.blocks.file.bytes.now) }
{
    let blocks = reachable.blocks;
    reachable.order.iter().any(|&b| marked_in_block(blocks, b))
}
