// Refusal 7, whether edges fit: as many arguments as the target has parameters, and each value of its parameter's size.
ghost use Rattle.std.specs.Prelude.{◌≡◌, ◌&&◌, ◌+◌, ◌<◌, ◌≤◌};
ghost use Rattle.rules.specs.Records.{record_at, record_count, records};
ghost use Rattle.rules.specs.File.{function_in};
ghost use Rattle.rules.specs.Refusals.{fit};
ghost use Rattle.records.specs.Places.{rest};
ghost use Rattle.records.specs.Parts.{argument};
ghost use Rattle.graph.specs.Tails.{TailsLast, TailLast};
ghost use Rattle.soundness.specs.Fitting.{arguments_first, parameters_first, argument_fits, edge_fits, fitting};

use graph::blocks::Blocks;
use records::file::File;
use rules::{Words, kinds};

// Whether an edge argument fits a parameter.
fn argument_fits(file: File<'_>, a: Words, p: Words) -> bool
    ensures { result ≡ argument_fits (function_in file.entry.bytes.now) (argument a) p.second }
{
    a.second != 0 || file.size_of(a.third) == file.size_of(p.second)
}

// Whether the edge arguments from place at on fit the parameters from place to on.
fn arguments_fit(file: File<'_>, at: usize, to: usize) -> bool
    requires { (at ≤ record_count file.bytes.now) × (to ≤ record_count file.bytes.now) }
    ensures { result ≡ fit (function_in file.entry.bytes.now) (arguments_first (rest file.entry.bytes.now at)) (parameters_first (rest file.entry.bytes.now to)) }
{
    // Two places go together, one of them past the end: a zip would stop at the shorter run, and the lengths of both are asked.
    let mut p = to;
    for i in at..file.record_count() {
        let a = file.words_from(i);
        let b = file.words_from(p);
        if a.kind != kinds::EDGE_ARGUMENT {
            return b.kind != kinds::PARAMETER;
        }
        if b.kind != kinds::PARAMETER || !argument_fits(file, a, b) {
            return false;
        }
        p += 1;
    }
    file.words_from(p).kind != kinds::PARAMETER
}

// Whether the record at place i, if it is an edge, fits its target, whose parameters stand behind its record.
fn edge_fits(blocks: Blocks<'_>, i: usize) -> bool
    requires { i < record_count blocks.file.bytes.now }
    ensures { result ≡ edge_fits (function_in blocks.entry.file.bytes.now) (record_at blocks.entry.file.bytes.now i) (rest blocks.entry.file.bytes.now (i + 1)) }
{
    let file = blocks.file;
    if file.kind_at(i) != kinds::EDGE {
        return true;
    }
    let target = file.words_at(i).second as usize;
    arguments_fit(file, i + 1, blocks.place(target) + 1)
}

// Whether every edge from a place on and before the block's end fits, where edges stand in the block's tail, which is read from its
// end. So every edge from the place on fits if these do and every one from the end on.
fn block_edges_fit(blocks: Blocks<'_>, start: usize, end: usize) -> bool
    requires { (start ≤ end) × (end ≤ record_count blocks.file.bytes.now) × TailLast blocks.file.bytes.now start end }
    ensures { (result && fitting (function_in blocks.entry.file.bytes.now) (rest blocks.entry.file.bytes.now end)) ≡ fitting (function_in blocks.entry.file.bytes.now) (rest blocks.entry.file.bytes.now start) }
{
    for i in (start..end).rev() {
        if blocks.file.kind_at(i) < kinds::EDGE {
            return true;
        }
        if !edge_fits(blocks, i) {
            return false;
        }
    }
    true
}

// Whether every edge of a file fits its target, found by the file's block table. Each block is read from its end, as far as
// its edges, their arguments and its contexts stand.
pub fn edges_fit(blocks: Blocks<'_>) -> bool
    requires { TailsLast blocks.file.bytes.now }
    ensures { result ≡ fitting (function_in blocks.entry.file.bytes.now) (records blocks.entry.file.bytes.now) }
{
    for b in 0..blocks.count {
        let body = blocks.body(b);
        if !block_edges_fit(blocks, body.start, body.end) {
            return false;
        }
    }
    true
}
