// The live tables of a file, with scratch tables of the service's own; and a survey's blocks by their numbers.
ghost use Rattle.std.specs.Prelude.{◌≡◌, length};
ghost use Rattle.rules.specs.File.{function_in};
ghost use Rattle.rules.specs.Liveness.{process};
ghost use Rattle.rows.specs.Rows.{rows};
ghost use Rattle.listing.specs.Firsts.{Firsts};
ghost use Rattle.analysis.specs.Live.{Lent};

use crate::analyse;
use acceptance::survey::Survey;
use graph::blocks::Reachable;
use listing::indexed::{Indexed, Numbered};
use rules::{LARGEST_BLOCKS, LARGEST_EDGES, LivenessCounts, TABLE_WORDS};

// Both live tables of a file that was surveyed and not refused.
pub fn live_tables(reachable: Reachable<'_>, ins: &mut [u64], outs: &mut [u64]) -> LivenessCounts
    requires { Lent reachable.blocks.file.bytes.now ins.old outs.old }
    ensures { (rows ins.new ≡ (process (function_in reachable.entry.blocks.file.bytes.now)).ins) × (rows outs.new ≡ (process (function_in reachable.entry.blocks.file.bytes.now)).outs) × (result.visits ≡ length (process (function_in reachable.entry.blocks.file.bytes.now)).visited) × (result.pushes ≡ (process (function_in reachable.entry.blocks.file.bytes.now)).pushes) }
{
    let mut first: [usize; LARGEST_BLOCKS] = [0; LARGEST_BLOCKS];
    let mut from: [usize; LARGEST_EDGES] = [0; LARGEST_EDGES];
    let mut next: [usize; LARGEST_EDGES] = [0; LARGEST_EDGES];
    let mut uses: [u64; TABLE_WORDS] = [0; TABLE_WORDS];
    let mut kills: [u64; TABLE_WORDS] = [0; TABLE_WORDS];
    analyse(
        reachable, &mut first, &mut from, &mut next, &mut uses, &mut kills, ins, outs,
    )
}

// A survey's blocks with their indices, and with the numbers of their first instructions.
pub fn numbered<'a>(survey: &'a Survey<'a>, firsts: &'a [usize]) -> Numbered<'a>
    requires { Firsts survey.now.file.bytes.now firsts.now }
    ensures file { result.indexed.blocks.file.bytes.now ≡ survey.now.file.bytes.now }
    ensures places { result.indexed.blocks.places.now ≡ survey.now.places.now }
    ensures index { result.indexed.index.now ≡ survey.now.index.now }
    ensures firsts { result.firsts.now ≡ firsts.now }
{
    let blocks = survey.blocks();
    let indexed = Indexed {
        blocks,
        index: survey.index,
    };
    Numbered { indexed, firsts }
}
