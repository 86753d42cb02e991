// The lists of all safepoints as rows, by instruction number: the instructions of each reachable block, the last one first.
ghost use Rattle.std.specs.Prelude.{◌≡◌, ◌-◌, ◌*◌, ◌<◌, ◌≤◌, length, get_or, T};
ghost use Rattle.rules.specs.Limits.{row_words};
ghost use Rattle.rules.specs.Records.{record_count};
ghost use Rattle.rules.specs.File.{function_in};
ghost use Rattle.rows.specs.Rows.{rows, HasRow};
ghost use Rattle.blocksets.specs.InRows.{InRows};
ghost use Rattle.rules.specs.Liveness.{is_spilled};
ghost use Rattle.rules.specs.Lists.{update, union};
ghost use Rattle.graph.specs.Zeros.{Zeros};
ghost use Rattle.listing.specs.Crossings.{fill, crossings_among, crossings, listed};
ghost use Rattle.listing.specs.Listed.{together};
ghost use Rattle.listing.specs.Tables.{ListTables};
ghost use Rattle.listing.specs.Stepping.{heads_from, instructions_from, opens, spot_at, live_at, lists_at, BlockRecords};

use crate::indexed::Numbered;
use crate::instructions::list_live;
use blocksets::operands::{go_back, step_back};
use records::file::File;
use rows::{copy_row, join};
use rules::{ROW_WORDS, kinds};
use std::ops::Range;

// How far the walk back over a block has come: where the arguments that wait for their instruction end, and one more than
// its number.
#[derive(Clone, Copy)]
struct Spot {
    middle: usize,
    number: usize,
}

// One record further back. An argument waits: the list of its instruction is what is live behind the arguments.
fn list_at(file: File<'_>, p: usize, at: Spot, live: &mut [u64], lists: &mut [u64]) -> Spot
    requires { InRows file.bytes.now × (p < at.middle) × (at.middle ≤ record_count file.bytes.now) × (T (opens file.bytes.now p) → 0 < at.number) × HasRow live.old 0 × (row_words * at.number ≤ length lists.old) }
    ensures { (result ≡ spot_at file.entry.bytes.now p at) × (rows live.new ≡ live_at file.entry.bytes.now p at (rows live.old)) × (rows lists.new ≡ lists_at file.entry.bytes.now p at (rows live.old) (rows lists.old)) }
{
    match file.kind_at(p) {
        kinds::ARGUMENT => at,
        kinds::INSTRUCTION => {
            let number = at.number - 1;
            list_live(file, p, live, lists, number);
            go_back(file, p + 1, at.middle, live, 0);
            Spot { middle: p, number }
        }
        _ => {
            step_back(file, p, live, 0);
            Spot { middle: p, ..at }
        }
    }
}

// The lists of a block's instructions, whose live-out is a row; the number behind its last one is given.
fn list_block(
    file: File<'_>,
    body: Range<usize>,
    outs: &[u64],
    b: usize,
    lists: &mut [u64],
    behind: usize,
)
    requires { InRows file.bytes.now × BlockRecords file.bytes.now body.start body.end × HasRow outs.now b × (length (heads_from file.bytes.now body.start body.end) ≤ behind) × (row_words * behind ≤ length lists.old) }
    ensures { rows lists.new ≡ fill (behind - length (heads_from file.entry.bytes.now body.start body.end)) (crossings_among (function_in file.entry.bytes.now) (instructions_from file.entry.bytes.now body.start body.end) (rows outs.now b)) (rows lists.old) }
{
    let mut live = [0u64; ROW_WORDS];
    copy_row(&mut live, 0, outs, b);
    let mut at = Spot {
        middle: body.end,
        number: behind,
    };
    for p in (body.start..body.end).rev() {
        at = list_at(file, p, at, &mut live, lists);
    }
}

// The lists of block b, if it is reachable.
fn list_reachable(numbered: Numbered<'_>, outs: &[u64], b: usize, lists: &mut [u64])
    requires { ListTables numbered.indexed.blocks.file.bytes.now numbered.indexed.blocks.places.now numbered.indexed.index.now outs.now (length lists.old) × (b < numbered.indexed.blocks.count) }
    ensures { rows lists.new ≡ fill (get_or numbered.entry.firsts.now b 0) (crossings (function_in numbered.entry.indexed.blocks.file.bytes.now) b) (rows lists.old) }
{
    let Numbered { indexed, firsts } = numbered;
    if indexed.index[b] != 0 {
        let blocks = indexed.blocks;
        list_block(blocks.file, blocks.body(b), outs, b, lists, firsts[b + 1]);
    }
}

// The list of every safepoint of a reachable block, as the row of its number.
fn list_rows(numbered: Numbered<'_>, outs: &[u64], lists: &mut [u64])
    requires { ListTables numbered.indexed.blocks.file.bytes.now numbered.indexed.blocks.places.now numbered.indexed.index.now outs.now (length lists.old) × Zeros lists.old }
    ensures { rows lists.new ≡ listed (function_in numbered.entry.indexed.blocks.file.bytes.now) }
{
    for b in 0..numbered.indexed.blocks.count {
        list_reachable(numbered, outs, b, lists);
    }
}

// The first row gets the values of all rows before row count. They are brought together in a local row, which the machine
// code keeps in registers: one that is lent would be stored and loaded at each turn.
fn join_rows(to: &mut [u64], from: &[u64], count: usize)
    requires { HasRow to.old 0 × (row_words * count ≤ length from.now) }
    ensures { rows to.new ≡ update 0 (union (rows to.old 0) (together count (rows from.now))) (rows to.old) }
{
    let mut all = [0u64; ROW_WORDS];
    for i in 0..count {
        join(&mut all, 0, from, i);
    }
    join(to, 0, &all, 0);
}

// The list of every safepoint of a reachable block, as the row of its number, and the spilled values as one row.
pub fn list_safepoints(numbered: Numbered<'_>, outs: &[u64], lists: &mut [u64], spilled: &mut [u64])
    requires { ListTables numbered.indexed.blocks.file.bytes.now numbered.indexed.blocks.places.now numbered.indexed.index.now outs.now (length lists.old) × Zeros lists.old × Zeros spilled.old × HasRow spilled.old 0 }
    ensures { (rows lists.new ≡ listed (function_in numbered.entry.indexed.blocks.file.bytes.now)) × (rows spilled.new ≡ update 0 (is_spilled (function_in numbered.entry.indexed.blocks.file.bytes.now)) (rows spilled.old)) }
{
    list_rows(numbered, outs, lists);
    let count = numbered.firsts[numbered.indexed.blocks.count];
    join_rows(spilled, lists, count);
}
