// The blocks of the file, one behind the other: each reachable one with its landings behind it, another as it is.
ghost use Rattle.std.specs.Prelude.{◌≡◌, ◌<◌, ◌≤◌, length};
ghost use Rattle.rows.specs.Rows.{rows};
ghost use Rattle.writing.specs.Places.{from_to};
ghost use Rattle.writing.specs.Put.{Fits, Put};
ghost use Rattle.writing.specs.Wrote.{room, Wrote};
ghost use Rattle.layout.specs.Laid.{BlockTables, block_part_at};

use crate::blocks::{copy_records, put_block};
use listing::indexed::Numbered;
use writing::plan::Plan;
use writing::put::Output;
use writing_instructions::entries::Lists;

// A function's blocks, its plan, and the lists of its instructions.
#[derive(Clone, Copy)]
pub struct Laying<'a> {
    pub numbered: Numbered<'a>,
    pub plan: Plan<'a>,
    pub lists: Lists<'a>,
    ghost same: { plan.file.bytes.now ≡ numbered.indexed.blocks.file.bytes.now },
    ghost tables: { BlockTables plan.file.bytes.now numbered.indexed.blocks.places.now numbered.indexed.index.now plan.numbers.now lists.rows.now lists.values },
}

// Block b, by its index: by its plan if it has one, or as it is.
fn lay_block(laying: Laying<'_>, b: usize, out: &mut Output<'_>)
    requires { (b < laying.numbered.indexed.blocks.count) × Fits out.old (block_part_at laying.plan.file.bytes.now laying.numbered.indexed.blocks.places.now laying.plan.numbers.now laying.plan.slots.now laying.lists.values (rows laying.lists.rows.now) b) }
    ensures { Put out.old (block_part_at laying.entry.plan.file.bytes.now laying.entry.numbered.indexed.blocks.places.now laying.entry.plan.numbers.now laying.entry.plan.slots.now laying.entry.lists.values (rows laying.entry.lists.rows.now) b) out.new }
{
    let indexed = laying.numbered.indexed;
    let p = indexed.blocks.place(b);
    let end = indexed.blocks.body(b).end;
    if indexed.index[b] == 0 {
        copy_records(laying.plan.file, p, end, out);
    } else {
        let first = laying.numbered.firsts[b];
        put_block(laying.plan, laying.lists, first, p, end, out);
    }
}

// The writer of block b: it is lent the output from the current record onward, fills its front, and answers how many bytes that takes.
fn put_laid(laying: Laying<'_>, b: usize, rest: &mut [u8]) -> usize
    requires { (b < laying.numbered.indexed.blocks.count) × (room (block_part_at laying.plan.file.bytes.now laying.numbered.indexed.blocks.places.now laying.plan.numbers.now laying.plan.slots.now laying.lists.values (rows laying.lists.rows.now) b) ≤ length rest.old) }
    ensures { Wrote rest.old (block_part_at laying.entry.plan.file.bytes.now laying.entry.numbered.indexed.blocks.places.now laying.entry.plan.numbers.now laying.entry.plan.slots.now laying.entry.lists.values (rows laying.entry.lists.rows.now) b) result rest.new }
{
    let mut out = Output { bytes: rest, at: 0 };
    lay_block(laying, b, &mut out);
    out.at
}

// All blocks, in file order.
pub fn put_blocks(laying: Laying<'_>, out: &mut Output<'_>)
    requires { Fits out.old (from_to (block_part_at laying.plan.file.bytes.now laying.numbered.indexed.blocks.places.now laying.plan.numbers.now laying.plan.slots.now laying.lists.values (rows laying.lists.rows.now)) 0 laying.numbered.indexed.blocks.count) }
    ensures { Put out.old (from_to (block_part_at laying.entry.plan.file.bytes.now laying.entry.numbered.indexed.blocks.places.now laying.entry.plan.numbers.now laying.entry.plan.slots.now laying.entry.lists.values (rows laying.entry.lists.rows.now)) 0 laying.entry.numbered.indexed.blocks.count) out.new }
{
    for b in 0..laying.numbered.indexed.blocks.count {
        out.at += put_laid(laying, b, &mut out.bytes[out.at..]);
    }
}
