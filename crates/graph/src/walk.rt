// The post-order walk from block 0, with an explicit stack.
ghost use Rattle.std.specs.Prelude.{◌≡◌, ◌+◌, ◌-◌, ◌≤◌, ◌<◌, length, get_or};
ghost use Rattle.rules.specs.File.{function_in};
ghost use Rattle.graph.specs.Tables.{tables, finish_top, enter_block, turn_on, Ready, Lent, Numbered};
ghost use Rattle.graph.specs.Walk.{tables_of, OnTables};

use crate::blocks::BlockTable;
use crate::edges::next_edge_in_tail;

// The walk's tables, how many blocks are open, and how many are done. The stack is fixed memory (document 01), and so has its depth beside it.
#[derive(Drop)]
struct Walk<'t> {
    order: &'t mut [usize],
    index: &'t mut [usize],
    stack: &'t mut [usize],
    next: &'t mut [usize],
    depth: usize,
    count: usize,
}

impl Walk<'_> {
    // The innermost block gets the next index.
    fn finish(&mut self)
        requires { (0 < self.old.depth) × (self.old.depth ≤ length self.old.stack.now) × (self.old.depth ≤ length self.old.next.now) × (self.old.count < length self.old.order.now) × (get_or self.old.stack.now (self.old.depth - 1) 0 < length self.old.index.now) }
        ensures value { tables_of self.new ≡ finish_top (tables_of self.old) }
        ensures same { OnTables self.old self.new }
    {
        let top = self.depth - 1;
        let b = self.stack[top];
        self.order[self.count] = b;
        self.count += 1;
        self.index[b] = self.count;
        self.stack[top] = 0;
        self.next[top] = 0;
        self.depth = top;
    }

    // Block b goes on top, with all its edges to take.
    fn enter(&mut self, blocks: BlockTable<'_>, b: usize)
        requires { (b < length (function_in blocks.file.bytes.now).blocks) × (b < length self.old.index.now) × (self.old.depth < length self.old.stack.now) × (self.old.depth < length self.old.next.now) }
        ensures value { tables_of self.new ≡ enter_block blocks.entry.places.now b (tables_of self.old) }
        ensures same { OnTables self.old self.new }
    {
        self.index[b] = 1;
        self.stack[self.depth] = b;
        self.next[self.depth] = blocks.body(b).start;
        self.depth += 1;
    }

    // One turn of the walk: the innermost block takes its next edge, or is done.
    fn turn(&mut self, blocks: BlockTable<'_>)
        requires { (0 < self.old.depth) × Ready blocks.file.bytes.now blocks.places.now (tables_of self.old) }
        ensures value { tables_of self.new ≡ turn_on blocks.entry.file.bytes.now blocks.entry.places.now (tables_of self.old) }
        ensures same { OnTables self.old self.new }
    {
        let top = self.depth - 1;
        let end = blocks.body(self.stack[top]).end;
        let Some(edge) = next_edge_in_tail(blocks.file, self.next[top], end) else {
            self.finish();
            return;
        };
        self.next[top] = edge.behind;
        if self.index[edge.target] == 0 {
            self.enter(blocks, edge.target);
        }
    }
}

// The post-order walk from block 0: the reachable blocks by ascending index, and for each block one more than its index,
// 0 where it is not reachable. Answers how many are reachable. The stack is left as it was lent.
pub fn post_order(
    blocks: BlockTable<'_>,
    order: &mut [usize],
    index: &mut [usize],
    stack: &mut [usize],
    next: &mut [usize],
) -> usize
    requires { Lent blocks.file.bytes.now blocks.places.now (tables order.old index.old stack.old next.old 0 0) }
    ensures { Numbered (function_in blocks.entry.file.bytes.now) (tables order.old index.old stack.old next.old 0 0) (tables order.new index.new stack.new next.new 0 result) }
{
    let mut walk = Walk {
        order,
        index,
        stack,
        next,
        depth: 0,
        count: 0,
    };
    walk.enter(blocks, 0);
    // A `while`: how many turns it takes is known of no count beforehand.
    while walk.depth > 0 {
        walk.turn(blocks);
    }
    walk.count
}
