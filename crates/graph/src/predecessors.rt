// The lists of predecessors, linked through lent tables. A table of blocks has the tag of each list's first entry; a tag is 0
// for none, and one more than the entry's place: the definitions `links` and `Chain` read them so, and an Option would take twice the memory,
// which is fixed (document 01). For that the lists are links in tables, and no Vec.
ghost use Rattle.std.specs.Prelude.{◌≡◌, ◌<◌, length};
ghost use Rattle.rules.specs.File.{function_in};
ghost use Rattle.rules.specs.Graph.{successors};
ghost use Rattle.graph.specs.Tails.{TailsLast};
ghost use Rattle.graph.specs.Links.{links, link_edge, link_block, linked, Linkable, LentLinks};
ghost use Rattle.graph.specs.Walk.{links_of, OnLists};

use crate::blocks::{BlockTable, ReachableTable};
use crate::edges::{next_edge, next_edge_in_tail};

// The tables of the lists, and how many entries are in use.
#[derive(Drop)]
struct Lists<'t> {
    first: &'t mut [usize],
    from: &'t mut [usize],
    next: &'t mut [usize],
    used: usize,
}

impl Lists<'_> {
    // One entry more, in front of the list of block t: an edge from block p.
    fn link_edge(&mut self, p: usize, t: usize)
        requires { (t < length self.old.first.now) × (self.old.used < length self.old.from.now) × (self.old.used < length self.old.next.now) }
        ensures value { links_of self.new ≡ link_edge p (links_of self.old) t }
        ensures same { OnLists self.old self.new }
    {
        self.from[self.used] = p;
        self.next[self.used] = self.first[t];
        self.used += 1;
        self.first[t] = self.used;
    }

    // The edges of block p.
    fn link_block(&mut self, blocks: BlockTable<'_>, p: usize)
        requires { (p < length (function_in blocks.file.bytes.now).blocks) × TailsLast blocks.file.bytes.now × Linkable (successors (function_in blocks.file.bytes.now) p) (links_of self.old) }
        ensures value { links_of self.new ≡ link_block (function_in blocks.entry.file.bytes.now) (links_of self.old) p }
        ensures same { OnLists self.old self.new }
    {
        let body = blocks.body(p);
        let mut found = next_edge_in_tail(blocks.file, body.start, body.end);
        // From edge to edge: each search begins behind the edge before it, which no range does.
        while let Some(edge) = found {
            self.link_edge(p, edge.target);
            found = next_edge(blocks.file, edge.behind, body.end);
        }
    }
}

// The lists of the predecessors of all blocks, once an edge, ascending by index. Answers how many entries are in use. The
// blocks go from the highest index down, and each entry in front of those before it.
pub fn link_predecessors(
    reachable: ReachableTable<'_>,
    first: &mut [usize],
    from: &mut [usize],
    next: &mut [usize],
) -> usize
    requires { LentLinks (function_in reachable.blocks.file.bytes.now) (links first.old from.old next.old 0) }
    ensures { links first.new from.new next.new result ≡ linked (function_in reachable.entry.blocks.file.bytes.now) (links first.old from.old next.old 0) }
{
    let mut lists = Lists {
        first,
        from,
        next,
        used: 0,
    };
    for i in (0..reachable.order.len()).rev() {
        lists.link_block(reachable.blocks, reachable.order[i]);
    }
    lists.used
}
