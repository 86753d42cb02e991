// What liveness is solved from: the reachable blocks of a file, and tables that say what flows where.
ghost use Rattle.rules.specs.File.{function_in};
ghost use Rattle.solving.specs.Tables.{Ruled, Listed};

use graph::blocks::ReachableTable;

// The lists of predecessors, as `link_predecessors` of graph leaves them: the tag of each block's first entry, and for each entry a
// predecessor and the tag of the next entry.
#[derive(Clone, Copy)]
pub struct Predecessors<'a> {
    pub first: &'a [usize],
    pub from: &'a [usize],
    pub next: &'a [usize],
}

// The rows of what each block uses and kills.
#[derive(Clone, Copy)]
pub struct Rules<'a> {
    pub uses: &'a [u64],
    pub kills: &'a [u64],
}

// Both, for the blocks of a file.
#[derive(Clone, Copy)]
pub struct Equations<'a> {
    pub reachable: ReachableTable<'a>,
    pub predecessors: Predecessors<'a>,
    pub rules: Rules<'a>,
    ghost listed: { Listed (function_in reachable.blocks.file.bytes.now) predecessors.first.now predecessors.from.now predecessors.next.now },
    ghost ruled: { Ruled (function_in reachable.blocks.file.bytes.now) rules.uses.now rules.kills.now },
}
