// Liveness of a whole file: document 01's process over lent tables, with its visits and pushes. Rows are by block number,
// and a block stands for its index.
#![tactic(auto)]

ghost use Rattle.std.specs.Prelude.{◌≡◌, ◌∷◌, [], ℕ, ◌≤◌, ◌<◌, length, get_or};
ghost use Rattle.rules.specs.Records.{record_at, record_count};
ghost use Rattle.rules.specs.File.{named, function_in};
ghost use Rattle.rules.specs.Liveness.{process};
ghost use Rattle.lists.specs.Members.{◌∈◌};
ghost use Rattle.fixpoint.specs.MoveToTop.{Compact, step_top};
ghost use Rattle.graph.specs.Between.{between};
ghost use Rattle.graph.specs.Tails.{TailLast};
ghost use Rattle.rows.specs.Rows.{rows, HasRow};
ghost use Rattle.worklist.specs.Entries.{entries};
ghost use Rattle.solving.specs.declared.Progress.{Progress};
ghost use Rattle.solving.specs.Chains.{chain, Chain};
ghost use Rattle.solving.specs.Progress.{joined_into, Added, Pushable, Pushed, Popped, Stands};
ghost use Rattle.solving.specs.Tables.{LiveTables, Ready, Solvable};

use equations::{Equations, Predecessors};
use records::file::File;
use rows::{count, join, transfer};
use rules::{LivenessCounts, kinds};
use worklist::Worklist;

pub mod equations;

// How far the process has come: the blocks still to visit, and the visits and pushes so far.
#[derive(Clone, Copy)]
struct Progress {
    worklist: Worklist,
    visits: u32,
    pushes: u32,
}

// A block's row of live-out gets the live-in of the target of the record at place i, if that is an edge.
fn join_target(file: File<'_>, i: usize, outs: &mut [u64], b: usize, ins: &[u64])
    requires { (i < record_count file.bytes.now) × HasRow outs.old b × ((t : ℕ) → t ∈ named 7 (record_at file.bytes.now i ∷ []) → HasRow ins.now t) }
    ensures { rows outs.new ≡ joined_into b (rows ins.now) (named 7 (record_at file.entry.bytes.now i ∷ [])) (rows outs.old) }
{
    let w = file.words_at(i);
    if w.kind == kinds::EDGE {
        join(outs, b, ins, w.second as usize);
    }
}

// A block's row of live-out gets the live-in of each target of the edges between two places. They stand in the block's tail, which
// is read once, from its end.
fn join_successors(
    file: File<'_>,
    start: usize,
    end: usize,
    outs: &mut [u64],
    b: usize,
    ins: &[u64],
)
    requires { (start ≤ end) × (end ≤ record_count file.bytes.now) × HasRow outs.old b × ((t : ℕ) → t ∈ named 7 (between file.bytes.now start end) → HasRow ins.now t) × TailLast file.bytes.now start end }
    ensures { rows outs.new ≡ joined_into b (rows ins.now) (named 7 (between file.entry.bytes.now start end)) (rows outs.old) }
{
    for i in (start..end).rev() {
        if file.kind_at(i) < kinds::EDGE {
            return;
        }
        join_target(file, i, outs, b, ins);
    }
}

// To a block's live-out, then to its live-in, is added what the rule gives now. Answers whether live-in grew, which is
// asked through the number of its values. Here and below ins and outs stay two parameters: each contract of a struct of both would
// have to say that it still holds the same two tables (as `OnTables` of graph does), which is no plainer.
fn add_live(equations: Equations<'_>, ins: &mut [u64], outs: &mut [u64], b: usize) -> bool
    requires { LiveTables (function_in equations.reachable.blocks.file.bytes.now) ins.old outs.old × (b < length (function_in equations.reachable.blocks.file.bytes.now).blocks) }
    ensures { Added (function_in equations.entry.reachable.blocks.file.bytes.now) b (rows ins.old) (rows outs.old) (rows ins.new) (rows outs.new) result }
{
    let blocks = equations.reachable.blocks;
    let rules = equations.rules;
    let body = blocks.body(b);
    let before = count(ins, b);
    join_successors(blocks.file, body.start, body.end, outs, b, ins);
    transfer(ins, b, outs, rules.uses, rules.kills);
    count(ins, b) > before
}

impl Progress {
    // Each predecessor of a block is pushed, once an edge, ascending by index, as its list has them.
    fn push_predecessors(&mut self, lists: Predecessors<'_>, b: usize)
        requires { (b < length lists.first.now) × Chain lists.from.now lists.next.now (get_or lists.first.now b 0) × Pushable (chain lists.from.now lists.next.now (get_or lists.first.now b 0)) self.old }
        ensures { Pushed (chain lists.entry.from.now lists.entry.next.now (get_or lists.entry.first.now b 0)) self.old self.new }
    {
        let mut tag = lists.first[b];
        while let Some(entry) = tag.checked_sub(1) {
            self.worklist.push(lists.from[entry]);
            self.pushes += 1;
            tag = lists.next[entry];
        }
    }

    // A visit of a block that was on top: from what the tables and the worklist stood for, one step of the process.
    fn visit(&mut self, equations: Equations<'_>, ins: &mut [u64], outs: &mut [u64], b: usize)
        requires { LiveTables (function_in equations.reachable.blocks.file.bytes.now) ins.old outs.old × Ready (function_in equations.reachable.blocks.file.bytes.now) b self.old }
        ensures { (at : Progress) (c : Compact) → Popped at b self.old → Stands ins.old outs.old at c → Stands ins.new outs.new self.new (step_top (function_in equations.entry.reachable.blocks.file.bytes.now) c) }
    {
        self.visits += 1;
        if add_live(equations, ins, outs, b) {
            self.push_predecessors(equations.predecessors, b);
        }
    }
}

// The whole process, from tables of zeros until no block is left to visit.
pub fn solve(equations: Equations<'_>, ins: &mut [u64], outs: &mut [u64]) -> LivenessCounts
    requires { Solvable (function_in equations.reachable.blocks.file.bytes.now) ins.old outs.old }
    ensures { (rows ins.new ≡ (process (function_in equations.entry.reachable.blocks.file.bytes.now)).ins) × (rows outs.new ≡ (process (function_in equations.entry.reachable.blocks.file.bytes.now)).outs) × (result.visits ≡ length (process (function_in equations.entry.reachable.blocks.file.bytes.now)).visited) × (result.pushes ≡ (process (function_in equations.entry.reachable.blocks.file.bytes.now)).pushes) }
{
    let order = equations.reachable.order;
    let mut at = Progress {
        worklist: Worklist::stacked(order),
        visits: 0,
        pushes: order.len() as u32,
    };
    while let Some(b) = at.worklist.pop() {
        at.visit(equations, ins, outs, b);
    }
    LivenessCounts {
        visits: at.visits,
        pushes: at.pushes,
    }
}
