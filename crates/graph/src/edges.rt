// The edges of a block, one after the other.
ghost use Rattle.std.specs.Prelude.{◌≡◌, ◌≤◌, ◌<◌};
ghost use Rattle.rules.specs.Records.{kind, record_at, record_count};
ghost use Rattle.graph.specs.Tails.{TailLast, NoTail};
ghost use Rattle.graph.specs.NextEdge.{edge_from};

use records::file::File;
use rules::kinds;

// An edge by its target, and the place behind its record.
#[derive(Clone, Copy)]
pub struct NextEdge {
    pub target: usize,
    pub behind: usize,
}

// The first edge from a place on and before place end.
pub fn next_edge(file: File<'_>, from: usize, end: usize) -> Option<NextEdge>
    requires { (from ≤ end) × (end ≤ record_count file.bytes.now) }
    ensures { result ≡ edge_from file.entry.bytes.now from end }
{
    let at = (from..end).find(|&i| file.kind_at(i) == kinds::EDGE)?;
    Some(NextEdge {
        target: file.words_at(at).second as usize,
        behind: at + 1,
    })
}

// Where a block's tail of edges, edge arguments and contexts starts, from a place on and before the block's end, or the end. A place
// that is in the tail is itself the answer, so that whoever asks again behind each edge does not read the tail again.
pub fn tail_from(file: File<'_>, from: usize, end: usize) -> usize
    requires { (from ≤ end) × (end ≤ record_count file.bytes.now) × TailLast file.bytes.now from end }
    ensures { (from ≤ result) × (result ≤ end) × NoTail file.entry.bytes.now from result × (result < end → 7 ≤ kind (record_at file.entry.bytes.now result)) }
{
    if from < end && file.kind_at(from) >= kinds::EDGE {
        return from;
    }
    for i in (from..end).rev() {
        if file.kind_at(i) < kinds::EDGE {
            return i + 1;
        }
    }
    from
}

// The first edge from a place on and before the block's end, found in the block's tail.
pub fn next_edge_in_tail(file: File<'_>, from: usize, end: usize) -> Option<NextEdge>
    requires { (from ≤ end) × (end ≤ record_count file.bytes.now) × TailLast file.bytes.now from end }
    ensures { result ≡ edge_from file.entry.bytes.now from end }
{
    next_edge(file, tail_from(file, from, end), end)
}
