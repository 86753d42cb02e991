// Whether an instruction, by its number, is a safepoint of a reachable block: if it is not, asking for its list is refused.
ghost use Rattle.std.specs.Prelude.{◌≡◌, not, ◌≤◌, get_or};
ghost use Rattle.std.proofs.Math.Option.{none};
ghost use Rattle.rules.specs.Lists.{is_none};
ghost use Rattle.rules.specs.Records.{record_count};
ghost use Rattle.rules.specs.File.{function_in};
ghost use Rattle.rules.specs.Liveness.{lists};
ghost use Rattle.listing.specs.Stepping.{instructions_from};
ghost use Rattle.listing.specs.HasList.{is_safepoint_at};

use crate::indexed::Numbered;
use crate::instructions::is_safepoint;
use records::file::File;
use rules::kinds;

// Whether instruction k from a place on, and before place end, is a safepoint.
fn safepoint_in(file: File<'_>, start: usize, end: usize, k: usize) -> bool
    requires { (start ≤ end) × (end ≤ record_count file.bytes.now) }
    ensures { result ≡ is_safepoint_at (instructions_from file.entry.bytes.now start end) k }
{
    // Counted down beside the loop, which ends at the instruction asked for, or at the end.
    let mut left = k;
    for p in start..end {
        if file.kind_at(p) == kinds::INSTRUCTION {
            if left == 0 {
                return is_safepoint(file, p);
            }
            left -= 1;
        }
    }
    false
}

// Whether instruction i has a list.
pub fn is_reachable_safepoint(numbered: Numbered<'_>, i: usize) -> bool
    ensures { result ≡ not (is_none (get_or (lists (function_in numbered.entry.indexed.blocks.file.bytes.now)) i none)) }
{
    let blocks = numbered.indexed.blocks;
    for b in 0..blocks.count {
        if i < numbered.firsts[b + 1] {
            let body = blocks.body(b);
            return numbered.indexed.index[b] != 0
                && safepoint_in(blocks.file, body.start, body.end, i - numbered.firsts[b]);
        }
    }
    false
}
