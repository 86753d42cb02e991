// Refusal 7: the faults of a file in order that its records show only together; and in the pass for it refusal 5 and the counts for 6.
#![tactic(auto)]

ghost use Rattle.std.specs.Prelude.{◌≡◌, not};
ghost use Rattle.rules.specs.Records.{records};
ghost use Rattle.rules.specs.File.{function_in};
ghost use Rattle.rules.specs.Refusals.{sound};
ghost use Rattle.soundness.specs.Standing.{standing};

use crate::fitting::edges_fit;
use graph::blocks::Blocks;

pub mod fitting;
pub mod standing;

// Whether a file that refusals 3 to 5 let pass is unsound: a block that does not end once, results, edges or contexts where
// the flags forbid them, an edge to block 0, as `all_stand` has found; or an edge that does not fit its target, found by the
// file's block table.
pub fn unsound(blocks: Blocks<'_>, stands: bool) -> bool
    requires { stands ≡ standing 2 (records blocks.file.bytes.now) }
    ensures { result ≡ not (sound (function_in blocks.entry.file.bytes.now)) }
{
    !stands || !edges_fit(blocks)
}
