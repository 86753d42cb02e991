// The uses and kills of every block.
ghost use Rattle.std.specs.Prelude.{◌≡◌};
ghost use Rattle.rules.specs.File.{function_in};
ghost use Rattle.fixpoint.specs.Rule.{uses as uses_of, kills as kills_of};
ghost use Rattle.rows.specs.Rows.{rows};
ghost use Rattle.blocksets.specs.InRows.{SetTables};

use crate::operands::collect_sets;
use graph::blocks::Blocks;

// Each block's row of what it uses before it defines it, and of what it defines; also of blocks that are not reachable.
pub fn block_sets(blocks: Blocks<'_>, uses: &mut [u64], kills: &mut [u64])
    requires { SetTables blocks.file.bytes.now blocks.places.now blocks.count uses.old kills.old }
    ensures { (rows uses.new ≡ uses_of (function_in blocks.entry.file.bytes.now)) × (rows kills.new ≡ kills_of (function_in blocks.entry.file.bytes.now)) }
{
    for b in 0..blocks.count {
        let body = blocks.body(b);
        collect_sets(blocks.file, body.start, body.end, uses, kills, b);
    }
}
