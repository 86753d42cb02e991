// Planning's steps replayed over the lent table of holders.
ghost use Rattle.std.specs.Prelude.{◌≡◌, length};
ghost use Rattle.holders.specs.Table.{Replayable, holders_after};

use crate::Holder;
use crate::changes::{change, change_at};
use records::file::File;

// All steps, one after the other, each where the table stands.
pub fn replay(file: File<'_>, steps: &[u32], places: &[u32], table: &mut [Holder])
    requires { Replayable file.bytes.now steps.now places.now (length steps.now) table.old }
    ensures { table.new ≡ holders_after file.entry.bytes.now steps.now places.now (length steps.now) table.old }
{
    for i in 0..steps.len() {
        change(table, change_at(file, steps, places, i));
    }
}
