// What one step makes of the table of holders.
ghost use Rattle.std.specs.Prelude.{◌≡◌, ◌<◌, length};
ghost use Rattle.holders.specs.Table.{change_of, change_at, Reaches, changed};

use crate::entries::{give, take};
use crate::{Change, Holder};
use records::file::File;

// What a step does: in an even one its value takes a slot, in an odd one it gives the slot back. Its place is one more than the
// slot's number, 0 where nothing changes. The step's value and that value's size are told in each case.
fn change_of(noted: u32, place: u32, size: u32) -> Change
    ensures { result ≡ change_of noted place size }
{
    let owner = noted / 2;
    let Some(slot) = place.checked_sub(1) else {
        return Change::Nothing { owner, size };
    };
    let at = slot as usize;
    if noted % 2 == 0 {
        Change::Takes { at, owner, size }
    } else {
        Change::Gives { at, owner, size }
    }
}

// What step i does, by the steps and their places.
pub fn change_at(file: File<'_>, steps: &[u32], places: &[u32], i: usize) -> Change
    requires { (i < length steps.now) × (i < length places.now) }
    ensures { result ≡ change_at file.entry.bytes.now steps.now places.now i }
{
    let noted = steps[i];
    change_of(noted, places[i], file.size_of(noted / 2))
}

// A step's change, made where the table stands.
pub fn change(table: &mut [Holder], c: Change)
    requires { Reaches c table.old }
    ensures { table.new ≡ changed c table.old }
{
    match c {
        Change::Takes { at, owner, size } => take(table, at, owner, size),
        Change::Gives { at, .. } => give(table, at),
        Change::Nothing { .. } => {}
    }
}
