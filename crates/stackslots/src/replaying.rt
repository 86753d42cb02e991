// The noted steps replayed: the free lists tell which slot each step is about, and the table of holders keeps who has each
// slot and how large it is.
ghost use Rattle.std.specs.Prelude.{◌≡◌, ◌+◌, ◌≤◌, length};
ghost use Rattle.rules.specs.Limits.{largest_values, largest_records};
ghost use Rattle.rows.specs.Rows.{row_values};
ghost use Rattle.stackslots.specs.Tables.{Lent, Replayed};
ghost use Rattle.stackslots.specs.SlotSizes.{sizes_over};

use crate::freelists::StackSlots;
use holders::{Holder, table};
use records::file::File;
use rules::{LARGEST_RECORDS, LARGEST_VALUES};

// The sizes of the slots that a table is of, as numbers.
fn sizes_of(table: &[Holder], sizes: &mut [u32])
    requires { length table.now ≤ length sizes.old }
    ensures { sizes.new ≡ sizes_over table.now (length table.now) sizes.old }
{
    for (k, h) in table.iter().enumerate() {
        sizes[k] = h.size;
    }
}

// All steps, over tables of zeros: each value's slot, and the sizes of the slots. Answers how many slots there are.
pub fn replay(
    file: File<'_>,
    steps: &[u32],
    heads: &mut [usize],
    older: &mut [usize],
    tags: &mut [u32],
    sizes: &mut [u32],
) -> usize
    requires { Lent file.bytes.now steps.now (length steps.now) heads.old older.old tags.old × (length steps.now ≤ largest_values + largest_records) × (row_values ≤ length sizes.old) }
    ensures { Replayed file.entry.bytes.now steps.now (length steps.now) heads.old older.old tags.old sizes.old result heads.new older.new tags.new sizes.new }
{
    let mut places: [u32; LARGEST_VALUES + LARGEST_RECORDS] = [0; LARGEST_VALUES + LARGEST_RECORDS];
    let mut slots = StackSlots {
        heads,
        older,
        tags,
        made: 0,
    };
    slots.find_places(file, steps, &mut places);
    let made = slots.made;
    let mut holders = [Holder::default(); LARGEST_VALUES];
    table::replay(file, steps, &places, &mut holders);
    sizes_of(&holders[..made], sizes);
    made
}
