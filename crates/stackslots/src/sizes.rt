// Refusal 9: whether every spilled value has a size that a slot can have.
ghost use Rattle.std.specs.Prelude.{◌≡◌, not, ◌<◌, ◌≤◌, length};
ghost use Rattle.rules.specs.File.{function_in};
ghost use Rattle.rules.specs.Refusals.{spilled_size};
ghost use Rattle.rows.specs.Rows.{row_values};
ghost use Rattle.stackslots.specs.Sizes.{slot_sized};

use planning::spilled::Spilled;
use rows::contains;
use slots::SlotSize;

// Whether a value has such a size, or is not spilled. The size is asked first: nearly every value has one, while which are spilled
// cannot be foretold.
fn has_slot_size(spilled: Spilled<'_>, v: usize) -> bool
    requires { v < row_values }
    ensures { result ≡ slot_sized (function_in spilled.entry.file.bytes.now) v }
{
    SlotSize::new(spilled.file.size_of(v as u32)).is_some() || !contains(spilled.row, 0, v)
}

// Whether all values of the file have.
pub fn has_slot_sizes(spilled: Spilled<'_>, values: usize) -> bool
    requires { (values ≡ length (function_in spilled.file.bytes.now).values) × (values ≤ row_values) }
    ensures { result ≡ not (spilled_size (function_in spilled.entry.file.bytes.now)) }
{
    (0..values).all(|v| has_slot_size(spilled, v))
}
