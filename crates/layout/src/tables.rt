// The records that are written from tables of sizes: the new values, and the slots.
ghost use Rattle.std.specs.Prelude.{map, false};
ghost use Rattle.rules.specs.declared.Record.TheVariants.{Value as RecordOfValue, Slot as RecordOfSlot};
ghost use Rattle.writing.specs.Put.{Fits, Put};

use rules::Record;
use writing::put::Output;

// New values, which are unmarked.
pub fn put_new_values(sizes: &[u32], out: &mut Output<'_>)
    requires { Fits out.old (map (λ size. RecordOfValue size false) sizes.now) }
    ensures { Put out.old (map (λ size. RecordOfValue size false) sizes.now) out.new }
{
    for &size in sizes {
        out.put(Record::Value {
            size,
            marked: false,
        });
    }
}

// Slots. The two differ in the record alone; a closure that makes it would need a clause as long as this function.
pub fn put_slots(sizes: &[u32], out: &mut Output<'_>)
    requires { Fits out.old (map RecordOfSlot sizes.now) }
    ensures { Put out.old (map RecordOfSlot sizes.now) out.new }
{
    for &size in sizes {
        out.put(Record::Slot(size));
    }
}
