// One entry of the table of holders: the core, by value, and the thin calls above it, which change an entry of a lent table.
ghost use Rattle.std.specs.Prelude.{◌≡◌, ◌<◌, length, set, get_or};
ghost use Rattle.holders.specs.Table.{nobody, size_taken, taken_by, given_back};

use crate::Holder;

// The size of a slot that a value takes: a new slot gets the value's, and keeps it.
fn size_taken(h: Holder, size: u32) -> u32
    ensures { result ≡ size_taken h size }
{
    if h.size == 0 { size } else { h.size }
}

// A value takes a slot.
pub fn taken(h: Holder, value: u32, size: u32) -> Holder
    ensures { result ≡ taken_by h value size }
{
    Holder {
        size: size_taken(h, size),
        owner: value,
        held: true,
    }
}

// A slot is given back: it is free, and still tells who had it.
pub fn given(h: Holder) -> Holder
    ensures { result ≡ given_back h }
{
    Holder { held: false, ..h }
}

// A value takes the slot at a place of the lent table.
pub fn take(table: &mut [Holder], at: usize, value: u32, size: u32)
    requires { at < length table.old }
    ensures { table.new ≡ set table.old at (taken_by (get_or table.old at nobody) value size) }
{
    table[at] = taken(table[at], value, size);
}

// The slot at a place of the lent table is given back.
pub fn give(table: &mut [Holder], at: usize)
    requires { at < length table.old }
    ensures { table.new ≡ set table.old at (given_back (get_or table.old at nobody)) }
{
    table[at] = given(table[at]);
}
