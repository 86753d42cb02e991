// The map of a safepoint: an entry for each value on its list, ascending.
ghost use Rattle.std.specs.Prelude.{◌≡◌, ◌∷◌, [], ◌+◌, ◌<◌, ◌≤◌};
ghost use Rattle.rules.specs.File.{function_in};
ghost use Rattle.rules.specs.Graph.{size_of};
ghost use Rattle.rows.specs.Rows.{rows, row_values, HasRow};
ghost use Rattle.writing.specs.Parts.{slot_in};
ghost use Rattle.writing.specs.Places.{from_to};
ghost use Rattle.writing.specs.Put.{Fits, Put};
ghost use Rattle.writing_instructions.specs.Entries.{entry_of, entry_at, entries_below, in_word};

use rows::{WORD_BITS, is_empty, without_lowest, word_of, zeros_below};
use rules::Record;
use writing::plan::{Homes, slot_of};
use writing::put::Output;

// The lists of a function as rows, of values below a number.
#[derive(Clone, Copy)]
pub struct Lists<'a> {
    pub rows: &'a [u64],
    pub values: usize,
    ghost few: { values ≤ row_values },
}

// The entry of value v.
fn put_entry(homes: Homes<'_>, v: usize, out: &mut Output<'_>)
    requires { (v < row_values) × Fits out.old (entry_of (size_of (function_in homes.file.bytes.now)) (slot_in homes.slots.now) v ∷ []) }
    ensures { Put out.old (entry_of (size_of (function_in homes.entry.file.bytes.now)) (slot_in homes.entry.slots.now) v ∷ []) out.new }
{
    let value = v as u32;
    out.put(Record::MapEntry {
        slot: slot_of(homes.slots, value),
        size: homes.file.size_of(value),
    });
}

// The entries of the values from base on and before end that a word has: bit k is that of value base + k. From one bit that is set
// to the next, which no range counts.
fn put_word_entries(homes: Homes<'_>, word: u64, base: usize, end: usize, out: &mut Output<'_>)
    requires { (base ≤ end) × (end ≤ base + 64) × (end ≤ row_values) × Fits out.old (from_to (entry_at (size_of (function_in homes.file.bytes.now)) (slot_in homes.slots.now) (in_word word base)) base end) }
    ensures { Put out.old (from_to (entry_at (size_of (function_in homes.entry.file.bytes.now)) (slot_in homes.entry.slots.now) (in_word word base)) base end) out.new }
{
    let mut left = word;
    let mut v = base + zeros_below(word);
    while v < end {
        put_entry(homes, v, out);
        left = without_lowest(left);
        v = base + zeros_below(left);
    }
}

// The entries of the values that row i has, word by word.
fn put_listed(homes: Homes<'_>, lists: Lists<'_>, i: usize, out: &mut Output<'_>)
    requires { HasRow lists.rows.now i × Fits out.old (entries_below (size_of (function_in homes.file.bytes.now)) (slot_in homes.slots.now) (rows lists.rows.now i) lists.values) }
    ensures { Put out.old (entries_below (size_of (function_in homes.entry.file.bytes.now)) (slot_in homes.entry.slots.now) (rows lists.entry.rows.now i) lists.entry.values) out.new }
{
    for k in 0..lists.values.div_ceil(WORD_BITS) {
        let base = WORD_BITS * k;
        let end = lists.values.min(base + WORD_BITS);
        put_word_entries(homes, word_of(lists.rows, i, k), base, end, out);
    }
}

// The entries of the values that are on the list that row i has. Most instructions are no safepoints and
// have none, so this is asked of the row as a whole first.
pub fn put_entries(homes: Homes<'_>, lists: Lists<'_>, i: usize, out: &mut Output<'_>)
    requires { HasRow lists.rows.now i × Fits out.old (entries_below (size_of (function_in homes.file.bytes.now)) (slot_in homes.slots.now) (rows lists.rows.now i) lists.values) }
    ensures { Put out.old (entries_below (size_of (function_in homes.entry.file.bytes.now)) (slot_in homes.entry.slots.now) (rows lists.entry.rows.now i) lists.entry.values) out.new }
{
    if !is_empty(lists.rows, i) {
        put_listed(homes, lists, i, out);
    }
}
