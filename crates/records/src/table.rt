// The table of the fifteen kinds: whether four words are a record of it.
ghost use Rattle.std.specs.Prelude.{◌≡◌, ◌&&◌, ◌<◌, eqb, leb};
ghost use Rattle.rules.specs.Lists.{has};
ghost use Rattle.rules.specs.Records.{slot_sizes, log2, words};
ghost use Rattle.records.specs.InTable.{in_table};

use crate::log2_of;
use rules::{Words, kinds};

// The words 2 and 3 of a value: size 1..64, marked 0 or 1.
fn fits_value(a: u32, b: u32) -> bool
    ensures { result ≡ (leb 1 a && leb a 64 && leb b 1) }
{
    (1..=64).contains(&a) && b <= 1
}

// The words 2 and 3 of a slot: its size and the logarithm of that.
fn fits_slot(a: u32, b: u32) -> bool
    ensures { result ≡ (has a slot_sizes && eqb b (log2 a)) }
{
    matches!(a, 1 | 2 | 4 | 8 | 16) && b == log2_of(a)
}

// Whether the words 2 and 3 of an input's kind are as the table has them, where word 4 is 0. The kinds that are not named leave
// word 3 unused.
fn fits_input(k: u32, a: u32, b: u32) -> bool
    requires { k < 10 }
    ensures { result ≡ in_table (words k a b 0) }
{
    match k {
        0 => false,
        kinds::VALUE => fits_value(a, b),
        kinds::BLOCK => a <= 1,
        kinds::INSTRUCTION => a <= 3,
        kinds::EDGE_ARGUMENT => a <= 2,
        _ => b == 0,
    }
}

// Whether the words of another kind are as the table has them.
fn fits_output(k: u32, a: u32, b: u32, c: u32) -> bool
    requires { 9 < k }
    ensures { result ≡ in_table (words k a b c) }
{
    match k {
        kinds::SLOT => c == 0 && fits_slot(a, b),
        kinds::MAP_ENTRY..=kinds::STORE => c == 0,
        kinds::LOAD => true,
        kinds::JUMP => a == 0 && b == 0 && c == 0,
        _ => false,
    }
}

// Whether four words are a record of the table.
#[tactic(auto, using(crate::proofs::TableRows::fourth_used))]
pub fn is_in_table(w: Words) -> bool
    ensures { result ≡ in_table w }
{
    if w.kind < 10 {
        w.fourth == 0 && fits_input(w.kind, w.second, w.third)
    } else {
        fits_output(w.kind, w.second, w.third, w.fourth)
    }
}
