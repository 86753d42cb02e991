// Refusal 4: the order of records, words outside the table, and blocks numbered by their position.
ghost use Rattle.std.specs.Prelude.{◌≡◌, ◌<◌, ◌≤◌, not, ◌&&◌, ◌||◌, eqb, get_or};
ghost use Rattle.rules.specs.Limits.{largest_records};
ghost use Rattle.rules.specs.Records.{record_count, records};
ghost use Rattle.rules.specs.File.{follows, ordered, function_in};
ghost use Rattle.rules.specs.Refusals.{numbered_from};
ghost use Rattle.checks.specs.Order.{follower_bits};

use records::four_words;
use records::table::is_in_table;
use rules::{RECORD_BYTES, Words, kinds};

// The kinds that may stand behind a kind, kind k at bit k; row 0 is the start of the file, and behind an output's kinds
// nothing may stand.
#[tactic(auto, unfolding(crate::specs::Order::follower_bits))]
fn followers_of(p: u32) -> u32
    ensures { result ≡ get_or follower_bits p 0 }
{
    // A `const` table of rows was tried: the machine code lays it on the stack at each call, and there is one for each record. An arm
    // for each row becomes a table that is not copied; arms with two kinds, as `0 | 1`, become tests, and the pass is a sixth slower.
    match p {
        0 => 0b0000000110,
        1 => 0b0000000110,
        2 => 0b0000011000,
        3 => 0b0000011000,
        4 => 0b1011110100,
        5 => 0b1010110100,
        6 => 0b1011110100,
        7 => 0b1110010100,
        8 => 0b1110010100,
        9 => 0b1000010100,
        _ => 0,
    }
}

// Whether kind k may stand behind kind p, 0 for the start of the file.
fn may_follow(p: u32, k: u32) -> bool
    requires { (p < 16) × (k < 16) }
    ensures { result ≡ follows p k }
{
    (followers_of(p) >> k) % 2 == 1
}

// Whether four words that open a block have this number; others have any.
fn numbered_as(w: Words, number: u32) -> bool
    ensures { result ≡ (not (eqb 2 w.kind) || eqb w.third number) }
{
    w.kind != kinds::BLOCK || w.third == number
}

// Whether a file is malformed: a word outside the table, out of order, no block, or a block not numbered by its position.
pub fn malformed(s: &[u8]) -> bool
    requires { record_count s.now ≤ largest_records }
    ensures { result ≡ not (ordered 0 (records s.now) && numbered_from 0 (function_in s.now).blocks) }
{
    let mut p: u32 = 0;
    let mut number: u32 = 0;
    for i in 0..s.len() / RECORD_BYTES {
        let w = four_words(s, i);
        if !is_in_table(w) || !may_follow(p, w.kind) || !numbered_as(w, number) {
            return true;
        }
        number += u32::from(w.kind == kinds::BLOCK);
        p = w.kind;
    }
    p < 4
}
