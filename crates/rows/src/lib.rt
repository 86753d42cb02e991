// Live sets as rows of words: value v at bit v mod 64 of word v / 64 of its row. Every function says what it does to the
// sets of a whole table, `rows`; that fixes each word of the table, to its end (`rows_same` of specs/Tables.antt).
#![tactic(auto)]

ghost use Rattle.std.specs.Prelude.{◌≡◌, true, false, ◌&&◌, ◌||◌, not, cond, ◌∷◌, [], ℕ, ◌+◌, ◌*◌, ◌/◌, ◌%◌, ◌^◌, ◌<◌, ◌≤◌, min, eqb};
ghost use Rattle.rules.specs.Limits.{row_words};
ghost use Rattle.rules.specs.Lists.{update, union, adding, removing};
ghost use Rattle.rows.specs.Bits.{bit_at};
ghost use Rattle.rows.specs.Rows.{rows, row_values, HasRow, by_rule, size, minus};
ghost use Rattle.rows.specs.Written.{Written};

use rules::ROW_WORDS;

// The bits of a word, and of a row.
pub const WORD_BITS: usize = 64;

pub const ROW_VALUES: usize = WORD_BITS * ROW_WORDS;

// Whether the bit of a value is set in a word.
pub fn has_bit(word: u64, v: usize) -> bool
    ensures { result ≡ bit_at word (v % 64) }
{
    word >> (v % WORD_BITS) & 1 == 1
}

// Whether a row has a value.
pub fn contains(t: &[u64], row: usize, v: usize) -> bool
    requires { HasRow t.now row × (v < row_values) }
    ensures { result ≡ rows t.now row v }
{
    has_bit(t[ROW_WORDS * row + v / WORD_BITS], v)
}

// The word in which only the bit of a value is set.
pub fn bit_of(v: usize) -> u64
    ensures { result ≡ 2 ^ (v % 64) }
{
    1u64 << (v % WORD_BITS)
}

// A row gets a value.
pub fn insert(t: &mut [u64], row: usize, v: usize)
    requires { HasRow t.old row × (v < row_values) }
    ensures { rows t.new ≡ update row (adding (v ∷ []) (rows t.old row)) (rows t.old) }
{
    let i = ROW_WORDS * row + v / WORD_BITS;
    t[i] |= bit_of(v);
}

// A row gets a value if that is wanted. A word is stored in any case, so that no branch hangs on what is wanted; so the place of
// a value that a row has no bit for must be in the row too.
pub fn insert_if(t: &mut [u64], row: usize, v: usize, wanted: bool)
    requires { HasRow t.old row × (wanted ≡ true → v < row_values) }
    ensures { rows t.new ≡ update row (adding (cond wanted (v ∷ []) []) (rows t.old row)) (rows t.old) }
{
    let i = ROW_WORDS * row + v / WORD_BITS % ROW_WORDS;
    t[i] |= u64::from(wanted) << (v % WORD_BITS);
}

// A row loses a value.
pub fn remove(t: &mut [u64], row: usize, v: usize)
    requires { HasRow t.old row × (v < row_values) }
    ensures { rows t.new ≡ update row (removing (v ∷ []) (rows t.old row)) (rows t.old) }
{
    let i = ROW_WORDS * row + v / WORD_BITS;
    t[i] &= !bit_of(v);
}

// A row is written word by word: word k becomes what `word` makes of it and k.
fn write_row<F: Fn(u64, usize) -> u64>(t: &mut [u64], row: usize, word: F)
    requires room { HasRow t.old row }
    requires callable { (k x : ℕ) → k < row_words → x < 2 ^ 64 → F.pre word x k }
    ensures { Written (F.post word) row row_words t.old t.new }
{
    let at = ROW_WORDS * row;
    for k in 0..ROW_WORDS {
        t[at + k] = word(t[at + k], k);
    }
}

// A row gets what a row of another table has.
pub fn join(to: &mut [u64], row: usize, from: &[u64], other: usize)
    requires { HasRow to.old row × HasRow from.now other }
    ensures { rows to.new ≡ update row (union (rows to.old row) (rows from.now other)) (rows to.old) }
{
    write_row(to, row, |word, k| word | word_of(from, other, k));
}

// A row becomes what a row of another table is.
pub fn copy_row(to: &mut [u64], row: usize, from: &[u64], other: usize)
    requires { HasRow to.old row × HasRow from.now other }
    ensures { rows to.new ≡ update row (rows from.now other) (rows to.old) }
{
    write_row(to, row, |_, k| word_of(from, other, k));
}

// A row becomes what a row of another table is, without what a row of a third one has.
pub fn copy_without(
    to: &mut [u64],
    row: usize,
    from: &[u64],
    other: usize,
    less: &[u64],
    third: usize,
)
    requires { HasRow to.old row × HasRow from.now other × HasRow less.now third }
    ensures { rows to.new ≡ update row (minus (rows from.now other) (rows less.now third)) (rows to.old) }
{
    write_row(
        to,
        row,
        |_, k| word_of(from, other, k) & !word_of(less, third, k),
    );
}

// A block's row of live-in gets what its rule gives from its row of live-out: its uses, and of live-out what the block does not kill.
pub fn transfer(ins: &mut [u64], row: usize, outs: &[u64], uses: &[u64], kills: &[u64])
    requires { HasRow ins.old row × HasRow outs.now row × HasRow uses.now row × HasRow kills.now row }
    ensures { rows ins.new ≡ update row (union (rows ins.old row) (by_rule (rows uses.now row) (rows kills.now row) (rows outs.now row))) (rows ins.old) }
{
    write_row(ins, row, |word, k| {
        word | (word_of(uses, row, k) | word_of(outs, row, k) & !word_of(kills, row, k))
    });
}

// How many values a row has: the Rust's `len()` of a set. A sum of ones, since `filter(..).count()` branches at each value, and took
// seven times as long.
pub fn count(t: &[u64], row: usize) -> usize
    requires { HasRow t.now row }
    ensures { result ≡ size (rows t.now row) }
{
    (0..ROW_VALUES)
        .map(|v| usize::from(contains(t, row, v)))
        .sum()
}

// How many bits of a word stand below its lowest one, 64 for the word that has none.
pub fn zeros_below(word: u64) -> usize
    ensures { (result ≤ 64) × ((i : ℕ) → i < result → bit_at word i ≡ false) × (result < 64 → bit_at word result ≡ true) }
{
    word.trailing_zeros() as usize
}

// A word without its lowest one.
pub fn without_lowest(word: u64) -> u64
    requires { 0 < word }
    ensures { (k : ℕ) → bit_at word k ≡ true → ((i : ℕ) → i < k → bit_at word i ≡ false) → (i : ℕ) → bit_at result i ≡ (bit_at word i && not (eqb i k)) }
{
    word & word - 1
}

// Word k of a row: its values from 64 * k on.
pub fn word_of(t: &[u64], row: usize, k: usize) -> u64
    requires { HasRow t.now row × (k < row_words) }
    ensures { (i : ℕ) → i < 64 → bit_at result i ≡ rows t.now row (64 * k + i) }
{
    t[ROW_WORDS * row + k]
}

// Whether a row has no value: no bit of its words, which are taken together.
pub fn is_empty(t: &[u64], row: usize) -> bool
    requires { HasRow t.now row }
    ensures { result ≡ eqb (size (rows t.now row)) 0 }
{
    let at = ROW_WORDS * row;
    let words = &t[at..at + ROW_WORDS];
    words.iter().fold(0, |together, word| together | word) == 0
}

// The first value from v on and below end that a row has, end where there is none. A word without one is passed over whole:
// a `while`, since a `find` over the values would look at each bit, and a `for` over the words needs a case for the first of them.
pub fn next_in(t: &[u64], row: usize, v: usize, end: usize) -> usize
    requires { HasRow t.now row × (v ≤ end) × (end ≤ row_values) }
    ensures { (v ≤ result) × (result ≤ end) × ((u : ℕ) → v ≤ u → u < result → rows t.now row u ≡ false) × (result < end → rows t.now row result ≡ true) }
{
    let mut at = v;
    while at < end {
        let bit = at % WORD_BITS;
        let skipped = zeros_below(t[ROW_WORDS * row + at / WORD_BITS] >> bit);
        if bit + skipped < WORD_BITS {
            return (at + skipped).min(end);
        }
        at += WORD_BITS - bit;
    }
    end
}
