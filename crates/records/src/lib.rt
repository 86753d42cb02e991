// One record: its words and bytes, read and written.
#![tactic(auto)]

ghost use Rattle.std.specs.Prelude.{◌≡◌, ◌+◌, ◌*◌, ◌%◌, ◌≤◌, ◌<◌, length, drop, ◌++◌};
ghost use Rattle.rules.specs.Limits.{record_bytes};
ghost use Rattle.rules.specs.Records.{word_at, log2, edge_argument, bit, words as words_are, encode, bytes_of_word, bytes_of_record};
ghost use Rattle.records.specs.InTable.{four_words};
ghost use Rattle.records.specs.Writing.{put_from, bytes_of_words};
ghost use Rattle.rules.specs.declared.Record.TheVariants.{EdgeArgument as RecordOfArgument};

use rules::{EdgeArgument, RECORD_BYTES, Record, Words, kinds};

pub mod file;
pub mod table;

// The unsigned 32-bit little-endian word at byte i.
pub fn word_at(s: &[u8], i: usize) -> u32
    requires { i + 4 ≤ length s.now }
    ensures { result ≡ word_at s.now i }
{
    u32::from_le_bytes([s[i], s[i + 1], s[i + 2], s[i + 3]])
}

// Four words, as one. This, `edge_argument` and `words_of` are functions and no `From`: their contracts are public promises (PROMISES).
pub fn words(kind: u32, second: u32, third: u32, fourth: u32) -> Words
    ensures { result ≡ words_are kind second third fourth }
{
    Words {
        kind,
        second,
        third,
        fourth,
    }
}

// The four words at the place of record k, whatever they are.
pub fn four_words(s: &[u8], k: usize) -> Words
    requires { record_bytes * k + record_bytes ≤ length s.now }
    ensures { result ≡ four_words s.now k }
{
    let i = RECORD_BYTES * k;
    words(
        word_at(s, i),
        word_at(s, i + 4),
        word_at(s, i + 8),
        word_at(s, i + 12),
    )
}

// An edge argument by its words 2 and 3.
pub fn edge_argument(a: u32, b: u32) -> EdgeArgument
    ensures { result ≡ edge_argument a b }
{
    match a {
        0 => EdgeArgument::Value(b),
        1 => EdgeArgument::Returned(b),
        _ => EdgeArgument::Exception(b),
    }
}

// The logarithm of a slot's size.
fn log2_of(size: u32) -> u32
    ensures { result ≡ log2 size }
{
    match size {
        1 => 0,
        2 => 1,
        4 => 2,
        8 => 3,
        _ => 4,
    }
}

// The four words of an edge argument's record.
fn words_of_argument(x: EdgeArgument) -> Words
    ensures { result ≡ encode (RecordOfArgument x) }
{
    match x {
        EdgeArgument::Value(v) => words(kinds::EDGE_ARGUMENT, 0, v, 0),
        EdgeArgument::Returned(k) => words(kinds::EDGE_ARGUMENT, 1, k, 0),
        EdgeArgument::Exception(k) => words(kinds::EDGE_ARGUMENT, 2, k, 0),
    }
}

// The four words of a record.
pub fn words_of(r: Record) -> Words
    ensures { result ≡ encode r }
{
    match r {
        Record::Value { size, marked } => words(kinds::VALUE, size, u32::from(marked), 0),
        Record::Block { cold, number } => words(kinds::BLOCK, u32::from(cold), number, 0),
        Record::Parameter(v) => words(kinds::PARAMETER, v, 0, 0),
        Record::Instruction {
            safepoint,
            terminator,
            tag,
        } => words(
            kinds::INSTRUCTION,
            u32::from(safepoint) + 2 * u32::from(terminator),
            tag,
            0,
        ),
        Record::Result(v) => words(kinds::RESULT, v, 0, 0),
        Record::Argument(v) => words(kinds::ARGUMENT, v, 0, 0),
        Record::Edge(block) => words(kinds::EDGE, block, 0, 0),
        Record::EdgeArgument(x) => words_of_argument(x),
        Record::Context(v) => words(kinds::CONTEXT, v, 0, 0),
        Record::Slot(size) => words(kinds::SLOT, size, log2_of(size), 0),
        Record::MapEntry { slot, size } => words(kinds::MAP_ENTRY, slot, size, 0),
        Record::SlotAddress { result, slot } => words(kinds::SLOT_ADDRESS, result, slot, 0),
        Record::Store { value, address } => words(kinds::STORE, value, address, 0),
        Record::Load {
            result,
            address,
            size,
        } => words(kinds::LOAD, result, address, size),
        Record::Jump => words(kinds::JUMP, 0, 0, 0),
        Record::Outside => words(0, 0, 0, 0),
    }
}

// A word put at byte i, least significant byte first.
fn put_word(out: &mut [u8], i: usize, w: u32)
    requires { i + 4 ≤ length out.old }
    ensures { out.new ≡ put_from i (bytes_of_word w) out.old }
{
    let bytes = w.to_le_bytes();
    out[i..i + 4].copy_from_slice(&bytes);
}

// Four words put at the front; what lies behind them stays.
pub fn put_words(out: &mut [u8], w: Words)
    requires { record_bytes ≤ length out.old }
    ensures { out.new ≡ bytes_of_words w ++ drop record_bytes out.old }
{
    put_word(out, 0, w.kind);
    put_word(out, 4, w.second);
    put_word(out, 8, w.third);
    put_word(out, 12, w.fourth);
}

// A record put at the front; what lies behind it stays.
pub fn put_record(out: &mut [u8], r: Record)
    requires { record_bytes ≤ length out.old }
    ensures { out.new ≡ bytes_of_record r ++ drop record_bytes out.old }
{
    put_words(out, words_of(r));
}
