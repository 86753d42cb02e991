// A file in order, as refusal 4 lets it pass: every record is of the table, so its words are read as they stand.
ghost use Rattle.std.specs.Prelude.{◌≡◌, true, ◌<◌, get_or};
ghost use Rattle.rules.specs.Records.{encode, kind, record_at, record_count, records};
ghost use Rattle.rules.specs.File.{ordered, function_in};
ghost use Rattle.rules.specs.Graph.{size_of, is_marked};
ghost use Rattle.records.specs.InTable.{read_as};
ghost use Rattle.rules.specs.declared.Record.TheVariants.{Outside};

use crate::{edge_argument, four_words, word_at, words};
use rules::{RECORD_BYTES, Record, Words, kinds};

// The record that four words of the table are.
#[tactic(auto, unfolding(crate::specs::InTable::read_as))]
fn read_words(k: u32, a: u32, b: u32, c: u32) -> Record
    ensures { result ≡ read_as k a b c }
{
    match k {
        kinds::VALUE => Record::Value {
            size: a,
            marked: b == 1,
        },
        kinds::BLOCK => Record::Block {
            cold: a == 1,
            number: b,
        },
        kinds::PARAMETER => Record::Parameter(a),
        kinds::INSTRUCTION => Record::Instruction {
            safepoint: a % 2 == 1,
            terminator: 2 <= a,
            tag: b,
        },
        kinds::RESULT => Record::Result(a),
        kinds::ARGUMENT => Record::Argument(a),
        kinds::EDGE => Record::Edge(a),
        kinds::EDGE_ARGUMENT => Record::EdgeArgument(edge_argument(a, b)),
        kinds::CONTEXT => Record::Context(a),
        kinds::SLOT => Record::Slot(a),
        kinds::MAP_ENTRY => Record::MapEntry { slot: a, size: b },
        kinds::SLOT_ADDRESS => Record::SlotAddress { result: a, slot: b },
        kinds::STORE => Record::Store {
            value: a,
            address: b,
        },
        kinds::LOAD => Record::Load {
            result: a,
            address: b,
            size: c,
        },
        kinds::JUMP => Record::Jump,
        _ => Record::Outside,
    }
}

// The bytes of a file, whose records stand in the order that document 01 has.
#[derive(Clone, Copy)]
pub struct File<'a> {
    pub bytes: &'a [u8],
    ghost in_order: { ordered 0 (records bytes.now) ≡ true },
}

impl<'a> File<'a> {
    // How many records it has.
    pub fn record_count(self) -> usize
        ensures { result ≡ record_count self.entry.bytes.now }
    {
        self.bytes.len() / RECORD_BYTES
    }

    // The kind of record k.
    pub fn kind_at(self, k: usize) -> u32
        requires { k < record_count self.bytes.now }
        ensures { (result ≡ kind (record_at self.entry.bytes.now k)) × (result < 16) }
    {
        word_at(self.bytes, RECORD_BYTES * k)
    }

    // The four words of record k.
    pub fn words_at(self, k: usize) -> Words
        requires { k < record_count self.bytes.now }
        ensures { result ≡ encode (record_at self.entry.bytes.now k) }
    {
        four_words(self.bytes, k)
    }

    // Record k, decoded.
    pub fn decoded_at(self, k: usize) -> Record
        requires { k < record_count self.bytes.now }
        ensures { result ≡ record_at self.entry.bytes.now k }
    {
        let w = four_words(self.bytes, k);
        read_words(w.kind, w.second, w.third, w.fourth)
    }

    // The words of record k, those of a record outside the table beyond the end.
    pub fn words_from(self, k: usize) -> Words
        ensures { result ≡ encode (get_or (records self.entry.bytes.now) k Outside) }
    {
        if k < self.record_count() {
            self.words_at(k)
        } else {
            words(0, 0, 0, 0)
        }
    }

    // The size of value v, whose record stands at the value's place, since values stand first; 0 where the file has no such value.
    pub fn size_of(self, v: u32) -> u32
        ensures { result ≡ size_of (function_in self.entry.bytes.now) v }
    {
        let w = self.words_from(v as usize);
        if w.kind == kinds::VALUE { w.second } else { 0 }
    }

    // Whether value v is marked; false where the file has no such value.
    pub fn is_marked(self, v: u32) -> bool
        ensures { result ≡ is_marked (function_in self.entry.bytes.now) v }
    {
        let w = self.words_from(v as usize);
        w.kind == kinds::VALUE && w.third == 1
    }
}
