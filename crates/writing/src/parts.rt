// What is written for one record of the file, by value: at most two records.
ghost use Rattle.std.specs.Prelude.{◌≡◌, true, false, ◌∷◌, [], map, ◌<◌, eqb};
ghost use Rattle.rules.specs.Records.{encode, kind, record_at, record_count};
ghost use Rattle.rules.specs.File.{function_in};
ghost use Rattle.rules.specs.Graph.{size_of};
ghost use Rattle.rules.specs.Rewriting.{operand, words_among, store_items, load_items};
ghost use Rattle.rules.specs.declared.EdgeArgument.TheVariants.{Value as ValueOf};
ghost use Rattle.rules.specs.declared.Record.TheVariants.{EdgeArgument as RecordOfArgument, Parameter as RecordOfParameter, SlotAddress as RecordOfAddress};
ghost use Rattle.numbering.specs.Beside.{made};
ghost use Rattle.writing.specs.Parts.{records_of, slot_in, tagged, landed_word, items_records, of_argument, part_records};

use crate::plan::{Homes, slot_of};
use rules::{EdgeArgument, Record, Words};

// The parts of the output: what is written for a record that names a value, and for an edge argument. They stay an enum, and no
// closures: the definition `part_records` and the theorems on runs speak of them by name.
#[derive(Clone, Copy)]
pub enum Part {
    // slot address and load before a use
    Load,
    // slot address and store behind a definition
    Store,
    Argument,
    Result,
    Context,
    Parameter,
    // slot address and load of a value passed
    PassedLoad,
    Passed,
    // only returned and exception words, which an edge passes to its landing
    Word,
    LandingParameter,
    Landed,
}

// The records to be written: none, one or two. An array of two Options is no plainer: it has a second record without a first.
#[derive(Clone, Copy)]
pub enum Written {
    Nothing,
    One(Record),
    Two(Record, Record),
}

// The operand in place of v: the value loaded, which is numbered behind its address.
fn operand_of(v: u32, tag: u32) -> u32
    ensures { result ≡ operand v (made tag) }
{
    if tag == 0 { v } else { tag }
}

// The parameter that a tag numbers.
fn parameter_of(tag: u32) -> Written
    ensures { records_of result ≡ map RecordOfParameter (tagged tag) }
{
    match tag.checked_sub(1) {
        None => Written::Nothing,
        Some(number) => Written::One(Record::Parameter(number)),
    }
}

// A landing's own parameter in place of a word that it takes.
fn landed_word(x: EdgeArgument, tag: u32) -> EdgeArgument
    ensures { result ≡ landed_word x tag }
{
    tag.checked_sub(1).map_or(x, EdgeArgument::Value)
}

// What a part of an edge argument has for a returned or exception word.
fn word_part(part: Part, x: EdgeArgument, tag: u32) -> Written
    requires { (of_argument part ≡ true) × (words_among (x ∷ []) ≡ x ∷ []) }
    ensures { (size : _) (slot : _) → records_of result ≡ part_records size slot part (encode (RecordOfArgument x)) (made tag) }
{
    match part {
        Part::Passed | Part::Word => Written::One(Record::EdgeArgument(x)),
        Part::LandingParameter => parameter_of(tag),
        Part::Landed => Written::One(Record::EdgeArgument(landed_word(x, tag))),
        _ => Written::Nothing,
    }
}

impl<'a> Homes<'a> {
    // The address of value v's slot, by the number that it gets.
    fn address_of(self, v: u32, number: u32) -> Record
        ensures { result ≡ RecordOfAddress number (slot_in self.entry.slots.now v) }
    {
        Record::SlotAddress {
            result: number,
            slot: slot_of(self.slots, v),
        }
    }

    // The address and load of value v, numbered by a tag. One function over a closure that makes the load or the store was tried:
    // the closure needs a contract of its own for the size, and is no plainer.
    fn load_of(self, v: u32, tag: u32) -> Written
        ensures { records_of result ≡ items_records (load_items (size_of (function_in self.entry.file.bytes.now)) (slot_in self.entry.slots.now) v (made tag)) }
    {
        let Some(address) = tag.checked_sub(1) else {
            return Written::Nothing;
        };
        Written::Two(
            self.address_of(v, address),
            Record::Load {
                result: tag,
                address,
                size: self.file.size_of(v),
            },
        )
    }

    // The address and store of value v, numbered by a tag.
    fn store_of(self, v: u32, tag: u32) -> Written
        ensures { records_of result ≡ items_records (store_items (size_of (function_in self.entry.file.bytes.now)) (slot_in self.entry.slots.now) v (made tag)) }
    {
        let Some(address) = tag.checked_sub(1) else {
            return Written::Nothing;
        };
        Written::Two(
            self.address_of(v, address),
            Record::Store { value: v, address },
        )
    }

    // What a part of a value has for the record that names it, by its words and the tag beside it.
    fn named_part(self, part: Part, w: Words, tag: u32) -> Written
        requires { of_argument part ≡ false }
        ensures { records_of result ≡ part_records (size_of (function_in self.entry.file.bytes.now)) (slot_in self.entry.slots.now) part w (made tag) }
    {
        let v = w.second;
        match part {
            Part::Load => self.load_of(v, tag),
            Part::Store => self.store_of(v, tag),
            Part::Argument => Written::One(Record::Argument(operand_of(v, tag))),
            Part::Result => Written::One(Record::Result(v)),
            Part::Context => Written::One(Record::Context(v)),
            Part::Parameter => Written::One(Record::Parameter(v)),
            _ => Written::Nothing,
        }
    }

    // What a part of an edge argument has for a value that is passed.
    fn value_part(self, part: Part, v: u32, tag: u32) -> Written
        requires { of_argument part ≡ true }
        ensures { records_of result ≡ part_records (size_of (function_in self.entry.file.bytes.now)) (slot_in self.entry.slots.now) part (encode (RecordOfArgument (ValueOf v))) (made tag) }
    {
        match part {
            Part::PassedLoad => self.load_of(v, tag),
            Part::Passed | Part::Landed => Written::One(Record::EdgeArgument(EdgeArgument::Value(
                operand_of(v, tag),
            ))),
            _ => Written::Nothing,
        }
    }

    // What a part has for record i, by the tag beside it.
    pub fn part_of(self, part: Part, i: usize, tag: u32) -> Written
        requires { (i < record_count self.file.bytes.now) × (of_argument part ≡ eqb (kind (record_at self.file.bytes.now i)) 8) }
        ensures { records_of result ≡ part_records (size_of (function_in self.entry.file.bytes.now)) (slot_in self.entry.slots.now) part (encode (record_at self.entry.file.bytes.now i)) (made tag) }
    {
        match self.file.decoded_at(i) {
            Record::EdgeArgument(EdgeArgument::Value(v)) => self.value_part(part, v, tag),
            Record::EdgeArgument(word) => word_part(part, word, tag),
            _ => self.named_part(part, self.file.words_at(i), tag),
        }
    }
}
