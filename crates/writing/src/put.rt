// Records put into the output, one behind the other.
ghost use Rattle.std.specs.Prelude.{◌≡◌, ◌∷◌, [], ◌+◌, ◌<◌, ◌≤◌, length};
ghost use Rattle.rules.specs.Records.{record_at, record_count};
ghost use Rattle.writing.specs.Parts.{records_of};
ghost use Rattle.writing.specs.Put.{Fits, Put};

use crate::parts::Written;
use records::file::File;
use records::{put_record, put_words};
use rules::{RECORD_BYTES, Record};

// The output that a writer is lent, and how many of its bytes are written.
#[derive(Drop)]
pub struct Output<'o> {
    pub bytes: &'o mut [u8],
    pub at: usize,
}

impl<'o> Output<'o> {
    // One record.
    pub fn put(&mut self, r: Record)
        requires { Fits self.old (r ∷ []) }
        ensures { Put self.old (r ∷ []) self.new }
    {
        put_record(&mut self.bytes[self.at..], r);
        self.at += RECORD_BYTES;
    }

    // Record i of a file, as it stands.
    pub fn put_copy(&mut self, file: File<'_>, i: usize)
        requires { (i < record_count file.bytes.now) × Fits self.old (record_at file.bytes.now i ∷ []) }
        ensures { Put self.old (record_at file.entry.bytes.now i ∷ []) self.new }
    {
        put_words(&mut self.bytes[self.at..], file.words_at(i));
        self.at += RECORD_BYTES;
    }

    // At most two records.
    pub fn put_written(&mut self, w: Written)
        requires { Fits self.old (records_of w) }
        ensures { Put self.old (records_of w) self.new }
    {
        match w {
            Written::Nothing => {}
            Written::One(a) => self.put(a),
            Written::Two(a, b) => {
                self.put(a);
                self.put(b);
            }
        }
    }
}
