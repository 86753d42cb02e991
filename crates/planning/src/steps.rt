// One record's use or definition: rules 3 and 1.
ghost use Rattle.std.specs.Prelude.{◌≡◌, ◌+◌, ◌<◌, length, set};
ghost use Rattle.rules.specs.Records.{record_count};
ghost use Rattle.rules.specs.File.{function_in};
ghost use Rattle.rules.specs.Plan.{plan_load};
ghost use Rattle.rows.specs.Rows.{row_values};
ghost use Rattle.planning.specs.Standing.{tables, Good, Ran, Walked};
ghost use Rattle.planning.specs.Operands.{use_at, define_at};
ghost use Rattle.planning.specs.Lent.{SameLent, tables_of};

use crate::spilled::Spilled;
use crate::{Progress, SafepointSpiller};
use records::file::File;
use rows::contains;

// Rule 1 for the record at a place, if it is of this kind: a spilled value that has been asked for is stored, the address
// noted, and its slot freed. Who has been asked for is only read.
pub fn plan_definition(
    spilled: Spilled<'_>,
    kind: u32,
    place: usize,
    asked: &[u64],
    steps: &mut [u32],
    sizes: &mut [u32],
    numbers: &mut [u32],
    p: Progress,
) -> Progress
    requires { (place < record_count spilled.file.bytes.now) × (place < length numbers.old) × Good (function_in spilled.file.bytes.now) (tables asked.now steps.old sizes.old p) 1 }
    ensures { Walked (function_in spilled.entry.file.bytes.now) (define_at spilled.entry.file.bytes.now p.pointer kind) place 1 (tables asked.now steps.old sizes.old p) numbers.old (tables asked.now steps.new sizes.new result) numbers.new }
{
    if let Some(v) = spilled.operand_at(kind, place) {
        if contains(asked, 0, v as usize) {
            numbers[place] = (p.given + p.made + 1) as u32;
            sizes[p.made] = p.pointer;
            steps[p.steps] = 2 * v + 1;
            return Progress {
                made: p.made + 1,
                steps: p.steps + 1,
                ..p
            };
        }
    }
    p
}

impl<'t> SafepointSpiller<'t> {
    // How far planning has come.
    pub(crate) fn progress(&self) -> Progress
        ensures { result ≡ (tables_of self.now).progress }
    {
        Progress {
            pointer: self.pointer,
            given: self.given,
            made: self.made,
            blocks: self.blocks,
            steps: self.noted,
        }
    }

    // Planning has come this far, as a function over slices answered.
    pub(crate) fn come_to(&mut self, p: Progress)
        ensures lent { SameLent self.old self.new }
        ensures numbers { self.new.numbers.now ≡ self.old.numbers.now }
        ensures tables { let t = tables_of self.old in tables_of self.new ≡ tables t.asked t.steps t.sizes p }
    {
        self.pointer = p.pointer;
        self.given = p.given;
        self.made = p.made;
        self.blocks = p.blocks;
        self.noted = p.steps;
    }

    // A slot for a value, an address and the value loaded from there.
    fn load(&mut self, file: File<'_>, v: usize)
        requires { (v < row_values) × Good (function_in file.bytes.now) (tables_of self.old) 1 }
        ensures lent { SameLent self.old self.new }
        ensures numbers { self.new.numbers.now ≡ self.old.numbers.now }
        ensures ran { Ran (function_in file.entry.bytes.now) (plan_load (function_in file.entry.bytes.now) self.old.pointer v) 1 (tables_of self.old) (tables_of self.new) }
    {
        let size = file.size_of(v as u32);
        let first = self.made;
        self.sizes[first] = self.pointer;
        self.sizes[first + 1] = size;
        self.made += 2;
        self.ask(v);
    }

    // Rule 3 for the record at a place, if it is of this kind: a spilled value is loaded, and the address noted.
    pub fn plan_use(&mut self, spilled: Spilled<'_>, kind: u32, place: usize)
        requires { (place < record_count spilled.file.bytes.now) × (place < length self.old.numbers.now) × Good (function_in spilled.file.bytes.now) (tables_of self.old) 1 }
        ensures lent { SameLent self.old self.new }
        ensures walked { Walked (function_in spilled.entry.file.bytes.now) (use_at spilled.entry.file.bytes.now self.old.pointer kind) place 1 (tables_of self.old) self.old.numbers.now (tables_of self.new) self.new.numbers.now }
    {
        if let Some(v) = spilled.operand_at(kind, place) {
            self.numbers[place] = (self.given + self.made + 1) as u32;
            self.load(spilled.file, v as usize);
        }
    }

    // Rule 1 likewise: the function `plan_definition`, on these tables. `asked` is lent to write like the others: the checker has no rule for a field
    // that is only read beside lent ones.
    pub fn plan_definition(&mut self, spilled: Spilled<'_>, kind: u32, place: usize)
        requires { (place < record_count spilled.file.bytes.now) × (place < length self.old.numbers.now) × Good (function_in spilled.file.bytes.now) (tables_of self.old) 1 }
        ensures lent { SameLent self.old self.new }
        ensures asked { self.new.asked.now ≡ self.old.asked.now }
        ensures walked { Walked (function_in spilled.entry.file.bytes.now) (define_at spilled.entry.file.bytes.now self.old.pointer kind) place 1 (tables_of self.old) self.old.numbers.now (tables_of self.new) self.new.numbers.now }
    {
        let from = self.progress();
        let to = plan_definition(
            spilled,
            kind,
            place,
            &mut *self.asked,
            self.steps,
            self.sizes,
            self.numbers,
            from,
        );
        self.come_to(to);
    }
}
