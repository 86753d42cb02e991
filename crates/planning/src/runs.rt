// Rules 3 and 1 for the records of a kind between two places, the first one first.
ghost use Rattle.std.specs.Prelude.{◌≡◌, ◌-◌};
ghost use Rattle.rules.specs.File.{function_in};
ghost use Rattle.planning.specs.Standing.{tables, Good, Walked};
ghost use Rattle.planning.specs.Operands.{Range, use_at, define_at};
ghost use Rattle.planning.specs.Lent.{SameLent, tables_of};

use crate::spilled::Spilled;
use crate::steps::plan_definition;
use crate::{Progress, SafepointSpiller};

// The definitions. Who has been asked for is only read.
pub fn plan_definitions(
    spilled: Spilled<'_>,
    kind: u32,
    start: usize,
    end: usize,
    asked: &[u64],
    steps: &mut [u32],
    sizes: &mut [u32],
    numbers: &mut [u32],
    p: Progress,
) -> Progress
    requires { Range spilled.file.bytes.now numbers.old start end × Good (function_in spilled.file.bytes.now) (tables asked.now steps.old sizes.old p) (end - start) }
    ensures { Walked (function_in spilled.entry.file.bytes.now) (define_at spilled.entry.file.bytes.now p.pointer kind) start (end - start) (tables asked.now steps.old sizes.old p) numbers.old (tables asked.now steps.new sizes.new result) numbers.new }
{
    let mut done = p;
    for place in start..end {
        done = plan_definition(spilled, kind, place, asked, steps, sizes, numbers, done);
    }
    done
}

impl<'t> SafepointSpiller<'t> {
    // The uses. This loop and that of the definitions differ in the step and in what it is lent; a closure would need clauses of its own.
    pub fn plan_uses(&mut self, spilled: Spilled<'_>, kind: u32, start: usize, end: usize)
        requires { Range spilled.file.bytes.now self.old.numbers.now start end × Good (function_in spilled.file.bytes.now) (tables_of self.old) (end - start) }
        ensures lent { SameLent self.old self.new }
        ensures walked { Walked (function_in spilled.entry.file.bytes.now) (use_at spilled.entry.file.bytes.now self.old.pointer kind) start (end - start) (tables_of self.old) self.old.numbers.now (tables_of self.new) self.new.numbers.now }
    {
        for place in start..end {
            self.plan_use(spilled, kind, place);
        }
    }

    // The definitions: the function `plan_definitions`, on these tables.
    pub fn plan_definitions(&mut self, spilled: Spilled<'_>, kind: u32, start: usize, end: usize)
        requires { Range spilled.file.bytes.now self.old.numbers.now start end × Good (function_in spilled.file.bytes.now) (tables_of self.old) (end - start) }
        ensures lent { SameLent self.old self.new }
        ensures asked { self.new.asked.now ≡ self.old.asked.now }
        ensures walked { Walked (function_in spilled.entry.file.bytes.now) (define_at spilled.entry.file.bytes.now self.old.pointer kind) start (end - start) (tables_of self.old) self.old.numbers.now (tables_of self.new) self.new.numbers.now }
    {
        let from = self.progress();
        let to = plan_definitions(
            spilled,
            kind,
            start,
            end,
            &mut *self.asked,
            self.steps,
            self.sizes,
            self.numbers,
            from,
        );
        self.come_to(to);
    }
}
