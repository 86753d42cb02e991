// Slots that are asked for: a step is noted where a value is asked for the first time.
ghost use Rattle.std.specs.Prelude.{◌≡◌, false, ◌<◌, ◌≤◌, length};
ghost use Rattle.rules.specs.Lists.{keep, members};
ghost use Rattle.rows.specs.Rows.{rows, row_values, minus, HasRow};
ghost use Rattle.planning.specs.Standing.{Asked, Slotted, spilled_from, Rows};
ghost use Rattle.planning.specs.Lent.{SameLent, SameRest};

use crate::SafepointSpiller;
use rows::{contains, copy_without, insert, next_in};
use rules::ROW_WORDS;

impl<'t> SafepointSpiller<'t> {
    // Whether a value has been asked for.
    pub(crate) fn has(&self, v: usize) -> bool
        requires { HasRow self.now.asked.now 0 × (v < row_values) }
        ensures { result ≡ rows self.now.asked.now 0 v }
    {
        contains(self.asked, 0, v)
    }

    // The row of what a row has that was not asked for.
    fn unasked(&self, set: &[u64], row: usize) -> [u64; ROW_WORDS]
        requires { HasRow self.now.asked.now 0 × HasRow set.now row }
        ensures { rows result 0 ≡ minus (rows set.now row) (rows self.now.asked.now 0) }
    {
        let mut left: [u64; ROW_WORDS] = [0; ROW_WORDS];
        copy_without(&mut left, 0, set, row, self.asked, 0);
        left
    }

    // A slot for a value, if it has not been asked for: a step is noted.
    pub fn ask(&mut self, v: usize)
        requires { HasRow self.old.asked.now 0 × (v < row_values) × (rows self.old.asked.now 0 v ≡ false → self.old.noted < length self.old.steps.now) }
        ensures lent { SameLent self.old self.new }
        ensures rest { SameRest self.old self.new }
        ensures asked { Asked v self.old.asked.now self.old.steps.now self.old.noted self.new.asked.now self.new.steps.now self.new.noted }
    {
        if self.has(v) {
            return;
        }
        insert(self.asked, 0, v);
        self.steps[self.noted] = (2 * v) as u32;
        self.noted += 1;
    }

    // A slot for a value, if it is spilled and in the row.
    fn ask_spilled(&mut self, spilled: &[u64], set: &[u64], row: usize, v: usize)
        requires { Rows spilled.now set.now row self.old.asked.now self.old.steps.now self.old.noted × (v < row_values) }
        ensures lent { SameLent self.old self.new }
        ensures rest { SameRest self.old self.new }
        ensures slotted { Slotted (spilled_from (rows spilled.now 0) (rows set.now row) v 1) self.old.asked.now self.old.steps.now self.old.noted self.new.asked.now self.new.steps.now self.new.noted }
    {
        if contains(set, row, v) && contains(spilled, 0, v) {
            self.ask(v);
        }
    }

    // Slots for the spilled values of a row, ascending: those in a block's live-out, and those on a safepoint's list. Values that
    // were asked for before are passed over. A `while`, since it goes from bit to bit: a `for` over all values looks at each, and most rows
    // have few.
    pub fn ask_all(&mut self, spilled: &[u64], set: &[u64], row: usize, values: usize)
        requires { Rows spilled.now set.now row self.old.asked.now self.old.steps.now self.old.noted × (values ≤ row_values) }
        ensures lent { SameLent self.old self.new }
        ensures rest { SameRest self.old self.new }
        ensures slotted { Slotted (keep (rows spilled.now 0) (members values (rows set.now row))) self.old.asked.now self.old.steps.now self.old.noted self.new.asked.now self.new.steps.now self.new.noted }
    {
        let new = self.unasked(set, row);
        let mut v = next_in(&new, 0, 0, values);
        while v < values {
            self.ask_spilled(spilled, set, row, v);
            v = next_in(&new, 0, v + 1, values);
        }
    }
}
