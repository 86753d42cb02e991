// The noted steps, one after the other, over the free lists: the Rust's `get_or_create_stack_slot` and `free_stack_slot`. What
// is found is which slot each step is about.
ghost use Rattle.std.specs.Prelude.{◌≡◌, ◌%◌, ◌≤◌, length, get_or};
ghost use Rattle.stackslots.specs.Tables.{tables, SameLent, Turn, Turned, Lent, PlacesFound};

use crate::freelists::{StackSlots, class_of, place_of};
use records::file::File;

impl StackSlots<'_> {
    // A slot for the value of step i, if it has none: the slot last freed of its size, else a new one.
    fn give_slot(&mut self, file: File<'_>, steps: &[u32], i: usize)
        requires { Turn file.bytes.now steps.now i (tables self.old) × (get_or steps.now i 0 % 2 ≡ 0) }
        ensures turned { Turned file.entry.bytes.now steps.now i (tables self.old) (tables self.new) }
        ensures same { SameLent self.old self.new }
    {
        let v = steps[i] / 2;
        if self.tag_of(v) != 0 {
            return;
        }
        let class = class_of(file.size_of(v));
        if self.heads[class] == 0 {
            self.make_new(v as usize);
        } else {
            self.take_freed(steps, v as usize, class);
        }
    }

    // Step i: its value is given a slot, or its value's slot, if it has one, goes on its size's free list.
    fn step(&mut self, file: File<'_>, steps: &[u32], i: usize)
        requires { Turn file.bytes.now steps.now i (tables self.old) }
        ensures turned { Turned file.entry.bytes.now steps.now i (tables self.old) (tables self.new) }
        ensures same { SameLent self.old self.new }
    {
        let noted = steps[i];
        let v = noted / 2;
        if noted % 2 == 0 {
            self.give_slot(file, steps, i);
        } else if self.tag_of(v) != 0 {
            self.put_back(class_of(file.size_of(v)), i);
        }
    }

    // All steps, over tables of zeros: the place of each.
    pub fn find_places(&mut self, file: File<'_>, steps: &[u32], places: &mut [u32])
        requires { Lent file.bytes.now steps.now (length steps.now) self.old.heads.now self.old.older.now self.old.tags.now × (self.old.made ≡ 0) × (length steps.now ≤ length places.old) }
        ensures found { PlacesFound file.entry.bytes.now steps.now (length steps.now) self.old.heads.now self.old.older.now self.old.tags.now places.old self.new.made self.new.heads.now self.new.older.now self.new.tags.now places.new }
        ensures same { SameLent self.old self.new }
    {
        for i in 0..steps.len() {
            let noted = steps[i];
            let before = self.tag_of(noted / 2);
            self.step(file, steps, i);
            places[i] = place_of(noted, before, self.tag_of(noted / 2));
        }
    }
}
