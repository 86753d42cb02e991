// One change of the tables of slots: a slot freed, the slot last freed taken, a new slot made. The free lists of the five
// classes stand in one flat array, a node a step.
ghost use Rattle.std.specs.Prelude.{◌≡◌, ◌+◌, ◌-◌, ◌<◌, ◌≤◌, length, get_or, set, T};
ghost use Rattle.rules.specs.Lists.{has};
ghost use Rattle.rules.specs.Records.{slot_sizes, log2};
ghost use Rattle.rows.specs.Rows.{row_values};
ghost use Rattle.stackslots.specs.Tables.{slot_tables, tables, SameLent, value_of, place_number};

use slots::SlotSize;

// The tables: by class the tag of its free list's last node, by node the tag of the older one, by value the tag of its slot; and how
// many slots are made. A tag is 0 for none, and one more than the number, as `made` of specs/ reads it; memory is fixed (document 01).
#[derive(Drop)]
pub struct StackSlots<'t> {
    pub heads: &'t mut [usize],
    pub older: &'t mut [usize],
    pub tags: &'t mut [u32],
    pub made: usize,
}

// The number of the class of a slot's size, its place in `heads`; another size is not asked about.
pub fn class_of(size: u32) -> usize
    requires { T (has size slot_sizes) }
    ensures { (result ≡ log2 size) × (result < 5) }
{
    match SlotSize::new(size) {
        Some(class) => class.index(),
        None => 0,
    }
}

// The tag of a value's slot, 0 for a value that has no place in the table.
pub fn tag_of(tags: &[u32], v: u32) -> u32
    ensures { result ≡ get_or tags.now v 0 }
{
    tags.get(v as usize).copied().unwrap_or(0)
}

// A value gets the slot last freed of a class, which is no longer free. The older nodes are only read.
pub fn take_freed(
    steps: &[u32],
    v: usize,
    class: usize,
    heads: &mut [usize],
    older: &[usize],
    tags: &mut [u32],
)
    requires { (class < length heads.old) × (0 < get_or heads.old class 0) × (get_or heads.old class 0 ≤ length older.now) × (get_or heads.old class 0 ≤ length steps.now) × (v < length tags.old) }
    ensures { (heads.new ≡ set heads.old class (get_or older.now (get_or heads.old class 0 - 1) 0)) × (tags.new ≡ set tags.old v (get_or tags.old (value_of steps.now (get_or heads.old class 0 - 1)) 0)) }
{
    let last = heads[class] - 1;
    tags[v] = tag_of(tags, steps[last] / 2);
    heads[class] = older[last];
}

impl StackSlots<'_> {
    // The function `tag_of`, on this struct's tags.
    pub fn tag_of(&self, v: u32) -> u32
        ensures { result ≡ get_or self.now.tags.now v 0 }
    {
        tag_of(self.tags, v)
    }

    // The slot that step i frees goes on the list of its class.
    pub fn put_back(&mut self, class: usize, i: usize)
        requires { (class < length self.old.heads.now) × (i < length self.old.older.now) }
        ensures changed { let t = tables self.old in tables self.new ≡ slot_tables (set t.heads class (i + 1)) (set t.older i (get_or t.heads class 0)) t.tags t.made }
        ensures same { SameLent self.old self.new }
    {
        self.older[i] = self.heads[class];
        self.heads[class] = i + 1;
    }

    // The function `take_freed`, on this struct's tables.
    pub fn take_freed(&mut self, steps: &[u32], v: usize, class: usize)
        requires { let t = tables self.old in (class < length t.heads) × (0 < get_or t.heads class 0) × (get_or t.heads class 0 ≤ length t.older) × (get_or t.heads class 0 ≤ length steps.now) × (v < length t.tags) }
        ensures changed { let t = tables self.old in tables self.new ≡ slot_tables (set t.heads class (get_or t.older (get_or t.heads class 0 - 1) 0)) t.older (set t.tags v (get_or t.tags (value_of steps.now (get_or t.heads class 0 - 1)) 0)) t.made }
        ensures same { SameLent self.old self.new }
    {
        // `older` is lent to write like the others: the checker has no rule for a field that is only read beside lent ones
        take_freed(steps, v, class, self.heads, &mut *self.older, self.tags);
    }

    // A value gets a new slot.
    pub fn make_new(&mut self, v: usize)
        requires { (v < length self.old.tags.now) × (self.old.made < row_values) }
        ensures changed { let t = tables self.old in tables self.new ≡ slot_tables t.heads t.older (set t.tags v (t.made + 1)) (t.made + 1) }
        ensures same { SameLent self.old self.new }
    {
        self.made += 1;
        self.tags[v] = self.made as u32;
    }
}

// What is noted of a step: the tag of the slot that its value gets, or of the one that is freed; 0 where nothing changes.
pub fn place_of(noted: u32, before: u32, after: u32) -> u32
    ensures { result ≡ place_number noted before after }
{
    if noted % 2 != 0 {
        before
    } else if before != 0 {
        0
    } else {
        after
    }
}
