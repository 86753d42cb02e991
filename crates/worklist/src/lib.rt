// The worklist of liveness: a stack in which pushing moves a block to the top, so that as many places do as there can be
// blocks. `entries` of specs/Entries.antt is what stands on it, top first; a mark for each block says whether it does, so that a push
// looks only for a block that is there.
#![tactic(auto)]

ghost use Rattle.std.specs.Prelude.{◌≡◌, [], ◌∷◌, ◌<◌, MatchOption};
ghost use Rattle.rules.specs.Limits.{largest_blocks};
ghost use Rattle.rules.specs.Lists.{empty};
ghost use Rattle.fixpoint.specs.Removal.{move_to_top};
ghost use Rattle.worklist.specs.Entries.{entries, Stacked, Kept};

use rows::{bit_of, has_bit};
use rules::LARGEST_BLOCKS;

// The blocks, the lowest entry first, how many of the places are entries, and the marks: bit b is set where block b is an entry.
// A block's number fits a byte. An array with its count, since memory is fixed (document 01).
#[derive(Clone, Copy)]
pub struct Worklist {
    blocks: [u8; LARGEST_BLOCKS],
    count: usize,
    pending: u64,
}

impl Worklist {
    // The blocks of a list, its first on top: the last of them is pushed first.
    pub fn stacked(order: &[usize]) -> Worklist
        requires { Stacked order.now }
        ensures { (entries result ≡ order.now) × Kept result }
    {
        let mut list = Worklist {
            blocks: [0; LARGEST_BLOCKS],
            count: 0,
            pending: 0,
        };
        for i in (0..order.len()).rev() {
            list.push(order[i]);
        }
        list
    }

    // Whether no block is left to visit.
    pub fn is_empty(self) -> bool
        ensures { result ≡ empty (entries self) }
    {
        self.count == 0
    }

    // The core of a push, by value as document 01 has it: the block moves to the top, or is put there. What stands above a block that
    // is there goes one place down, and nothing below it is read.
    fn moved_to_top(mut self, block: usize) -> Worklist
        requires { Kept self × (block < largest_blocks) }
        ensures { (entries result ≡ move_to_top block (entries self)) × Kept result }
    {
        let b = block as u8;
        if !has_bit(self.pending, block) {
            self.blocks[self.count] = b;
            self.count += 1;
            self.pending |= bit_of(block);
            return self;
        }
        let mut carried = b;
        for i in (0..self.count).rev() {
            let below = self.blocks[i];
            self.blocks[i] = carried;
            if below == b {
                return self;
            }
            carried = below;
        }
        self
    }

    // The block moves to the top of the worklist that is lent, or is put there.
    pub fn push(&mut self, block: usize)
        requires { Kept self.old × (block < largest_blocks) }
        ensures { (entries self.new ≡ move_to_top block (entries self.old)) × Kept self.new }
    {
        *self = self.moved_to_top(block);
    }

    // The entry on top is taken off, where there is one, and its mark.
    pub fn pop(&mut self) -> Option<usize>
        requires { Kept self.old }
        ensures { MatchOption result ((entries self.old ≡ []) × (self.new ≡ self.old)) (λ block. entries self.old ≡ block ∷ entries self.new) × Kept self.new }
    {
        let top = self.count.checked_sub(1)?;
        let block = usize::from(self.blocks[top]);
        self.count = top;
        self.pending &= !bit_of(block);
        Some(block)
    }
}
