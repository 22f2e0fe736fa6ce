// Arrays, each with its length before its elements.
ghost use Rattle.std.specs.Prelude.{◌≡◌, ℕ, ◌+◌, ◌≤◌, ◌∷◌, ◌++◌, map, reverse, length, take, drop, replicate, pos};
ghost use Rattle.semantics.specs.State.{Store};
ghost use Rattle.semantics.specs.Numbers.{cells_for, nested};
ghost use Rattle.memory.specs.Encoding.{unset_cell, set_cell, cell_of_word};
ghost use Rattle.memory.specs.Stacks.{items};
ghost use Rattle.memory.specs.Heaps.{cells_in, cell_count, HoldsStore};

use crate::heap::Heap;
use crate::stack::Stack;

impl<'c> Heap<'c> {
    // Copies cells behind those in use, the unset as unset.
    #[tactic(auto, using(crate::proofs::Cells::taking))]
    pub fn copy(&mut self, from: usize, count: usize)
        requires within { from + count ≤ length (cells_in self.old) }
        requires room { length (cells_in self.old) + count ≤ cell_count self.old }
        ensures cells { cells_in self.new ≡ cells_in self.old ++ take count (drop from (cells_in self.old)) }
        ensures count { cell_count self.new ≡ cell_count self.old }
    {
        let at = self.used;
        self.used += count;
        self.cells.copy_within(from..from + count, at);
    }

    // Writes the newest words of a stack, oldest first, as set cells.
    pub fn append_values(&mut self, stack: &Stack, count: usize)
        requires some { count ≤ length (items stack.now) }
        requires room { length (cells_in self.old) + count ≤ cell_count self.old }
        ensures cells { cells_in self.new ≡ cells_in self.old ++ map cell_of_word (reverse (take count (items stack.now))) }
        ensures count { cell_count self.new ≡ cell_count self.old }
    {
        for word in stack.newest(count) {
            self.push(word.cast_signed());
        }
    }

    // Makes an array of unset elements.
    fn push_unset(&mut self, count: usize)
        requires room { length (cells_in self.old) + 1 + count ≤ cell_count self.old }
        ensures cells { cells_in self.new ≡ cells_in self.old ++ (set_cell (pos count) ∷ replicate count unset_cell) }
        ensures count { cell_count self.new ≡ cell_count self.old }
    {
        self.push(count as i64);
        self.grow(count);
    }

    // Makes an array of the first length, and in each of its elements one of the others: element 0 with everything in it before element 1.
    pub fn nested(&mut self, lengths: &[u64])
        requires room { length (cells_in self.old) + cells_for lengths.now ≤ cell_count self.old }
        ensures cells { (s : Store) (t : ℕ) → HoldsStore self.old s → HoldsStore self.new (nested t lengths.now s) }
        ensures used { length (cells_in self.new) ≡ length (cells_in self.old) + cells_for lengths.now }
        ensures count { cell_count self.new ≡ cell_count self.old }
    {
        let [count, inner @ ..] = lengths else {
            return;
        };
        let count = *count as usize;
        let first = self.used;
        self.push_unset(count);
        if !inner.is_empty() {
            // by place, since more cells are taken behind while one is written
            for place in first + 1..self.used {
                let part = self.used;
                self.nested(inner);
                self.write(place, part as i64);
            }
        }
    }
}
