// One cell, or as many unset ones as are wanted.
ghost use Rattle.std.specs.Prelude.{◌≡◌, ◌+◌, ◌-◌, ◌<◌, ◌≤◌, ◌≤ℤ◌, [], ◌∷◌, ◌++◌, length, get_or, replicate, pos, slice_index_or, slice_set};
ghost use Rattle.memory.specs.Encoding.{unset_cell, set_cell};
ghost use Rattle.memory.specs.Heaps.{cells_in, cell_count, Clean};

use crate::cell::Cell;
use crate::heap::Heap;

#[tactic(auto, using(crate::proofs::Cells::taking))]
impl<'c> Heap<'c> {
    // Unsets every cell, and makes the empty array in the first.
    pub fn new(cells: &'c mut [Cell]) -> Heap<'c>
        requires { 0 < length cells.old }
        ensures cells { cells_in result ≡ set_cell (pos 0) ∷ [] }
        ensures count { cell_count result ≡ length cells.old }
    {
        cells.fill(Cell::UNSET);
        cells[0] = Cell::set(0);
        Heap { cells, used: 1 }
    }

    // What is known of every heap: the cells that are not in use are unset, and a cell's number is in the range of an `int`.
    pub fn clean(&self)
        ensures { Clean self.now }
    {}

    pub fn used(&self) -> usize
        ensures { result ≡ length (cells_in self.now) }
    {
        self.used
    }

    pub fn room(&self) -> usize
        ensures { result ≡ cell_count self.now - length (cells_in self.now) }
    {
        self.cells.len() - self.used
    }

    pub fn cell(&self, i: usize) -> Cell
        requires within { i < length (cells_in self.now) }
        ensures { result ≡ slice_index_or (cells_in self.now) i unset_cell }
    {
        self.cells[i]
    }

    // Sets a cell.
    pub fn write(&mut self, at: usize, value: i64)
        requires within { at < length (cells_in self.old) }
        ensures cells { cells_in self.new ≡ slice_set (cells_in self.old) at (set_cell value) }
        ensures count { cell_count self.new ≡ cell_count self.old }
    {
        self.cells[at] = Cell::set(value);
    }

    pub fn push_cell(&mut self, cell: Cell)
        requires room { length (cells_in self.old) < cell_count self.old }
        ensures cells { cells_in self.new ≡ cells_in self.old ++ (cell ∷ []) }
        ensures count { cell_count self.new ≡ cell_count self.old }
    {
        // in use before it is written, so that those not in use are unset all along
        let at = self.used;
        self.used += 1;
        self.cells[at] = cell;
    }

    pub fn push(&mut self, value: i64)
        requires room { length (cells_in self.old) < cell_count self.old }
        ensures cells { cells_in self.new ≡ cells_in self.old ++ (set_cell value ∷ []) }
        ensures count { cell_count self.new ≡ cell_count self.old }
    {
        self.push_cell(Cell::set(value));
    }

    // Takes unset cells, in constant work: those not in use are unset already.
    pub fn grow(&mut self, count: usize)
        requires room { length (cells_in self.old) + count ≤ cell_count self.old }
        ensures cells { cells_in self.new ≡ cells_in self.old ++ replicate count unset_cell }
        ensures count { cell_count self.new ≡ cell_count self.old }
    {
        self.used += count;
    }

    // The length that stands in cell p.
    pub fn length_at(&self, p: usize) -> usize
        requires within { p < length (cells_in self.now) }
        requires length { pos 0 ≤ℤ (get_or (cells_in self.now) p unset_cell).value }
        ensures { (get_or (cells_in self.now) p unset_cell).value ≡ pos result }
    {
        self.cells[p].value as usize
    }
}
