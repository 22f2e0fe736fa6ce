// Cells that are taken from the front on; those that are not in use are unset.
ghost use Rattle.std.specs.Prelude.{◌≡◌, ◌-◌, ◌^◌, ◌<◌, ◌≤◌, length, drop, replicate};
ghost use Rattle.memory.specs.Encoding.{unset_cell};

use crate::cell::Cell;

pub mod arrays;
pub mod cells;

// How much room a call needs is its own, so each call asks for it; and each that changes a heap says that as many cells are lent as before, since no
// type holds what two values have alike. No `impl Model`: its invariant would not reach callers, who are told that every heap is clean, and a view as a list forgets the other cells.
// No list stands behind both heap and stack: what they do alike is a line or two each, and only a heap says what lies past the cells in use.
#[derive(Drop)]
pub struct Heap<'c> {
    // lent and of fixed size, since a run allocates nothing: so the number in use stands beside them
    cells: &'c mut [Cell],
    // how many cells are in use
    used: usize,
    ghost within: { used ≤ length cells.now },
    // so a cell's number is in the range of an `int`
    ghost fits: { length cells.now < 2 ^ 63 },
    ghost rest: { drop used cells.now ≡ replicate (length cells.now - used) unset_cell },
}
