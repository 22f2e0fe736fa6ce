// A place for a value, set or unset. An unset cell holds 0.
ghost use Rattle.std.specs.Prelude.{◌≡◌};
ghost use Rattle.std.specs.Int.{w64};
ghost use Rattle.std.proofs.Common.{to_z};
ghost use Rattle.semantics.specs.State.{Value};
ghost use Rattle.memory.specs.Encoding.{word, number, set_cell, InRange};

// a value beside its mark, since memory is lent as a slice of such records, which a run reads and writes in place
#[derive(Clone, Copy, PartialEq, Eq, Debug)]
pub struct Cell {
    pub value: i64,
    // true where it is set
    pub mark: bool,
}

impl Cell {
    pub const UNSET: Cell = Cell {
        value: 0,
        mark: false,
    };

    pub fn set(value: i64) -> Cell
        ensures { result ≡ set_cell value }
    {
        Cell { value, mark: true }
    }
}

// A value's word, read as signed, is the number in its cell.
pub fn encoding()
    ensures { (v : Value) → InRange v → to_z w64 (word v) ≡ number v }
{}
