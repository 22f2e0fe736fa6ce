// The parameters and locals in scope, by value: those of a block are dropped with it. So it is `Copy`, and has no model: a view would forget the
// places that are not in use, and not give them back.
ghost use Rattle.std.specs.Prelude.{ℕ, ◌≤◌};

use xi::program::Parameter;

pub(crate) mod names;

#[derive(Clone, Copy)]
pub(crate) struct Scope {
    // the oldest first; of fixed size beside its length, so that a scope is copied for a block and dropped with it
    names: [Parameter; 64],
    len: usize,
    ghost fits: { len ≤ 64 },
}
