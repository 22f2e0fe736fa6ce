// The type that is wanted at a place of a run.
ghost use Rattle.std.specs.Prelude.{◌≡◌, ℕ, ◌<◌, length, drop};
ghost use Rattle.checker.specs.Wants.{wanted_types, begins};

use crate::wanted::Wanted;
use xi::node::Ty;

// Value `i` of `count` has the type that is wanted.
pub(crate) fn is_wanted(wanted: Wanted, count: usize, i: usize, ty: Ty) -> bool
    requires { i < count }
    ensures { result ≡ begins ty.number (drop i (wanted_types wanted.entry count)) }
{
    match wanted {
        Wanted::Each { ty: each } => ty == each,
        // `is_some_and` was tried here and below: its proof is the longer one
        Wanted::Types { types } => match types.get(i) {
            Some(wanted) => ty == *wanted,
            None => false,
        },
        Wanted::Parameters { parameters } => match parameters.get(i) {
            Some(parameter) => ty == parameter.ty,
            None => false,
        },
    }
}

// How many types are wanted of `count` values.
pub(crate) fn wanted_count(wanted: Wanted, count: usize) -> usize
    ensures { result ≡ length (wanted_types wanted.entry count) }
{
    match wanted {
        Wanted::Each { .. } => count,
        Wanted::Types { types } => types.len(),
        Wanted::Parameters { parameters } => parameters.len(),
    }
}
