// The types that the values of a run must have, in order.
use xi::node::Ty;
use xi::program::Parameter;

pub(crate) mod at;

// An enum and no closure: there are these three, and the functions that check values call each other, so a type parameter would go round.
#[derive(Clone, Copy)]
pub(crate) enum Wanted<'s> {
    // each has this type
    Each { ty: Ty },
    Types { types: &'s [Ty] },
    // the types of the parameters
    Parameters { parameters: &'s [Parameter] },
}
