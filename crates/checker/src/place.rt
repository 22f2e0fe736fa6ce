// What a place of the tree asks of the node that stands there.
#[derive(Clone, Copy)]
pub(crate) enum Place {
    Expression,
    Call,
    Statement,
    Target,
}
