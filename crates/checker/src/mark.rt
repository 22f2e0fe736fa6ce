// Where a node stands in the tree.
#[derive(Clone, Copy, PartialEq, Eq)]
pub(crate) enum Mark {
    // nowhere so far
    Free,
    // it is a part of the node of that number
    PartOf { node: usize },
    // it is the body of a function
    Body,
}
