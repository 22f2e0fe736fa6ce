// A node of trees: its number, and that the trees have such a node.
ghost use Rattle.std.specs.Prelude.{◌<◌, length};
ghost use Rattle.checker.specs.Facts.{EachBelow};
ghost use Rattle.checker.specs.Singles.{EachBelow-prop};

use crate::trees::Trees;

mod access;

#[derive(Clone, Copy)]
pub(crate) struct NodeAt<'s, 'a> {
    pub(crate) trees: &'s Trees<'a>,
    pub(crate) number: usize,
    ghost known: { number < length trees.now.sheet.program.nodes },
}

// Parts of a node, in order, by number.
#[derive(Clone, Copy)]
pub(crate) struct Parts<'s, 'a> {
    pub(crate) node: NodeAt<'s, 'a>,
    pub(crate) numbers: &'s [u16],
    ghost below: { EachBelow node.number numbers.now } by { EachBelow-prop node.number numbers.now },
}
