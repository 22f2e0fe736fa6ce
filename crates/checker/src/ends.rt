// Whether a statement ends with a return.
ghost use Rattle.std.specs.Prelude.{◌≡◌};
ghost use Rattle.checker.specs.Nodes.{whole};
ghost use Rattle.checker.specs.Walk.{ends_of};

use crate::node_at::NodeAt;
use xi::node::Node;

// A return ends, a block whose last entry ends, an `if` whose two parts end.
pub(crate) fn ends(node: NodeAt) -> bool
    ensures { result ≡ ends_of (whole node.entry).program node.entry.number }
{
    match node.statement_node() {
        Node::Return { .. } => true,
        Node::IfElse {
            then,
            otherwise,
            ..
        } => ends(node.part(then)) && ends(node.part(otherwise)),
        Node::Block { statements } => match node.trees.sheet.entries(statements) {
            [.., last] => ends(node.part(*last)),
            [] => false,
        },
        _ => false,
    }
}
