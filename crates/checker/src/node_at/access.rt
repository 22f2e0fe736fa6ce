// What a node is, with what the rules say of it, and its parts.
ghost use Rattle.std.specs.Prelude.{◌≡◌, ℕ, ◌<◌, Bool, false, List, length};
ghost use Rattle.xi.specs.Tree.{entries_of};
ghost use Rattle.xi.specs.Typing.{Scope as Names};
ghost use Rattle.checker.specs.Facts.{Inside, Sized, EachBelow, PartsBelow};
ghost use Rattle.checker.specs.Nodes.{whole, offset_at};
ghost use Rattle.checker.specs.Walk.{type_node, type_of, call_node, call_of, after_node, after_all, after_of, ends_node, ends_of};

use crate::node_at::{NodeAt, Parts};
use xi::node::{Node, Run};

impl<'s, 'a> NodeAt<'s, 'a> {
    pub(crate) fn offset(self) -> usize
        ensures { result ≡ offset_at self.entry }
    {
        self.trees.sheet.offset(self.number)
    }

    // The part of that number.
    pub(crate) fn part(self, number: u16) -> NodeAt<'s, 'a>
        requires { number < self.number }
        ensures trees { result.trees.now ≡ self.entry.trees.now }
        ensures number { result.number ≡ number }
    {
        NodeAt {
            trees: self.trees,
            number: number as usize,
        }
    }

    // The parts that are the entries of a run.
    pub(crate) fn parts(self, run: Run) -> Parts<'s, 'a>
        requires inside { Inside (length (whole self).program.entries) run }
        requires below { EachBelow self.number (entries_of (whole self).program run) }
        ensures node { result.node ≡ self.entry }
        ensures numbers { result.numbers.now ≡ entries_of (whole self.entry).program run }
    {
        Parts {
            node: self,
            numbers: self.trees.sheet.entries(run),
        }
    }

    // The node, an expression, which may be a call.
    pub(crate) fn expression_node(self) -> Node
        ensures sized { Sized (whole self.entry).program result }
        ensures parts { PartsBelow (whole self.entry).program self.entry.number result }
        ensures types { (Γ : Names) → type_of (whole self.entry) Γ self.entry.number ≡ type_node (type_of (whole self.entry) Γ) (whole self.entry).program Γ (offset_at self.entry) result }
        ensures calls { (Γ : Names) (k : ℕ) → call_of (whole self.entry) Γ k self.entry.number ≡ call_node (type_of (whole self.entry) Γ) (whole self.entry).program k (offset_at self.entry) result }
    {
        self.trees.sheet.node_at(self.number)
    }

    // The node, a statement. One node, two contracts: what the rules say of an expression, and of a statement.
    pub(crate) fn statement_node(self) -> Node
        ensures sized { Sized (whole self.entry).program result }
        ensures parts { PartsBelow (whole self.entry).program self.entry.number result }
        ensures after { (owed : List ℕ) (last : Bool) (Γ : Names) → after_of (whole self.entry) owed last Γ self.entry.number ≡ after_node (type_of (whole self.entry) Γ) (call_of (whole self.entry) Γ) (after_of (whole self.entry) owed false Γ) (λ ns. after_all (after_of (whole self.entry) owed) ns Γ) (whole self.entry) owed last Γ (offset_at self.entry) result }
        ensures ends { ends_of (whole self.entry).program self.entry.number ≡ ends_node (ends_of (whole self.entry).program) (whole self.entry).program result }
    {
        self.trees.sheet.node_at(self.number)
    }
}
