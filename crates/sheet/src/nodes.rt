// The nodes of a sheet.
ghost use Rattle.std.specs.Prelude.{◌≡◌, ℕ, ◌+◌, ◌^◌, ◌<◌, ◌≤◌, length};
ghost use Rattle.sheet.specs.Nodes.{are_characters, is_text, raw_of, leaf_of, run_within, operation_of, collection_of, declaration_of, statement_of, target_or_block_of, node_of, node_reads};

use crate::item::{Item, Known};
use crate::refusal::Refusal;
use crate::span::Span;
use xi::node::{LibraryFunction, Node, Operator, Run, Ty, UnaryOperator};

// The fields of a node as they stand in a sheet.
// The kind is the format's own number, met here alone: an enum of kinds would be the cases of `Node` once more.
#[derive(Clone, Copy)]
pub(crate) struct RawNode {
    pub kind: u8,
    pub s: u8,
    pub a: u16,
    pub b: u16,
    pub c: u16,
}

// the last code point of Unicode
const LAST_CHARACTER: i64 = 1_114_111;

fn are_characters(text: &[i64]) -> bool
    ensures { result ≡ are_characters text.now }
{
    text.iter().all(|c| (0..=LAST_CHARACTER).contains(c))
}

// The run of constants is a text of at most 255 characters.
fn is_text(constants: &[i64], run: Run) -> bool
    ensures { result ≡ is_text constants.now run.first run.count }
{
    run.count <= 255
        && run.first as usize + run.count as usize <= constants.len()
        && are_characters(run.of(constants))
}

impl RawNode {
    fn of(span: Span) -> RawNode
        requires { length span.bytes.now ≡ 8 }
        ensures { result ≡ raw_of span.entry.bytes.now }
    {
        RawNode {
            kind: span.bytes[0],
            s: span.bytes[1],
            a: span.pair(2),
            b: span.pair(4),
            c: span.pair(6),
        }
    }

    fn run(self) -> Run
        ensures { result ≡ record { first = self.b; count = self.c } }
    {
        Run {
            first: self.b,
            count: self.c,
        }
    }

    // Kinds 1 to 4. As in the functions below, a kind is one row of the fields.
    fn leaf(self, known: Known) -> Option<Node>
        ensures { result ≡ leaf_of known.entry.names known.entry.constants.now self }
    {
        let RawNode { kind, s, a, b, c } = self;
        match (kind, s, a, b, c) {
            (1, 0, a, 0, 0) if (a as usize) < known.constants.len() => Some(Node::Number {
                constant: a,
            }),
            (2, 0, a @ 0..=1, 0, 0) => Some(Node::Truth { value: a == 1 }),
            (3, 0, 0, _, _) if is_text(known.constants, self.run()) => Some(Node::Text {
                characters: self.run(),
            }),
            (4, 0, a, 0, 0) if known.has_name(a) => Some(Node::Variable { name: a }),
            _ => None,
        }
    }

    // The run has at most `most` items, and they are among `count`.
    fn run_within(self, most: u16, count: usize) -> bool
        ensures { result ≡ run_within self most count }
    {
        self.c <= most && self.b as usize + self.c as usize <= count
    }

    // Kinds 5 to 8.
    fn operation(self) -> Option<Node>
        ensures { result ≡ operation_of self }
    {
        let RawNode { kind, s, a, b, c } = self;
        match (kind, s, a, b, c) {
            (5, 0, a, b, 0) => Some(Node::Element { array: a, index: b }),
            (6, 0, a, 0, 0) => Some(Node::Length { array: a }),
            (7, s, a, 0, 0) => Some(Node::Unary {
                operator: UnaryOperator::try_from(s).ok()?,
                operand: a,
            }),
            (8, s, a, b, 0) => Some(Node::Binary {
                operator: Operator::try_from(s).ok()?,
                left: a,
                right: b,
            }),
            _ => None,
        }
    }

    // Kinds 9 to 11. The type is still its field here: an element is of at most type 7.
    fn collection(self, known: Known) -> Option<Node>
        ensures { result ≡ collection_of known.entry.names known.entry.entries self }
    {
        let RawNode { kind, s, a, b, c } = self;
        match (kind, s, a, b, c) {
            (9, s @ 0..=7, 0, _, _) if self.run_within(16, known.entries) => Some(
                Node::Constructor {
                    element: Ty::try_from(s).ok()?,
                    elements: self.run(),
                },
            ),
            (10, 0, a, _, _) if known.has_name(a) && self.run_within(8, known.entries) => Some(
                Node::Call {
                    name: a,
                    arguments: self.run(),
                },
            ),
            (11, s, 0, _, _) if self.run_within(8, known.entries) => Some(Node::LibraryCall {
                function: LibraryFunction::try_from(s).ok()?,
                arguments: self.run(),
            }),
            _ => None,
        }
    }

    // Kinds 20 to 22: declarations. The type is still its field here, and half of it the depth.
    fn declaration(self, known: Known) -> Option<Node>
        ensures { result ≡ declaration_of known.entry.names known.entry.entries self }
    {
        let RawNode { kind, s, a, b, c } = self;
        match (kind, s, a, b, c) {
            (20, s, a, _, _)
                if known.has_name(a) && self.run_within(u16::from(s / 2), known.entries) => Some(
                Node::Declare {
                    name: a,
                    ty: Ty::try_from(s).ok()?,
                    lengths: self.run(),
                },
            ),
            (21, s, a, b, 0) if known.has_name(a) => Some(Node::DeclareValue {
                name: a,
                ty: Ty::try_from(s).ok()?,
                value: b,
            }),
            (22, 0, a, _, 1..) if self.run_within(8, known.entries) => Some(Node::DeclareCall {
                call: a,
                targets: self.run(),
            }),
            _ => None,
        }
    }

    // Kinds 23 to 29: statements that declare nothing.
    fn statement(self, known: Known) -> Option<Node>
        ensures { result ≡ statement_of known.entry.names known.entry.entries self }
    {
        let RawNode { kind, s, a, b, c } = self;
        match (kind, s, a, b, c) {
            (23, 0, a, b, 0) if known.has_name(a) => Some(Node::Assign { name: a, value: b }),
            (24, 0, a, b, c) => Some(Node::AssignElement {
                array: a,
                index: b,
                value: c,
            }),
            (25, 0, a, b, 0) => Some(Node::If { guard: a, then: b }),
            (26, 0, a, b, c) => Some(Node::IfElse {
                guard: a,
                then: b,
                otherwise: c,
            }),
            (27, 0, a, b, 0) => Some(Node::While { guard: a, body: b }),
            (28, 0, 0, _, _) if self.run_within(8, known.entries) => Some(Node::Return {
                values: self.run(),
            }),
            (29, 0, a, 0, 0) => Some(Node::CallStatement { call: a }),
            _ => None,
        }
    }

    // Kinds 30 to 32: targets and blocks.
    fn target_or_block(self, known: Known) -> Option<Node>
        ensures { result ≡ target_or_block_of known.entry.names known.entry.entries self }
    {
        let RawNode { kind, s, a, b, c } = self;
        match (kind, s, a, b, c) {
            (30, s, a, 0, 0) if known.has_name(a) => Some(Node::Target {
                name: a,
                ty: Ty::try_from(s).ok()?,
            }),
            (31, 0, 0, 0, 0) => Some(Node::Discard),
            (32, 0, 0, _, _) if self.run_within(255, known.entries) => Some(Node::Block {
                statements: self.run(),
            }),
            _ => None,
        }
    }

    // The node that the fields stand for, if any. In two steps, first by ranges of kinds, so that each function is short.
    fn node(self, known: Known) -> Option<Node>
        ensures { result ≡ node_of known.entry.names known.entry.constants.now known.entry.entries self }
    {
        match self.kind {
            0..=4 => self.leaf(known),
            5..=8 => self.operation(),
            9..=11 => self.collection(known),
            12..=22 => self.declaration(known),
            23..=29 => self.statement(known),
            _ => self.target_or_block(known),
        }
    }
}

impl Item for Node {
    ghost SIZE = { 8 };

    ghost reads = { λ k. node_reads k.names k.constants.now k.entries };

    const SIZE: usize = 8;

    fn read(known: Known, span: Span) -> Result<Node, Refusal> {
        RawNode::of(span).node(known).ok_or(span.out_of_range())
    }
}
