// Each part of a node has a smaller number and the kind that its place asks, and is a part once; so has each body.
ghost use Rattle.std.specs.Prelude.{◌≡◌, ◌<◌, length, OnOk};
ghost use Rattle.sheet.specs.Outcome.{Said};
ghost use Rattle.xi.specs.Tree.{all, at, suits, sort_of};
ghost use Rattle.checker.specs.Trees.{asked, claimed, claimed_all, parts_in, nodes_claimed, claimed_as_body, bodies_claimed, is_block};
ghost use Rattle.checker.specs.Facts.{EachBelow, PartsBelow, Falling, Bodied, Sized};

use crate::mark::Mark;
use crate::place::Place;
use crate::read_sheet::ReadSheet;
use sheet::refusal::Refusal;
use xi::node::Node;
use xi::rule::Rule;

fn suits(place: Place, node: Node) -> bool
    ensures { result ≡ suits (asked place) (sort_of node) }
{
    match place {
        Place::Expression => matches!(
            node,
            Node::Number { .. }
                | Node::Truth { .. }
                | Node::Text { .. }
                | Node::Variable { .. }
                | Node::Element { .. }
                | Node::Length { .. }
                | Node::Unary { .. }
                | Node::Binary { .. }
                | Node::Constructor { .. }
                | Node::Call { .. }
                | Node::LibraryCall { .. }
        ),
        Place::Call => matches!(node, Node::Call { .. } | Node::LibraryCall { .. }),
        Place::Statement => matches!(
            node,
            Node::Declare { .. }
                | Node::DeclareValue { .. }
                | Node::DeclareCall { .. }
                | Node::Assign { .. }
                | Node::AssignElement { .. }
                | Node::If { .. }
                | Node::IfElse { .. }
                | Node::While { .. }
                | Node::Return { .. }
                | Node::CallStatement { .. }
                | Node::Block { .. }
        ),
        Place::Target => matches!(node, Node::Target { .. } | Node::Discard),
    }
}

// Notes that `part` is a part of node `n`, in such a place.
// The marks stay beside the sheet: in a struct of both each `requires` on their length would be an `ensures` that the sheet stays as it was. There
// are no trees yet, so a node is its number.
fn claim(
    sheet: &ReadSheet,
    marks: &mut [Mark],
    n: usize,
    part: u16,
    place: Place,
) -> Result<(), Refusal>
    requires known { n < length sheet.now.program.nodes }
    requires long { length marks.old ≡ length sheet.now.program.nodes }
    ensures said { Said result (λ _. marks.new) (claimed sheet.now n (at (asked place) part) marks.old) }
    ensures below { OnOk result (part < n) }
{
    let at = sheet.offset(n);
    let part = part as usize;
    // no `hold`: what the test says is needed behind it
    if part >= n || !suits(place, sheet.node_at(part)) || marks[part] != Mark::Free {
        return Err(Refusal::Broken {
            rule: Rule::Tree,
            at,
        });
    }
    marks[part] = Mark::PartOf { node: n };
    Ok(())
}

// The parts in a run, which stand in places of one kind.
fn claim_run(
    sheet: &ReadSheet,
    marks: &mut [Mark],
    n: usize,
    parts: &[u16],
    place: Place,
) -> Result<(), Refusal>
    requires known { n < length sheet.now.program.nodes }
    requires long { length marks.old ≡ length sheet.now.program.nodes }
    ensures said { Said result (λ _. marks.new) (claimed_all sheet.now n (all (asked place) parts.now) marks.old) }
    ensures below { OnOk result (EachBelow n parts.now) }
{
    for part in parts {
        claim(sheet, marks, n, *part, place)?;
    }
    Ok(())
}

// The parts of node `n`, left to right.
fn claim_parts(sheet: &ReadSheet, marks: &mut [Mark], n: usize, node: Node) -> Result<(), Refusal>
    requires known { n < length sheet.now.program.nodes }
    requires sized { Sized sheet.now.program node }
    requires long { length marks.old ≡ length sheet.now.program.nodes }
    ensures said { Said result (λ _. marks.new) (claimed_all sheet.now n (parts_in sheet.now.program node) marks.old) }
    ensures below { OnOk result (PartsBelow sheet.now.program n node) }
{
    match node {
        Node::Number { .. }
        | Node::Truth { .. }
        | Node::Text { .. }
        | Node::Variable { .. }
        | Node::Target { .. }
        | Node::Discard => Ok(()),
        Node::Element { array, index } => {
            claim(sheet, marks, n, array, Place::Expression)?;
            claim(sheet, marks, n, index, Place::Expression)
        }
        Node::Binary { left, right, .. } => {
            claim(sheet, marks, n, left, Place::Expression)?;
            claim(sheet, marks, n, right, Place::Expression)
        }
        Node::Length { array: part }
        | Node::Unary { operand: part, .. }
        | Node::DeclareValue { value: part, .. }
        | Node::Assign { value: part, .. } => { claim(sheet, marks, n, part, Place::Expression) }
        Node::Constructor { elements: run, .. }
        | Node::Call { arguments: run, .. }
        | Node::LibraryCall { arguments: run, .. }
        | Node::Declare { lengths: run, .. }
        | Node::Return { values: run } => {
            claim_run(sheet, marks, n, sheet.entries(run), Place::Expression)
        }
        Node::DeclareCall { call, targets } => {
            claim(sheet, marks, n, call, Place::Call)?;
            claim_run(sheet, marks, n, sheet.entries(targets), Place::Target)
        }
        Node::AssignElement {
            array,
            index,
            value,
        } => {
            claim(sheet, marks, n, array, Place::Expression)?;
            claim(sheet, marks, n, index, Place::Expression)?;
            claim(sheet, marks, n, value, Place::Expression)
        }
        Node::If { guard, then: body } | Node::While { guard, body } => {
            claim(sheet, marks, n, guard, Place::Expression)?;
            claim(sheet, marks, n, body, Place::Statement)
        }
        Node::IfElse {
            guard,
            then,
            otherwise,
        } => {
            claim(sheet, marks, n, guard, Place::Expression)?;
            claim(sheet, marks, n, then, Place::Statement)?;
            claim(sheet, marks, n, otherwise, Place::Statement)
        }
        Node::CallStatement { call } => { claim(sheet, marks, n, call, Place::Call) }
        Node::Block { statements } => {
            claim_run(sheet, marks, n, sheet.entries(statements), Place::Statement)
        }
    }
}

pub(crate) fn claim_all(sheet: &ReadSheet, marks: &mut [Mark]) -> Result<(), Refusal>
    requires { length marks.old ≡ length sheet.now.program.nodes }
    ensures said { Said result (λ _. marks.new) (nodes_claimed sheet.now marks.old) }
    ensures below { OnOk result (Falling sheet.now.program) }
{
    for (n, node) in sheet.nodes().iter().enumerate() {
        claim_parts(sheet, marks, n, *node)?;
    }
    Ok(())
}

fn is_block(node: Node) -> bool
    ensures { result ≡ is_block (sort_of node) }
{
    matches!(node, Node::Block { .. })
}

// Notes that `body` is the body of a function whose record is at `at`. As `claim`, but another thing is asked of the node, and another
// offset is refused; with the test in one function its parts would be parameters.
fn claim_body(sheet: &ReadSheet, marks: &mut [Mark], at: usize, body: u16) -> Result<(), Refusal>
    requires { length marks.old ≡ length sheet.now.program.nodes }
    ensures said { Said result (λ _. marks.new) (claimed_as_body sheet.now body at marks.old) }
    ensures bodied { OnOk result (body < length sheet.now.program.nodes) }
{
    let body = body as usize;
    if body >= sheet.nodes().len() || !is_block(sheet.node_at(body)) || marks[body] != Mark::Free {
        return Err(Refusal::Broken {
            rule: Rule::Tree,
            at,
        });
    }
    marks[body] = Mark::Body;
    Ok(())
}

pub(crate) fn claim_bodies(sheet: &ReadSheet, marks: &mut [Mark]) -> Result<(), Refusal>
    requires { length marks.old ≡ length sheet.now.program.nodes }
    ensures said { Said result (λ _. marks.new) (bodies_claimed sheet.now marks.old) }
    ensures bodied { OnOk result (Bodied sheet.now.program) }
{
    for record in sheet.functions() {
        claim_body(sheet, marks, record.at, record.function.body)?;
    }
    Ok(())
}
