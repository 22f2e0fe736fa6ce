// Statements and blocks: each takes the scope before it, and gives the scope behind it.
ghost use Rattle.std.specs.Prelude.{◌≡◌, ◌<◌};
ghost use Rattle.sheet.specs.Outcome.{Said};
ghost use Rattle.xi.specs.Typing.{numbers_of};
ghost use Rattle.checker.specs.Nodes.{whole, offset_at, types_in};
ghost use Rattle.checker.specs.Scopes.{scope_of};
ghost use Rattle.checker.specs.Walk.{assigned, element_assigned, returned, after_all, after_of};

use crate::declarations::{declare_call, declare_lengths, declare_value};
use crate::expressions::{call, expression, values};
use crate::node_at::{NodeAt, Parts};
use crate::scope::Scope;
use crate::wanted::Wanted;
use sheet::refusal::{Refusal, hold};
use xi::node::{Node, Ty};
use xi::program::Parameter;
use xi::rule::Rule;

// The assignment of part `value` to the variable of that name.
fn assign(node: NodeAt, scope: &Scope, name: u16, value: u16) -> Result<(), Refusal>
    requires { value < node.number }
    ensures { Said result (λ _. tt) (assigned (types_in node.entry scope.now) (whole node.entry).program (scope_of scope.now) (offset_at node.entry) name value) }
{
    let at = node.offset();
    let given = expression(node.part(value), scope)?;
    let ty = node.trees.sheet.variable(scope, name);
    let ty = ty.ok_or(Refusal::Broken {
        rule: Rule::Unknown,
        at,
    })?;
    hold(given == ty, Rule::Type, at)
}

// The assignment of part `value` to an element of an array.
// The parts are numbers: as nodes they would need clauses that say that their trees are the same.
fn assign_element(
    node: NodeAt,
    scope: &Scope,
    array: u16,
    index: u16,
    value: u16,
) -> Result<(), Refusal>
    requires arrays { array < node.number }
    requires indices { index < node.number }
    requires values { value < node.number }
    ensures { Said result (λ _. tt) (element_assigned (types_in node.entry scope.now) (offset_at node.entry) array index value) }
{
    let array = expression(node.part(array), scope)?;
    let index = expression(node.part(index), scope)?;
    let value = expression(node.part(value), scope)?;
    let fit = index == Ty::INT && array.element() == Some(value);
    hold(fit, Rule::Type, node.offset())
}

// A return of the values of the parts. `last` says whether it is the last entry of a block.
fn give_back(parts: Parts, owed: &[Ty], scope: &Scope, last: bool) -> Result<(), Refusal>
    ensures { Said result (λ _. tt) (returned (types_in parts.entry.node scope.now) (numbers_of owed.now) last (offset_at parts.entry.node) parts.entry.numbers.now) }
{
    let at = parts.node.offset();
    let fit = values(parts, scope, Wanted::Types { types: owed })?;
    hold(parts.numbers.len() == owed.len(), Rule::Count, at)?;
    hold(fit, Rule::Type, at)?;
    hold(last, Rule::Return, at)
}

// The scope behind a statement of a function that owes such results. `last` says whether it is the last entry of a block.
#[cycle(block_statement)]
pub(crate) fn statement(
    node: NodeAt,
    owed: &[Ty],
    scope: Scope,
    last: bool,
) -> Result<Scope, Refusal>
    ensures { Said result scope_of (after_of (whole node.entry) (numbers_of owed.now) last (scope_of scope) node.entry.number) }
{
    let at = node.offset();
    match node.statement_node() {
        Node::Declare { name, ty, lengths } => {
            declare_lengths(node.parts(lengths), scope, Parameter { name, ty })
        }
        Node::DeclareValue { name, ty, value } => {
            declare_value(node, scope, Parameter { name, ty }, value)
        }
        Node::DeclareCall { call, targets } => declare_call(node.parts(targets), scope, call),
        Node::Assign { name, value } => {
            assign(node, &scope, name, value)?;
            Ok(scope)
        }
        Node::AssignElement {
            array,
            index,
            value,
        } => {
            assign_element(node, &scope, array, index, value)?;
            Ok(scope)
        }
        Node::If { guard, then: body } | Node::While { guard, body } => {
            let guard = expression(node.part(guard), &scope)?;
            statement(node.part(body), owed, scope, false)?;
            hold(guard == Ty::BOOL, Rule::Type, at)?;
            Ok(scope)
        }
        Node::IfElse {
            guard,
            then,
            otherwise,
        } => {
            let guard = expression(node.part(guard), &scope)?;
            statement(node.part(then), owed, scope, false)?;
            statement(node.part(otherwise), owed, scope, false)?;
            hold(guard == Ty::BOOL, Rule::Type, at)?;
            Ok(scope)
        }
        Node::Return { values } => {
            give_back(node.parts(values), owed, &scope, last)?;
            Ok(scope)
        }
        Node::CallStatement { call: callee } => {
            call(node.part(callee), &scope, 0)?;
            Ok(scope)
        }
        Node::Block { statements } => {
            block(node.parts(statements), owed, scope)?;
            Ok(scope)
        }
        // no trees have another node in this place
        _ => Err(Refusal::Broken {
            rule: Rule::Tree,
            at,
        }),
    }
}

// The entries of a block, one after another.
#[cycle(block_statement)]
fn block(parts: Parts, owed: &[Ty], mut scope: Scope) -> Result<Scope, Refusal>
    ensures { Said result scope_of (after_all (after_of (whole parts.entry.node) (numbers_of owed.now)) parts.entry.numbers.now (scope_of scope)) }
{
    for (i, part) in parts.numbers.iter().enumerate() {
        let last = i + 1 == parts.numbers.len();
        scope = statement(parts.node.part(*part), owed, scope, last)?;
    }
    Ok(scope)
}
