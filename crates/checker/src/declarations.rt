// Declarations: what they need, and the scope behind them.
ghost use Rattle.std.specs.Prelude.{◌≡◌, ◌<◌, length};
ghost use Rattle.sheet.specs.Outcome.{Said};
ghost use Rattle.xi.specs.Tree.{node_at};
ghost use Rattle.xi.specs.Typing.{binding, numbers_of, target_bindings};
ghost use Rattle.checker.specs.Nodes.{whole, offset_at, types_in};
ghost use Rattle.checker.specs.Scopes.{scope_of};
ghost use Rattle.checker.specs.Walk.{declared, declared_all, targets_declared, bindings_have, targets_fit, declared_with_lengths, declared_with_value, declared_by_call, call_of};

use crate::expressions::{call, expression, values};
use crate::node_at::{NodeAt, Parts};
use crate::scope::Scope;
use crate::wanted::Wanted;
use sheet::refusal::{Refusal, hold};
use xi::node::{Node, Ty};
use xi::program::Parameter;
use xi::rule::Rule;

// The scope with one name more, which the node declares.
fn declare(node: NodeAt, scope: Scope, local: Parameter) -> Result<Scope, Refusal>
    ensures { Said result scope_of (declared (whole node.entry).program (scope_of scope) (binding local.name local.ty) (offset_at node.entry)) }
{
    let at = node.offset();
    hold(scope.has_room(), Rule::Range, at)?;
    let taken = node.trees.sheet.variable(&scope, local.name).is_some();
    hold(!taken, Rule::Taken, at)?;
    Ok(scope.with(local))
}

// Declares a name with the lengths that are given.
pub(crate) fn declare_lengths(
    lengths: Parts,
    scope: Scope,
    local: Parameter,
) -> Result<Scope, Refusal>
    ensures { Said result scope_of (declared_with_lengths (types_in lengths.entry.node scope) (whole lengths.entry.node).program (scope_of scope) (offset_at lengths.entry.node) local.name local.ty lengths.entry.numbers.now) }
{
    let fit = values(lengths, &scope, Wanted::Each { ty: Ty::INT })?;
    hold(fit, Rule::Type, lengths.node.offset())?;
    declare(lengths.node, scope, local)
}

// Declares a name with the value of part `value`.
pub(crate) fn declare_value(
    node: NodeAt,
    scope: Scope,
    local: Parameter,
    value: u16,
) -> Result<Scope, Refusal>
    requires { value < node.number }
    ensures { Said result scope_of (declared_with_value (types_in node.entry scope) (whole node.entry).program (scope_of scope) (offset_at node.entry) local.name local.ty value) }
{
    let given = expression(node.part(value), &scope)?;
    hold(given == local.ty, Rule::Type, node.offset())?;
    declare(node, scope, local)
}

// The result of that type fits the target.
fn target_fits(target: Node, ty: Ty) -> bool
    ensures { result ≡ bindings_have ty.number (target_bindings target) }
{
    match target {
        Node::Target { ty: own, .. } => own == ty,
        _ => true,
    }
}

// Each result fits its target.
fn targets_fit(targets: Parts, types: &[Ty]) -> bool
    requires { length types.now ≡ length targets.numbers.now }
    ensures { result ≡ targets_fit (whole targets.entry.node).program targets.entry.numbers.now (numbers_of types.now) }
{
    let sheet = &targets.node.trees.sheet;
    // a loop and no `all`: its closure would have to ask that each number is a node's
    for (target, ty) in targets.numbers.iter().zip(types) {
        if !target_fits(sheet.node_at(*target as usize), *ty) {
            return false;
        }
    }
    true
}

// Declares the name of a target, if it has one.
fn declare_target(target: NodeAt, scope: Scope) -> Result<Scope, Refusal>
    ensures { Said result scope_of (declared_all (whole target.entry).program (offset_at target.entry) (target_bindings (node_at (whole target.entry).program target.entry.number)) (scope_of scope)) }
{
    match target.trees.sheet.node_at(target.number) {
        Node::Target { name, ty } => declare(target, scope, Parameter { name, ty }),
        _ => Ok(scope),
    }
}

// Declares the names of the targets, one after another.
fn declare_targets(targets: Parts, mut scope: Scope) -> Result<Scope, Refusal>
    ensures { Said result scope_of (targets_declared (whole targets.entry.node) targets.entry.numbers.now (scope_of scope)) }
{
    for target in targets.numbers {
        scope = declare_target(targets.node.part(*target), scope)?;
    }
    Ok(scope)
}

// Declares the targets with the results of the call, which is part `callee`.
pub(crate) fn declare_call(targets: Parts, scope: Scope, callee: u16) -> Result<Scope, Refusal>
    requires { callee < targets.node.number }
    ensures { Said result scope_of (declared_by_call (call_of (whole targets.entry.node) (scope_of scope)) (whole targets.entry.node) (scope_of scope) (offset_at targets.entry.node) callee targets.entry.numbers.now) }
{
    let node = targets.node;
    let types = call(node.part(callee), &scope, targets.numbers.len())?;
    hold(targets_fit(targets, types), Rule::Type, node.offset())?;
    declare_targets(targets, scope)
}
