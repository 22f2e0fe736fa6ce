// The types of expressions.
ghost use Rattle.std.specs.Prelude.{◌≡◌, length, IfOk, OnOk};
ghost use Rattle.sheet.specs.Outcome.{Said};
ghost use Rattle.xi.specs.Typing.{numbers_of};
ghost use Rattle.checker.specs.Nodes.{whole, offset_at, types_in};
ghost use Rattle.checker.specs.Scopes.{scope_of};
ghost use Rattle.checker.specs.Walk.{fitting, argued, call_of};
ghost use Rattle.checker.specs.Wants.{wanted_types};

use crate::library::{gives, takes};
use crate::node_at::{NodeAt, Parts};
use crate::operators::{binary, operands, unary};
use crate::scope::Scope;
use crate::wanted::Wanted;
use crate::wanted::at::{is_wanted, wanted_count};
use sheet::refusal::{Refusal, hold};
use xi::node::{Node, Ty};
use xi::rule::Rule;

// Whether the values of the parts have the types that are wanted.
#[cycle(arguments_call_expression_values)]
pub(crate) fn values(parts: Parts, scope: &Scope, wanted: Wanted) -> Result<bool, Refusal>
    ensures { Said result (λ b. b) (fitting (types_in parts.entry.node scope.now) parts.entry.numbers.now (wanted_types wanted.entry (length parts.entry.numbers.now))) }
{
    let mut fit = true;
    for (i, part) in parts.numbers.iter().enumerate() {
        let ty = expression(parts.node.part(*part), scope)?;
        if !is_wanted(wanted, parts.numbers.len(), i, ty) {
            fit = false;
        }
    }
    Ok(fit)
}

// The arguments of a call of what gives so many results.
#[cycle(arguments_call_expression_values)]
fn arguments(
    parts: Parts,
    scope: &Scope,
    asked: usize,
    wanted: Wanted,
    results: usize,
) -> Result<(), Refusal>
    ensures said { Said result (λ _. tt) (argued (types_in parts.entry.node scope.now) parts.entry.numbers.now asked (offset_at parts.entry.node) (wanted_types wanted.entry (length parts.entry.numbers.now)) results) }
    ensures many { OnOk result (results ≡ asked) }
{
    let at = parts.node.offset();
    let count = parts.numbers.len();
    hold(count == wanted_count(wanted, count), Rule::Count, at)?;
    hold(results == asked, Rule::Count, at)?;
    let fit = values(parts, scope, wanted)?;
    hold(fit, Rule::Type, at)
}

// The types of the results of a call, where so many are asked.
#[cycle(arguments_call_expression_values)]
pub(crate) fn call<'s>(
    node: NodeAt<'s, '_>,
    scope: &Scope,
    asked: usize,
) -> Result<&'s [Ty], Refusal>
    ensures said { Said result (λ ts. numbers_of ts.now) (call_of (whole node.entry) (scope_of scope.now) asked node.entry.number) }
    ensures many { IfOk result (λ ts. length ts.now ≡ asked) }
{
    let at = node.offset();
    let sheet = &node.trees.sheet;
    match node.expression_node() {
        Node::Call {
            name,
            arguments: run,
        } => {
            let function = sheet.function_named(name);
            let function = function.ok_or(Refusal::Broken {
                rule: Rule::Unknown,
                at,
            })?;
            let parameters = sheet.parameters(function);
            let results = sheet.results(function);
            let wanted = Wanted::Parameters { parameters };
            arguments(node.parts(run), scope, asked, wanted, results.len())?;
            Ok(results)
        }
        Node::LibraryCall {
            function,
            arguments: run,
        } => {
            let types = takes(function);
            let results = gives(function);
            let wanted = Wanted::Types { types };
            arguments(node.parts(run), scope, asked, wanted, results.len())?;
            Ok(results)
        }
        // no trees have another node in this place
        _ => Err(Refusal::Broken {
            rule: Rule::Tree,
            at,
        }),
    }
}

// The type of an expression.
#[cycle(arguments_call_expression_values)]
pub(crate) fn expression(node: NodeAt, scope: &Scope) -> Result<Ty, Refusal>
    ensures { Said result (λ t. t.number) (types_in node.entry scope.now node.entry.number) }
{
    let at = node.offset();
    match node.expression_node() {
        Node::Number { .. } => Ok(Ty::INT),
        Node::Truth { .. } => Ok(Ty::BOOL),
        Node::Text { .. } => Ok(Ty::INTS),
        Node::Variable { name } => {
            let ty = node.trees.sheet.variable(scope, name);
            ty.ok_or(Refusal::Broken {
                rule: Rule::Unknown,
                at,
            })
        }
        Node::Element { array, index } => {
            let array = expression(node.part(array), scope)?;
            let index = expression(node.part(index), scope)?;
            match array.element() {
                Some(element) if index == Ty::INT => Ok(element),
                _ => Err(Refusal::Broken {
                    rule: Rule::Type,
                    at,
                }),
            }
        }
        Node::Length { array } => {
            let array = expression(node.part(array), scope)?;
            operands(array.element().is_some(), at, Ty::INT)
        }
        Node::Unary { operator, operand } => {
            let operand = expression(node.part(operand), scope)?;
            unary(operator, operand, at)
        }
        Node::Binary {
            operator,
            left,
            right,
        } => {
            let left = expression(node.part(left), scope)?;
            let right = expression(node.part(right), scope)?;
            binary(operator, left, right, at)
        }
        Node::Constructor { element, elements } => {
            let wanted = Wanted::Each { ty: element };
            let fit = values(node.parts(elements), scope, wanted)?;
            operands(fit, at, element.array())
        }
        Node::Call { .. } | Node::LibraryCall { .. } => {
            let results = call(node, scope, 1)?;
            Ok(results[0])
        }
        // no trees have another node in this place
        _ => Err(Refusal::Broken {
            rule: Rule::Tree,
            at,
        }),
    }
}
