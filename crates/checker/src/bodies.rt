// The bodies of the functions.
ghost use Rattle.std.specs.Prelude.{◌≡◌, ◌<◌, ◌≤◌, ◌||◌, [], map, length};
ghost use Rattle.sheet.specs.Outcome.{Said};
ghost use Rattle.xi.specs.declared.program.Parameter.{Parameter as P};
ghost use Rattle.xi.specs.Typing.{binding, numbers_of, pushed};
ghost use Rattle.checker.specs.Checked.{body_held, bodies_held};
ghost use Rattle.checker.specs.Facts.{FunctionSized};
ghost use Rattle.checker.specs.Nodes.{whole};
ghost use Rattle.checker.specs.Scopes.{scope_of};
ghost use Rattle.checker.specs.Walk.{ends_of, is_empty};

use crate::ends::ends;
use crate::node_at::NodeAt;
use crate::scope::Scope;
use crate::statements::statement;
use crate::trees::Trees;
use sheet::refusal::{Refusal, hold};
use xi::node::Ty;
use xi::program::{Function, Parameter};
use xi::rule::Rule;

// The scope of a function's parameters.
fn parameter_scope(parameters: &[Parameter]) -> Scope
    requires { length parameters.now ≤ 8 }
    ensures { scope_of result ≡ pushed (map (λ (p : P). binding p.name p.ty) parameters.now) [] }
{
    let mut scope = Scope::empty();
    for parameter in parameters {
        scope = scope.with(*parameter);
    }
    scope
}

// The body of a function that owes such results ends with a return, if it owes any.
fn ends_as_owed(body: NodeAt, owed: &[Ty]) -> bool
    ensures { result ≡ (is_empty (numbers_of owed.now) || ends_of (whole body.entry).program body.entry.number) }
{
    owed.is_empty() || ends(body)
}

// The body of a function, and that it ends where the function has results.
fn body_of(trees: &Trees, function: Function) -> Result<(), Refusal>
    requires sized { FunctionSized trees.now.sheet.program function }
    requires bodied { function.body < length trees.now.sheet.program.nodes }
    ensures { Said result (λ _. tt) (body_held trees.now.sheet function) }
{
    let owed = trees.sheet.results(function);
    let scope = parameter_scope(trees.sheet.parameters(function));
    let body = NodeAt {
        trees,
        number: function.body as usize,
    };
    statement(body, owed, scope, false)?;
    hold(ends_as_owed(body, owed), Rule::Return, body.offset())
}

pub(crate) fn bodies(trees: &Trees) -> Result<(), Refusal>
    ensures { Said result (λ _. tt) (bodies_held trees.now.sheet) }
{
    for record in trees.sheet.functions() {
        body_of(trees, record.function)?;
    }
    Ok(())
}
