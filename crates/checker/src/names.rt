// The names of globals, functions and parameters, and `main`.
ghost use Rattle.std.specs.Prelude.{◌≡◌, ◌<◌, ◌||◌, length, IfOk};
ghost use Rattle.std.proofs.Math.Option.{some};
ghost use Rattle.sheet.specs.Outcome.{Said};
ghost use Rattle.checker.specs.Checked.{IsMain, has_name, global_name, parameter_name, globals_free, functions_free, parameters_free_in, parameters_free, main_in, names_held};
ghost use Rattle.checker.specs.Trees.{function_at};

use crate::main_function::main_function;
use crate::named::{has_name, repeated};
use crate::read_sheet::ReadSheet;
use sheet::refusal::{Refusal, hold};
use xi::program::{GlobalVariable, Parameter};
use xi::rule::Rule;

// No global has the name of an earlier one.
fn globals_free(sheet: &ReadSheet) -> Result<(), Refusal>
    ensures { Said result (λ _. tt) (globals_free sheet.now) }
{
    match repeated(sheet.globals()) {
        None => Ok(()),
        Some(later) => Err(Refusal::Broken {
            rule: Rule::Taken,
            at: sheet.global_offset(later),
        }),
    }
}

// No function has the name of an earlier one. Its offset stands in its record, where a global's is computed: one function for both
// would take a closure, whose contract is as long as what it saves.
fn functions_free(sheet: &ReadSheet) -> Result<(), Refusal>
    ensures { Said result (λ _. tt) (functions_free sheet.now) }
{
    match repeated(sheet.functions()) {
        None => Ok(()),
        Some(later) => Err(Refusal::Broken {
            rule: Rule::Taken,
            at: sheet.function_place(later),
        }),
    }
}

// A global or an earlier parameter has that name.
fn is_taken(globals: &[GlobalVariable], earlier: &[Parameter], name: u16) -> bool
    ensures { result ≡ (has_name global_name globals.now name || has_name parameter_name earlier.now name) }
{
    has_name(globals, name) || has_name(earlier, name)
}

// No parameter of a function at `at` has the name of a global or of an earlier parameter.
fn parameters_free_in(
    globals: &[GlobalVariable],
    parameters: &[Parameter],
    at: usize,
) -> Result<(), Refusal>
    ensures { Said result (λ _. tt) (parameters_free_in globals.now parameters.now at) }
{
    for (j, parameter) in parameters.iter().enumerate() {
        let taken = is_taken(globals, &parameters[..j], parameter.name);
        hold(!taken, Rule::Taken, at)?;
    }
    Ok(())
}

fn parameters_free(sheet: &ReadSheet) -> Result<(), Refusal>
    ensures { Said result (λ _. tt) (parameters_free sheet.now) }
{
    for record in sheet.functions() {
        let parameters = sheet.parameters(record.function);
        parameters_free_in(sheet.globals(), parameters, record.at)?;
    }
    Ok(())
}

// All of these names, and the number of `main`.
pub(crate) fn names(sheet: &ReadSheet) -> Result<usize, Refusal>
    ensures said { Said result (λ _. tt) (names_held sheet.now) }
    ensures main { IfOk result (IsMain sheet.now) }
{
    globals_free(sheet)?;
    functions_free(sheet)?;
    parameters_free(sheet)?;
    main_function(sheet)
}
