// The function that a run starts with.
ghost use Rattle.std.specs.Prelude.{◌≡◌, ◌<◌, length, IfOk, MatchOption};
ghost use Rattle.std.proofs.Math.Option.{none, some};
ghost use Rattle.sheet.specs.Outcome.{Said};
ghost use Rattle.checker.specs.Checked.{IsMain, is_main, main_in, main_fits, main_held};
ghost use Rattle.checker.specs.Facts.{FunctionSized};
ghost use Rattle.checker.specs.Trees.{function_at};

use crate::read_sheet::ReadSheet;
use sheet::refusal::{Refusal, hold};
use xi::node::Ty;
use xi::program::{Function, Parameter};
use xi::rule::Rule;

fn is_main(sheet: &ReadSheet, function: Function) -> bool
    ensures { result ≡ is_main sheet.now.program function }
{
    let main: &[u8] = b"main";
    sheet
        .names()
        .get(function.name as usize)
        .is_some_and(|name| *name == main)
}

// `main` takes one array of arrays of numbers, and gives nothing.
fn fits(sheet: &ReadSheet, function: Function) -> bool
    requires { FunctionSized sheet.now.program function }
    ensures { result ≡ main_fits sheet.now.program (some function) }
{
    match sheet.parameters(function) {
        [rows] if rows.ty == Ty::ROWS => sheet.results(function).is_empty(),
        _ => false,
    }
}

// The number of the function that is named `main`.
fn main_number(sheet: &ReadSheet) -> Option<usize>
    ensures { MatchOption result (main_in sheet.now.program sheet.now.program.functions ≡ none) (IsMain sheet.now) }
{
    sheet
        .functions()
        .iter()
        .position(|record| is_main(sheet, record.function))
}

// The number of `main`, which there must be.
pub(crate) fn main_function(sheet: &ReadSheet) -> Result<usize, Refusal>
    ensures said { Said result (λ _. tt) (main_held sheet.now) }
    ensures main { IfOk result (IsMain sheet.now) }
{
    let at = sheet.functions_offset();
    let number = main_number(sheet).ok_or(Refusal::Broken {
        rule: Rule::Main,
        at,
    })?;
    let function = sheet.function_at(number);
    hold(fits(sheet, function), Rule::Main, at)?;
    Ok(number)
}
