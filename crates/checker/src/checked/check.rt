// Checks a sheet: its bytes, its tree, its names, and the bodies of its functions.
ghost use Rattle.std.specs.Prelude.{◌≡◌, ◌<◌, length, IfOk};
ghost use Rattle.std.proofs.Math.Option.{some};
ghost use Rattle.sheet.specs.Outcome.{Said};
ghost use Rattle.checker.specs.Trees.{function_at};
ghost use Rattle.checker.specs.Checked.{IsMain, main_in, rules_held, checked_at};
ghost use Rattle.checker.specs.CheckedOf.{checked_of};
ghost use Rattle.checker.specs.Exact.{AcceptsExactly, RefusesExactly};

use crate::bodies::bodies;
use crate::checked::CheckedSheet;
use crate::names::names;
use crate::read_sheet::ReadSheet;
use crate::tree::tree;
use crate::trees::Trees;
use sheet::refusal::Refusal;
use sheet::sheet::decode::decode;
use std::alloc::Global;

// The rules beyond reading, and the number of `main`.
fn rules<'a>(heap: Global, sheet: ReadSheet<'a>) -> Result<(Trees<'a>, usize), Refusal>
    ensures said { Said result (λ _. tt) (rules_held sheet.entry) }
    ensures same { IfOk result (λ t. t.0.sheet ≡ sheet.entry) }
    ensures main { IfOk result (λ t. IsMain sheet.entry t.1) }
{
    let trees = tree(heap, sheet)?;
    let main = names(&trees.sheet)?;
    bodies(&trees)?;
    Ok((trees, main))
}

// The sheet in the bytes, if it obeys every rule; else the first rule that it breaks, and where.
// Accepted is exactly what is read and obeys the rules; a refusal is that of reading, or of the first test that does not hold.
pub fn check<'a>(heap: Global, bytes: &'a [u8]) -> Result<CheckedSheet<'a>, Refusal>
    ensures said { Said result checked_of (checked_at bytes.now) }
    ensures exact { AcceptsExactly }
    ensures refuses { RefusesExactly }
    ensures main { IfOk result (λ s. IsMain (checked_of s) s.main) }
{
    let sheet = decode(heap, bytes)?;
    let (trees, main) = rules(heap, ReadSheet::new(sheet))?;
    Ok(CheckedSheet {
        bytes,
        sheet: trees.sheet.into_sheet(),
        main,
    })
}
