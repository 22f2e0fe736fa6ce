// A sheet that obeys every rule.
ghost use Rattle.std.specs.Prelude.{◌≡◌};
ghost use Rattle.sheet.specs.Outcome.{good};
ghost use Rattle.sheet.specs.SheetsOf.{decoded_of};
ghost use Rattle.checker.specs.Checked.{checked_at};

use sheet::sheet::Sheet;

pub mod check;

#[derive(Drop)]
pub struct CheckedSheet<'a> {
    pub bytes: &'a [u8],
    pub sheet: Sheet<'a>,
    // the number of the function `main`
    pub main: usize,
    ghost accepted: { ∥ checked_at bytes.now ≡ good (decoded_of sheet) ∥₁ },
}
