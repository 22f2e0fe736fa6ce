// A sheet that was read, seen as what it holds, with what reading grants.
use sheet::sheet::Sheet;
use std::marker::Model;

mod access;
mod lookup;

#[derive(Drop)]
pub(crate) struct ReadSheet<'a> {
    sheet: Sheet<'a>,
}

impl<'a> Model for ReadSheet<'a> {
    ghost use Rattle.sheet.specs.Sheets.{Decoded};
    ghost use Rattle.checker.specs.Facts.{Granted};
    ghost use Rattle.checker.specs.Held.{held_by};

    ghost Value = { Decoded };

    ghost view = { λ s. held_by s.sheet };

    ghost invariant = { λ s. Granted (held_by s.sheet) };
}
