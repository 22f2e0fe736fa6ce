// A sheet that passed the tests of the tree, with what the steps behind them need of that.
ghost use Rattle.checker.specs.Facts.{Falling, Bodied};
ghost use Rattle.checker.specs.Singles.{Falling-prop, Bodied-prop};

use crate::read_sheet::ReadSheet;

#[derive(Drop)]
pub(crate) struct Trees<'a> {
    pub(crate) sheet: ReadSheet<'a>,
    // the parts of a node have smaller numbers
    ghost falling: { Falling sheet.program } by { Falling-prop sheet.program },
    // each body is a node
    ghost bodied: { Bodied sheet.program } by { Bodied-prop sheet.program },
}
