// Why a sheet is refused.
ghost use Rattle.std.specs.Prelude.{◌≡◌, IfErr};
ghost use Rattle.sheet.specs.declared.refusal.Refusal.TheVariants.{Memory, Broken};
ghost use Rattle.sheet.specs.Outcome.{Said, held};

use std::alloc::{AllocError, AllocFailed};
use xi::rule::Rule;

#[derive(Clone, Copy, PartialEq, Eq, Debug)]
pub enum Refusal {
    // want of memory: nothing is said of the sheet
    Memory,
    // the rule that is broken, and the offset of the item or count that breaks it
    Broken { rule: Rule, at: usize },
}

impl From<AllocError> for Refusal {
    ghost from_gives = { λ _ r. r ≡ Memory };

    fn from(_e: AllocError) -> Refusal {
        Refusal::Memory
    }
}

impl<T: Drop> From<AllocFailed<T>> for Refusal {
    ghost from_gives = { λ _ r. r ≡ Memory };

    fn from(_e: AllocFailed<T>) -> Refusal {
        Refusal::Memory
    }
}

// The rule holds at that offset, or is broken there.
pub fn hold(holds: bool, rule: Rule, at: usize) -> Result<(), Refusal>
    ensures said { Said result (λ _. tt) (held holds rule at) }
    ensures broken { IfErr result (λ e. e ≡ Broken rule at) }
{
    if holds {
        Ok(())
    } else {
        Err(Refusal::Broken { rule, at })
    }
}
