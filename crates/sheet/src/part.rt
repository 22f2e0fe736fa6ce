// The parts of a sheet: each a count, and so many items.
ghost use Rattle.std.specs.Prelude.{◌≡◌, ℕ, ◌+◌, ◌^◌, ◌<◌, ◌≤◌, List, OnOk};
ghost use Rattle.sheet.specs.declared.item.Known.{Known};
ghost use Rattle.sheet.specs.Outcome.{Outcome, Said};
ghost use Rattle.sheet.specs.Fields.{part_at};

use crate::item::Known;
use crate::reader::Reader;
use crate::refusal::Refusal;
use std::alloc::Global;

// What the items of a part are read into, one after another.
pub(crate) trait Part<'a>: Sized {
    // what items stand for, and what no items do
    ghost Value: { Type 0 };

    ghost value: { Self → Value };

    ghost none: { Value };

    // the value with the item that begins at the second of the two, and where that item ends
    ghost item: { Known → List ℕ → Value × ℕ → Outcome (Value × ℕ) };

    // so many items there may be, and what is true after the first n
    ghost most: { ℕ } = { 2 ^ 16 };

    ghost after: { ℕ → Self → Type 0 } = { λ _ _. Unit {0} };

    fn empty(heap: Global) -> Self
        ensures none { value result ≡ none }
        ensures after { after 0 result };

    // Reads an item, and adds it to those before it.
    fn add(&mut self, r: &mut Reader<'a>, known: Known) -> Result<(), Refusal>
        requires { (n : ℕ) × (n < most × after n self.old) }
        ensures said { Said result (λ _. (value self.new, r.new.at)) (item known.entry r.old.bytes.now (value self.old, r.old.at)) }
        ensures same { r.new.bytes.now ≡ r.old.bytes.now }
        ensures after { OnOk result ((n : ℕ) → after n self.old → after (n + 1) self.new) };
}

// Reads a part of at most `most` items.
pub(crate) fn read_part<'a, P: Part<'a> + Drop>(
    heap: Global,
    r: &mut Reader<'a>,
    known: Known,
    most: u16,
) -> Result<P, Refusal>
    requires { most ≤ P.most }
    ensures said { Said result (λ p. (P.value p, r.new.at)) (part_at (P.item known.entry) (λ q. (P.none, q)) most r.old.bytes.now r.old.at) }
    ensures same { r.new.bytes.now ≡ r.old.bytes.now }
{
    let count = r.count(most)?;
    let mut all = P::empty(heap);
    for _ in 0..count {
        all.add(r, known)?;
    }
    Ok(all)
}
