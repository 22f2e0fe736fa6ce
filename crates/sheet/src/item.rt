// Items of a fixed size, and the parts of a sheet that have such items.
ghost use Rattle.std.specs.Prelude.{◌≡◌, ℕ, ◌+◌, ◌≤◌, List, [], length, map, nat_lt};
ghost use Rattle.sheet.specs.declared.item.Known.{Known};
ghost use Rattle.sheet.specs.Outcome.{Outcome, Said, good};
ghost use Rattle.sheet.specs.Fields.{pair, signed_at, name_in, item_of};

use crate::part::Part;
use crate::reader::Reader;
use crate::refusal::Refusal;
use crate::span::Span;
use std::alloc::Global;

// What an item may refer to, of the parts before it.
#[derive(Clone, Copy)]
pub(crate) struct Known<'s> {
    pub names: usize,
    pub constants: &'s [i64],
    pub entries: usize,
}

impl<'s> Known<'s> {
    pub fn of(names: &[&[u8]], constants: &'s [i64], entries: &[u16]) -> Known<'s>
        ensures names { result.names ≡ length (map (λ w. w.now) names.now) }
        ensures constants { result.constants.now ≡ constants.now }
        ensures entries { result.entries ≡ length entries.now }
    {
        Known {
            names: names.len(),
            constants,
            entries: entries.len(),
        }
    }

    // There is a name of that number.
    pub fn has_name(self, number: u16) -> bool
        ensures { result ≡ nat_lt number self.entry.names }
    {
        (number as usize) < self.names
    }

    // The name in two bytes of a span.
    pub fn name(self, span: Span, i: usize) -> Result<u16, Refusal>
        requires { i + 2 ≤ length span.bytes.now }
        ensures { Said result (λ n. n) (name_in self.entry.names span.entry.at span.entry.bytes.now i) }
    {
        let name = span.pair(i);
        span.in_range(self.has_name(name))?;
        Ok(name)
    }
}

// What is known is one value for a whole part, and a span one for each item, so `read` takes the two.
pub(crate) trait Item: Sized {
    ghost SIZE: { ℕ };

    // the value of the bytes of an item at a place, with what is known
    ghost reads: { Known → ℕ → List ℕ → Outcome Self };

    const SIZE: usize;

    fn read(known: Known, span: Span) -> Result<Self, Refusal>
        requires { length span.bytes.now ≡ SIZE }
        ensures { Said result (λ v. v) (reads known.entry span.entry.at span.entry.bytes.now) };
}

impl Item for i64 {
    ghost SIZE = { 8 };

    ghost reads = { λ _ _ w. good (signed_at w 0) };

    const SIZE: usize = 8;

    fn read(_known: Known, span: Span) -> Result<i64, Refusal> {
        Ok(span.eight(0).cast_signed())
    }
}

impl Item for u16 {
    ghost SIZE = { 2 };

    ghost reads = { λ _ _ w. good (pair w 0) };

    const SIZE: usize = 2;

    fn read(_known: Known, span: Span) -> Result<u16, Refusal> {
        Ok(span.pair(0))
    }
}

impl<'a, T: Item + Drop> Part<'a> for Vec<T> {
    ghost Value = { List T };

    ghost value = { λ v. v.items };

    ghost none = { [] };

    ghost item = { λ k. item_of T.Item.SIZE (T.Item.reads k) };

    fn empty(heap: Global) -> Vec<T> {
        Vec::new(heap)
    }

    fn add(&mut self, r: &mut Reader<'a>, known: Known) -> Result<(), Refusal> {
        let span = r.span(T::SIZE)?;
        self.push(T::read(known, span)?)?;
        Ok(())
    }
}
