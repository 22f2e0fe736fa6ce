// Consecutive bytes of a sheet.
ghost use Rattle.std.specs.Prelude.{◌≡◌, ◌+◌, ◌≤◌, length, take, drop, nat_le, slice_index};
ghost use Rattle.sheet.specs.Outcome.{Said, held};
ghost use Rattle.sheet.specs.Fields.{pair, quad, eight, type_in};
ghost use Rattle.sheet.specs.declared.refusal.Refusal.TheVariants.{Broken};
ghost use Rattle.xi.specs.declared.rule.Rule.TheVariants.{Range};

use crate::refusal::{Refusal, hold};
use xi::node::Ty;
use xi::rule::Rule;

// Bytes, and the offset where a refusal of them lies.
#[derive(Clone, Copy)]
pub(crate) struct Span<'s> {
    pub bytes: &'s [u8],
    pub at: usize,
}

impl<'s> Span<'s> {
    // The `n` bytes from `i` on. A refusal of them lies where one of the whole does.
    pub fn part(self, i: usize, n: usize) -> Span<'s>
        requires { i + n ≤ length self.bytes.now }
        ensures bytes { result.bytes.now ≡ take n (drop i self.entry.bytes.now) }
        ensures len { length result.bytes.now ≡ n }
        ensures at { result.at ≡ self.entry.at }
    {
        Span {
            bytes: &self.bytes[i..i + n],
            at: self.at,
        }
    }

    fn array<const N: usize>(self, i: usize) -> [u8; N]
        requires { i + N ≤ length self.bytes.now }
        ensures { result ≡ take N (drop i self.entry.bytes.now) }
    {
        *self.bytes[i..].first_chunk().unwrap()
    }

    // The number in two bytes.
    pub fn pair(self, i: usize) -> u16
        requires { i + 2 ≤ length self.bytes.now }
        ensures { result ≡ pair self.entry.bytes.now i }
    {
        u16::from_be_bytes(self.array(i))
    }

    // The number in four bytes.
    pub fn quad(self, i: usize) -> u32
        requires { i + 4 ≤ length self.bytes.now }
        ensures { result ≡ quad self.entry.bytes.now i }
    {
        u32::from_be_bytes(self.array(i))
    }

    // The number in eight bytes.
    pub fn eight(self, i: usize) -> u64
        requires { i + 8 ≤ length self.bytes.now }
        ensures { result ≡ eight self.entry.bytes.now i }
    {
        u64::from_be_bytes(self.array(i))
    }

    // A field or count is out of its range.
    pub fn out_of_range(self) -> Refusal
        ensures { result ≡ Broken Range self.entry.at }
    {
        Refusal::Broken {
            rule: Rule::Range,
            at: self.at,
        }
    }

    pub fn in_range(self, holds: bool) -> Result<(), Refusal>
        ensures { Said result (λ _. tt) (held holds Range self.entry.at) }
    {
        hold(holds, Rule::Range, self.at)
    }

    // The type in a byte.
    pub fn ty(self, i: usize) -> Result<Ty, Refusal>
        requires { i + 1 ≤ length self.bytes.now }
        ensures { Said result (λ t. t) (type_in self.entry.at self.entry.bytes.now i) }
    {
        let refusal = self.out_of_range();
        Ty::try_from(self.bytes[i]).map_err(|_| refusal)
    }
}
