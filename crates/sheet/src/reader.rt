// Reads a sheet front to back. A refusal lies at the reader's place, the first byte of the count or item being read.
ghost use Rattle.std.specs.Prelude.{◌≡◌, ◌+◌, ◌≤◌, length, drop, IfOk};
ghost use Rattle.sheet.specs.Outcome.{Said, Moved};
ghost use Rattle.sheet.specs.Fields.{span_at, byte_at, text_at, count_at};

use crate::refusal::{Refusal, hold};
use crate::span::Span;
use xi::rule::Rule;

// All bytes and a place, and not the bytes left alone: what a sheet stands for is said of all its bytes.
#[derive(Drop)]
pub(crate) struct Reader<'a> {
    bytes: &'a [u8],
    at: usize,
    ghost within: { at ≤ length bytes.now },
}

impl<'a> Reader<'a> {
    pub(crate) fn new(bytes: &'a [u8]) -> Reader<'a>
        ensures bytes { result.bytes.now ≡ bytes.now }
        ensures at { result.at ≡ 0 }
    {
        Reader { bytes, at: 0 }
    }

    pub(crate) fn place(&self) -> usize
        ensures { result ≡ self.now.at }
    {
        self.at
    }

    fn rest(&self) -> &'a [u8]
        ensures { result.now ≡ drop self.now.at self.now.bytes.now }
    {
        &self.bytes[self.at..]
    }

    // The byte `k` places on.
    pub(crate) fn peek(&self, k: usize) -> Result<u8, Refusal>
        ensures { Said result (λ v. v) (byte_at self.now.bytes.now self.now.at k) }
    {
        self.rest().get(k).copied().ok_or(Refusal::Broken {
            rule: Rule::Bytes,
            at: self.at,
        })
    }

    // The next `n` bytes.
    pub(crate) fn span(&mut self, n: usize) -> Result<Span<'a>, Refusal>
        ensures said { Said result (λ w. w.bytes.now) (span_at self.old.bytes.now self.old.at n) }
        ensures same { self.new.bytes.now ≡ self.old.bytes.now }
        ensures moved { Moved result self.old.at n self.new.at }
        ensures long { IfOk result (λ w. length w.bytes.now ≡ n) }
        ensures at { IfOk result (λ w. w.at ≡ self.old.at) }
    {
        let rest = self.rest();
        let at = self.at;
        hold(n <= rest.len(), Rule::Bytes, at)?;
        self.at += n;
        Ok(Span {
            bytes: &rest[..n],
            at,
        })
    }

    // The bytes behind a byte that says how many they are.
    pub(crate) fn text(&mut self) -> Result<Span<'a>, Refusal>
        ensures said { Said result (λ w. w.bytes.now) (text_at self.old.bytes.now self.old.at) }
        ensures same { self.new.bytes.now ≡ self.old.bytes.now }
        ensures moved { IfOk result (λ w. self.new.at ≡ self.old.at + (1 + length w.bytes.now)) }
        ensures at { IfOk result (λ w. w.at ≡ self.old.at) }
    {
        let n = self.peek(0)? as usize;
        let span = self.span(1 + n)?;
        Ok(span.part(1, n))
    }

    // A count of items, of which there may be `most`.
    pub(crate) fn count(&mut self, most: u16) -> Result<u16, Refusal>
        ensures said { Said result (λ n. n) (count_at self.old.bytes.now self.old.at most) }
        ensures same { self.new.bytes.now ≡ self.old.bytes.now }
        ensures moved { Moved result self.old.at 2 self.new.at }
        ensures few { IfOk result (λ n. n ≤ most) }
    {
        let span = self.span(2)?;
        let n = span.pair(0);
        span.in_range(n <= most)?;
        Ok(n)
    }
}
