// The names of a sheet.
ghost use Rattle.std.specs.Prelude.{◌≡◌, ℕ, ◌+◌, ◌<◌, ◌≤◌, List, [], map, length};
ghost use Rattle.sheet.specs.Outcome.{Said};
ghost use Rattle.sheet.specs.Names.{stands, identifier_from, among, nameable, name_item};

use crate::item::Known;
use crate::part::Part;
use crate::reader::Reader;
use crate::refusal::{Refusal, hold};
use std::alloc::Global;
use xi::rule::Rule;

const RESERVED: [&[u8]; 10] = [
    b"use", b"if", b"while", b"else", b"return", b"length", b"int", b"bool", b"true", b"false",
];

fn may_stand(i: usize, b: u8) -> bool
    ensures { result ≡ stands i b }
{
    if i == 0 {
        b.is_ascii_alphabetic()
    } else {
        b.is_ascii_alphabetic() || b.is_ascii_digit() || b == b'_' || b == b'\''
    }
}

// By index, since what may stand at the first place is not what may stand at the others.
fn is_identifier(w: &[u8]) -> bool
    ensures { result ≡ identifier_from 0 w.now }
{
    for (i, b) in w.iter().enumerate() {
        if !may_stand(i, *b) {
            return false;
        }
    }
    true
}

fn is_among(w: &[u8], words: &[&[u8]]) -> bool
    ensures { result ≡ among w.now (map (λ v. v.now) words.now) }
{
    words.contains(&w)
}

fn is_nameable(w: &[u8], names: &[&[u8]]) -> bool
    ensures { result ≡ nameable w.now (map (λ v. v.now) names.now) }
{
    is_identifier(w) && !is_among(w, &RESERVED) && !is_among(w, names)
}

impl<'a> Part<'a> for Vec<&'a [u8]> {
    ghost Value = { List (List ℕ) };

    ghost value = { λ v. map (λ w. w.now) v.items };

    ghost none = { [] };

    ghost item = { λ _. name_item };

    fn empty(heap: Global) -> Vec<&'a [u8]> {
        Vec::new(heap)
    }

    fn add(&mut self, r: &mut Reader<'a>, _known: Known) -> Result<(), Refusal> {
        let text = r.text()?;
        let w = text.bytes;
        text.in_range((1..=32).contains(&w.len()))?;
        hold(is_nameable(w, self), Rule::Name, text.at)?;
        self.push(w)?;
        Ok(())
    }
}
