// Reads a sheet from its bytes.
ghost use Rattle.std.specs.Prelude.{◌≡◌, ◌≤◌, length, OnOk};
ghost use Rattle.sheet.specs.Outcome.{Said};
ghost use Rattle.sheet.specs.Sheets.{head_at, decoded_at};
ghost use Rattle.sheet.specs.SheetsOf.{decoded_of};

use crate::item::Known;
use crate::part::read_part;
use crate::reader::Reader;
use crate::refusal::{Refusal, hold};
use crate::sheet::Sheet;
use std::alloc::Global;
use xi::rule::Rule;

// The version and the stated length, in the first five bytes.
fn head(r: &mut Reader, size: usize) -> Result<(), Refusal>
    requires start { r.old.at ≡ 0 }
    requires size { size ≡ length r.old.bytes.now }
    ensures said { Said result (λ _. tt) (head_at r.old.bytes.now) }
    ensures same { r.new.bytes.now ≡ r.old.bytes.now }
    ensures moved { OnOk result (r.new.at ≡ 5) }
{
    let version = r.span(1)?;
    hold(version.bytes[0] == 1, Rule::Version, version.at)?;
    let length = r.span(4)?;
    hold(length.quad(0) as usize == size, Rule::Bytes, length.at)
}

pub fn decode<'a>(heap: Global, bytes: &'a [u8]) -> Result<Sheet<'a>, Refusal>
    ensures { Said result decoded_of (decoded_at bytes.now) }
{
    let mut r = Reader::new(bytes);
    head(&mut r, bytes.len())?;
    // names, constants and entries refer to nothing before them
    let none = Known::of(&[], &[], &[]);
    let names: Vec<&[u8]> = read_part(heap, &mut r, none, 256)?;
    let constants: Vec<i64> = read_part(heap, &mut r, none, 1024)?;
    let entries: Vec<u16> = read_part(heap, &mut r, none, 4096)?;
    let known = Known::of(&names, &constants, &entries);
    let nodes_at = r.place() + 2;
    let nodes = read_part(heap, &mut r, known, 2048)?;
    let globals_at = r.place() + 2;
    let globals = read_part(heap, &mut r, known, 32)?;
    let functions_at = r.place();
    let functions = read_part(heap, &mut r, known, 64)?;
    hold(r.place() == bytes.len(), Rule::Bytes, r.place())?;
    Ok(Sheet {
        names,
        constants,
        entries,
        nodes,
        globals,
        functions,
        nodes_at,
        globals_at,
        functions_at,
    })
}
