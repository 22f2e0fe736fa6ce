// The reply of `sheetrun` to its input.
ghost use Rattle.std.specs.Prelude.{◌≡◌, ◌≤◌, length, IfOk, string_bytes};
ghost use Rattle.sheet.specs.SheetsOf.{decoded_of};
ghost use Rattle.report.specs.Lines.{line_of};
ghost use Rattle.report.specs.Replies.{checked_text, sheet_length, reply_to};

use crate::reply::Reply;
use checker::checked::check::check;
use sheet::refusal::Refusal;
use sheet::sheet::Sheet;
use std::alloc::{AllocError, Global};

// The reply for an accepted sheet.
fn accepted(sheet: &Sheet) -> Reply
    ensures { line_of result ≡ checked_text (decoded_of sheet.now).program }
{
    Reply::Checked {
        names: sheet.names.len(),
        constants: sheet.constants.len(),
        entries: sheet.entries.len(),
        nodes: sheet.nodes.len(),
        globals: sheet.globals.len(),
        functions: sheet.functions.records.len(),
    }
}

// How many bytes of the input are the sheet: as many as it states, and all where it states more or has no stated length.
fn sheet_length(input: &[u8]) -> usize
    ensures value { result ≡ sheet_length input.now }
    ensures within { result ≤ length input.now }
{
    match input {
        [_, a, b, c, d, ..] => {
            let stated = u32::from_be_bytes([*a, *b, *c, *d]);
            (stated as usize).min(input.len())
        }
        _ => input.len(),
    }
}

// What `sheetrun` prints for the bytes that it was given.
pub fn reply(heap: Global, input: &[u8]) -> Result<String, AllocError>
    ensures { IfOk result (λ s. string_bytes s ≡ reply_to input.now) }
{
    let reply = match check(heap, &input[..sheet_length(input)]) {
        Ok(checked) => accepted(&checked.sheet),
        Err(Refusal::Broken { rule, at }) => Reply::Refused { rule, at },
        Err(Refusal::Memory) => return Err(AllocError),
    };
    format!(in heap; "{reply}")
}
