// Bytes written as hexadecimal digits. Not the kit's `hex`: `-` is text of this program's own, and what is no pair has no reason to be told.
ghost use Rattle.std.specs.Prelude.{◌≡◌, IfOk, vec_items};
ghost use Rattle.std.specs.Option.{option_map};
ghost use Rattle.report.specs.Hexadecimal.{digit_of, joined, bytes_of};

use std::alloc::{AllocError, Global};

fn digit(c: u8) -> Option<u8>
    ensures { result ≡ digit_of c }
{
    let digit = char::from(c).to_digit(16)?;
    Some(digit as u8)
}

// The byte that two digits say.
fn pair(high: u8, low: u8) -> Option<u8>
    ensures { result ≡ joined (digit_of high) (digit_of low) }
{
    let high = digit(high)?;
    let low = digit(low)?;
    Some(high * 16 + low)
}

// The bytes that the digits say, if they are pairs of digits; `-` says no bytes.
pub fn bytes(heap: Global, text: &[u8]) -> Result<Option<Vec<u8>>, AllocError>
    ensures { IfOk result (λ o. option_map vec_items o ≡ bytes_of text.now) }
{
    let mut all = Vec::new(heap);
    if text == b"-".as_slice() {
        return Ok(Some(all));
    }
    if text.len() % 2 == 1 {
        return Ok(None);
    }
    let mut rest = text;
    while let [high, low, others @ ..] = rest {
        let Some(byte) = pair(*high, *low) else {
            return Ok(None);
        };
        all.push(byte)?;
        rest = others;
    }
    Ok(Some(all))
}
