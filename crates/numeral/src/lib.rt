// The length and the characters of a number's decimal, each character by its place: for these it is written into an array, so nothing is allocated.
#![tactic(auto)]

ghost use Rattle.std.specs.Prelude.{◌≡◌, ◌<◌, ◌≤◌, length as count, if◌then◌else◌, Some, None, decimal, nat_lt, slice_index};
ghost use Rattle.std.specs.Fmt.{signed_decimal};

use itoa::Buffer;

#[cfg(test)]
mod tests;

// How many digits a number below 100,000 has, by comparing and adding alone: a tile measures each height that it goes past.
fn few_digits(n: u64) -> usize
    requires { n < 100000 }
    ensures value { result ≡ count (decimal n) }
    ensures bound { result ≤ 5 }
{
    1 + usize::from(n >= 10)
        + usize::from(n >= 100)
        + usize::from(n >= 1000)
        + usize::from(n >= 10_000)
}

// How many digits it has.
#[tactic(auto, using(crate::proofs::Lengths::count_between))]
fn digit_count(n: u64) -> usize
    ensures value { result ≡ count (decimal n) }
    ensures bound { result ≤ 20 }
{
    if n < 100_000 {
        few_digits(n)
    } else {
        n.ilog10() as usize + 1
    }
}

// How many characters it has.
#[tactic(auto, using(crate::proofs::Lengths::count_of_int))]
pub fn length(z: i64) -> usize
    ensures value { result ≡ count (signed_decimal z) }
    ensures bound { result ≤ 20 }
{
    let digits = digit_count(z.unsigned_abs());
    if z < 0 { digits + 1 } else { digits }
}

// Character j, from the left.
pub fn character(z: i64, j: usize) -> Option<u8>
    ensures { result ≡ (if nat_lt j (count (signed_decimal z)) then Some (slice_index (signed_decimal z) j) else None) }
{
    Buffer::new().format(z).as_bytes().get(j).copied()
}
