// The arithmetic of a run: numbers of 64 bits with a sign, modulo 2^64.
#![tactic(auto)]

ghost use Rattle.std.specs.Prelude.{◌≡◌, ◌+ℤ◌, ◌-ℤ◌, ◌*ℤ◌, neg_ℤ, if◌then◌else◌, Some, None, int_div, int_rem};
ghost use Rattle.std.specs.Int.{int_wrap, w64};
ghost use Rattle.semantics.specs.Numbers.{nearest};
ghost use Rattle.semantics.specs.Rules.{is_zero};

#[cfg(test)]
mod tests;

#[tactic(auto, using(std::proofs::lemmas::Int::wraps))]
pub fn add(x: i64, y: i64) -> i64
    ensures { result ≡ int_wrap w64 (x +ℤ y) }
{
    x.wrapping_add(y)
}

#[tactic(auto, using(std::proofs::lemmas::Int::wraps))]
pub fn subtract(x: i64, y: i64) -> i64
    ensures { result ≡ int_wrap w64 (x -ℤ y) }
{
    x.wrapping_sub(y)
}

pub fn multiply(x: i64, y: i64) -> i64
    ensures { result ≡ int_wrap w64 (x *ℤ y) }
{
    x.wrapping_mul(y)
}

#[tactic(auto, using(std::proofs::lemmas::Int::wraps))]
pub fn negate(x: i64) -> i64
    ensures { result ≡ int_wrap w64 (neg_ℤ x) }
{
    x.wrapping_neg()
}

// The quotient without its fraction, or none over 0.
#[tactic(auto, using(crate::proofs::Quotients::smallest_quotient))]
pub fn divide(x: i64, y: i64) -> Option<i64>
    ensures { result ≡ (if is_zero y then None else Some (int_wrap w64 (int_div x y))) }
{
    match (x, y) {
        (_, 0) => None,
        // the only quotient past the largest number
        (i64::MIN, -1) => Some(i64::MIN),
        _ => Some(x / y),
    }
}

// What a division leaves, with the dividend's sign, or none over 0.
pub fn remainder(x: i64, y: i64) -> Option<i64>
    ensures { result ≡ (if is_zero y then None else Some (int_rem x y)) }
{
    match y {
        0 => None,
        // no number leaves anything, and the smallest has no quotient
        -1 => Some(0),
        _ => Some(x % y),
    }
}

// The nearest whole number to the quotient, halves away from zero, or none over 0.
#[tactic(auto, using(crate::proofs::Ratios::rounds))]
pub fn ratio(x: i64, y: i64) -> Option<i64>
    ensures { result ≡ (if is_zero y then None else Some (int_wrap w64 (nearest x y))) }
{
    let dividend = u128::from(x.unsigned_abs());
    let divisor = u128::from(y.unsigned_abs());
    let rounded = (2 * dividend + divisor).checked_div(2 * divisor)? as u64;
    if (x < 0) == (y < 0) {
        Some(rounded.cast_signed())
    } else {
        Some(rounded.cast_signed().wrapping_neg())
    }
}
