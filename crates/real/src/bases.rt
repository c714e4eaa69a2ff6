//! Decimal numbers as binary ones.
ghost use Rattle.std.specs.Prelude.{◌≡◌, ℕ, ◌*◌, ◌%◌, ◌^◌, ◌<◌, ◌≤◌, MatchOption};
ghost use Rattle.real.specs.Number.{BinaryNumber, IsFives, IsSame};

use crate::binary::Binary;
use crate::decimal::Decimal;
use crate::reading::odd_part;
use crate::text::shifted;

/// Returns a number times five to the power of a count, if it has at most 64 bits.
fn times_fives(number: u64, count: u32) -> Option<u64>
    requires { 0 < number }
    ensures { MatchOption result (2 ^ 64 ≤ number * 5 ^ count) (λ r. r ≡ number * 5 ^ count) }
{
    if count == 0 {
        return Some(number);
    }
    if number > 0x3333_3333_3333_3333 {
        return None;
    }
    times_fives(number * 5, count - 1)
}

/// Returns a number divided by five to the power of a count, if nothing remains.
fn over_fives(number: u64, count: u32) -> Option<u64>
    ensures { MatchOption result ((n : ℕ) → number ≡ n * 5 ^ count → ⊥)
        (λ r. number ≡ r * 5 ^ count) }
{
    if count == 0 {
        return Some(number);
    }
    if number % 5 != 0 {
        return None;
    }
    over_fives(number / 5, count - 1)
}

/// Returns an odd number times five to the power of an exponent, if it is a whole number of at
/// most 64 bits, which is odd too.
fn fives(odd: u64, exponent: i32) -> Option<u64>
    requires { odd % 2 ≡ 1 }
    ensures { MatchOption result ((n : ℕ) → n < 2 ^ 64 → IsFives odd exponent n → ⊥)
        (λ r. IsFives odd exponent r × (r % 2 ≡ 1)) }
{
    if exponent < 0 {
        over_fives(odd, exponent.unsigned_abs())
    } else {
        times_fives(odd, exponent as u32)
    }
}

impl Decimal {
    /// Returns the binary number that is the same number, or `None` if there is none or a `Binary`
    /// doesn't hold it.
    ///
    /// ```text
    /// the decimal number 25 times ten to the power of -2    1 times two to the power of -2
    /// ```
    pub fn to_binary(&self) -> Option<Binary>
        ensures { MatchOption result ((y : BinaryNumber) → IsSame self.now y → ⊥)
            (λ y. IsSame self.now y) }
    {
        let (odd, power) = odd_part(self.mantissa(), 64);
        let Some(mantissa) = fives(odd, self.exponent()) else {
            return None;
        };
        let Some(exponent) = shifted(i64::from(self.exponent()), u64::from(power), 0) else {
            return None;
        };
        Some(Binary::odd(self.is_negative(), mantissa, exponent))
    }
}
