//! Decimal numbers.
ghost use Rattle.std.specs.Prelude.{◌≡◌, ℕ, ◌*◌, ◌^◌, ◌<◌, ◌%◌, ◌+ℤ◌, pos, MatchOption};
ghost use Rattle.real.specs.Number.{DecimalNumber, IsDecimalNumber, IsDecimalOf};

use crate::text::shifted;
use std::marker::Model;

/// A number other than zero: a sign, a mantissa that is no multiple of ten, and an exponent of
/// ten (X.690, 8.5.8).
///
/// Equal numbers are equal values, since the mantissa is no multiple of ten. A decimal number and
/// a binary one are different values, even if they are the same number (X.680, 21).
#[derive(Clone, Copy, Debug, PartialEq, Eq)]
pub struct Decimal {
    negative: bool,
    mantissa: u64,
    exponent: i32,
}

impl Model for Decimal {
    ghost use Rattle.real.specs.Number.{DecimalNumber, IsDecimalNumber};

    ghost Value = { DecimalNumber };

    ghost view = { λ a. record {
      negative = a.negative;
      mantissa = a.mantissa;
      exponent = a.exponent;
    } };

    ghost invariant = { λ a. IsDecimalNumber (record {
      negative = a.negative;
      mantissa = a.mantissa;
      exponent = a.exponent;
    }) };

    ghost inverse = { λ x. record {
      negative = x.negative;
      mantissa = x.mantissa;
      exponent = x.exponent;
    } };
}

/// Returns what is left of a number when a power of ten is taken out, and the power.
fn without_zeros(number: u64) -> (u64, u64)
    requires { 0 < number }
    ensures same { number ≡ result.0 * 10 ^ result.1 }
    ensures last { 0 < result.0 % 10 }
    ensures few { result.1 < number }
{
    if number % 10 > 0 {
        return (number, 0);
    }
    let (rest, power) = without_zeros(number / 10);
    (rest, power + 1)
}

impl Decimal {
    /// Returns the number `mantissa` times ten to the power of `exponent`, or its negative, or
    /// `None` if the mantissa is zero or the exponent doesn't fit once the factors of ten are
    /// taken out of the mantissa.
    ///
    /// ```text
    /// Decimal::new(false, 150, -2)    1.5, with the mantissa 15 and the exponent -1
    /// ```
    pub fn new(negative: bool, mantissa: u64, exponent: i32) -> Option<Decimal>
        ensures { MatchOption result
            ((x : DecimalNumber) → IsDecimalOf negative mantissa exponent x → ⊥)
            (λ x. IsDecimalOf negative mantissa exponent x) }
    {
        if mantissa == 0 {
            return None;
        }
        let (mantissa, power) = without_zeros(mantissa);
        let Some(exponent) = shifted(i64::from(exponent), power, 0) else {
            return None;
        };
        Some(Decimal {
            negative,
            mantissa,
            exponent,
        })
    }

    /// Returns the number with these parts.
    pub(crate) fn of_parts(negative: bool, mantissa: u64, exponent: i32) -> Decimal
        requires { 0 < mantissa % 10 }
        ensures same { result ≡ (record {
          negative = negative;
          mantissa = mantissa;
          exponent = exponent;
        }) }
        ensures held { IsDecimalNumber result }
    {
        Decimal {
            negative,
            mantissa,
            exponent,
        }
    }

    /// Returns whether the number is below zero.
    pub fn is_negative(&self) -> bool
        ensures { (result ≡ self.now.negative) × IsDecimalNumber self.now }
    {
        self.negative
    }

    /// Returns the mantissa, which is no multiple of ten.
    pub fn mantissa(&self) -> u64
        ensures { (result ≡ self.now.mantissa) × IsDecimalNumber self.now }
    {
        self.mantissa
    }

    /// Returns the exponent of ten.
    pub fn exponent(&self) -> i32
        ensures { (result ≡ self.now.exponent) × IsDecimalNumber self.now }
    {
        self.exponent
    }
}
