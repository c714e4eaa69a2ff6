//! Binary numbers.
ghost use Rattle.std.specs.Prelude.{◌≡◌, ◌%◌, MatchOption};
ghost use Rattle.real.specs.Number.{BinaryNumber, IsBinaryNumber, IsBinaryOf};

use crate::reading::odd_part;
use crate::text::shifted;
use std::marker::Model;

/// A number other than zero: a sign, an odd mantissa and an exponent of two (X.690, 8.5.7).
///
/// Equal numbers are equal values, since the mantissa is odd.
#[derive(Clone, Copy, Debug, PartialEq, Eq)]
pub struct Binary {
    negative: bool,
    mantissa: u64,
    exponent: i32,
}

impl Model for Binary {
    ghost use Rattle.real.specs.Number.{BinaryNumber, IsBinaryNumber};

    ghost Value = { BinaryNumber };

    ghost view = { λ a. record {
      negative = a.negative;
      mantissa = a.mantissa;
      exponent = a.exponent;
    } };

    ghost invariant = { λ a. IsBinaryNumber (record {
      negative = a.negative;
      mantissa = a.mantissa;
      exponent = a.exponent;
    }) };

    ghost inverse = { λ x. record {
      negative = x.negative;
      mantissa = x.mantissa;
      exponent = x.exponent;
    } };
}

impl Binary {
    /// Returns the number `mantissa` times two to the power of `exponent`, or its negative, or
    /// `None` if the mantissa is zero or the exponent doesn't fit once the factors of two are
    /// taken out of the mantissa.
    ///
    /// ```text
    /// Binary::new(false, 10, -6)    0.15625, with the mantissa 5 and the exponent -5
    /// ```
    pub fn new(negative: bool, mantissa: u64, exponent: i32) -> Option<Binary>
        ensures { MatchOption result
            ((x : BinaryNumber) → IsBinaryOf negative mantissa exponent x → ⊥)
            (λ x. IsBinaryOf negative mantissa exponent x) }
    {
        if mantissa == 0 {
            return None;
        }
        let (mantissa, power) = odd_part(mantissa, 64);
        let Some(exponent) = shifted(i64::from(exponent), u64::from(power), 0) else {
            return None;
        };
        Some(Binary {
            negative,
            mantissa,
            exponent,
        })
    }

    /// Returns the number with these parts.
    pub(crate) fn odd(negative: bool, mantissa: u64, exponent: i32) -> Binary
        requires { mantissa % 2 ≡ 1 }
        ensures same { result ≡ (record {
          negative = negative;
          mantissa = mantissa;
          exponent = exponent;
        }) }
        ensures held { IsBinaryNumber result }
    {
        Binary {
            negative,
            mantissa,
            exponent,
        }
    }

    /// Returns whether the number is below zero.
    pub fn is_negative(&self) -> bool
        ensures { (result ≡ self.now.negative) × IsBinaryNumber self.now }
    {
        self.negative
    }

    /// Returns the mantissa, which is odd.
    pub fn mantissa(&self) -> u64
        ensures { (result ≡ self.now.mantissa) × IsBinaryNumber self.now }
    {
        self.mantissa
    }

    /// Returns the exponent of two.
    pub fn exponent(&self) -> i32
        ensures { (result ≡ self.now.exponent) × IsBinaryNumber self.now }
    {
        self.exponent
    }
}
