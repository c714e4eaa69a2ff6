//! 64-bit floating point numbers (IEEE 754, binary64).
ghost use Rattle.std.specs.Prelude.{◌≡◌, ◌≢◌, ℕ, ◌+◌, ◌-◌, ◌*◌};
ghost use Rattle.std.specs.Prelude.{◌/◌, ◌^◌, ◌<◌, ◌≤◌, ◌==◌, MatchOption};
ghost use Rattle.real.specs.Number.{BinaryNumber, IsSame};
ghost use Rattle.real.specs.Double.{biased, significand as significand_of, MeansDouble, IsDouble};

use crate::binary::Binary;
use crate::decimal::Decimal;
use crate::reading::odd_part;
use crate::value::Real;

/// The bits of a fraction, as a number one above the greatest.
const UNIT: u64 = 0x10_0000_0000_0000;

/// Returns the bits of the exponent.
fn biased(bits: u64) -> u16
    ensures same { result ≡ biased bits }
    ensures few { result < 2048 }
{
    (bits / UNIT % 2048) as u16
}

/// Returns the significand.
fn significand(bits: u64) -> u64
    ensures same { result ≡ significand_of bits }
    ensures few { result < 2 ^ 53 }
{
    let fraction = bits % UNIT;
    if biased(bits) == 0 {
        fraction
    } else {
        fraction + UNIT
    }
}

/// Returns the finite number other than zero that bits mean.
fn finite(bits: u64) -> Binary
    requires finite { biased bits < 2047 }
    requires some { 0 < significand_of bits }
    ensures { IsDouble bits result }
{
    let (odd, power) = odd_part(significand(bits), 53);
    let place = biased(bits).saturating_sub(1) + u16::from(power);
    Binary::odd(
        bits / 0x8000_0000_0000_0000 == 1,
        odd,
        i32::from(place) - 1074,
    )
}

/// Returns a significand and an exponent with as many powers of two as fit moved to the
/// significand.
fn raised(significand: u64, place: u64) -> (u64, u64)
    requires { significand < 2 ^ 53 }
    ensures same { (power : ℕ) × (result.0 ≡ significand * 2 ^ power)
        × (place ≡ result.1 + power) }
    ensures few { result.0 < 2 ^ 53 }
    ensures most { result.1 ≢ 0 → 4503599627370496 ≤ result.0 }
{
    if significand >= UNIT || place == 0 {
        return (significand, place);
    }
    raised(2 * significand, place - 1)
}

/// Returns the bits of a number with this significand and this exponent.
fn bits_of(negative: bool, significand: u64, place: u64) -> u64
    requires significand { significand < 2 ^ 53 }
    requires place { place < 2046 }
    requires most { place ≢ 0 → 4503599627370496 ≤ significand }
    ensures finite { biased result < 2047 }
    ensures sign { negative ≡ (result / 9223372036854775808 == 1) }
    ensures significand { significand_of result ≡ significand }
    ensures place { biased result - 1 ≡ place }
{
    let sign = if negative { 0x8000_0000_0000_0000 } else { 0 };
    if significand < UNIT {
        sign + significand
    } else {
        sign + (place + 1) * UNIT + (significand - UNIT)
    }
}

/// Returns the bits of a finite number other than zero, if there are any.
fn double(number: &Binary) -> Option<u64>
    ensures { MatchOption result ((bits : ℕ) → IsDouble bits number.now → ⊥)
        (λ bits. IsDouble bits number.now) }
{
    let mantissa = number.mantissa();
    if mantissa >= 0x20_0000_0000_0000 {
        return None;
    }
    let place = i64::from(number.exponent()) + 1074;
    if place < 0 {
        return None;
    }
    let (significand, place) = raised(mantissa, place as u64);
    if place > 2045 {
        return None;
    }
    Some(bits_of(number.is_negative(), significand, place))
}

/// Returns the bits of a decimal number, if there are any.
fn decimal_double(number: &Decimal) -> Option<u64>
    ensures { MatchOption result
        ((bits : ℕ) (y : BinaryNumber) → IsSame number.now y → IsDouble bits y → ⊥)
        (λ bits. (y : BinaryNumber) × IsSame number.now y × IsDouble bits y) }
{
    let Some(binary) = number.to_binary() else {
        return None;
    };
    double(&binary)
}

impl Real {
    /// Returns the bits of the 64-bit floating point number that this value is (IEEE 754), or
    /// `None` if it isn't one.
    ///
    /// Not a number has several, of which this is a quiet one with no payload.
    pub fn to_f64_bits(&self) -> Option<u64>
        ensures { MatchOption result ((bits : ℕ) → MeansDouble bits self.now → ⊥)
            (λ bits. MeansDouble bits self.now) }
    {
        match self {
            Real::Zero => Some(0),
            Real::MinusZero => Some(0x8000_0000_0000_0000),
            Real::Infinity => Some(0x7FF0_0000_0000_0000),
            Real::MinusInfinity => Some(0xFFF0_0000_0000_0000),
            Real::NotANumber => Some(0x7FF8_0000_0000_0000),
            Real::Binary(number) => double(number),
            Real::Decimal(number) => decimal_double(number),
        }
    }

    /// Returns the value of the 64-bit floating point number that has these bits (IEEE 754).
    ///
    /// ```text
    /// Real::from_f64_bits(0.15625f64.to_bits())    5 times two to the power of -5
    /// ```
    pub fn from_f64_bits(bits: u64) -> Real
        ensures { MeansDouble bits result }
    {
        let is_negative = bits / 0x8000_0000_0000_0000 == 1;
        if biased(bits) == 2047 {
            if bits % UNIT > 0 {
                Real::NotANumber
            } else if is_negative {
                Real::MinusInfinity
            } else {
                Real::Infinity
            }
        } else if significand(bits) > 0 {
            Real::Binary(finite(bits))
        } else if is_negative {
            Real::MinusZero
        } else {
            Real::Zero
        }
    }
}
