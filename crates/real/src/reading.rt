//! What contents octets mean.
ghost use Rattle.std.specs.Prelude.{◌≡◌, ℕ, ℤ, pos, ◌*◌, ◌%◌, ◌^◌};
ghost use Rattle.std.specs.Prelude.{◌<◌, ◌≤◌, ◌∷◌, negsuc, ◌≤ℤ◌, ◌+ℤ◌, ◌*ℤ◌, ◌+◌};
ghost use Rattle.std.specs.Prelude.{length, Option, Some, None, MatchOption, IfSome};
ghost use Rattle.std.specs.Prelude.{false, true};
ghost use Rattle.std.specs.Int.{w32};
ghost use Rattle.std.specs.Int.RustNames.{FitsSigned};
ghost use Rattle.real.specs.declared.value.Real.{Real as RealValue};
ghost use Rattle.real.specs.declared.value.Real.TheVariants.{Binary as BinaryValue};
ghost use Rattle.real.specs.Number.{BinaryNumber};
ghost use Rattle.real.specs.Octets.{unsigned, unsigned_from, signed, cut, is_smallest, parts};
ghost use Rattle.real.specs.Contents.{IsBase, IsBinary, IsReal, Means, real_octets};

use crate::binary::Binary;
use crate::text::decimal;
use crate::value::Real;
use crate::writing::write;

/// Returns the number that octets are, if it has at most 64 bits.
fn unsigned(octets: &[u8]) -> Option<u64>
    ensures { MatchOption result (2 ^ 64 ≤ unsigned octets.now) (λ r. r ≡ unsigned octets.now) }
{
    let mut number = 0u64;
    for octet in octets {
        if number >= 0x0100_0000_0000_0000 {
            return None;
        }
        number = number * 256 + u64::from(*octet);
    }
    Some(number)
}

/// Returns the number that at most four octets are.
fn unsigned_short(octets: &[u8]) -> u32
    requires { length octets.now ≤ 4 }
    ensures { result ≡ unsigned octets.now }
{
    let mut number = 0u64;
    for octet in octets {
        number = number * 256 + u64::from(*octet);
    }
    number as u32
}

/// Returns 256 to the power of a number of octets.
fn unit(count: usize) -> i64
    requires some { 1 ≤ count }
    requires few { count ≤ 4 }
    ensures { result ≡ pos (256 ^ count) }
{
    match count {
        1 => 0x100,
        2 => 0x1_0000,
        3 => 0x100_0000,
        _ => 0x1_0000_0000,
    }
}

/// Returns the two's complement number that octets are.
fn signed(octets: &[u8]) -> i64
    requires some { 1 ≤ length octets.now }
    requires few { length octets.now ≤ 4 }
    ensures same { result ≡ signed octets.now }
    ensures low { negsuc 4294967295 ≤ℤ result }
    ensures high { result ≤ℤ pos 4294967295 }
{
    let number = i64::from(unsigned_short(octets));
    if octets[0] < 128 {
        number
    } else {
        number - unit(octets.len())
    }
}

/// Returns whether the first nine bits are neither all zero nor all one.
fn is_smallest(octets: &[u8]) -> bool
    ensures { result ≡ is_smallest octets.now }
{
    match octets {
        [] => false,
        [_] => true,
        [0, second, ..] => *second >= 128,
        [255, second, ..] => *second < 128,
        _ => true,
    }
}

/// Returns the first octets and the others, if there are so many.
fn cut(count: usize, octets: &[u8]) -> Option<(&[u8], &[u8])>
    ensures { MatchOption result (cut count octets.now ≡ None)
        (λ r. cut count octets.now ≡ Some (r.0.now, r.1.now)) }
{
    if count <= octets.len() {
        Some((&octets[..count], &octets[count..]))
    } else {
        None
    }
}

/// Returns the octets of the exponent and those of the mantissa.
fn parts(form: u8, octets: &[u8]) -> Option<(&[u8], &[u8])>
    ensures { MatchOption result (parts form octets.now ≡ None)
        (λ r. parts form octets.now ≡ Some (r.0.now, r.1.now)) }
{
    let [first, rest @ ..] = octets else {
        return None;
    };
    if form < 3 {
        return cut(usize::from(form) + 1, octets);
    }
    let (exponent, mantissa) = cut(usize::from(*first), rest)?;
    if is_smallest(exponent) {
        Some((exponent, mantissa))
    } else {
        None
    }
}

/// Returns the odd number that is left when a power of two is taken out, and the power.
pub(crate) fn odd_part(number: u64, bits: u8) -> (u64, u8)
    requires some { 0 < number }
    requires fits { number < 2 ^ bits }
    ensures same { number ≡ result.0 * 2 ^ result.1 }
    ensures odd { result.0 % 2 ≡ 1 }
    ensures few { result.1 < bits }
    ensures no_more { result.0 ≤ number }
{
    if number % 2 == 1 {
        return (number, 0);
    }
    let (odd, power) = odd_part(number / 2, bits - 1);
    (odd, power + 1)
}

/// Returns the exponent of two, if bits 6 and 5 of the first octet are those of a base.
fn scaled(base: u8, exponent: i64) -> Option<i64>
    requires low { negsuc 4294967295 ≤ℤ exponent }
    requires high { exponent ≤ℤ pos 4294967295 }
    ensures same { MatchOption result ((k : ℕ) → IsBase base k → ⊥)
        (λ r. (k : ℕ) × IsBase base k × (r ≡ exponent *ℤ pos k)) }
    ensures low { IfSome result (λ r. negsuc 68719476736 ≤ℤ r) }
    ensures high { IfSome result (λ r. r ≤ℤ pos 68719476736) }
{
    match base {
        0 => Some(exponent),
        1 => Some(exponent * 3),
        2 => Some(exponent * 4),
        _ => None,
    }
}

/// Returns the exponent with the scaling factor and the power of two that is taken out of the
/// mantissa, if it has 32 bits.
fn shifted(exponent: i64, scale: u8, power: u8) -> Option<i32>
    requires low { negsuc 68719476736 ≤ℤ exponent }
    requires high { exponent ≤ℤ pos 68719476736 }
    requires scale { scale < 4 }
    requires power { power < 64 }
    ensures { MatchOption result (FitsSigned w32 (exponent +ℤ pos (scale + power)) → ⊥)
        (λ r. r ≡ exponent +ℤ pos (scale + power)) }
{
    let exponent = exponent + i64::from(scale + power);
    if exponent < -0x8000_0000 || exponent > 0x7FFF_FFFF {
        return None;
    }
    Some(exponent as i32)
}

/// Returns the binary number that a first octet and the others mean.
fn binary(first: u8, rest: &[u8]) -> Option<Binary>
    requires { 128 ≤ first }
    ensures { MatchOption result ((x : BinaryNumber) → IsBinary first rest.now x → ⊥)
        (λ x. IsBinary first rest.now x) }
{
    let (exponent, mantissa) = parts(first % 4, rest)?;
    if exponent.len() > 4 {
        return None;
    }
    let number = unsigned(mantissa)?;
    if number == 0 {
        return None;
    }
    let (odd, power) = odd_part(number, 64);
    let Some(exponent) = scaled(first / 16 % 4, signed(exponent)) else {
        return None;
    };
    let Some(exponent) = shifted(exponent, first / 4 % 4, power) else {
        return None;
    };
    Some(Binary::odd(first / 64 % 2 == 1, odd, exponent))
}

/// Returns what contents octets mean in BER.
fn meaning(octets: &[u8]) -> Option<Real>
    ensures { MatchOption result ((x : RealValue) → Means octets.now x → ⊥)
        (λ x. Means octets.now x) }
{
    match octets {
        [] => Some(Real::Zero),
        [0x40] => Some(Real::Infinity),
        [0x41] => Some(Real::MinusInfinity),
        [0x42] => Some(Real::NotANumber),
        [0x43] => Some(Real::MinusZero),
        [first, rest @ ..] if *first >= 128 => match binary(*first, rest) {
            Some(number) => Some(Real::Binary(number)),
            None => None,
        },
        [first, rest @ ..] => match decimal(*first, rest) {
            Some(number) => Some(Real::Decimal(number)),
            None => None,
        },
    }
}

/// Returns whether octets are those of a value in CER and DER.
fn is_written(octets: &[u8], value: &Real) -> bool
    ensures yes { result ≡ true → octets.now ≡ real_octets value.now }
    ensures no { result ≡ false → octets.now ≡ real_octets value.now → ⊥ }
{
    let written = write(value);
    if written.as_slice() == octets {
        true
    } else {
        false
    }
}

/// Returns what contents octets mean in BER, or in CER and DER if `canonical` is set (X.690, 8.5
/// and 11.3), or `None` if they mean nothing.
///
/// ```text
/// read(&[0x80, 0xFB, 0x05], true)    0.15625, which is 5 times two to the power of -5
/// ```
pub fn read(octets: &[u8], canonical: bool) -> Option<Real>
    ensures { MatchOption result ((x : RealValue) → IsReal canonical octets.now x → ⊥)
        (λ x. IsReal canonical octets.now x) }
{
    let value = meaning(octets)?;
    if canonical && !is_written(octets, &value) {
        return None;
    }
    Some(value)
}
