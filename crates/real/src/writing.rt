//! The octets of CER and DER.
ghost use Rattle.std.specs.Prelude.{◌≡◌, ◌+◌, ◌^◌, ◌<◌, ◌≤◌, ◌++◌, ◌∷◌, [], length};
ghost use Rattle.std.specs.Int.{complement_if};
ghost use Rattle.real.specs.Number.{BinaryNumber, IsBinaryNumber};
ghost use Rattle.real.specs.Octets.{big_endian, complement, octet, exponent_len, binary_octets};
ghost use Rattle.real.specs.Decimal.{digits, scale_octets, decimal_octets};
ghost use Rattle.real.specs.Contents.{real_octets};

use crate::binary::Binary;
use crate::decimal::Decimal;
use crate::octets::Octets;
use crate::value::Real;

/// Appends the octets of a number, the most significant first, of which so many count.
fn put_big_endian(octets: &mut Octets, count: u8, number: u64)
    requires fits { number < 256 ^ count }
    requires room { length octets.old + count ≤ 35 }
    ensures appended { octets.new ≡ octets.old ++ big_endian count number }
    ensures few { length octets.new ≤ length octets.old + count }
{
    if number == 0 {
        return;
    }
    put_big_endian(octets, count - 1, number / 256);
    octets.push((number % 256) as u8);
}

/// Returns an octet of a number, or of -1 minus it.
fn octet(negative: bool, number: u32) -> u8
    ensures { result ≡ octet negative number }
{
    let low = (number % 256) as u8;
    if negative { 255 - low } else { low }
}

/// Appends octets of a number, or of -1 minus it.
fn put_complement(octets: &mut Octets, negative: bool, count: u8, number: u32)
    requires room { length octets.old + count ≤ 35 }
    ensures appended { octets.new ≡ octets.old ++ complement negative count number }
    ensures few { length octets.new ≤ length octets.old + count }
{
    if count == 0 {
        return;
    }
    put_complement(octets, negative, count - 1, number / 256);
    octets.push(octet(negative, number));
}

/// Returns whether a number is negative, and the number or -1 minus it.
fn magnitude(number: i32) -> (bool, u32)
    ensures same { complement_if result.0 result.1 ≡ number }
    ensures fits { result.1 < 2 ^ 31 }
{
    if number < 0 {
        (true, (-1 - number) as u32)
    } else {
        (false, number as u32)
    }
}

/// Returns how many octets the exponent needs.
fn exponent_len(magnitude: u32) -> u8
    ensures same { result ≡ exponent_len magnitude }
    ensures some { 1 ≤ result }
    ensures few { result ≤ 4 }
{
    if magnitude < 128 {
        1
    } else if magnitude < 32_768 {
        2
    } else if magnitude < 8_388_608 {
        3
    } else {
        4
    }
}

/// Returns the octets of a binary number.
#[tactic(auto, unfolding(crate::specs::Octets::binary_octets))]
fn put_binary(number: &Binary) -> Octets
    ensures { result ≡ binary_octets number.now }
{
    let (negative, magnitude) = magnitude(number.exponent());
    let count = exponent_len(magnitude);
    let mut octets = Octets::new();
    let sign = if number.is_negative() { 64 } else { 0 };
    octets.push(128 + sign + (count - 1));
    if count == 4 {
        octets.push(4);
    }
    put_complement(&mut octets, negative, count, magnitude);
    put_big_endian(&mut octets, 8, number.mantissa());
    octets
}

/// Appends the digits of a number, which are at most so many.
fn put_digits(octets: &mut Octets, count: u8, number: u64)
    requires fits { number < 10 ^ count }
    requires room { length octets.old + count ≤ 35 }
    ensures appended { octets.new ≡ octets.old ++ digits number }
    ensures few { length octets.new ≤ length octets.old + count }
{
    if number == 0 {
        return;
    }
    put_digits(octets, count - 1, number / 10);
    octets.push(b'0' + (number % 10) as u8);
}

/// Appends an exponent of ten.
fn put_scale(octets: &mut Octets, exponent: i32)
    requires room { length octets.old + 11 ≤ 35 }
    ensures appended { octets.new ≡ octets.old ++ scale_octets exponent }
{
    if exponent == 0 {
        octets.push(b'+');
        octets.push(b'0');
    } else if exponent < 0 {
        octets.push(b'-');
        put_digits(octets, 10, (-i64::from(exponent)) as u64);
    } else {
        put_digits(octets, 10, exponent as u64);
    }
}

/// Returns the octets of a decimal number.
#[tactic(auto, unfolding(crate::specs::Decimal::decimal_octets))]
fn put_decimal(number: &Decimal) -> Octets
    ensures { result ≡ decimal_octets number.now }
{
    let mut octets = Octets::new();
    octets.push(3);
    if number.is_negative() {
        octets.push(b'-');
    }
    put_digits(&mut octets, 20, number.mantissa());
    octets.push(b'.');
    octets.push(b'E');
    put_scale(&mut octets, number.exponent());
    octets
}

/// Returns one octet.
fn one(octet: u8) -> Octets
    ensures { result ≡ octet ∷ [] }
{
    let mut octets = Octets::new();
    octets.push(octet);
    octets
}

/// Returns the contents octets of a value in CER and DER (X.690, 11.3), which BER reads too.
///
/// ```text
/// write(&Real::Infinity)    40
/// ```
pub fn write(value: &Real) -> Octets
    ensures { result ≡ real_octets value.now }
{
    match value {
        Real::Zero => Octets::new(),
        Real::Infinity => one(0x40),
        Real::MinusInfinity => one(0x41),
        Real::NotANumber => one(0x42),
        Real::MinusZero => one(0x43),
        Real::Binary(number) => put_binary(number),
        Real::Decimal(number) => put_decimal(number),
    }
}
