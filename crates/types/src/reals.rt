//! REAL (X.680, 21; X.690, 8.5 and 11.3).

use crate::rows::{Again, Read, reads_and_come_back};
use asn1::{Binary, Decimal, Real, decode};
use bcder::Mode;
use bcder::Mode::{Ber, Cer, Der};
use real::{read, write};
use std::process::Abort;

/// REALs.
const REALS: [Read<'static>; 35] = [
    (Der, b"\x09\x00", "Zero"),
    (Ber, b"\x09\x00", "Zero"),
    (Der, b"\x09\x01\x40", "Infinity"),
    (Cer, b"\x09\x01\x41", "MinusInfinity"),
    (Ber, b"\x09\x01\x42", "NotANumber"),
    (Der, b"\x09\x01\x43", "MinusZero"),
    (Der, b"\x09\x01\x44", "refused"),
    (Ber, b"\x09\x01\x44", "refused"),
    (Ber, b"\x09\x02\x40\x00", "refused"),
    // 0.15625 is 5 times two to the power of -5.
    (
        Der,
        b"\x09\x03\x80\xFB\x05",
        "Binary(Binary { negative: false, mantissa: 5, exponent: -5 })",
    ),
    (
        Cer,
        b"\x09\x03\xC0\xFB\x05",
        "Binary(Binary { negative: true, mantissa: 5, exponent: -5 })",
    ),
    // An even mantissa, which BER alone has (11.3.1).
    (
        Ber,
        b"\x09\x03\x80\x00\x02",
        "Binary(Binary { negative: false, mantissa: 1, exponent: 1 })",
    ),
    (Der, b"\x09\x03\x80\x00\x02", "refused"),
    (Cer, b"\x09\x03\x80\x00\x02", "refused"),
    // Base 8 and scaling factor 1: 13 times two to the power of -2.
    (
        Ber,
        b"\x09\x03\x94\xFF\x0D",
        "Binary(Binary { negative: false, mantissa: 13, exponent: -2 })",
    ),
    (Der, b"\x09\x03\x94\xFF\x0D", "refused"),
    // An exponent, and a mantissa, of more octets than it needs.
    (
        Ber,
        b"\x09\x04\x81\x00\x00\x03",
        "Binary(Binary { negative: false, mantissa: 3, exponent: 0 })",
    ),
    (Der, b"\x09\x04\x81\x00\x00\x03", "refused"),
    (Der, b"\x09\x04\x80\x00\x00\x03", "refused"),
    // 1.5 is 15 times ten to the power of -1 (11.3.2).
    (
        Der,
        b"\x09\x07\x0315.E-1",
        "Decimal(Decimal { negative: false, mantissa: 15, exponent: -1 })",
    ),
    (
        Cer,
        b"\x09\x07\x03-7.E+0",
        "Decimal(Decimal { negative: true, mantissa: 7, exponent: 0 })",
    ),
    // In the forms NR1, NR2 and NR3 of ISO 6093 (8.5.8).
    (
        Ber,
        b"\x09\x05\x01 070",
        "Decimal(Decimal { negative: false, mantissa: 7, exponent: 1 })",
    ),
    (
        Ber,
        b"\x09\x05\x02-1,5",
        "Decimal(Decimal { negative: true, mantissa: 15, exponent: -1 })",
    ),
    (
        Ber,
        b"\x09\x08\x03+1.5e+3",
        "Decimal(Decimal { negative: false, mantissa: 15, exponent: 2 })",
    ),
    (Der, b"\x09\x05\x01 070", "refused"),
    (Der, b"\x09\x05\x02-1,5", "refused"),
    (Cer, b"\x09\x08\x0315.0E-1", "refused"),
    (Der, b"\x09\x05\x037.E0", "refused"),
    (Ber, b"\x09\x02\x010", "refused"),
    // Base 64 is reserved (8.5.7.2), a mantissa of 0 is no form of zero, and one is needed.
    (Ber, b"\x09\x03\xB0\x00\x01", "refused"),
    (Ber, b"\x09\x03\x80\x00\x00", "refused"),
    (Ber, b"\x09\x02\x80\x00", "refused"),
    // Constructed, and with other tags.
    (Ber, b"\x29\x05\x09\x03\x80\xFB\x05", "refused"),
    (Der, b"\x02\x03\x80\xFB\x05", "refused"),
    (Ber, b"\x89\x03\x80\xFB\x05", "refused"),
];

/// REALs, written in each mode.
const REALS_AGAIN: [Again<'static>; 10] = [
    (Ber, b"\x09\x03\x94\xFF\x0D", Der, b"\x09\x03\x80\xFE\x0D"),
    (Ber, b"\x09\x03\x80\x00\x02", Cer, b"\x09\x03\x80\x01\x01"),
    (
        Ber,
        b"\x09\x04\x81\x00\x00\x03",
        Ber,
        b"\x09\x03\x80\x00\x03",
    ),
    (Der, b"\x09\x03\xC0\xFB\x05", Ber, b"\x09\x03\xC0\xFB\x05"),
    (Ber, b"\x09\x05\x02-1,5", Der, b"\x09\x08\x03-15.E-1"),
    (Ber, b"\x09\x05\x01 070", Cer, b"\x09\x05\x037.E1"),
    (Der, b"\x09\x07\x0315.E-1", Ber, b"\x09\x07\x0315.E-1"),
    (Der, b"\x09\x00", Der, b"\x09\x00"),
    (Cer, b"\x09\x01\x42", Der, b"\x09\x01\x42"),
    (
        Ber,
        b"\x09\x04\x81\x00\x80\x01",
        Der,
        b"\x09\x04\x81\x00\x80\x01",
    ),
];

#[test]
fn reals(rt: HostRuntime) {
    reads_and_come_back::<Real>(&rt, rt.alloc(), &REALS, &[], &REALS_AGAIN);
}

#[test]
fn reals_are_floating_point_numbers(rt: HostRuntime) {
    let octets: &[u8] = b"\x09\x03\xC0\xFB\x05";
    let value = decode::<Real, _>(rt.alloc(), Mode::Der, octets).expect(&rt, "refused");
    assert!(rt; value.to_f64() == Some(-0.15625));
    assert_eq!(rt; value, Real::from_f64(-0.15625));
}

/// A number as a row has it.
#[derive(Clone, Copy)]
enum Number {
    /// A mantissa and an exponent of two.
    Binary(bool, u64, i32),

    /// A mantissa and an exponent of ten.
    Decimal(bool, u64, i32),

    /// A value without these.
    Value(Real),

    /// No value.
    Nothing,
}

impl Number {
    /// Returns the value, if there is one.
    fn value(self) -> Option<Real> {
        match self {
            Number::Binary(negative, mantissa, exponent) => {
                match Binary::new(negative, mantissa, exponent) {
                    Some(number) => Some(Real::Binary(number)),
                    None => None,
                }
            }
            Number::Decimal(negative, mantissa, exponent) => {
                match Decimal::new(negative, mantissa, exponent) {
                    Some(number) => Some(Real::Decimal(number)),
                    None => None,
                }
            }
            Number::Value(value) => Some(value),
            Number::Nothing => None,
        }
    }
}

/// Contents octets, whether they have to be canonical, and which number they mean.
const READ: [(&[u8], bool, Number); 34] = [
    (b"\x80\x00\x01", true, Number::Binary(false, 1, 0)),
    (b"\x80\xFB\x05", true, Number::Binary(false, 5, -5)),
    (b"\xC0\xFF\x03", true, Number::Binary(true, 3, -1)),
    (b"\x81\x00\x80\x01", true, Number::Binary(false, 1, 128)),
    // Factors of two are taken out of a mantissa.
    (b"\x80\x00\x03", true, Number::Binary(false, 12, -2)),
    (
        b"\xC3\x04\x80\x00\x00\x3F\x01",
        true,
        Number::Binary(true, 0x8000_0000_0000_0000, -2_147_483_648),
    ),
    (
        b"\x83\x04\x7F\xFF\xFF\xFF\x01",
        true,
        Number::Binary(false, 2, 2_147_483_646),
    ),
    // Longer forms, in BER alone.
    (b"\x94\xFF\x0D", false, Number::Binary(false, 13, -2)),
    (b"\xA0\x01\x01", false, Number::Binary(false, 1, 4)),
    (b"\x83\x01\x00\x00\x06", false, Number::Binary(false, 3, 1)),
    (b"\x80\x00\x02", true, Number::Nothing),
    (b"\x80\x00\x00\x01", true, Number::Nothing),
    // Values with octets of their own.
    (b"", true, Number::Value(Real::Zero)),
    (b"\x40", true, Number::Value(Real::Infinity)),
    (b"\x41", true, Number::Value(Real::MinusInfinity)),
    (b"\x43", true, Number::Value(Real::MinusZero)),
    (b"\x44", true, Number::Nothing),
    // Decimal numbers.
    (b"\x0315.E-1", true, Number::Decimal(false, 15, -1)),
    (b"\x037.E+0", true, Number::Decimal(false, 7, 0)),
    (b"\x03-25.E+0", true, Number::Decimal(true, 25, 0)),
    (b"\x031.E3", true, Number::Decimal(false, 1, 3)),
    (b"\x01  +0120", false, Number::Decimal(false, 12, 1)),
    (b"\x02-0,50", false, Number::Decimal(true, 5, -1)),
    (b"\x02 .25", false, Number::Decimal(false, 25, -2)),
    (b"\x031,5e+02", false, Number::Decimal(false, 15, 1)),
    (b"\x0300.070E-01", false, Number::Decimal(false, 7, -3)),
    (b"\x011.5", false, Number::Nothing),
    (b"\x0215", false, Number::Nothing),
    (b"\x031.5", false, Number::Nothing),
    (b"\x031.5E", false, Number::Nothing),
    (b"\x017", true, Number::Nothing),
    (b"\x0370.E-1", true, Number::Nothing),
    (b"\x03 7.E+0", true, Number::Nothing),
    (b"\x031.E+3", true, Number::Nothing),
];

/// Numbers, and as which contents octets they are written. Where there are none, no value is the
/// number.
const WRITTEN: [(Number, Option<&[u8]>); 8] = [
    (Number::Binary(false, 5, -5), Some(b"\x80\xFB\x05")),
    (Number::Value(Real::NotANumber), Some(b"\x42")),
    (Number::Binary(false, 2, 2_147_483_647), None),
    (Number::Binary(false, 0, 0), None),
    (Number::Decimal(true, 1500, -2), Some(b"\x03-15.E+0")),
    (
        Number::Decimal(false, 18_446_744_073_709_551_615, -2_147_483_648),
        Some(b"\x0318446744073709551615.E-2147483648"),
    ),
    (Number::Binary(false, 3, 1), Some(b"\x80\x01\x03")),
    (Number::Decimal(false, 1, 3), Some(b"\x031.E3")),
];

/// Numbers, and the bits of the floating point number that is exactly each, if there is one.
const TO_BITS: [(Number, Option<u64>); 6] = [
    (Number::Binary(false, 5, -5), Some(0x3FC4_0000_0000_0000)),
    (Number::Binary(false, 1, -1075), None),
    (
        Number::Decimal(false, 15625, -5),
        Some(0x3FC4_0000_0000_0000),
    ),
    (Number::Decimal(true, 15, -1), Some(0xBFF8_0000_0000_0000)),
    (Number::Decimal(false, 1, 22), Some(0x4480_F0CF_064D_D592)),
    (Number::Decimal(false, 1, -1), None),
];

/// The bits of floating point numbers, and which numbers these are.
const OF_BITS: [(u64, Number); 4] = [
    (0x3FC4_0000_0000_0000, Number::Binary(false, 5, -5)),
    (0xBFF8_0000_0000_0000, Number::Binary(true, 3, -1)),
    (1, Number::Binary(false, 1, -1074)),
    (0x8000_0000_0000_0000, Number::Value(Real::MinusZero)),
];

/// Asserts what contents octets mean.
fn means(rt: &impl Abort, octets: &[u8], canonical: bool, wanted: Number) {
    assert_eq!(rt; read(octets, canonical), wanted.value(), "{octets:?}");
}

/// Asserts as which contents octets a number is written.
fn is_written(rt: &impl Abort, number: Number, wanted: Option<&[u8]>) {
    match number.value() {
        Some(value) => {
            let octets = write(&value);
            assert_eq!(rt; Some(octets.as_slice()), wanted);
        }
        None => assert!(rt; wanted.is_none()),
    }
}

/// Asserts which floating point number is a number.
fn is_double(rt: &impl Abort, number: Number, wanted: Option<u64>) {
    let value = number.value().unwrap_or(Real::Zero);
    assert_eq!(rt; value.to_f64_bits(), wanted, "{value:?}");
}

/// Asserts which number a floating point number is.
fn is_number(rt: &impl Abort, bits: u64, wanted: Number) {
    assert_eq!(rt; Some(Real::from_f64_bits(bits)), wanted.value(), "{bits}");
}

#[test]
fn contents_octets_are_read(rt: HostRuntime) {
    for (octets, canonical, wanted) in READ {
        means(&rt, octets, canonical, wanted);
    }
}

#[test]
fn contents_octets_are_written(rt: HostRuntime) {
    for (number, wanted) in WRITTEN {
        is_written(&rt, number, wanted);
    }
}

#[test]
fn floating_point_numbers_are_exact(rt: HostRuntime) {
    for (number, wanted) in TO_BITS {
        is_double(&rt, number, wanted);
    }
    for (bits, wanted) in OF_BITS {
        is_number(&rt, bits, wanted);
    }
    let value = Number::Decimal(true, 15, -1).value().unwrap_or(Real::Zero);
    assert!(rt; value.to_f64() == Some(-1.5));
}
