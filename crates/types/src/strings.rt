//! Octet strings, bit strings and restricted character strings.
use crate::rows::{Again, Read, Written, reads, reads_and_come_back, reads_and_rewrites, value};
use bcder::string::{Ia5String, NumericString, PrintableString, Utf8String};
use bcder::{BitString, Mode, OctetString};

const OCTETS: [Read; 5] = [
    (
        Mode::Der,
        &[0x04, 0x02, 0x07, 0x08],
        "OctetString { octets: Whole(b\"\\x07\\x08\") }",
    ),
    (
        Mode::Ber,
        &[0x04, 0x00],
        "OctetString { octets: Whole(b\"\") }",
    ),
    // of another type
    (Mode::Ber, &[0x05, 0x00], "refused"),
    // cut, and of mixed types
    (
        Mode::Der,
        &[0x24, 0x06, 0x04, 0x01, 0x07, 0x04, 0x01, 0x08],
        "refused",
    ),
    (Mode::Ber, &[0x24, 0x03, 0x02, 0x01, 0x07], "refused"),
];

/// A string that was cut. In BER it is written so (X.690, 8.7.3).
const SEGMENTS: &[u8] = &[0x24, 0x06, 0x04, 0x01, 0x07, 0x04, 0x01, 0x08];

const OCTETS_AGAIN: [Again; 3] = [
    (Mode::Ber, SEGMENTS, Mode::Ber, SEGMENTS),
    (Mode::Ber, SEGMENTS, Mode::Cer, &[0x04, 0x02, 0x07, 0x08]),
    (Mode::Ber, SEGMENTS, Mode::Der, &[0x04, 0x02, 0x07, 0x08]),
];

#[test]
fn octet_strings_are_read_and_come_back(rt: HostRuntime) {
    reads_and_come_back::<OctetString>(&rt, rt.alloc(), &OCTETS, &[], &OCTETS_AGAIN);
    let cut = value::<OctetString>(&rt, rt.alloc(), Mode::Ber, SEGMENTS);
    let whole = value::<OctetString>(&rt, rt.alloc(), Mode::Ber, &[0x04, 0x02, 0x07, 0x08]);
    assert!(rt; cut == whole);
}

const BITS: [Read; 8] = [
    (
        Mode::Der,
        &[0x03, 0x02, 0x04, 0xB0],
        "BitString { unused: 4, octets: b\"\\xb0\" }",
    ),
    (
        Mode::Ber,
        &[0x03, 0x02, 0x04, 0xB8],
        "BitString { unused: 4, octets: b\"\\xb8\" }",
    ),
    (Mode::Der, &[0x03, 0x02, 0x04, 0xB8], "refused"),
    (
        Mode::Der,
        &[0x03, 0x01, 0x00],
        "BitString { unused: 0, octets: b\"\" }",
    ),
    // empty, too many unused, missing, and constructed
    (Mode::Ber, &[0x03, 0x00], "refused"),
    (Mode::Ber, &[0x03, 0x02, 0x08, 0x00], "refused"),
    (Mode::Ber, &[0x03, 0x01, 0x01], "refused"),
    (Mode::Ber, &[0x23, 0x04, 0x03, 0x02, 0x04, 0xB0], "refused"),
];

const BITS_WRITTEN: [Written; 3] = [
    (
        &[0x03, 0x02, 0x04, 0xB8],
        Mode::Ber,
        &[0x03, 0x02, 0x04, 0xB8],
    ),
    (
        &[0x03, 0x02, 0x04, 0xB8],
        Mode::Der,
        &[0x03, 0x02, 0x04, 0xB0],
    ),
    (
        &[0x03, 0x02, 0x04, 0xB8],
        Mode::Cer,
        &[0x03, 0x02, 0x04, 0xB0],
    ),
];

// X.690, 8.6, 11.2.1
#[test]
fn bit_strings_are_read_and_written(rt: HostRuntime) {
    reads_and_rewrites::<BitString>(&rt, rt.alloc(), &BITS, &BITS_WRITTEN);
}

const UTF8: [Read; 2] = [
    (
        Mode::Der,
        &[0x0C, 0x02, 0xC3, 0xA9],
        "RestrictedString { octets: OctetString { octets: Whole(b\"\\xc3\\xa9\") }, \
         set: PhantomData<_> }",
    ),
    (Mode::Ber, &[0x0C, 0x02, 0xC3, 0x28], "refused"),
];

const NUMERIC: [Read; 2] = [
    (
        Mode::Der,
        &[0x12, 0x03, 0x31, 0x20, 0x32],
        "RestrictedString { octets: OctetString { octets: Whole(b\"1 2\") }, \
         set: PhantomData<_> }",
    ),
    (Mode::Ber, &[0x12, 0x01, 0x41], "refused"),
];

const PRINTABLE: [Read; 2] = [
    (
        Mode::Der,
        &[0x13, 0x02, 0x41, 0x2B],
        "RestrictedString { octets: OctetString { octets: Whole(b\"A+\") }, \
         set: PhantomData<_> }",
    ),
    (Mode::Ber, &[0x13, 0x01, 0x40], "refused"),
];

const IA5: [Read; 2] = [
    (
        Mode::Der,
        &[0x16, 0x02, 0x40, 0x7F],
        "RestrictedString { octets: OctetString { octets: Whole(b\"@\\x7f\") }, \
         set: PhantomData<_> }",
    ),
    (Mode::Ber, &[0x16, 0x01, 0x80], "refused"),
];

#[test]
fn text_is_read(rt: HostRuntime) {
    reads::<NumericString>(&rt, rt.alloc(), &NUMERIC);
    reads::<Ia5String>(&rt, rt.alloc(), &IA5);
}

/// A PrintableString that is cut.
const CUT: &[u8] = &[0x33, 0x06, 0x04, 0x01, b'a', 0x04, 0x01, b'b'];

const PRINTABLE_WRITTEN: [Written; 3] = [
    (CUT, Mode::Ber, CUT),
    (CUT, Mode::Der, &[0x13, 0x02, b'a', b'b']),
    (CUT, Mode::Cer, &[0x13, 0x02, b'a', b'b']),
];

const UTF8_WRITTEN: [Written; 3] = [
    (
        &[0x0C, 0x02, 0xC3, 0xA9],
        Mode::Ber,
        &[0x0C, 0x02, 0xC3, 0xA9],
    ),
    (
        &[0x0C, 0x02, 0xC3, 0xA9],
        Mode::Der,
        &[0x0C, 0x02, 0xC3, 0xA9],
    ),
    (
        &[0x0C, 0x02, 0xC3, 0xA9],
        Mode::Cer,
        &[0x0C, 0x02, 0xC3, 0xA9],
    ),
];

// X.690, 8.23, 10.2
#[test]
fn characters_are_read_and_written(rt: HostRuntime) {
    reads_and_rewrites::<PrintableString>(&rt, rt.alloc(), &PRINTABLE, &PRINTABLE_WRITTEN);
    reads_and_rewrites::<Utf8String>(&rt, rt.alloc(), &UTF8, &UTF8_WRITTEN);
}
