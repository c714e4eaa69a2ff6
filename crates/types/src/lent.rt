//! Octets that are lent (X.690, 8.7, 9.2).
use crate::rows::{Read, Written, lends, lends_and_rewrites};
use asn1::{
    Ia5StringRef, NumericStringRef, OctetStringRef, PrintableStringRef, Utf8StringRef, decode,
    encode,
};
use bcder::Mode;
use std::alloc::Global;

const LENT: [Read; 3] = [
    (
        Mode::Ber,
        &[0x04, 0x02, 0x07, 0x08],
        "OctetStringRef([7, 8])",
    ),
    // in segments, and short
    (Mode::Ber, &[0x24, 0x04, 0x04, 0x02, 0x07, 0x08], "refused"),
    (Mode::Ber, &[0x04, 0x03, 0x07, 0x08], "refused"),
];

const WRITTEN: [Written; 3] = [
    (
        &[0x04, 0x02, 0x07, 0x08],
        Mode::Ber,
        &[0x04, 0x02, 0x07, 0x08],
    ),
    (
        &[0x04, 0x02, 0x07, 0x08],
        Mode::Der,
        &[0x04, 0x02, 0x07, 0x08],
    ),
    (
        &[0x04, 0x02, 0x07, 0x08],
        Mode::Cer,
        &[0x04, 0x02, 0x07, 0x08],
    ),
];

#[test]
fn lent_octets_are_read_and_written(rt: HostRuntime) {
    lends_and_rewrites::<OctetStringRef<&[u8]>>(&rt, rt.alloc(), &LENT, &WRITTEN);
}

/// Returns how many octets are written of lent ones.
fn encoded_len(alloc: Global, mode: Mode, octets: &[u8]) -> Option<usize> {
    match encode(alloc, mode, &OctetStringRef(octets)) {
        Ok(encoded) => Some(encoded.as_slice().len()),
        Err(_) => None,
    }
}

#[test]
fn long_octets_are_written(rt: HostRuntime) {
    let zeros = [0u8; 1001];
    // 24 80, 04 82 03 E8 and 1000 octets, 04 01 and one octet, 00 00
    assert_eq!(rt; encoded_len(rt.alloc(), Mode::Cer, &zeros), Some(1011));
    // 04 82 03 E9 and 1001 octets
    assert_eq!(rt; encoded_len(rt.alloc(), Mode::Der, &zeros), Some(1005));
}

/// The header of an OCTET STRING of 1001 octets in one piece, and of one of 1000.
const HEADERS: [[u8; 4]; 2] = [[0x04, 0x82, 0x03, 0xE9], [0x04, 0x82, 0x03, 0xE8]];

/// Returns whether octets are read as lent ones.
fn is_read(alloc: Global, mode: Mode, octets: &[u8]) -> bool {
    decode::<OctetStringRef<&[u8]>, &[u8]>(alloc, mode, octets).is_ok()
}

#[test]
fn in_cer_long_octets_are_refused(rt: HostRuntime) {
    let mut octets = [0u8; 1005];
    octets[..4].copy_from_slice(&HEADERS[0]);
    assert!(rt; is_read(rt.alloc(), Mode::Ber, octets.as_slice()));
    assert!(rt; !is_read(rt.alloc(), Mode::Cer, octets.as_slice()));
    assert!(rt; is_read(rt.alloc(), Mode::Der, octets.as_slice()));
    octets[..4].copy_from_slice(&HEADERS[1]);
    assert!(rt; is_read(rt.alloc(), Mode::Cer, &octets[..1004]));
}

// "ä", "7 8", "A?", "a@"
const UTF8: [Read; 4] = [
    (
        Mode::Der,
        &[0x0C, 0x02, 0xC3, 0xA4],
        "RestrictedStringRef { octets: [195, 164], set: PhantomData<_> }",
    ),
    // a character is cut; another tag; in segments
    (Mode::Der, &[0x0C, 0x01, 0xC3], "refused"),
    (Mode::Der, &[0x16, 0x01, 0x41], "refused"),
    (Mode::Ber, &[0x2C, 0x03, 0x04, 0x01, 0x41], "refused"),
];

const NUMERIC: [Read; 2] = [
    (
        Mode::Der,
        &[0x12, 0x03, 0x37, 0x20, 0x38],
        "RestrictedStringRef { octets: [55, 32, 56], set: PhantomData<_> }",
    ),
    (Mode::Der, &[0x12, 0x01, 0x41], "refused"),
];

const PRINTABLE: [Read; 2] = [
    (
        Mode::Cer,
        &[0x13, 0x02, 0x41, 0x3F],
        "RestrictedStringRef { octets: [65, 63], set: PhantomData<_> }",
    ),
    (Mode::Cer, &[0x13, 0x02, 0x41, 0x40], "refused"),
];

const IA5: [Read; 2] = [
    (
        Mode::Ber,
        &[0x16, 0x02, 0x61, 0x40],
        "RestrictedStringRef { octets: [97, 64], set: PhantomData<_> }",
    ),
    (Mode::Ber, &[0x16, 0x01, 0x80], "refused"),
];

const TEXTS: [Written; 2] = [
    (
        &[0x0C, 0x02, 0xC3, 0xA4],
        Mode::Cer,
        &[0x0C, 0x02, 0xC3, 0xA4],
    ),
    (
        &[0x0C, 0x02, 0xC3, 0xA4],
        Mode::Der,
        &[0x0C, 0x02, 0xC3, 0xA4],
    ),
];

#[test]
fn lent_characters_are_text(rt: HostRuntime) {
    lends_and_rewrites::<Utf8StringRef<&[u8]>>(&rt, rt.alloc(), &UTF8, &TEXTS);
    let octets: &[u8] = &[0x0C, 0x02, 0xC3, 0xA4];
    let string = decode::<Utf8StringRef<&[u8]>, &[u8]>(rt.alloc(), Mode::Der, octets).expect(
        &rt, "refused",
    );
    assert_eq!(rt; string.as_str(), "\u{e4}");
    assert!(rt; Utf8StringRef::new(&octets[2..]).is_ok());
    assert!(rt; Utf8StringRef::new(&octets[2..3]).is_err());
}

#[test]
fn lent_characters_are_of_their_sets(rt: HostRuntime) {
    lends::<NumericStringRef<&[u8]>>(&rt, rt.alloc(), &NUMERIC);
    lends::<PrintableStringRef<&[u8]>>(&rt, rt.alloc(), &PRINTABLE);
    lends::<Ia5StringRef<&[u8]>>(&rt, rt.alloc(), &IA5);
}
