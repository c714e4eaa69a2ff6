//! BOOLEAN, NULL, INTEGER of any size and OBJECT IDENTIFIER.
use crate::rows::{Read, Written, reads, reads_and_rewrites};
use asn1::Decode;
use bcder::{Integer, Mode, Oid, Tag, Unsigned};
use bytes::Bytes;
use std::alloc::Global;

const BOOLEANS: [Read; 9] = [
    (Mode::Der, &[0x01, 0x01, 0x00], "false"),
    (Mode::Der, &[0x01, 0x01, 0xFF], "true"),
    (Mode::Ber, &[0x01, 0x01, 0x01], "true"),
    (Mode::Der, &[0x01, 0x01, 0x01], "refused"),
    (Mode::Cer, &[0x01, 0x01, 0x01], "refused"),
    // none, two, constructed, and of another type
    (Mode::Ber, &[0x01, 0x00], "refused"),
    (Mode::Ber, &[0x01, 0x02, 0x00, 0x00], "refused"),
    (Mode::Ber, &[0x21, 0x03, 0x01, 0x01, 0xFF], "refused"),
    (Mode::Ber, &[0x02, 0x01, 0x01], "refused"),
];

const NULLS: [Read; 5] = [
    (Mode::Der, &[0x05, 0x00], "()"),
    // a long length
    (Mode::Ber, &[0x05, 0x81, 0x00], "()"),
    (Mode::Der, &[0x05, 0x81, 0x00], "refused"),
    // with contents, and of another type
    (Mode::Ber, &[0x05, 0x01, 0x00], "refused"),
    (Mode::Ber, &[0x04, 0x00], "refused"),
];

#[test]
fn booleans_and_null_are_read(rt: HostRuntime) {
    reads::<bool>(&rt, rt.alloc(), &BOOLEANS);
    reads::<()>(&rt, rt.alloc(), &NULLS);
}

const INTEGERS: [Read; 3] = [
    (
        Mode::Der,
        &[
            0x02, 0x09, 0x80, 0x00, 0x00, 0x00, 0x00, 0x00, 0x00, 0x00, 0x01,
        ],
        "Integer { octets: b\"\\x80\\0\\0\\0\\0\\0\\0\\0\\x01\" }",
    ),
    // padded, and empty
    (Mode::Ber, &[0x02, 0x02, 0x00, 0x7F], "refused"),
    (Mode::Ber, &[0x02, 0x00], "refused"),
];

const UNSIGNED: [Read; 4] = [
    (
        Mode::Der,
        &[0x02, 0x01, 0x00],
        "Unsigned { integer: Integer { octets: b\"\\0\" } }",
    ),
    (
        Mode::Der,
        &[0x02, 0x02, 0x00, 0xFF],
        "Unsigned { integer: Integer { octets: b\"\\0\\xff\" } }",
    ),
    // negative, and padded
    (Mode::Ber, &[0x02, 0x01, 0xFF], "refused"),
    (Mode::Ber, &[0x02, 0x02, 0x00, 0x7F], "refused"),
];

const IDENTIFIERS: [Read; 3] = [
    (
        Mode::Der,
        &[0x06, 0x06, 0x2A, 0x86, 0x48, 0x86, 0xF7, 0x0D],
        "Oid(b\"*\\x86H\\x86\\xf7\\r\")",
    ),
    // open, and empty
    (Mode::Ber, &[0x06, 0x02, 0x2A, 0x86], "refused"),
    (Mode::Ber, &[0x06, 0x00], "refused"),
];

#[test]
fn integers_are_read(rt: HostRuntime) {
    reads::<Integer>(&rt, rt.alloc(), &INTEGERS);
    reads::<Unsigned>(&rt, rt.alloc(), &UNSIGNED);
}

/// An OBJECT IDENTIFIER.
const CONSTRAINTS: &[u8] = &[0x06, 0x03, 0x55, 0x1D, 0x13];

const WRITTEN: [Written; 3] = [
    (CONSTRAINTS, Mode::Ber, CONSTRAINTS),
    (CONSTRAINTS, Mode::Der, CONSTRAINTS),
    (CONSTRAINTS, Mode::Cer, CONSTRAINTS),
];

// X.690, 8.19
#[test]
fn identifiers_are_read_and_written(rt: HostRuntime) {
    reads_and_rewrites::<Oid<Bytes>>(&rt, rt.alloc(), &IDENTIFIERS, &WRITTEN);
}

/// Takes a number with the tag `[0]` from these octets.
fn take_tagged(alloc: Global, octets: &[u8]) -> Option<Option<u8>> {
    match Mode::Der.decode(octets, |cons| u8::take_opt_if(alloc, cons, Tag::CTX_0)) {
        Ok(number) => Some(number),
        Err(_) => None,
    }
}

#[test]
fn another_tag_is_asked_for(rt: HostRuntime) {
    let alloc = rt.alloc();
    let tagged: &[u8] = &[0x80, 0x01, 0x05];
    let constructed: &[u8] = &[0xA0, 0x01, 0x05];
    let end: &[u8] = &[];
    assert_eq!(rt; take_tagged(alloc, tagged), Some(Some(5)));
    assert_eq!(rt; take_tagged(alloc, constructed), None);
    assert_eq!(rt; take_tagged(alloc, end), Some(None));
}
