//! Extensions and signatures. The octets are put together by hand, from X.690 and RFC 5280.
use crate::calls::{is_written, read, read_in};
use asn1::{OrDefault, SequenceOf};
use bcder::Mode;
use pkix::{BasicConstraints, EcdsaSigValue, Extensions, Time, Validity};
use std::alloc::Global;
use std::process::Abort;

/// Whether it is an authority, and how many may follow it.
type Constraints = (bool, Option<u32>);

/// Octets in a mode, and the constraints that they are.
const CONSTRAINTS: [(Mode, &[u8], Option<Constraints>); 5] = [
    (
        Mode::Der,
        &[0x30, 0x06, 0x01, 0x01, 0xFF, 0x02, 0x01, 0x02],
        Some((true, Some(2))),
    ),
    // an empty SEQUENCE is no authority
    (Mode::Der, &[0x30, 0x00], Some((false, None))),
    // a default is refused in DER alone (X.690, 11.5)
    (Mode::Der, &[0x30, 0x03, 0x01, 0x01, 0x00], None),
    (
        Mode::Ber,
        &[0x30, 0x03, 0x01, 0x01, 0x00],
        Some((false, None)),
    ),
    // with an octet behind
    (Mode::Der, &[0x30, 0x00, 0x00], None),
];

/// Returns the constraints that octets are.
fn constraints_of(
    rt: &impl Abort,
    alloc: Global,
    mode: Mode,
    octets: &[u8],
) -> Option<Constraints> {
    match read_in::<BasicConstraints>(rt, alloc, mode, octets) {
        Some(constraints) => Some((constraints.ca.value, constraints.path_len)),
        None => None,
    }
}

#[test]
fn constraints_are_read(rt: HostRuntime) {
    for (mode, octets, wanted) in &CONSTRAINTS {
        assert_eq!(rt;
            constraints_of(&rt, rt.alloc(), *mode, octets),
            *wanted,
            "{octets:?}"
        );
    }
}

/// Constraints, and their octets in a mode: no authority is an empty SEQUENCE (X.690, 11.5).
const WRITTEN: [(Constraints, Mode, &[u8]); 4] = [
    ((false, None), Mode::Der, &[0x30, 0x00]),
    ((false, None), Mode::Ber, &[0x30, 0x00]),
    ((false, None), Mode::Cer, &[0x30, 0x80, 0x00, 0x00]),
    (
        (true, Some(2)),
        Mode::Der,
        &[0x30, 0x06, 0x01, 0x01, 0xFF, 0x02, 0x01, 0x02],
    ),
];

/// Returns the constraints.
fn constraints((ca, path_len): Constraints) -> BasicConstraints {
    BasicConstraints {
        ca: OrDefault::new(ca),
        path_len,
    }
}

#[test]
fn constraints_are_written(rt: HostRuntime) {
    for (parts, mode, octets) in &WRITTEN {
        is_written(&rt, rt.alloc(), &constraints(*parts), *mode, octets);
    }
}

// keyUsage (critical), basicConstraints (critical) and extKeyUsage
const EXTENSIONS: [u8; 50] = [
    0x30, 0x30, 0x30, 0x0E, 0x06, 0x03, 0x55, 0x1D, 0x0F, 0x01, 0x01, 0xFF, 0x04, 0x04, 0x03, 0x02,
    0x05, 0xA0, 0x30, 0x0F, 0x06, 0x03, 0x55, 0x1D, 0x13, 0x01, 0x01, 0xFF, 0x04, 0x05, 0x30, 0x03,
    0x01, 0x01, 0xFF, 0x30, 0x0D, 0x06, 0x03, 0x55, 0x1D, 0x25, 0x04, 0x06, 0x30, 0x04, 0x06, 0x02,
    0x2A, 0x03,
];

/// Returns how many extensions are critical, and how many octets their values have.
fn counted(extensions: &Extensions) -> (u32, usize) {
    let SequenceOf(extensions) = extensions;
    let mut critical = 0u32;
    let mut octets = 0usize;
    for extension in extensions.as_slice() {
        if extension.critical.value {
            critical = critical.saturating_add(1);
        }
        octets = octets.saturating_add(extension.value.len());
    }
    (critical, octets)
}

#[test]
fn extensions_are_read_and_written(rt: HostRuntime) {
    let extensions = read::<Extensions>(&rt, rt.alloc(), &EXTENSIONS);
    assert_eq!(rt; extensions.0.len(), 3);
    assert_eq!(rt; counted(&extensions), (2, 15));
    is_written(&rt, rt.alloc(), &extensions, Mode::Der, &EXTENSIONS);
}

#[test]
fn the_notation_of_a_time_is_told_by_its_tag(rt: HostRuntime) {
    let octets: [u8; 34] = [
        0x30, 0x20, 0x17, 0x0D, b'2', b'0', b'0', b'1', b'0', b'1', b'0', b'0', b'0', b'0', b'0',
        b'0', b'Z', 0x18, 0x0F, b'2', b'0', b'5', b'0', b'0', b'1', b'0', b'1', b'0', b'0', b'0',
        b'0', b'0', b'0', b'Z',
    ];
    let validity = read::<Validity>(&rt, rt.alloc(), &octets);
    assert!(rt; is_utc(&validity.not_before));
    assert!(rt; !is_utc(&validity.not_after));
}

/// Whether a time is a UTCTime.
fn is_utc(time: &Time) -> bool {
    match time {
        Time::UtcTime(_) => true,
        Time::GeneralTime(_) => false,
    }
}

/// Octets, and the two numbers of the signature that they are.
const SIGNATURES: [(&[u8], Option<(u8, u8)>); 2] = [
    (
        &[0x30, 0x06, 0x02, 0x01, 0x05, 0x02, 0x01, 0x07],
        Some((5, 7)),
    ),
    // one number alone
    (&[0x30, 0x03, 0x02, 0x01, 0x05], None),
];

/// Returns the two numbers of a signature.
fn signature_of(rt: &impl Abort, alloc: Global, octets: &[u8]) -> Option<(u8, u8)> {
    match read_in::<EcdsaSigValue>(rt, alloc, Mode::Der, octets) {
        Some(signature) => match (u8::try_from(signature.r), u8::try_from(signature.s)) {
            (Ok(r), Ok(s)) => Some((r, s)),
            _ => None,
        },
        None => None,
    }
}

#[test]
fn a_signature_has_two_numbers(rt: HostRuntime) {
    for (octets, wanted) in &SIGNATURES {
        assert_eq!(rt;
            signature_of(&rt, rt.alloc(), octets),
            *wanted,
            "{octets:?}"
        );
    }
}
