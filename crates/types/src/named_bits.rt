//! BIT STRING with named bits (X.680, 22.7; X.690, 11.2.2).
use crate::rows::{Again, Read, Written, reads, reads_and_come_back};
use asn1::{Context, Implicit, NamedBits, decode};
use bcder::Mode;

/// `KeyUsage ::= BIT STRING { digitalSignature (0), .., keyCertSign (5), cRLSign (6),
/// encipherOnly (7), decipherOnly (8) }` (RFC 5280, section 4.2.1.3).
const DIGITAL_SIGNATURE: usize = 0;

const KEY_CERT_SIGN: usize = 5;

const CRL_SIGN: usize = 6;

const ENCIPHER_ONLY: usize = 7;

const DECIPHER_ONLY: usize = 8;

const BITS: [Read; 11] = [
    // digitalSignature, keyCertSign, cRLSign: bits 1000011
    (
        Mode::Der,
        &[0x03, 0x02, 0x01, 0x86],
        "NamedBits(BitString { unused: 1, octets: b\"\\x86\" })",
    ),
    // keyAgreement (4), decipherOnly (8): bits 000010001
    (
        Mode::Cer,
        &[0x03, 0x03, 0x07, 0x08, 0x80],
        "NamedBits(BitString { unused: 7, octets: b\"\\x08\\x80\" })",
    ),
    // none
    (
        Mode::Der,
        &[0x03, 0x01, 0x00],
        "NamedBits(BitString { unused: 0, octets: b\"\" })",
    ),
    // a zero bit at the end, or more
    (Mode::Der, &[0x03, 0x02, 0x00, 0x86], "refused"),
    (Mode::Cer, &[0x03, 0x02, 0x00, 0x86], "refused"),
    (
        Mode::Ber,
        &[0x03, 0x02, 0x00, 0x86],
        "NamedBits(BitString { unused: 0, octets: b\"\\x86\" })",
    ),
    (Mode::Der, &[0x03, 0x03, 0x00, 0x86, 0x00], "refused"),
    (Mode::Der, &[0x03, 0x02, 0x07, 0x00], "refused"),
    // an unused bit that is one
    (Mode::Der, &[0x03, 0x02, 0x01, 0x87], "refused"),
    // no bit string, and another type
    (Mode::Ber, &[0x03, 0x00], "refused"),
    (Mode::Ber, &[0x04, 0x02, 0x01, 0x86], "refused"),
];

const BITS_WRITTEN: [Written; 6] = [
    (
        &[0x03, 0x03, 0x00, 0x86, 0x00],
        Mode::Der,
        &[0x03, 0x02, 0x01, 0x86],
    ),
    (
        &[0x03, 0x03, 0x00, 0x86, 0x00],
        Mode::Cer,
        &[0x03, 0x02, 0x01, 0x86],
    ),
    (
        &[0x03, 0x03, 0x00, 0x86, 0x00],
        Mode::Ber,
        &[0x03, 0x02, 0x01, 0x86],
    ),
    // an unused bit that is one
    (
        &[0x03, 0x02, 0x01, 0x87],
        Mode::Der,
        &[0x03, 0x02, 0x01, 0x86],
    ),
    // none
    (
        &[0x03, 0x03, 0x03, 0x00, 0x00],
        Mode::Der,
        &[0x03, 0x01, 0x00],
    ),
    // eight
    (
        &[0x03, 0x03, 0x00, 0x01, 0x00],
        Mode::Der,
        &[0x03, 0x02, 0x00, 0x01],
    ),
];

const AGAIN: [Again; 3] = [
    (
        Mode::Ber,
        &[0x03, 0x03, 0x00, 0x86, 0x00],
        Mode::Der,
        &[0x03, 0x02, 0x01, 0x86],
    ),
    (
        Mode::Ber,
        &[0x03, 0x02, 0x00, 0x00],
        Mode::Cer,
        &[0x03, 0x01, 0x00],
    ),
    (
        Mode::Der,
        &[0x03, 0x03, 0x07, 0x08, 0x80],
        Mode::Ber,
        &[0x03, 0x03, 0x07, 0x08, 0x80],
    ),
];

#[test]
fn named_bits_are_read_and_written(rt: HostRuntime) {
    reads_and_come_back::<NamedBits>(&rt, rt.alloc(), &BITS, &BITS_WRITTEN, &AGAIN);
}

#[test]
fn bits_are_told_by_their_names(rt: HostRuntime) {
    let octets: &[u8] = &[0x03, 0x02, 0x01, 0x86];
    let usage = decode::<NamedBits, _>(rt.alloc(), Mode::Der, octets).expect(&rt, "refused");
    assert!(rt; usage.has(DIGITAL_SIGNATURE) && usage.has(KEY_CERT_SIGN) && usage.has(CRL_SIGN));
    assert!(rt; !usage.has(1) && !usage.has(ENCIPHER_ONLY) && !usage.has(DECIPHER_ONLY));
    assert!(rt; !usage.has(usize::MAX));
}

const TAGGED: [Read; 1] = [(
    Mode::Der,
    &[0x81, 0x02, 0x01, 0x86],
    "Implicit { value: NamedBits(BitString { unused: 1, octets: b\"\\x86\" }) }",
)];

#[test]
fn named_bits_are_tagged(rt: HostRuntime) {
    reads::<Implicit<Context<1>, NamedBits>>(&rt, rt.alloc(), &TAGGED);
}
