//! RELATIVE-OID (X.680, 33; X.690, 8.20).
use crate::rows::{Again, Read, Written, reads_and_come_back};
use asn1::RelativeOid;
use bcder::Mode;

const IDENTIFIERS: [Read; 7] = [
    // { 8571 3 2 } (X.690, 8.20.5)
    (
        Mode::Der,
        &[0x0D, 0x04, 0xC2, 0x7B, 0x03, 0x02],
        "RelativeOid { octets: Oid(b\"\\xc2{\\x03\\x02\") }",
    ),
    (
        Mode::Ber,
        &[0x0D, 0x01, 0x00],
        "RelativeOid { octets: Oid(b\"\\0\") }",
    ),
    // none; cut; a subidentifier that begins with 80
    (Mode::Ber, &[0x0D, 0x00], "refused"),
    (Mode::Ber, &[0x0D, 0x01, 0xC2], "refused"),
    (Mode::Ber, &[0x0D, 0x02, 0x80, 0x01], "refused"),
    (Mode::Ber, &[0x0D, 0x03, 0x03, 0x80, 0x01], "refused"),
    (Mode::Ber, &[0x06, 0x01, 0x03], "refused"),
];

const IDENTIFIERS_WRITTEN: [Written; 3] = [
    (
        &[0x0D, 0x03, 0xC2, 0x7B, 0x03],
        Mode::Ber,
        &[0x0D, 0x03, 0xC2, 0x7B, 0x03],
    ),
    (
        &[0x0D, 0x81, 0x03, 0xC2, 0x7B, 0x03],
        Mode::Der,
        &[0x0D, 0x03, 0xC2, 0x7B, 0x03],
    ),
    (
        &[0x0D, 0x03, 0xC2, 0x7B, 0x03],
        Mode::Cer,
        &[0x0D, 0x03, 0xC2, 0x7B, 0x03],
    ),
];

const AGAIN: [Again; 1] = [(
    Mode::Der,
    &[0x0D, 0x02, 0x81, 0x00],
    Mode::Cer,
    &[0x0D, 0x02, 0x81, 0x00],
)];

#[test]
fn relative_identifiers_are_read_and_written(rt: HostRuntime) {
    reads_and_come_back::<RelativeOid>(&rt, rt.alloc(), &IDENTIFIERS, &IDENTIFIERS_WRITTEN, &AGAIN);
}
