//! Fields with a default. Expected values are worked by hand from X.690, 11.5.
use crate::rows::{Read, Written, takes_and_rewrites};
use asn1::{DefaultValue, OrDefault, Sequence};
use bcder::{Mode, NoMemory};
use std::alloc::Global;

/// The default 1, as of a version.
#[derive(Debug, Drop)]
struct One;

impl DefaultValue<u32> for One {
    ghost default = { 1 };

    fn is_default(value: &u32) -> bool {
        *value == 1
    }

    fn make(_alloc: Global) -> Result<u32, NoMemory> {
        Ok(1)
    }
}

/// `SEQUENCE { INTEGER DEFAULT 1 }`.
type Field = Sequence<OrDefault<u32, One>>;

const ONE: &str = "Sequence(OrDefault { value: 1 })";

const FIVE: &str = "Sequence(OrDefault { value: 5 })";

const FIELD: [Read; 9] = [
    // given, and left out
    (Mode::Der, &[0x30, 0x03, 0x02, 0x01, 0x05], FIVE),
    (Mode::Der, &[0x30, 0x00], ONE),
    (Mode::Cer, &[0x30, 0x80, 0x00, 0x00], ONE),
    // the default is encoded in BER alone
    (Mode::Ber, &[0x30, 0x03, 0x02, 0x01, 0x01], ONE),
    (Mode::Der, &[0x30, 0x03, 0x02, 0x01, 0x01], "refused"),
    (
        Mode::Cer,
        &[0x30, 0x80, 0x02, 0x01, 0x01, 0x00, 0x00],
        "refused",
    ),
    // of another type, no number, and cut
    (Mode::Ber, &[0x30, 0x03, 0x04, 0x01, 0x05], "refused"),
    (Mode::Ber, &[0x30, 0x02, 0x02, 0x00], "refused"),
    (Mode::Ber, &[0x30, 0x03, 0x02, 0x01], "refused"),
];

const WRITTEN: [Written; 9] = [
    // the default, which is left out
    (&[0x30, 0x03, 0x02, 0x01, 0x01], Mode::Ber, &[0x30, 0x00]),
    (&[0x30, 0x03, 0x02, 0x01, 0x01], Mode::Der, &[0x30, 0x00]),
    (
        &[0x30, 0x03, 0x02, 0x01, 0x01],
        Mode::Cer,
        &[0x30, 0x80, 0x00, 0x00],
    ),
    // left out
    (&[0x30, 0x00], Mode::Ber, &[0x30, 0x00]),
    (&[0x30, 0x00], Mode::Der, &[0x30, 0x00]),
    (&[0x30, 0x00], Mode::Cer, &[0x30, 0x80, 0x00, 0x00]),
    // given
    (
        &[0x30, 0x03, 0x02, 0x01, 0x05],
        Mode::Ber,
        &[0x30, 0x03, 0x02, 0x01, 0x05],
    ),
    (
        &[0x30, 0x03, 0x02, 0x01, 0x05],
        Mode::Der,
        &[0x30, 0x03, 0x02, 0x01, 0x05],
    ),
    (
        &[0x30, 0x03, 0x02, 0x01, 0x05],
        Mode::Cer,
        &[0x30, 0x80, 0x02, 0x01, 0x05, 0x00, 0x00],
    ),
];

#[test]
fn a_default_may_be_left_out(rt: HostRuntime) {
    takes_and_rewrites::<Field>(&rt, rt.alloc(), &FIELD, &WRITTEN);
}
