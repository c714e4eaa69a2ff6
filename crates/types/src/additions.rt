//! Extension additions. Expected values are worked by hand from X.690, 8.9.
use crate::rows::{Read, reads, writes};
use asn1::{DecodeDefinition, Definition, ExtensionAdditions, Sequence};
use bcder::Mode;
use bcder::decode::Source;

/// `SEQUENCE { a INTEGER, ... }`.
type Extensible = Sequence<(u32, ExtensionAdditions)>;

/// A struct with the fields of `Extensible`.
#[derive(Debug, Drop)]
struct Version {
    number: u32,
}

impl Definition for Version {
    type As = Extensible;

    ghost parts = { λ x. (x.number, record {}) };

    fn from_parts(value: Extensible) -> Version {
        let Sequence((number, ExtensionAdditions)) = value;
        Version { number }
    }
}

impl<S: Source> DecodeDefinition<S> for Version {}

const FIVE: &str = "Version { number: 5 }";

const VERSION: [Read; 11] = [
    // none, one and two are passed over
    (Mode::Der, &[0x30, 0x03, 0x02, 0x01, 0x05], FIVE),
    (
        Mode::Der,
        &[0x30, 0x08, 0x02, 0x01, 0x05, 0x04, 0x03, 0x07, 0x08, 0x09],
        FIVE,
    ),
    (
        Mode::Der,
        &[
            0x30, 0x0B, 0x02, 0x01, 0x05, 0x01, 0x01, 0xFF, 0x30, 0x03, 0x02, 0x01, 0x01,
        ],
        FIVE,
    ),
    // they end with the content
    (
        Mode::Ber,
        &[0x30, 0x80, 0x02, 0x01, 0x05, 0x04, 0x01, 0x07, 0x00, 0x00],
        FIVE,
    ),
    (
        Mode::Cer,
        &[0x30, 0x80, 0x02, 0x01, 0x05, 0x04, 0x01, 0x07, 0x00, 0x00],
        FIVE,
    ),
    (
        Mode::Ber,
        &[0x30, 0x07, 0x02, 0x01, 0x05, 0x24, 0x80, 0x00, 0x00],
        FIVE,
    ),
    // open inside, cut, not ended, and without the number
    (
        Mode::Der,
        &[0x30, 0x07, 0x02, 0x01, 0x05, 0x24, 0x80, 0x00, 0x00],
        "refused",
    ),
    (
        Mode::Ber,
        &[0x30, 0x05, 0x02, 0x01, 0x05, 0x04, 0x01],
        "refused",
    ),
    (
        Mode::Ber,
        &[0x30, 0x80, 0x02, 0x01, 0x05, 0x04, 0x01, 0x07],
        "refused",
    ),
    (Mode::Ber, &[0x30, 0x03, 0x04, 0x01, 0x07], "refused"),
    // one
    (
        Mode::Der,
        &[0x30, 0x06, 0x02, 0x01, 0x05, 0x04, 0x01, 0x07],
        FIVE,
    ),
];

#[test]
fn additions_are_passed_over(rt: HostRuntime) {
    reads::<Version>(&rt, rt.alloc(), &VERSION);
}

const FOLLOWED: [Read; 1] = [(
    Mode::Der,
    &[
        0x30, 0x0B, 0x30, 0x06, 0x02, 0x01, 0x05, 0x04, 0x01, 0x07, 0x02, 0x01, 0x09,
    ],
    "Sequence((Version { number: 5 }, 9))",
)];

#[test]
fn what_follows_the_sequence_stays(rt: HostRuntime) {
    reads::<Sequence<(Version, u32)>>(&rt, rt.alloc(), &FOLLOWED);
}

const ADDITIONS: [Read; 1] = [(
    Mode::Ber,
    &[0x30, 0x80, 0x02, 0x01, 0x05, 0x00, 0x00],
    "Sequence((ExtensionAdditions, ExtensionAdditions))",
)];

const NUMBER: [Read; 1] = [(
    Mode::Ber,
    &[0x30, 0x80, 0x02, 0x01, 0x05, 0x00, 0x00],
    "refused",
)];

#[test]
fn none_are_left_for_others(rt: HostRuntime) {
    reads::<Sequence<(ExtensionAdditions, ExtensionAdditions)>>(&rt, rt.alloc(), &ADDITIONS);
    reads::<Sequence<(ExtensionAdditions, u32)>>(&rt, rt.alloc(), &NUMBER);
}

#[test]
fn none_are_written(rt: HostRuntime) {
    let octets: [u8; 5] = [0x30, 0x03, 0x02, 0x01, 0x05];
    let five = Sequence((5u32, ExtensionAdditions));
    writes(&rt, rt.alloc(), &five, Mode::Der, &octets);
}
