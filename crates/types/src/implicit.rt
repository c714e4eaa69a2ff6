//! Implicit tags. Expected values are worked by hand from X.690, 8.14.
use crate::rows::{Read, Written, rewrites, takes, takes_and_rewrites};
use asn1::{Application, Context, DecodeDefinition, Definition, Explicit, Implicit, Sequence};
use bcder::Mode;
use bcder::decode::Source;

/// `[0] IMPLICIT INTEGER`.
type Number = Implicit<Context<0>, u32>;

const NUMBER: [Read; 4] = [
    (Mode::Der, &[0x80, 0x01, 0x05], "Implicit { value: 5 }"),
    // with its own tag, explicit, and no number
    (Mode::Ber, &[0x02, 0x01, 0x05], "none"),
    (Mode::Ber, &[0xA0, 0x03, 0x02, 0x01, 0x05], "refused"),
    (Mode::Ber, &[0x80, 0x00], "refused"),
];

const NUMBER_WRITTEN: [Written; 3] = [
    (&[0x80, 0x01, 0x05], Mode::Ber, &[0x80, 0x01, 0x05]),
    (&[0x80, 0x01, 0x05], Mode::Der, &[0x80, 0x01, 0x05]),
    (&[0x80, 0x01, 0x05], Mode::Cer, &[0x80, 0x01, 0x05]),
];

// X.690, 8.14.4
#[test]
fn the_tag_replaces_the_types_own(rt: HostRuntime) {
    takes_and_rewrites::<Number>(&rt, rt.alloc(), &NUMBER, &NUMBER_WRITTEN);
}

/// `Version ::= [APPLICATION 2] IMPLICIT INTEGER`.
#[derive(Debug, Drop)]
struct Version(u32);

impl Definition for Version {
    type As = Implicit<Application<2>, u32>;

    ghost parts = { λ x. x.0 };

    fn from_parts(value: Implicit<Application<2>, u32>) -> Version {
        Version(value.value)
    }
}

impl<S: Source> DecodeDefinition<S> for Version {}

const OWN: [Read; 1] = [(Mode::Der, &[0x42, 0x01, 0x05], "Version(5)")];

const AGAIN: [Read; 1] = [(
    Mode::Der,
    &[0x81, 0x01, 0x05],
    "Implicit { value: Version(5) }",
)];

#[test]
fn a_defined_type_is_tagged_again(rt: HostRuntime) {
    takes::<Version>(&rt, rt.alloc(), &OWN);
    takes::<Implicit<Context<1>, Version>>(&rt, rt.alloc(), &AGAIN);
}

const LIST: [Read; 1] = [(
    Mode::Der,
    &[0xA0, 0x03, 0x02, 0x01, 0x05],
    "Implicit { value: Sequence([5]) }",
)];

#[test]
fn a_list_is_tagged(rt: HostRuntime) {
    takes::<Implicit<Context<0>, Sequence<Vec<u32>>>>(&rt, rt.alloc(), &LIST);
}

/// `[2] IMPLICIT SEQUENCE { INTEGER, INTEGER }`.
const FIELDS: &[u8] = &[0xA2, 0x06, 0x02, 0x01, 0x05, 0x02, 0x01, 0x06];

const FIELDS_WRITTEN: [Written; 3] = [
    (FIELDS, Mode::Ber, FIELDS),
    (FIELDS, Mode::Der, FIELDS),
    (
        FIELDS,
        Mode::Cer,
        &[0xA2, 0x80, 0x02, 0x01, 0x05, 0x02, 0x01, 0x06, 0x00, 0x00],
    ),
];

/// `[1] IMPLICIT [0] EXPLICIT INTEGER`.
type Tagged = Implicit<Context<1>, Explicit<Context<0>, u32>>;

const EXPLICIT: [Read; 1] = [(
    Mode::Der,
    &[0xA1, 0x03, 0x02, 0x01, 0x06],
    "Implicit { value: Explicit { value: 6 } }",
)];

/// A value of this type.
const TAGGED: &[u8] = &[0xA1, 0x03, 0x02, 0x01, 0x05];

const TAGGED_WRITTEN: [Written; 3] = [
    (TAGGED, Mode::Ber, TAGGED),
    (TAGGED, Mode::Der, TAGGED),
    (
        TAGGED,
        Mode::Cer,
        &[0xA1, 0x80, 0x02, 0x01, 0x05, 0x00, 0x00],
    ),
];

// X.690, 8.14.4
#[test]
fn the_implicit_tag_is_written(rt: HostRuntime) {
    rewrites::<Implicit<Context<2>, Sequence<(u32, u32)>>>(&rt, rt.alloc(), &FIELDS_WRITTEN);
    takes_and_rewrites::<Tagged>(&rt, rt.alloc(), &EXPLICIT, &TAGGED_WRITTEN);
}
