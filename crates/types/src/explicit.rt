//! Explicit tags. Expected values are worked by hand from X.690, 8.14.
use crate::rows::{Read, takes, writes};
use asn1::{Application, Choice2, Context, Explicit, Implicit, Private, Sequence};
use bcder::Mode;

/// `[0] EXPLICIT INTEGER`.
type Number = Explicit<Context<0>, u32>;

const FIVE: &str = "Explicit { value: 5 }";

const NUMBER: [Read; 8] = [
    (Mode::Der, &[0xA0, 0x03, 0x02, 0x01, 0x05], FIVE),
    (Mode::Ber, &[0xA0, 0x80, 0x02, 0x01, 0x05, 0x00, 0x00], FIVE),
    (
        Mode::Der,
        &[0xA0, 0x80, 0x02, 0x01, 0x05, 0x00, 0x00],
        "refused",
    ),
    (Mode::Cer, &[0xA0, 0x03, 0x02, 0x01, 0x05], "refused"),
    // empty, two numbers, of another type, and primitive
    (Mode::Ber, &[0xA0, 0x00], "refused"),
    (
        Mode::Ber,
        &[0xA0, 0x06, 0x02, 0x01, 0x05, 0x02, 0x01, 0x07],
        "refused",
    ),
    (Mode::Ber, &[0xA0, 0x03, 0x04, 0x01, 0x05], "refused"),
    (Mode::Ber, &[0x80, 0x01, 0x05], "refused"),
];

#[test]
fn a_number_is_read(rt: HostRuntime) {
    takes::<Number>(&rt, rt.alloc(), &NUMBER);
}

/// `SEQUENCE { [APPLICATION 1] INTEGER, [PRIVATE 31] INTEGER OPTIONAL, [1000] INTEGER }`.
type Three = Sequence<
    (
        Explicit<Application<1>, u32>,
        (
            Option<Explicit<Private<31>, u32>>,
            Explicit<Context<1000>, u32>,
        ),
    ),
>;

const THREE: [Read; 1] = [(
    Mode::Der,
    &[
        0x30, 0x12, 0x61, 0x03, 0x02, 0x01, 0x05, 0xFF, 0x1F, 0x03, 0x02, 0x01, 0x06, 0xBF, 0x87,
        0x68, 0x03, 0x02, 0x01, 0x07,
    ],
    "Sequence((Explicit { value: 5 }, (Some(Explicit { value: 6 }), Explicit { value: 7 })))",
)];

#[test]
fn tags_are_told_apart_by_class_and_number(rt: HostRuntime) {
    takes::<Three>(&rt, rt.alloc(), &THREE);
}

const CHOICE: [Read; 1] = [(
    Mode::Der,
    &[0xA3, 0x03, 0x80, 0x01, 0x09],
    "Explicit { value: Two(Implicit { value: 9 }) }",
)];

#[test]
fn a_choice_can_be_tagged(rt: HostRuntime) {
    takes::<Explicit<Context<3>, Choice2<u32, Implicit<Context<0>, u32>>>>(
        &rt,
        rt.alloc(),
        &CHOICE,
    );
}

#[test]
fn an_explicit_tag_is_written(rt: HostRuntime) {
    let number: Number = Explicit::new(5);
    writes(
        &rt,
        rt.alloc(),
        &number,
        Mode::Der,
        &[0xA0, 0x03, 0x02, 0x01, 0x05],
    );
}
