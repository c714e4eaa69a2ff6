//! CHOICE. Expected values are worked by hand from X.690, 8.13.
use crate::rows::{Again, Read, reads_and_come_back, takes, takes_and_come_back};
use asn1::{Choice2, Choice3, Choice4, Context, Implicit, Sequence};
use bcder::string::Utf8String;
use bcder::{Integer, Mode, OctetString};

/// `CHOICE { INTEGER, [0] IMPLICIT INTEGER }`.
type Either = Choice2<u32, Implicit<Context<0>, u32>>;

const EITHER: [Read; 5] = [
    (Mode::Der, &[0x02, 0x01, 0x05], "One(5)"),
    (Mode::Der, &[0x80, 0x01, 0x09], "Two(Implicit { value: 9 })"),
    // of another type, no number, and cut
    (Mode::Ber, &[0x01, 0x01, 0xFF], "none"),
    (Mode::Ber, &[0x02, 0x00], "refused"),
    (Mode::Ber, &[0x80, 0x01], "refused"),
];

#[test]
fn the_tag_tells_the_type(rt: HostRuntime) {
    takes::<Either>(&rt, rt.alloc(), &EITHER);
}

const LIST: [Read; 1] = [(
    Mode::Der,
    &[0x30, 0x06, 0x80, 0x01, 0x09, 0x02, 0x01, 0x05],
    "Sequence([Two(Implicit { value: 9 }), One(5)])",
)];

const OPTION: [Read; 2] = [
    (Mode::Der, &[0x30, 0x03, 0x01, 0x01, 0xFF], "refused"),
    (Mode::Der, &[0x30, 0x00], "Sequence(None)"),
];

#[test]
fn choices_stand_in_lists_and_are_left_out(rt: HostRuntime) {
    takes::<Sequence<Vec<Either>>>(&rt, rt.alloc(), &LIST);
    takes::<Sequence<Option<Either>>>(&rt, rt.alloc(), &OPTION);
}

/// `CHOICE { yes BOOLEAN, many INTEGER, name OCTET STRING }`.
type OneOfThree = Choice3<bool, u32, OctetString>;

const OF_THREE: [Again; 9] = [
    (
        Mode::Der,
        &[0x01, 0x01, 0x00],
        Mode::Der,
        &[0x01, 0x01, 0x00],
    ),
    (
        Mode::Ber,
        &[0x01, 0x01, 0xFF],
        Mode::Ber,
        &[0x01, 0x01, 0xFF],
    ),
    (
        Mode::Ber,
        &[0x01, 0x01, 0xFF],
        Mode::Der,
        &[0x01, 0x01, 0xFF],
    ),
    (
        Mode::Ber,
        &[0x01, 0x01, 0xFF],
        Mode::Cer,
        &[0x01, 0x01, 0xFF],
    ),
    (
        Mode::Ber,
        &[0x02, 0x01, 0x07],
        Mode::Ber,
        &[0x02, 0x01, 0x07],
    ),
    (
        Mode::Ber,
        &[0x02, 0x01, 0x07],
        Mode::Der,
        &[0x02, 0x01, 0x07],
    ),
    (
        Mode::Ber,
        &[0x02, 0x01, 0x07],
        Mode::Cer,
        &[0x02, 0x01, 0x07],
    ),
    (
        Mode::Der,
        &[0x02, 0x01, 0x05],
        Mode::Der,
        &[0x02, 0x01, 0x05],
    ),
    (
        Mode::Der,
        &[0x04, 0x01, 0x07],
        Mode::Der,
        &[0x04, 0x01, 0x07],
    ),
];

/// `CHOICE { many INTEGER, none NULL, name UTF8String, few [0] IMPLICIT INTEGER }`.
type OneOfFour = Choice4<Integer, (), Utf8String, Implicit<Context<0>, u32>>;

const OF_FOUR: [Again; 8] = [
    (
        Mode::Der,
        &[0x02, 0x02, 0xFF, 0x00],
        Mode::Der,
        &[0x02, 0x02, 0xFF, 0x00],
    ),
    (Mode::Ber, &[0x05, 0x00], Mode::Ber, &[0x05, 0x00]),
    (Mode::Ber, &[0x05, 0x00], Mode::Der, &[0x05, 0x00]),
    (Mode::Ber, &[0x05, 0x00], Mode::Cer, &[0x05, 0x00]),
    (
        Mode::Der,
        &[0x0C, 0x01, 0x41],
        Mode::Der,
        &[0x0C, 0x01, 0x41],
    ),
    (
        Mode::Ber,
        &[0x80, 0x01, 0x09],
        Mode::Ber,
        &[0x80, 0x01, 0x09],
    ),
    (
        Mode::Ber,
        &[0x80, 0x01, 0x09],
        Mode::Der,
        &[0x80, 0x01, 0x09],
    ),
    (
        Mode::Ber,
        &[0x80, 0x01, 0x09],
        Mode::Cer,
        &[0x80, 0x01, 0x09],
    ),
];

const ONE_OF_THREE: [Read; 1] = [(
    Mode::Der,
    &[0x04, 0x01, 0x07],
    "Three(OctetString { octets: Whole(b\"\\x07\") })",
)];

const ONE_OF_FOUR: [Read; 5] = [
    (
        Mode::Der,
        &[0x02, 0x02, 0xFF, 0x00],
        "One(Integer { octets: b\"\\xff\\0\" })",
    ),
    (Mode::Der, &[0x05, 0x00], "Two(())"),
    (
        Mode::Der,
        &[0x0C, 0x01, 0x41],
        "Three(RestrictedString { octets: OctetString { octets: Whole(b\"A\") }, \
         set: PhantomData<_> })",
    ),
    (
        Mode::Der,
        &[0x80, 0x01, 0x08],
        "Four(Implicit { value: 8 })",
    ),
    // of none
    (Mode::Der, &[0x84, 0x01, 0x09], "none"),
];

#[test]
fn one_of_more_is_read_and_comes_back(rt: HostRuntime) {
    reads_and_come_back::<OneOfThree>(&rt, rt.alloc(), &ONE_OF_THREE, &[], &OF_THREE);
    takes_and_come_back::<OneOfFour>(&rt, rt.alloc(), &ONE_OF_FOUR, &[], &OF_FOUR);
}
