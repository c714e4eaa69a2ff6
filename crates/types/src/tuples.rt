//! Fields in a row. Expected values are worked by hand from X.690, 8.9.
use crate::rows::{Read, Written, rewrites, takes, takes_and_rewrites};
use asn1::{Context, Implicit, Sequence};
use bcder::Mode;

/// Four numbers.
const FOUR: &[u8] = &[
    0x30, 0x0C, 0x02, 0x01, 0x01, 0x02, 0x01, 0x02, 0x02, 0x01, 0x03, 0x02, 0x01, 0x04,
];

const ARE_FOUR: [Read; 1] = [(Mode::Der, FOUR, "Sequence((1, 2, 3, 4))")];

const ARE_OTHERS: [Read; 1] = [(Mode::Der, FOUR, "refused")];

#[test]
fn four_fields_are_read(rt: HostRuntime) {
    takes::<Sequence<(u32, u32, u32, u32)>>(&rt, rt.alloc(), &ARE_FOUR);
    takes::<Sequence<(u32, u32, u32)>>(&rt, rt.alloc(), &ARE_OTHERS);
    takes::<Sequence<(u32, u32, u32, u32, u32)>>(&rt, rt.alloc(), &ARE_OTHERS);
}

/// A number that may be left out, with its own tag.
type Field<const N: u16> = Option<Implicit<Context<N>, u32>>;

/// Twelve of them.
type Twelve = Sequence<
    (
        Field<1>,
        Field<2>,
        Field<3>,
        Field<4>,
        Field<5>,
        Field<6>,
        Field<7>,
        Field<8>,
        Field<9>,
        Field<10>,
        Field<11>,
        Field<12>,
    ),
>;

/// `[1]` to `[12]`, each with its own number, in a SEQUENCE.
const TWELVE: &[u8] = &[
    0x30, 0x24, 0x81, 0x01, 0x01, 0x82, 0x01, 0x02, 0x83, 0x01, 0x03, 0x84, 0x01, 0x04, 0x85, 0x01,
    0x05, 0x86, 0x01, 0x06, 0x87, 0x01, 0x07, 0x88, 0x01, 0x08, 0x89, 0x01, 0x09, 0x8A, 0x01, 0x0A,
    0x8B, 0x01, 0x0B, 0x8C, 0x01, 0x0C,
];

const ARE_TWELVE: [Read; 1] = [(
    Mode::Der,
    TWELVE,
    "Sequence((Some(Implicit { value: 1 }), Some(Implicit { value: 2 }), \
     Some(Implicit { value: 3 }), Some(Implicit { value: 4 }), Some(Implicit { value: 5 }), \
     Some(Implicit { value: 6 }), Some(Implicit { value: 7 }), Some(Implicit { value: 8 }), \
     Some(Implicit { value: 9 }), Some(Implicit { value: 10 }), Some(Implicit { value: 11 }), \
     Some(Implicit { value: 12 })))",
)];

const TWELVE_WRITTEN: [Written; 2] = [
    (TWELVE, Mode::Der, TWELVE),
    (
        &[0x30, 0x06, 0x84, 0x01, 0x04, 0x8B, 0x01, 0x0B],
        Mode::Der,
        &[0x30, 0x06, 0x84, 0x01, 0x04, 0x8B, 0x01, 0x0B],
    ),
];

#[test]
fn twelve_fields_are_read_and_written_in_order(rt: HostRuntime) {
    takes_and_rewrites::<Twelve>(&rt, rt.alloc(), &ARE_TWELVE, &TWELVE_WRITTEN);
}

/// A number, a truth value and a number.
const THREE: &[u8] = &[
    0x30, 0x09, 0x02, 0x01, 0x07, 0x01, 0x01, 0xFF, 0x02, 0x01, 0x08,
];

const THREE_WRITTEN: [Written; 3] = [
    (THREE, Mode::Ber, THREE),
    (THREE, Mode::Der, THREE),
    (
        THREE,
        Mode::Cer,
        &[
            0x30, 0x80, 0x02, 0x01, 0x07, 0x01, 0x01, 0xFF, 0x02, 0x01, 0x08, 0x00, 0x00,
        ],
    ),
];

#[test]
fn three_fields_are_written_in_order(rt: HostRuntime) {
    rewrites::<Sequence<(u32, bool, u32)>>(&rt, rt.alloc(), &THREE_WRITTEN);
}
