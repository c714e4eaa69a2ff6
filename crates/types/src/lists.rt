//! SEQUENCE OF. Expected values are worked by hand from X.690, 8.10.
use crate::rows::{Again, Read, takes, takes_and_come_back, writes};
use asn1::{Context, Implicit, Sequence, SequenceOf};
use bcder::Mode;

const NUMBERS: [Read; 11] = [
    (
        Mode::Der,
        &[0x30, 0x06, 0x02, 0x01, 0x05, 0x02, 0x01, 0x07],
        "SequenceOf([5, 7])",
    ),
    (Mode::Der, &[0x30, 0x00], "SequenceOf([])"),
    (
        Mode::Ber,
        &[0x30, 0x80, 0x02, 0x01, 0x05, 0x00, 0x00],
        "SequenceOf([5])",
    ),
    (
        Mode::Cer,
        &[0x30, 0x80, 0x02, 0x01, 0x05, 0x00, 0x00],
        "SequenceOf([5])",
    ),
    // of another type, too large, cut, and with another tag
    (
        Mode::Ber,
        &[0x30, 0x06, 0x02, 0x01, 0x05, 0x04, 0x01, 0x07],
        "refused",
    ),
    (
        Mode::Ber,
        &[0x30, 0x07, 0x02, 0x05, 0x01, 0x00, 0x00, 0x00, 0x00],
        "refused",
    ),
    (Mode::Ber, &[0x30, 0x06, 0x02, 0x01, 0x05], "refused"),
    (Mode::Ber, &[0x31, 0x00], "none"),
    // primitive, open, and not ended
    (Mode::Ber, &[0x10, 0x03, 0x02, 0x01, 0x05], "refused"),
    (
        Mode::Der,
        &[0x30, 0x80, 0x02, 0x01, 0x05, 0x00, 0x00],
        "refused",
    ),
    (Mode::Ber, &[0x30, 0x80, 0x02, 0x01, 0x05], "refused"),
];

/// 0, 127, 128 and 4294967295.
const FOUR: &[u8] = &[
    0x30, 0x11, 0x02, 0x01, 0x00, 0x02, 0x01, 0x7F, 0x02, 0x02, 0x00, 0x80, 0x02, 0x05, 0x00, 0xFF,
    0xFF, 0xFF, 0xFF,
];

const NUMBERS_AGAIN: [Again; 3] = [
    (Mode::Der, FOUR, Mode::Ber, FOUR),
    (
        Mode::Der,
        FOUR,
        Mode::Cer,
        &[
            0x30, 0x80, 0x02, 0x01, 0x00, 0x02, 0x01, 0x7F, 0x02, 0x02, 0x00, 0x80, 0x02, 0x05,
            0x00, 0xFF, 0xFF, 0xFF, 0xFF, 0x00, 0x00,
        ],
    ),
    (Mode::Der, FOUR, Mode::Der, FOUR),
];

#[test]
fn numbers_are_read_and_come_back(rt: HostRuntime) {
    takes_and_come_back::<SequenceOf<u32>>(&rt, rt.alloc(), &NUMBERS, &[], &NUMBERS_AGAIN);
}

const ENDED: [Read; 1] = [(
    Mode::Der,
    &[
        0x30, 0x09, 0x02, 0x01, 0x05, 0x02, 0x01, 0x07, 0x80, 0x01, 0x09,
    ],
    "Sequence(([5, 7], Implicit { value: 9 }))",
)];

#[test]
fn a_list_ends_at_another_tag(rt: HostRuntime) {
    takes::<Sequence<(Vec<u32>, Implicit<Context<0>, u32>)>>(&rt, rt.alloc(), &ENDED);
}

#[test]
fn a_list_is_written(rt: HostRuntime) {
    let octets: [u8; 8] = [0x30, 0x06, 0x02, 0x01, 0x01, 0x02, 0x01, 0xFF];
    let mut items = Vec::new(rt.alloc());
    assert!(rt; items.push(1i8).is_ok());
    assert!(rt; items.push(-1i8).is_ok());
    let list: SequenceOf<i8> = SequenceOf(items);
    writes(&rt, rt.alloc(), &list, Mode::Der, &octets);
}
