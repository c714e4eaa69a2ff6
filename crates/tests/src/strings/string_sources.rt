//! Tests of octet strings as sources.
use super::string_octets::{cut, read, whole};
use crate::asserts::Case;
use crate::steps::{Step, follow};
use bcder::decode::IntoSource;
use bcder::{Mode, OctetString};
use std::process::Abort;

/// Checks what the source of a string returns.
fn check(case: &Case<'_, impl Abort>, string: OctetString, steps: &[Step]) {
    follow(case, &mut string.into_source(), steps);
}

/// The octets `abcdef`, one by one.
const ONE_BY_ONE: [Step; 14] = [
    Step::Least(1),
    Step::OptOctet(Some(Some(b'a'))),
    Step::Least(1),
    Step::OptOctet(Some(Some(b'b'))),
    Step::Least(1),
    Step::OptOctet(Some(Some(b'c'))),
    Step::Least(1),
    Step::OptOctet(Some(Some(b'd'))),
    Step::Least(1),
    Step::OptOctet(Some(Some(b'e'))),
    Step::Least(1),
    Step::OptOctet(Some(Some(b'f'))),
    Step::Request(1, Some(0), 0),
    Step::OptOctet(Some(None)),
];

/// No octet.
const NONE: [Step; 2] = [Step::Request(1, Some(0), 0), Step::OptOctet(Some(None))];

/// All octets at once, and all after the first two.
const AT_ONCE: [Step; 6] = [
    Step::Skip(0, Some(0)),
    Step::Request(6, Some(6), 0),
    Step::Slice(b"abcdef"),
    Step::Bytes(b"abcdef"),
    Step::Slice(b"abcdef"),
    Step::Request(7, Some(6), 0),
];

const AFTER_TWO: [Step; 6] = [
    Step::Skip(2, Some(2)),
    Step::Request(4, Some(4), 0),
    Step::Slice(b"cdef"),
    Step::Bytes(b"cdef"),
    Step::Slice(b"cdef"),
    Step::Request(5, Some(4), 0),
];

/// Checks all 32 ways to cut `abcdef`, each with an empty segment at each place, or with none.
#[test]
fn cut_in_every_way(rt: HostRuntime) {
    for ends in 32..64u8 {
        let case = Case::new(&rt, rt.alloc(), usize::from(ends));
        for empty in 0..8 {
            for steps in [
                ONE_BY_ONE.as_slice(),
                AT_ONCE.as_slice(),
                AFTER_TWO.as_slice(),
            ] {
                check(&case, cut(&case, b"abcdef", ends, empty), steps);
            }
        }
    }
}

#[test]
fn in_one_piece(rt: HostRuntime) {
    let case = Case::new(&rt, rt.alloc(), 0);
    check(&case, whole(&case, b"abcdef"), &ONE_BY_ONE);
    check(&case, whole(&case, b"abcdef"), &AFTER_TWO);
    check(&case, whole(&case, b""), &NONE);
}

/// Parts are joined only if more octets are requested than one holds.
const LENT: [Step; 5] = [
    Step::Request(1, Some(2), 0),
    Step::Slice(b"ab"),
    Step::Request(2, Some(2), 0),
    Step::Request(3, Some(3), 0),
    Step::Slice(b"abc"),
];

/// The position is that among the octets of the string.
const POSITIONS: [Step; 5] = [
    Step::At("0"),
    Step::Skip(5, Some(5)),
    Step::At("5"),
    Step::Skip(2, Some(1)),
    Step::At("6"),
];

#[test]
fn segments_and_positions(rt: HostRuntime) {
    let case = Case::new(&rt, rt.alloc(), 0);
    let encoding = [0x24, 0x07, 0x04, 0x02, 0x61, 0x62, 0x04, 0x01, 0x63];
    check(&case, read(&case, &encoding), &LENT);
    check(&case, cut(&case, b"abcdef", 42, 1), &POSITIONS);
}

/// Returns the number that the octets of a string encode.
#[tactic(auto, using(bcder::specs::laws::Moved::steps))]
fn number_in(case: &Case<'_, impl Abort>, mode: Mode, string: OctetString) -> u8 {
    let read = mode.decode(string, |cons| cons.take_u8());
    case.done(read)
}

/// Decodes a number that is in two segments.
#[test]
fn a_string_is_decoded(rt: HostRuntime) {
    let encoding = [0x24, 0x07, 0x04, 0x01, 0x02, 0x04, 0x02, 0x01, 0x05];
    for (row, mode) in [Mode::Ber, Mode::Cer, Mode::Der].iter().enumerate() {
        let case = Case::new(&rt, rt.alloc(), row);
        let string = read(&case, &encoding);
        case.same(number_in(&case, *mode, string), 5);
    }
}
