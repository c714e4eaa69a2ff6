//! Tests of what encoders write: octets from worked examples, sizes, and refusals. Those of one
//! integer, of a header and of a tag are lines of data, in `vectors`.
use crate::asserts::{Case, done, holds, same};
use bcder::encode::{
    Choice2, Choice3, EncodeError, Nothing, Primitive, PrimitiveContent, Values, WriteError, iter,
    sequence, sequence_as, set, set_as, slice,
};
use bcder::{Integer, Mode, Oid, Tag, Unsigned};
use std::io;
use std::io::{ErrorKind, Write};
use std::process::Abort;
use support::encoders::{Nulls, Zeros};

/// Asserts that the values are written as these octets, and that `encoded_len` is their number.
fn writes<V: Values>(case: &Case<'_, impl Abort>, values: &V, mode: Mode, wanted: &[u8])
    requires { V.can_encode values.now }
{
    let mut target = Vec::new(case.alloc);
    case.holds(values.write_encoded(mode, &mut target).is_ok());
    case.holds(target.as_slice() == wanted);
    case.same(values.encoded_len(mode), Ok(wanted.len()));
}

/// Asserts that the values are refused for this reason, and nothing is written.
fn refuses<V: Values>(case: &Case<'_, impl Abort>, values: &V, mode: Mode, wanted: EncodeError)
    requires { V.can_encode values.now }
{
    let mut target = Vec::new(case.alloc);
    match values.write_encoded(mode, &mut target) {
        Err(WriteError::Refused(error)) => case.same(error, wanted),
        _ => case.holds(false),
    }
    case.holds(target.is_empty());
    case.same(values.encoded_len(mode), Err(wanted));
}

/// What an encoder does in a mode.
#[derive(Clone, Copy)]
pub enum Wanted<'a> {
    /// It writes these octets.
    Octets(&'a [u8]),

    /// It would write this number of octets, which isn't tried.
    Size(usize),

    /// It refuses for this reason.
    Refused(EncodeError),

    /// It isn't tried.
    Any,
}

/// Asserts what the values do in a mode.
fn is_wanted<V: Values>(case: &Case<'_, impl Abort>, values: &V, mode: Mode, wanted: Wanted<'_>)
    requires { V.can_encode values.now }
{
    match wanted {
        Wanted::Octets(octets) => writes(case, values, mode, octets),
        Wanted::Size(len) => case.same(values.encoded_len(mode), Ok(len)),
        Wanted::Refused(error) => refuses(case, values, mode, error),
        Wanted::Any => {}
    }
}

/// Asserts what the values do in BER, CER and DER.
pub fn are_wanted<V: Values>(case: &Case<'_, impl Abort>, values: &V, wanted: [Wanted<'_>; 3])
    requires { V.can_encode values.now }
{
    let [ber, cer, der] = wanted;
    is_wanted(case, values, Mode::Ber, ber);
    is_wanted(case, values, Mode::Cer, cer);
    is_wanted(case, values, Mode::Der, der);
}

/// Known values.
#[derive(Clone, Copy)]
enum Known {
    Four,
    Sequence,
    Absent,
    Explicit,
    Sets,
    Mapped,
    List,
    Third,
    Octets,
    OctetsRef,
    NumberRefAs,
    Unsigned,
    Integer,
    Identifier,
    End,
    EndInside,
    EndOutside,
    Zeros(usize),
    NoZerosAs,
    ZerosInside(usize),
    Nulls(usize),
    NullsAndNothing(usize),
    NullsAndTrue(usize),
    NullsInside(usize),
}

/// Half of what a `usize` holds, rounded down.
const HALF: usize = 9223372036854775807;

const LONG: Wanted<'_> = Wanted::Refused(EncodeError::LengthTooLarge);

const OVER: Wanted<'_> = Wanted::Refused(EncodeError::SizeOverflow);

const MARKER: Wanted<'_> = Wanted::Refused(EncodeError::EndOfValueTag);

/// Known values, and what they do in BER, CER and DER. Constructed values have a definite length in
/// BER and DER, and an indefinite one in CER. Four length octets suffice below 2^32, and the
/// indefinite form for any number of octets. A length is checked before a sum.
const LINES: [(Known, [Wanted<'_>; 3]); 29] = [
    (
        Known::Four,
        [Wanted::Octets(&[
            0x02, 0x01, 0x00, 0x02, 0x01, 0x01, 0x02, 0x01, 0x02, 0x02, 0x01, 0x03,
        ]); 3],
    ),
    (
        Known::Sequence,
        [
            Wanted::Octets(&[0x30, 0x06, 0x01, 0x01, 0xFF, 0x02, 0x01, 0x05]),
            Wanted::Octets(&[0x30, 0x80, 0x01, 0x01, 0xFF, 0x02, 0x01, 0x05, 0x00, 0x00]),
            Wanted::Octets(&[0x30, 0x06, 0x01, 0x01, 0xFF, 0x02, 0x01, 0x05]),
        ],
    ),
    (
        Known::Absent,
        [
            Wanted::Octets(&[0x30, 0x03, 0x80, 0x01, 0x07]),
            Wanted::Octets(&[0x30, 0x80, 0x80, 0x01, 0x07, 0x00, 0x00]),
            Wanted::Octets(&[0x30, 0x03, 0x80, 0x01, 0x07]),
        ],
    ),
    (
        Known::Explicit,
        [
            Wanted::Octets(&[0xA1, 0x03, 0x02, 0x01, 0x05]),
            Wanted::Octets(&[0xA1, 0x80, 0x02, 0x01, 0x05, 0x00, 0x00]),
            Wanted::Octets(&[0xA1, 0x03, 0x02, 0x01, 0x05]),
        ],
    ),
    (
        Known::Sets,
        [
            Wanted::Octets(&[
                0x31, 0x02, 0x05, 0x00, 0xA0, 0x03, 0x01, 0x01, 0x00, 0xA2, 0x00,
            ]),
            Wanted::Octets(&[
                0x31, 0x80, 0x05, 0x00, 0x00, 0x00, 0xA0, 0x80, 0x01, 0x01, 0x00, 0x00, 0x00, 0xA2,
                0x80, 0x00, 0x00,
            ]),
            Wanted::Octets(&[
                0x31, 0x02, 0x05, 0x00, 0xA0, 0x03, 0x01, 0x01, 0x00, 0xA2, 0x00,
            ]),
        ],
    ),
    (
        Known::Mapped,
        [Wanted::Octets(&[0x02, 0x01, 0x01, 0x02, 0x01, 0x02, 0x02, 0x01, 0x03]); 3],
    ),
    (
        Known::List,
        [Wanted::Octets(&[0x02, 0x01, 0x05, 0x02, 0x01, 0x06]); 3],
    ),
    (
        Known::Third,
        [Wanted::Octets(&[0x02, 0x01, 0x05, 0x02, 0x01, 0x06]); 3],
    ),
    (
        Known::Octets,
        [Wanted::Octets(&[0x04, 0x02, 0x61, 0x62]); 3],
    ),
    (
        Known::OctetsRef,
        [Wanted::Octets(&[0x04, 0x02, 0x61, 0x62]); 3],
    ),
    (
        Known::NumberRefAs,
        [Wanted::Octets(&[0x83, 0x02, 0x01, 0x2C]); 3],
    ),
    (
        Known::Unsigned,
        [Wanted::Octets(&[0x02, 0x05, 0x00, 0xDE, 0xAD, 0xBE, 0xEF]); 3],
    ),
    (
        Known::Integer,
        [Wanted::Octets(&[0x02, 0x03, 0xFF, 0x7F, 0xFF]); 3],
    ),
    (
        Known::Identifier,
        [Wanted::Octets(&[0x06, 0x03, 0x55, 0x1D, 0x13]); 3],
    ),
    (Known::End, [MARKER; 3]),
    (Known::EndInside, [MARKER; 3]),
    (Known::EndOutside, [MARKER; 3]),
    (
        Known::Zeros(3),
        [Wanted::Octets(&[0x04, 0x03, 0x00, 0x00, 0x00]); 3],
    ),
    (Known::NoZerosAs, [Wanted::Octets(&[0x80, 0x00]); 3]),
    (
        Known::Nulls(2),
        [Wanted::Octets(&[0x05, 0x00, 0x05, 0x00]); 3],
    ),
    (Known::Nulls(0), [Wanted::Octets(&[]); 3]),
    (Known::Zeros(4294967295), [Wanted::Size(4294967301); 3]),
    (Known::Zeros(4294967296), [LONG; 3]),
    (
        Known::ZerosInside(4294967295),
        [LONG, Wanted::Size(4294967305), LONG],
    ),
    (
        Known::NullsAndNothing(HALF),
        [Wanted::Size(18446744073709551614); 3],
    ),
    (Known::NullsAndTrue(HALF), [OVER; 3]),
    (Known::Nulls(9223372036854775808), [OVER; 3]),
    (Known::NullsInside(HALF), [LONG, OVER, LONG]),
    (
        Known::NullsInside(0),
        [
            Wanted::Octets(&[0x30, 0x00]),
            Wanted::Octets(&[0x30, 0x80, 0x00, 0x00]),
            Wanted::Octets(&[0x30, 0x00]),
        ],
    ),
];

/// Checks values in a row, constructed ones, and those that aren't there.
fn check_constructed(case: &Case<'_, impl Abort>, known: Known, wanted: [Wanted<'_>; 3]) {
    match known {
        Known::Four => {
            let values = (0u8.encode(), 1u8.encode(), 2u8.encode(), 3u8.encode());
            are_wanted(case, &values, wanted)
        }
        Known::Sequence => are_wanted(case, &sequence((true.encode(), 5u8.encode())), wanted),
        Known::Absent => {
            let values = sequence((None::<Nothing>, Nothing, 7u16.encode_as(Tag::CTX_0)));
            are_wanted(case, &values, wanted)
        }
        Known::Explicit => are_wanted(case, &5u8.encode().explicit(Tag::CTX_1), wanted),
        _ => {
            let values = (
                set(().encode()),
                set_as(Tag::CTX_0, false.encode()),
                sequence_as(Tag::CTX_2, Nothing),
            );
            are_wanted(case, &values, wanted)
        }
    }
}

/// An INTEGER, or nothing.
type Either = Choice2<Primitive<u8>, Nothing>;

/// Returns five, nothing, and six.
fn list(case: &Case<'_, impl Abort>) -> Vec<Either> {
    let mut list: Vec<Either> = Vec::new(case.alloc);
    case.done(list.push(Choice2::One(5u8.encode())));
    case.done(list.push(Choice2::Two(Nothing)));
    case.done(list.push(Choice2::One(6u8.encode())));
    list
}

/// Checks items through a closure, lists, and one of three.
fn check_list(case: &Case<'_, impl Abort>, known: Known, wanted: [Wanted<'_>; 3]) {
    match known {
        Known::Mapped => {
            let values = slice([1u8, 2, 3], |x: &u8| (*x).encode());
            are_wanted(case, &values, wanted)
        }
        Known::List => are_wanted(case, &list(case).as_slice(), wanted),
        _ => {
            let third: Choice3<Nothing, Nothing, Vec<Either>> = Choice3::Three(list(case));
            are_wanted(case, &&third, wanted)
        }
    }
}

/// Asserts what the contents octets of a primitive value are, and that it is written so.
fn check_content<P: PrimitiveContent + Drop>(
    case: &Case<'_, impl Abort>,
    content: P,
    octets: &[u8],
    wanted: [Wanted<'_>; 3],
) {
    let contents = case.done(content.to_encoded_bytes(case.alloc, Mode::Der));
    case.same(contents.as_slice(), octets);
    are_wanted(case, &content.encode(), wanted);
}

/// Asserts what a primitive value does by reference.
fn check_ref<P: PrimitiveContent>(
    case: &Case<'_, impl Abort>,
    content: &P,
    wanted: [Wanted<'_>; 3],
) {
    are_wanted(case, &content.encode_ref(), wanted);
}

/// Asserts what octets do as a primitive value.
fn check_octets(case: &Case<'_, impl Abort>, octets: &Primitive<&[u8]>, wanted: [Wanted<'_>; 3]) {
    are_wanted(case, octets, wanted);
}

/// Checks primitive values.
fn check_primitive(case: &Case<'_, impl Abort>, known: Known, wanted: [Wanted<'_>; 3]) {
    let octets: &[u8] = &[0x61, 0x62];
    match known {
        Known::Octets => check_content(case, octets, octets, wanted),
        Known::OctetsRef => check_ref(case, &octets, wanted),
        Known::NumberRefAs => {
            let number = 300u16;
            are_wanted(case, &number.encode_ref_as(Tag::CTX_3), wanted);
            let contents = case.done(number.to_encoded_bytes(case.alloc, Mode::Der));
            case.same(contents.as_slice(), &[0x01, 0x2C]);
        }
        _ => {
            let octets: &[u8] = &[0x55, 0x1D, 0x13];
            check_content(case, Oid(octets), octets, wanted)
        }
    }
}

/// Checks integers whose octets are kept.
fn check_kept(case: &Case<'_, impl Abort>, known: Known, wanted: [Wanted<'_>; 3]) {
    match known {
        Known::Unsigned => {
            let octets = [0x00, 0x00, 0xDE, 0xAD, 0xBE, 0xEF];
            let number = case.done(Unsigned::from_slice(case.alloc, &octets));
            check_content(case, &number, &octets[1..], wanted)
        }
        _ => {
            let number = case.done(Integer::from_i128(case.alloc, -32769));
            check_content(case, &number, &[0xFF, 0x7F, 0xFF], wanted)
        }
    }
}

/// Checks values with the tag of the end-of-contents octets.
fn check_end(case: &Case<'_, impl Abort>, known: Known, wanted: [Wanted<'_>; 3]) {
    let end = true.encode_as(Tag::END_OF_VALUE);
    match known {
        Known::End => are_wanted(case, &end, wanted),
        Known::EndInside => are_wanted(case, &sequence((5u8.encode(), end)), wanted),
        _ => are_wanted(case, &sequence_as(Tag::END_OF_VALUE, Nothing), wanted),
    }
}

/// Checks values of any size.
fn check_sized(case: &Case<'_, impl Abort>, known: Known, wanted: [Wanted<'_>; 3]) {
    match known {
        Known::Zeros(count) => are_wanted(case, &Zeros(count).encode(), wanted),
        Known::NoZerosAs => are_wanted(case, &Zeros(0).encode_as(Tag::CTX_0), wanted),
        Known::ZerosInside(count) => are_wanted(case, &sequence(Zeros(count).encode()), wanted),
        Known::Nulls(count) => are_wanted(case, &Nulls(count), wanted),
        Known::NullsAndNothing(count) => are_wanted(case, &(Nulls(count), Nothing), wanted),
        Known::NullsAndTrue(count) => are_wanted(case, &(Nulls(count), true.encode()), wanted),
        Known::NullsInside(count) => are_wanted(case, &sequence(Nulls(count)), wanted),
        _ => case.holds(false),
    }
}

/// Checks a line.
fn check_line(case: &Case<'_, impl Abort>, known: Known, wanted: [Wanted<'_>; 3]) {
    match known {
        Known::Four | Known::Sequence | Known::Absent | Known::Explicit | Known::Sets => {
            check_constructed(case, known, wanted)
        }
        Known::Mapped | Known::List | Known::Third => check_list(case, known, wanted),
        Known::Octets | Known::OctetsRef | Known::NumberRefAs | Known::Identifier => {
            check_primitive(case, known, wanted)
        }
        Known::Unsigned | Known::Integer => check_kept(case, known, wanted),
        Known::End | Known::EndInside | Known::EndOutside => check_end(case, known, wanted),
        _ => check_sized(case, known, wanted),
    }
}

#[test]
fn known_values(rt: HostRuntime) {
    for (row, (known, wanted)) in LINES.iter().enumerate() {
        check_line(&Case::new(&rt, rt.alloc(), row), *known, *wanted);
    }
}

#[test]
fn items_of_an_iterator(rt: HostRuntime) {
    let numbers = [5u8, 1, 3];
    let mut items = Vec::new(rt.alloc());
    for number in iter(numbers.iter()) {
        done(&rt, items.push(*number));
    }
    holds(&rt, items.as_slice() == numbers.as_slice());
}

/// Checks that a primitive string in CER has at most 1000 contents octets (X.690, 9.2).
#[test]
fn long_octets_in_cer(rt: HostRuntime) {
    let case = Case::new(&rt, rt.alloc(), 0);
    let zeros = [0u8; 1001];
    let long: &[u8] = &zeros;
    let mut short = done(&rt, [0x04, 0x82, 0x03, 0xE8].to_vec(rt.alloc()));
    done(&rt, short.extend_from_slice(&zeros[..1000]));
    let short = [Wanted::Any, Wanted::Octets(&short), Wanted::Any];
    check_octets(&case, &(&zeros[..1000]).encode(), short);
    let mut whole = done(&rt, [0x04, 0x82, 0x03, 0xE9].to_vec(rt.alloc()));
    done(&rt, whole.extend_from_slice(&zeros));
    let refused = Wanted::Refused(EncodeError::LongCerPrimitive);
    let whole = Wanted::Octets(&whole);
    check_octets(&case, &long.encode(), [whole, refused, whole]);
    check_octets(&case, &long.encode_as(Tag::END_OF_VALUE), [MARKER; 3]);
}

/// A target that takes nothing.
#[derive(Clone, Copy, Drop)]
struct Full;

impl Write for Full {
    fn write(&mut self, _buf: &[u8]) -> io::Result<usize> {
        Ok(0)
    }

    fn flush(&mut self) -> io::Result<()> {
        Ok(())
    }
}

#[test]
fn a_target_that_takes_nothing(rt: HostRuntime) {
    match true.encode().write_encoded(Mode::Ber, &mut Full) {
        Err(WriteError::Target(error)) => same(&rt, error.kind(), ErrorKind::WriteZero),
        _ => holds(&rt, false),
    }
    holds(&rt, Nothing.write_encoded(Mode::Ber, &mut Full).is_ok());
}
