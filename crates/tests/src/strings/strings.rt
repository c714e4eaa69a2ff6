//! Tests of octet strings that are read: how long their segments may be, how deep they may be
//! nested, and what is left if none is read. What a row of octets holds is data, in `vectors`.
#![tactic(auto, using(bcder::specs::laws::Moved::steps))]

ghost use Rattle.bcder.specs.calls.Views.{Moved};

use crate::asserts::Case;
use crate::over::{check_all, check_over};
use crate::reading::{Line, Look, Wanted, check_failing};
use bcder::decode::{Constructed, ContentError, DecodeError, Source};
use bcder::{Mode, OctetString, Tag};
use std::alloc::Global;
use std::process::Abort;

/// Appends a segment of zeros: identifier octets, length octets and contents octets.
fn put_segment(case: &Case<'_, impl Abort>, octets: &mut Vec<u8>, len: usize) {
    let high = (len / 256 % 256) as u8;
    let low = (len % 256) as u8;
    if len < 128 {
        case.done(octets.extend_from_slice(&[0x04, low]));
    } else if len < 256 {
        case.done(octets.extend_from_slice(&[0x04, 0x81, low]));
    } else {
        case.done(octets.extend_from_slice(&[0x04, 0x82, high, low]));
    }
    for _ in 0..len {
        case.done(octets.push(0x00));
    }
}

/// Returns a string of indefinite length, cut into segments of these lengths.
fn cut(case: &Case<'_, impl Abort>, lens: &[usize]) -> Vec<u8> {
    let mut octets = Vec::new(case.alloc);
    case.done(octets.extend_from_slice(&[0x24, 0x80]));
    for len in lens {
        put_segment(case, &mut octets, *len);
    }
    case.done(octets.extend_from_slice(&[0x00, 0x00]));
    octets
}

/// Returns whether the parts of a string have these lengths, and are zeros.
fn has_parts(string: &OctetString, lens: &[usize]) -> bool {
    let mut parts = string.iter();
    for len in lens {
        match parts.next() {
            Some(part) => {
                if part.len() != *len || !part.iter().all(|octet| *octet == 0x00) {
                    return false;
                }
            }
            None => return false,
        }
    }
    parts.next().is_none()
}

/// What is read.
#[derive(Clone, Copy)]
enum Way<'a> {
    /// A string of parts of these lengths, all zeros.
    Parts(&'a [usize]),

    /// These octets in one piece.
    Piece(&'a [u8]),

    /// The octet `a` in one part.
    Nested,

    /// A string whose segments stand here.
    Table(&'a str),

    /// A string of so many parts.
    Count(usize),

    /// The content of a value with the tag `[0]`, which is a string of these octets.
    Content(&'a [u8]),

    /// The string `a`, and behind it `abc` with the tag `[0]`.
    Second,

    /// No string, where the INTEGER 5 is, nor behind it.
    Absent,
}

/// Returns whether the debug text of a string has this in it.
fn is_debugged(alloc: Global, string: &OctetString, text: &str) -> bool {
    match format!(in alloc; "{string:?}") {
        Ok(shown) => shown.contains(text),
        Err(_) => false,
    }
}

/// Returns whether a string is as it should be.
fn is_right(alloc: Global, string: &OctetString, way: Way<'_>) -> bool {
    match way {
        Way::Parts(lens) => has_parts(string, lens) && string.as_slice().is_none(),
        Way::Piece(octets) => string.as_slice() == Some(octets),
        Way::Nested => {
            let mut parts = string.iter();
            parts.next() == Some(b"a".as_slice()) && parts.next().is_none()
        }
        Way::Table(text) => is_debugged(alloc, string, text),
        Way::Count(parts) => string.iter().count() == parts,
        Way::Content(octets) => string.eq_octets(octets),
        _ => false,
    }
}

/// Returns whether a call was refused since the next value has another tag.
fn expects<T: Drop, E: Drop>(outcome: Result<T, DecodeError<E>>, tag: Tag) -> bool {
    match outcome {
        Ok(_) => false,
        Err(error) => match error.content_error() {
            Some(ContentError::ExpectedTag(expected)) => *expected == tag,
            _ => false,
        },
    }
}

/// Takes the INTEGER 5. Returns whether no string is taken before it, nor behind it.
fn take_five<S: Source>(
    alloc: Global,
    cons: &mut Constructed<'_, S>,
) -> Result<bool, DecodeError<S::Error>>
    ensures { Moved S.stream cons }
{
    let absent = OctetString::take_opt_from(alloc, cons)?.is_none();
    let refused = OctetString::take_from(alloc, cons);
    let expected = expects(refused, Tag::OCTET_STRING);
    let five = cons.take_u8()? == 5;
    let none = OctetString::take_opt_from(alloc, cons)?.is_none();
    Ok(absent & expected & five & none)
}

/// Takes two strings. Returns whether they are `a`, and `abc` with the tag `[0]`.
fn take_two<S: Source>(
    alloc: Global,
    cons: &mut Constructed<'_, S>,
) -> Result<bool, DecodeError<S::Error>>
    ensures { Moved S.stream cons }
{
    let absent = OctetString::take_opt_if(alloc, cons, Tag::CTX_0)?.is_none();
    let first = OctetString::take_from(alloc, cons)?.eq_octets(b"a");
    let second = match OctetString::take_opt_if(alloc, cons, Tag::CTX_0)? {
        Some(string) => string.eq_octets(b"abc"),
        None => false,
    };
    Ok(absent & first & second)
}

impl Look for Way<'_> {
    fn look<S: Source>(
        &mut self,
        alloc: Global,
        cons: &mut Constructed<'_, S>,
    ) -> Result<bool, DecodeError<S::Error>> {
        let string = match self {
            Way::Absent => return take_five(alloc, cons),
            Way::Second => return take_two(alloc, cons),
            Way::Content(_) => cons.take_value_if(
                Tag::CTX_0,
                |content| OctetString::from_content(alloc, content),
            )?,
            _ => OctetString::take_from(alloc, cons)?,
        };
        Ok(is_right(alloc, &string, *self))
    }
}

/// What a string comes to that is read in a mode, or isn't one there. It is all of the source.
fn wanted(read: bool) -> Wanted<'static> {
    if read {
        Wanted::Left(0)
    } else {
        Wanted::Refused
    }
}

/// Lengths of segments, and whether CER allows them (X.690, 9.2). BER allows any, and DER none.
const CUTS: [(&[usize], bool); 16] = [
    (&[], false),
    (&[0], false),
    (&[1], false),
    (&[999], false),
    (&[1000], false),
    (&[1001], false),
    (&[1000, 0], false),
    (&[1000, 1], true),
    (&[1000, 1000], true),
    (&[1000, 1001], false),
    (&[999, 1], false),
    (&[127, 128, 255, 256], false),
    (&[1000, 1, 1000], false),
    (&[1000, 999, 1], false),
    (&[1000, 1000, 500], true),
    (&[1000, 1000, 0], false),
];

#[test]
fn segments_have_a_length_in_each_mode(rt: HostRuntime) {
    for (row, (lens, strict)) in CUTS.iter().enumerate() {
        let list = cut(&Case::new(&rt, rt.alloc(), row), *lens);
        for (mode, read) in [(Mode::Ber, true), (Mode::Cer, *strict), (Mode::Der, false)] {
            let line = Line(mode, list.as_slice(), Way::Parts(*lens), wanted(read));
            check_over(&rt, rt.alloc(), row, &line);
        }
    }
}

/// How many octets a string in one piece may have in CER (X.690, 9.2). In BER and DER it may have
/// any number.
const WHOLE: [(usize, bool); 8] = [
    (0, true),
    (127, true),
    (128, true),
    (999, true),
    (1000, true),
    (1001, false),
    (2000, false),
    (65535, false),
];

#[test]
fn one_piece_has_a_length_in_each_mode(rt: HostRuntime) {
    for (row, (len, strict)) in WHOLE.iter().enumerate() {
        let mut list = Vec::new(rt.alloc());
        put_segment(&Case::new(&rt, rt.alloc(), row), &mut list, *len);
        let contents = &list[list.len().saturating_sub(*len)..];
        for (mode, read) in [(Mode::Ber, true), (Mode::Cer, *strict), (Mode::Der, true)] {
            let line = Line(mode, list.as_slice(), Way::Piece(contents), wanted(read));
            check_over(&rt, rt.alloc(), row, &line);
        }
    }
}

/// The depth of the nested segments.
const LEVELS: usize = 100_000;

/// Returns segments of indefinite length, each inside the one before it, around the octet `a`.
fn nested(case: &Case<'_, impl Abort>) -> Vec<u8> {
    let mut octets = Vec::new(case.alloc);
    for _ in 0..LEVELS {
        case.done(octets.extend_from_slice(&[0x24, 0x80]));
    }
    case.done(octets.extend_from_slice(&[0x04, 0x01, 0x61]));
    for _ in 0..LEVELS {
        case.done(octets.extend_from_slice(&[0x00, 0x00]));
    }
    octets
}

/// Nested segments are one part in BER, and no string in CER and DER.
#[test]
fn segments_may_be_nested_to_any_depth(rt: HostRuntime) {
    let list = nested(&Case::new(&rt, rt.alloc(), 0));
    for (row, mode) in [Mode::Ber, Mode::Cer, Mode::Der].iter().enumerate() {
        let line = Line(
            *mode,
            list.as_slice(),
            Way::Nested,
            wanted(*mode == Mode::Ber),
        );
        check_over(&rt, rt.alloc(), row, &line);
    }
}

/// The INTEGER 5.
const FIVE: &[u8] = &[0x02, 0x01, 0x05];

/// A string in one piece, in a segment, and in segments, of which one is constructed; they have the
/// tag of octet strings. Then segments with the tag `[0]`, and a value with the tag `[1]`.
const PIECE: &[u8] = &[0x80, 0x01, 0x61];

const SEGMENT: &[u8] = &[0xA0, 0x03, 0x04, 0x01, 0x61];

const SEGMENTS: &[u8] = &[
    0xA0, 0x80, 0x04, 0x01, 0x61, 0x24, 0x03, 0x04, 0x01, 0x62, 0x00, 0x00,
];

const TAGGED: &[u8] = &[0xA0, 0x03, 0x80, 0x01, 0x61];

const OTHER: &[u8] = &[0xA1, 0x03, 0x04, 0x01, 0x61];

/// Where two empty segments stand, and one that isn't.
const EMPTY_PARTS: &str =
    "[Segment { start: 2, len: 0 }, Segment { start: 4, len: 0 }, Segment { start: 6, len: 1 }]";

/// Strings under another tag have the segments of octet strings (X.690, 8.7.3, 10.2).
const LINES: [Line<'_, Way<'_>>; 20] = [
    Line(Mode::Ber, PIECE, Way::Content(b"a"), Wanted::Right),
    Line(Mode::Der, PIECE, Way::Content(b"a"), Wanted::Right),
    Line(Mode::Ber, SEGMENT, Way::Content(b"a"), Wanted::Right),
    Line(Mode::Der, SEGMENT, Way::Content(&[]), Wanted::Refused),
    Line(Mode::Ber, SEGMENTS, Way::Content(b"ab"), Wanted::Right),
    Line(Mode::Der, SEGMENTS, Way::Content(&[]), Wanted::Refused),
    Line(Mode::Ber, TAGGED, Way::Content(&[]), Wanted::Refused),
    Line(Mode::Der, TAGGED, Way::Content(&[]), Wanted::Refused),
    Line(Mode::Ber, OTHER, Way::Content(&[]), Wanted::Refused),
    Line(Mode::Der, OTHER, Way::Content(&[]), Wanted::Refused),
    Line(
        Mode::Ber,
        &[
            0x04, 0x01, 0x61, 0xA0, 0x07, 0x04, 0x01, 0x61, 0x04, 0x02, 0x62, 0x63,
        ],
        Way::Second,
        Wanted::Right,
    ),
    Line(
        Mode::Der,
        &[0x04, 0x01, 0x61, 0x80, 0x03, 0x61, 0x62, 0x63],
        Way::Second,
        Wanted::Right,
    ),
    Line(
        Mode::Der,
        &[
            0x04, 0x01, 0x61, 0xA0, 0x07, 0x04, 0x01, 0x61, 0x04, 0x02, 0x62, 0x63,
        ],
        Way::Second,
        Wanted::Refused,
    ),
    Line(
        Mode::Ber,
        &[
            0x04, 0x01, 0x61, 0xA0, 0x07, 0x80, 0x01, 0x61, 0x80, 0x02, 0x62, 0x63,
        ],
        Way::Second,
        Wanted::Refused,
    ),
    Line(Mode::Ber, FIVE, Way::Absent, Wanted::Right),
    Line(Mode::Cer, FIVE, Way::Absent, Wanted::Right),
    Line(Mode::Der, FIVE, Way::Absent, Wanted::Right),
    // where the segments of a string stand
    Line(Mode::Ber, &[0x24, 0x00], Way::Table("[]"), Wanted::Left(0)),
    Line(
        Mode::Ber,
        &[0x24, 0x07, 0x04, 0x00, 0x04, 0x00, 0x04, 0x01, 0x61],
        Way::Table(EMPTY_PARTS),
        Wanted::Left(0),
    ),
    Line(
        Mode::Ber,
        &[
            0x24, 0x0A, 0x04, 0x01, 0x61, 0x24, 0x80, 0x04, 0x01, 0x62, 0x00, 0x00,
        ],
        Way::Table("[Segment { start: 2, len: 1 }, Segment { start: 7, len: 1 }]"),
        Wanted::Left(0),
    ),
];

#[test]
fn strings_of_any_tag(rt: HostRuntime) {
    check_all(&rt, rt.alloc(), &LINES);
}

/// Strings that are read from sources that fail, and octets that aren't strings.
const INPUTS: [Line<'_, Way<'_>>; 5] = [
    Line(
        Mode::Der,
        &[0x04, 0x03, 0x61, 0x62, 0x63],
        Way::Count(1),
        Wanted::Right,
    ),
    Line(
        Mode::Ber,
        &[
            0x24, 0x80, 0x04, 0x01, 0x61, 0x24, 0x80, 0x04, 0x01, 0x62, 0x00, 0x00, 0x00, 0x00,
        ],
        Way::Count(2),
        Wanted::Right,
    ),
    Line(
        Mode::Ber,
        &[0x24, 0x07, 0x04, 0x00, 0x04, 0x00, 0x04, 0x01, 0x61],
        Way::Count(3),
        Wanted::Right,
    ),
    Line(
        Mode::Ber,
        &[0x24, 0x02, 0x05, 0x00],
        Way::Count(0),
        Wanted::Refused,
    ),
    Line(
        Mode::Cer,
        &[0x24, 0x80, 0x00, 0x00],
        Way::Count(0),
        Wanted::Refused,
    ),
];

#[test]
fn a_failing_source_is_told(rt: HostRuntime) {
    for (row, line) in INPUTS.iter().enumerate() {
        check_failing(&rt, rt.alloc(), row, line);
    }
}
