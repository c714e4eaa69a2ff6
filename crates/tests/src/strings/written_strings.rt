//! Tests of what is written of octet strings: in segments, in one piece, as they came, and with
//! values wrapped into one (X.690, 8.7, 9.2, 10.2).
ghost use Rattle.std.specs.Prelude.{◌<◌};

use super::string_octets::{read, read_in, whole};
use crate::asserts::Case;
use crate::encodes::{Wanted, are_wanted};
use bcder::encode::{EncodeError, PrimitiveContent, Values, write_header};
use bcder::string::{OctetSliceEncoder, OctetStringEncoder};
use bcder::{Captured, Mode, OctetString, Tag};
use std::process::Abort;
use support::encoders::{Nulls, Zeros};

/// Returns octets that differ from those near them.
fn octets_of(case: &Case<'_, impl Abort>, len: usize) -> Vec<u8> {
    let mut octets = Vec::new(case.alloc);
    for index in 0..len {
        case.done(octets.push((index % 251) as u8));
    }
    octets
}

/// Returns the first octets after a header, the octets that follow them after the next header, and
/// so on.
fn spell(case: &Case<'_, impl Abort>, octets: &[u8], pieces: &[(&[u8], usize)]) -> Vec<u8> {
    let mut spelled = Vec::new(case.alloc);
    let mut rest = octets;
    for (header, count) in pieces {
        let (piece, behind) = rest.split_at((*count).min(rest.len()));
        case.done(spelled.extend_from_slice(*header));
        case.done(spelled.extend_from_slice(piece));
        rest = behind;
    }
    case.holds(rest.is_empty());
    spelled
}

/// Returns a string of these octets, cut into segments of this length.
fn cut(case: &Case<'_, impl Abort>, octets: &[u8], each: usize) -> OctetString
    requires { 0 < each }
{
    let mut segments = Vec::new(case.alloc);
    for segment in octets.chunks(each) {
        let encoder = OctetString::encode_slice(segment);
        case.holds(encoder.write_encoded(Mode::Ber, &mut segments).is_ok());
    }
    let len = segments.len();
    let mut encoding = Vec::new(case.alloc);
    case.holds(write_header(&mut encoding, Tag::OCTET_STRING, true, len).is_ok());
    case.done(encoding.extend_from_slice(segments.as_slice()));
    read(case, encoding.as_slice())
}

// ---- segments

/// How many octets there are, their header in DER, and their segments in CER.
const SEGMENTED: [(usize, &[u8], &[(&[u8], usize)]); 9] = [
    (0, &[0x04, 0x00], &[(&[0x04, 0x00], 0)]),
    (1, &[0x04, 0x01], &[(&[0x04, 0x01], 1)]),
    (
        1000,
        &[0x04, 0x82, 0x03, 0xE8],
        &[(&[0x04, 0x82, 0x03, 0xE8], 1000)],
    ),
    (
        1001,
        &[0x04, 0x82, 0x03, 0xE9],
        &[
            (&[0x24, 0x80, 0x04, 0x82, 0x03, 0xE8], 1000),
            (&[0x04, 0x01], 1),
            (&[0x00, 0x00], 0),
        ],
    ),
    (
        1127,
        &[0x04, 0x82, 0x04, 0x67],
        &[
            (&[0x24, 0x80, 0x04, 0x82, 0x03, 0xE8], 1000),
            (&[0x04, 0x7F], 127),
            (&[0x00, 0x00], 0),
        ],
    ),
    (
        1128,
        &[0x04, 0x82, 0x04, 0x68],
        &[
            (&[0x24, 0x80, 0x04, 0x82, 0x03, 0xE8], 1000),
            (&[0x04, 0x81, 0x80], 128),
            (&[0x00, 0x00], 0),
        ],
    ),
    (
        1256,
        &[0x04, 0x82, 0x04, 0xE8],
        &[
            (&[0x24, 0x80, 0x04, 0x82, 0x03, 0xE8], 1000),
            (&[0x04, 0x82, 0x01, 0x00], 256),
            (&[0x00, 0x00], 0),
        ],
    ),
    (
        2000,
        &[0x04, 0x82, 0x07, 0xD0],
        &[
            (&[0x24, 0x80, 0x04, 0x82, 0x03, 0xE8], 1000),
            (&[0x04, 0x82, 0x03, 0xE8], 1000),
            (&[0x00, 0x00], 0),
        ],
    ),
    (
        2001,
        &[0x04, 0x82, 0x07, 0xD1],
        &[
            (&[0x24, 0x80, 0x04, 0x82, 0x03, 0xE8], 1000),
            (&[0x04, 0x82, 0x03, 0xE8], 1000),
            (&[0x04, 0x01], 1),
            (&[0x00, 0x00], 0),
        ],
    ),
];

/// Asserts what a string does that is lent.
fn check_lent(
    case: &Case<'_, impl Abort>,
    string: &OctetStringEncoder<&OctetString>,
    wanted: [Wanted<'_>; 3],
) {
    are_wanted(case, string, wanted);
}

/// Asserts what a string does that is handed over.
fn check_owned(
    case: &Case<'_, impl Abort>,
    string: &OctetStringEncoder<OctetString>,
    wanted: [Wanted<'_>; 3],
) {
    are_wanted(case, string, wanted);
}

/// Asserts what octets do as a string.
fn check_slice(
    case: &Case<'_, impl Abort>,
    octets: &OctetSliceEncoder<&[u8]>,
    wanted: [Wanted<'_>; 3],
) {
    are_wanted(case, octets, wanted);
}

/// Checks octets, and strings of them, however these were cut. They are written in segments in CER
/// and in one piece in DER, as octets are in BER. What is written in CER is read, and written back
/// unchanged.
fn check_segments<'x>(case: &Case<'_, impl Abort>, octets: &[u8], cer: &'x [u8], der: &'x [u8]) {
    let (pieces, piece) = (Wanted::Octets(cer), Wanted::Octets(der));
    let strict = [Wanted::Any, pieces, piece];
    check_slice(
        case,
        &OctetString::encode_slice(octets),
        [piece, pieces, piece],
    );
    check_lent(case, &whole(case, octets).encode_ref(), strict);
    for each in [7, 300, 999, 1000, 1001, 3000] {
        check_lent(case, &cut(case, octets, each).encode_ref(), strict);
    }
    let string = read_in(case, Mode::Cer, cer);
    case.holds(string.eq_octets(octets));
    check_owned(case, &string.encode(), [Wanted::Any, pieces, Wanted::Any]);
}

#[test]
fn strings_in_segments(rt: HostRuntime) {
    for (row, (len, header, pieces)) in SEGMENTED.iter().enumerate() {
        let case = Case::new(&rt, rt.alloc(), row);
        let octets = octets_of(&case, *len);
        let cer = spell(&case, &octets, *pieces);
        let der = spell(&case, &octets, &[(*header, *len)]);
        check_segments(&case, &octets, &cer, &der);
    }
}

// ---- as they came

/// A string in BER, and what is written of it in BER, CER and DER.
const CAME: [[&[u8]; 4]; 7] = [
    [
        &[0x24, 0x80, 0x04, 0x02, 0x61, 0x62, 0x00, 0x00],
        &[0x24, 0x04, 0x04, 0x02, 0x61, 0x62],
        &[0x04, 0x02, 0x61, 0x62],
        &[0x04, 0x02, 0x61, 0x62],
    ],
    [&[0x24, 0x00], &[0x24, 0x00], &[0x04, 0x00], &[0x04, 0x00]],
    [
        &[0x24, 0x80, 0x00, 0x00],
        &[0x24, 0x00],
        &[0x04, 0x00],
        &[0x04, 0x00],
    ],
    [
        &[0x24, 0x07, 0x04, 0x00, 0x04, 0x00, 0x04, 0x01, 0x61],
        &[0x24, 0x07, 0x04, 0x00, 0x04, 0x00, 0x04, 0x01, 0x61],
        &[0x04, 0x01, 0x61],
        &[0x04, 0x01, 0x61],
    ],
    [
        &[0x24, 0x81, 0x03, 0x04, 0x01, 0x61],
        &[0x24, 0x03, 0x04, 0x01, 0x61],
        &[0x04, 0x01, 0x61],
        &[0x04, 0x01, 0x61],
    ],
    [
        &[
            0x24, 0x0A, 0x04, 0x01, 0x61, 0x24, 0x80, 0x04, 0x01, 0x62, 0x00, 0x00,
        ],
        &[
            0x24, 0x0A, 0x04, 0x01, 0x61, 0x24, 0x80, 0x04, 0x01, 0x62, 0x00, 0x00,
        ],
        &[0x04, 0x02, 0x61, 0x62],
        &[0x04, 0x02, 0x61, 0x62],
    ],
    [
        &[0x04, 0x81, 0x01, 0x61],
        &[0x04, 0x01, 0x61],
        &[0x04, 0x01, 0x61],
        &[0x04, 0x01, 0x61],
    ],
];

#[test]
fn strings_as_they_came(rt: HostRuntime) {
    for (row, [octets, ber, cer, der]) in CAME.iter().enumerate() {
        let case = Case::new(&rt, rt.alloc(), row);
        let string = read(&case, *octets);
        let (cer, der) = (Wanted::Octets(*cer), Wanted::Octets(*der));
        check_lent(&case, &string.encode_ref(), [Wanted::Any, cer, der]);
        check_owned(
            &case,
            &string.encode(),
            [Wanted::Octets(*ber), Wanted::Any, Wanted::Any],
        );
    }
}

#[test]
fn strings_under_another_tag(rt: HostRuntime) {
    let case = Case::new(&rt, rt.alloc(), 0);
    let octets = [0x24, 0x07, 0x04, 0x00, 0x04, 0x00, 0x04, 0x01, 0x61];
    let string = read(&case, octets.as_slice());
    let basic = Wanted::Octets(&[0xA0, 0x07, 0x04, 0x00, 0x04, 0x00, 0x04, 0x01, 0x61]);
    let strict = Wanted::Octets(&[0x80, 0x01, 0x61]);
    check_lent(
        &case,
        &string.encode_ref_as(Tag::CTX_0),
        [basic, strict, strict],
    );
    let strict = Wanted::Octets(&[0x81, 0x01, 0x61]);
    check_owned(
        &case,
        &string.encode_as(Tag::CTX_1),
        [Wanted::Any, strict, Wanted::Any],
    );
}

// ---- values that are wrapped

#[test]
fn a_value_in_a_string(rt: HostRuntime) {
    let case = Case::new(&rt, rt.alloc(), 0);
    let alloc = rt.alloc();
    let wrapped = OctetString::encode_wrapped(alloc, Mode::Der, true.encode());
    let once = Wanted::Octets(&[0x04, 0x03, 0x01, 0x01, 0xFF]);
    are_wanted(&case, &wrapped, [once; 3]);
    let twice = OctetString::encode_wrapped(alloc, Mode::Cer, &wrapped);
    let octets = Wanted::Octets(&[0x04, 0x05, 0x04, 0x03, 0x01, 0x01, 0xFF]);
    are_wanted(&case, &twice, [Wanted::Any, Wanted::Any, octets]);
}

/// Checks an encoding of 1001 octets, inside a string in CER.
#[test]
fn a_long_value_in_a_string(rt: HostRuntime) {
    let case = Case::new(&rt, rt.alloc(), 0);
    let alloc = rt.alloc();
    let value = octets_of(&case, 997);
    let inner = spell(&case, value.as_slice(), &[(&[0x04, 0x82, 0x03, 0xE5], 997)]);
    let pieces: [(&[u8], usize); 3] = [
        (&[0x24, 0x80, 0x04, 0x82, 0x03, 0xE8], 1000),
        (&[0x04, 0x01], 1),
        (&[0x00, 0x00], 0),
    ];
    let cer = spell(&case, inner.as_slice(), &pieces);
    let der = spell(
        &case,
        inner.as_slice(),
        &[(&[0x04, 0x82, 0x03, 0xE9], 1001)],
    );
    let octets = value.as_slice();
    let wrapped = OctetString::encode_wrapped(alloc, Mode::Der, octets.encode());
    case.same(cer.len(), 1011);
    let (cer, der) = (
        Wanted::Octets(cer.as_slice()),
        Wanted::Octets(der.as_slice()),
    );
    are_wanted(&case, &wrapped, [der, cer, Wanted::Any]);
}

// ---- refusals

#[test]
fn strings_with_the_tag_of_the_end(rt: HostRuntime) {
    let case = Case::new(&rt, rt.alloc(), 0);
    let octets = octets_of(&case, 1001);
    let refused = [Wanted::Refused(EncodeError::EndOfValueTag); 3];
    let slice = OctetString::encode_slice_as(octets.as_slice(), Tag::END_OF_VALUE);
    check_slice(&case, &slice, refused);
    let string = cut(&case, octets.as_slice(), 7).encode_as(Tag::END_OF_VALUE);
    check_owned(&case, &string, refused);
}

#[test]
fn values_that_are_refused_in_a_string(rt: HostRuntime) {
    let case = Case::new(&rt, rt.alloc(), 0);
    let alloc = rt.alloc();
    let long = Wanted::Refused(EncodeError::LengthTooLarge);
    let over = Wanted::Refused(EncodeError::SizeOverflow);
    let other = Captured::empty(alloc, Mode::Ber);
    let wrapped = OctetString::encode_wrapped(alloc, Mode::Der, other);
    let refused = Wanted::Refused(EncodeError::CapturedMode);
    are_wanted(&case, &wrapped, [refused; 3]);
    let wrapped = OctetString::encode_wrapped(alloc, Mode::Der, Zeros(4294967296).encode());
    are_wanted(&case, &wrapped, [long; 3]);
    for (count, in_cer) in [
        (2147483648, Wanted::Size(4312147172)),
        (9223372036854775807, over),
    ] {
        let wrapped = OctetString::encode_wrapped(alloc, Mode::Ber, Nulls(count));
        are_wanted(&case, &wrapped, [long, in_cer, long]);
    }
}
