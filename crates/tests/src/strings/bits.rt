//! Tests of bit strings: worked values, as they are read and written.
#![tactic(auto, using(bcder::specs::laws::Moved::steps))]

ghost use Rattle.bcder.specs.calls.Views.{Moved, MovedContent};

use crate::asserts::Case;
use crate::encodes::{self, are_wanted};
use crate::over::{check_over, shared};
use crate::reading::{Line, Look, Wanted};
use bcder::decode::{Constructed, Content, DecodeError, Source};
use bcder::encode::{EncodeError, Primitive, PrimitiveContent};
use bcder::string::BitSliceEncoder;
use bcder::{BitString, Mode, Tag};
use bytes::Bytes;
use std::alloc::Global;
use std::process::Abort;

// ---- reading

/// A reader of a BIT STRING.
#[derive(Clone, Copy)]
enum Way {
    Take,
    FromContent,
    Skip,
    SkipContent,
}

const WAYS: [Way; 4] = [Way::Take, Way::FromContent, Way::Skip, Way::SkipContent];

/// Reads content, or skips it and returns `None`.
fn read_content<S: Source>(
    alloc: Global,
    content: &mut Content<'_, S>,
    way: Way,
) -> Result<Option<BitString>, DecodeError<S::Error>>
    ensures { MovedContent S.stream content }
{
    match way {
        Way::FromContent => Ok(Some(BitString::from_content(alloc, content)?)),
        _ => {
            BitString::skip_content(content)?;
            Ok(None)
        }
    }
}

/// Reads the next value, or skips it and returns `None`.
fn read<S: Source>(
    alloc: Global,
    cons: &mut Constructed<'_, S>,
    way: Way,
) -> Result<Option<BitString>, DecodeError<S::Error>>
    ensures { Moved S.stream cons }
{
    match way {
        Way::Take => Ok(Some(BitString::take_from(alloc, cons)?)),
        Way::Skip => {
            BitString::skip_in(cons)?;
            Ok(None)
        }
        _ => cons.take_value_if(Tag::BIT_STRING, |content| read_content(alloc, content, way)),
    }
}

/// A reader, and the unused count and the octets with the bits that it finds.
#[derive(Clone, Copy)]
struct Found<'a>(Way, u8, &'a [u8]);

impl Found<'_> {
    /// Returns whether a bit string that was read is as it should be.
    fn is(self, bits: &BitString) -> bool {
        match bits.octet_bytes() {
            Ok(octets) => bits.unused() == self.1 && octets.as_slice() == self.2,
            Err(_) => false,
        }
    }
}

impl Look for Found<'_> {
    fn look<S: Source>(
        &mut self,
        alloc: Global,
        cons: &mut Constructed<'_, S>,
    ) -> Result<bool, DecodeError<S::Error>> {
        match read(alloc, cons, self.0)? {
            Some(bits) => Ok(self.is(&bits)),
            None => Ok(true),
        }
    }
}

/// Octets, whether they are taken in BER, CER and DER, and then the unused count, the octets with
/// the bits, and how many octets are left.
type Row = (&'static [u8], [bool; 3], u8, &'static [u8], usize);

const ALL: [bool; 3] = [true, true, true];

const BER: [bool; 3] = [true, false, false];

const NONE: [bool; 3] = [false, false, false];

/// What bcder is tested with, the example of X.690, 8.6.4.2, and octets that aren't bit strings.
const ROWS: [Row; 20] = [
    (
        &[0x03, 0x07, 0x04, 0x64, 0x65, 0x61, 0x64, 0x62, 0xD0],
        ALL,
        4,
        &[0x64, 0x65, 0x61, 0x64, 0x62, 0xD0],
        0,
    ),
    (
        &[0x03, 0x07, 0x00, 0x64, 0x65, 0x61, 0x64, 0x62, 0xDF],
        ALL,
        0,
        &[0x64, 0x65, 0x61, 0x64, 0x62, 0xDF],
        0,
    ),
    (
        &[0x03, 0x07, 0x07, 0x64, 0x65, 0x61, 0x64, 0x62, 0x80],
        ALL,
        7,
        &[0x64, 0x65, 0x61, 0x64, 0x62, 0x80],
        0,
    ),
    (
        &[0x03, 0x07, 0x04, 0x0A, 0x3B, 0x5F, 0x29, 0x1C, 0xD0],
        ALL,
        4,
        &[0x0A, 0x3B, 0x5F, 0x29, 0x1C, 0xD0],
        0,
    ),
    (&[0x03, 0x01, 0x00], ALL, 0, &[], 0),
    (&[0x03, 0x02, 0x04, 0xF0, 0x05, 0x00], ALL, 4, &[0xF0], 2),
    (&[0x03, 0x02, 0x03, 0xFF], BER, 3, &[0xFF], 0),
    (&[0x03, 0x03, 0x03, 0x00, 0xFF], BER, 3, &[0x00, 0xFF], 0),
    (&[0x03, 0x81, 0x02, 0x04, 0xF0], BER, 4, &[0xF0], 0),
    (&[0x03, 0x01, 0x04], NONE, 0, &[], 0),
    (&[0x03, 0x00], NONE, 0, &[], 0),
    (&[0x03], NONE, 0, &[], 0),
    (&[], NONE, 0, &[], 0),
    (
        &[0x03, 0x07, 0x08, 0x64, 0x65, 0x61, 0x64, 0x62, 0xDF],
        NONE,
        0,
        &[],
        0,
    ),
    (
        &[0x03, 0x07, 0xFF, 0x64, 0x65, 0x61, 0x64, 0x62, 0xDF],
        NONE,
        0,
        &[],
        0,
    ),
    (&[0x03, 0x03, 0x00, 0x01], NONE, 0, &[], 0),
    (&[0x04, 0x01, 0x00], NONE, 0, &[], 0),
    (
        &[
            0x23, 0x80, 0x03, 0x03, 0x00, 0x0A, 0x3B, 0x03, 0x05, 0x04, 0x5F, 0x29, 0x1C, 0xD0,
            0x00, 0x00,
        ],
        NONE,
        0,
        &[],
        0,
    ),
    (&[0x23, 0x03, 0x03, 0x01, 0x00], NONE, 0, &[], 0),
    (&[0x23, 0x00], NONE, 0, &[], 0),
];

/// Each reader returns what the row says, over each source.
#[test]
fn values_that_are_read(rt: HostRuntime) {
    for (number, row) in ROWS.iter().enumerate() {
        let [ber, cer, der] = row.1;
        for (mode, taken) in [(Mode::Ber, ber), (Mode::Cer, cer), (Mode::Der, der)] {
            let wanted = if taken {
                Wanted::Left(row.4)
            } else {
                Wanted::Refused
            };
            for way in WAYS {
                let line = Line(mode, row.0, Found(way, row.2, row.3), wanted);
                check_over(&rt, rt.alloc(), number, &line);
            }
        }
    }
}

/// Returns the octets of `zeros` after a header and an unused count of 0, which are `front`.
fn behind(case: &Case<'_, impl Abort>, front: &[u8], zeros: &[u8]) -> Vec<u8> {
    let mut octets = case.done(front.to_vec(case.alloc));
    case.done(octets.extend_from_slice(zeros));
    octets
}

/// The octets of a bit string after those of its header and its unused count, a mode, and whether
/// they are read.
const LONG: [(usize, Mode, bool); 4] = [
    (999, Mode::Cer, true),
    (1000, Mode::Cer, false),
    (1000, Mode::Ber, true),
    (1000, Mode::Der, true),
];

/// Checks that a primitive string in CER has at most 1000 contents octets (X.690, 9.2).
#[test]
fn long_values_that_are_read(rt: HostRuntime) {
    let zeros = [0u8; 1000];
    for (number, (len, mode, taken)) in LONG.iter().enumerate() {
        let zeros = &zeros[..(*len).min(1000)];
        let low = if *len == 999 { 0xE8 } else { 0xE9 };
        let case = Case::new(&rt, rt.alloc(), number);
        let octets = behind(&case, &[0x03, 0x82, 0x03, low, 0x00], zeros);
        let wanted = if *taken {
            Wanted::Left(0)
        } else {
            Wanted::Refused
        };
        for way in [Way::Take, Way::Skip] {
            let line = Line(*mode, octets.as_slice(), Found(way, 0, zeros), wanted);
            check_over(&rt, rt.alloc(), number, &line);
        }
    }
}

// ---- bits

#[test]
fn bits_by_their_places(rt: HostRuntime) {
    let case = Case::new(&rt, rt.alloc(), 0);
    let octets = case.done(Bytes::copy_from_slice(rt.alloc(), &[0xFF, 0xFC]));
    let bits = BitString::new(2, octets);
    for (place, wanted) in [(0, true), (13, true), (14, false), (15, false), (16, false)] {
        case.same(bits.bit(place), wanted);
    }
    for (place, wanted) in [(0, 0xFF), (1, 0xFC), (2, 0x00), (usize::MAX, 0x00)] {
        case.same(bits.octet(place), wanted);
    }
    case.same(bits.bit_len(), 14);
    case.same(bits.octet_len(), 2);
    case.holds(bits.octet_slice() == Some([0xFF, 0xFC].as_slice()));
}

#[test]
fn octets_one_by_one(rt: HostRuntime) {
    let case = Case::new(&rt, rt.alloc(), 0);
    let octets = case.done(Bytes::copy_from_slice(rt.alloc(), &[0x0A, 0x3B, 0x5F]));
    let bits = BitString::new(0, octets);
    let mut found = Vec::new(rt.alloc());
    let mut places = bits.octets();
    case.same(places.next(), Some(0x0A));
    for octet in case.done(places.clone()) {
        case.done(found.push(octet));
    }
    case.holds(found.as_slice() == [0x3B, 0x5F].as_slice());
    case.same(places.count(), 2);
}

/// Returns the bit string that octets are in BER.
fn bits_of(case: &Case<'_, impl Abort>, octets: &[u8]) -> BitString {
    let mut source = shared(case.rt, case.alloc, octets);
    let alloc = case.alloc;
    case.done(Mode::Ber.decode_lent(&mut source, |cons| BitString::take_from(alloc, cons)))
}

/// Checks that unused bits are compared too.
#[test]
fn equal_bit_strings(rt: HostRuntime) {
    let case = Case::new(&rt, rt.alloc(), 0);
    let zeros = bits_of(&case, &[0x03, 0x02, 0x04, 0xF0]);
    let ones = bits_of(&case, &[0x03, 0x02, 0x04, 0xFF]);
    let more = bits_of(&case, &[0x03, 0x02, 0x03, 0xF0]);
    let clone = case.done(zeros.clone());
    case.holds(zeros == clone);
    case.holds(zeros != ones);
    case.holds(zeros != more);
}

// ---- writing

/// Asserts what octets do as a bit string.
fn check_slice(
    case: &Case<'_, impl Abort>,
    bits: &BitSliceEncoder<&[u8]>,
    wanted: [encodes::Wanted<'_>; 3],
) {
    are_wanted(case, bits, wanted);
}

/// Asserts what a bit string does that is handed over.
fn check_owned(case: &Case<'_, impl Abort>, bits: BitString, basic: &[u8], strict: &[u8]) {
    are_wanted(case, &bits.encode(), written(basic, strict));
}

/// Asserts what a bit string does that is lent.
fn check_lent(
    case: &Case<'_, impl Abort>,
    bits: &Primitive<&BitString>,
    wanted: [encodes::Wanted<'_>; 3],
) {
    are_wanted(case, bits, wanted);
}

/// What is written in BER, and in CER and DER.
fn written<'a>(basic: &'a [u8], strict: &'a [u8]) -> [encodes::Wanted<'a>; 3] {
    let strict = encodes::Wanted::Octets(strict);
    [encodes::Wanted::Octets(basic), strict, strict]
}

/// What is refused in CER.
fn refused(error: EncodeError) -> [encodes::Wanted<'static>; 3] {
    let error = encodes::Wanted::Refused(error);
    [encodes::Wanted::Any, error, encodes::Wanted::Any]
}

#[test]
fn unused_bits_as_they_are_written(rt: HostRuntime) {
    let case = Case::new(&rt, rt.alloc(), 0);
    let ones: &[u8] = &[0xFF];
    let (basic, strict) = ([0x03, 0x02, 0x04, 0xFF], [0x03, 0x02, 0x04, 0xF0]);
    check_slice(
        &case,
        &BitString::encode_slice(ones, 4),
        written(&basic, &strict),
    );
    check_owned(&case, bits_of(&case, &basic), &basic, &strict);
}

#[test]
fn bit_strings_of_several_octets(rt: HostRuntime) {
    let case = Case::new(&rt, rt.alloc(), 0);
    let octets: &[u8] = &[0x0A, 0x3B, 0x5F, 0x29, 0x1C, 0xDF];
    let slice = BitString::encode_slice_as(octets, 4, Tag::CTX_2);
    let strict = [0x82, 0x07, 0x04, 0x0A, 0x3B, 0x5F, 0x29, 0x1C, 0xD0];
    let basic = [0x82, 0x07, 0x04, 0x0A, 0x3B, 0x5F, 0x29, 0x1C, 0xDF];
    check_slice(&case, &slice, written(&basic, &strict));
    let none = BitString::encode_slice(&octets[..0], 0);
    check_slice(
        &case,
        &none,
        written(&[0x03, 0x01, 0x00], &[0x03, 0x01, 0x00]),
    );
}

/// Returns a bit string of 999 octets `00` if `few`, else of 1000, without unused bits.
fn zeros_of(case: &Case<'_, impl Abort>, zeros: &[u8; 1000], few: bool) -> BitString {
    let octets = if few { &zeros[..999] } else { &zeros[..] };
    BitString::new(0, case.done(Bytes::copy_from_slice(case.alloc, octets)))
}

/// Checks that a primitive string in CER has at most 1000 contents octets (X.690, 9.2).
#[test]
fn long_slices_in_cer(rt: HostRuntime) {
    let case = Case::new(&rt, rt.alloc(), 0);
    let zeros = [0u8; 1000];
    let wanted = behind(&case, &[0x03, 0x82, 0x03, 0xE8, 0x00], &zeros[..999]);
    case.same(wanted.len(), 1004);
    let short = BitString::encode_slice(&zeros[..999], 0);
    check_slice(&case, &short, written(&wanted, &wanted));
    let long = BitString::encode_slice(&zeros[..], 0);
    check_slice(&case, &long, refused(EncodeError::LongCerBitString));
    let marker = BitString::encode_slice_as(&zeros[..], 0, Tag::END_OF_VALUE);
    check_slice(&case, &marker, refused(EncodeError::EndOfValueTag));
}

#[test]
fn long_bit_strings_in_cer(rt: HostRuntime) {
    let case = Case::new(&rt, rt.alloc(), 0);
    let zeros = [0u8; 1000];
    let wanted = behind(&case, &[0x03, 0x82, 0x03, 0xE8, 0x00], &zeros[..999]);
    check_owned(&case, zeros_of(&case, &zeros, true), &wanted, &wanted);
    let basic = behind(&case, &[0x03, 0x82, 0x03, 0xE9, 0x00], &zeros);
    let long = zeros_of(&case, &zeros, false);
    let whole = encodes::Wanted::Octets(&basic);
    let in_cer = encodes::Wanted::Refused(EncodeError::LongCerPrimitive);
    check_lent(&case, &long.encode_ref(), [whole, in_cer, whole]);
    let marker = long.encode_ref_as(Tag::END_OF_VALUE);
    check_lent(&case, &marker, refused(EncodeError::EndOfValueTag));
}

/// Checks contents octets without a header.
#[test]
fn contents_of_bit_strings(rt: HostRuntime) {
    let case = Case::new(&rt, rt.alloc(), 0);
    let alloc = rt.alloc();
    let bits = bits_of(&case, &[0x03, 0x03, 0x04, 0xFF, 0xFF]);
    for (mode, last) in [(Mode::Ber, 0xFF), (Mode::Cer, 0xF0), (Mode::Der, 0xF0)] {
        let contents = case.done(bits.to_encoded_bytes(alloc, mode));
        case.holds(contents.as_slice() == [0x04, 0xFF, last].as_slice());
    }
    let long = zeros_of(&case, &[0u8; 1000], false);
    match long.to_encoded_bytes(alloc, Mode::Cer) {
        Ok(_) => case.holds(false),
        Err(error) => case.same(error, EncodeError::LongCerPrimitive),
    }
}
