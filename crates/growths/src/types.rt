//! Types of `asn1`: values that are decoded and encoded again.
use crate::end::{End, answered, refused, tell_all};
use anyhow::Error;
use asn1::{
    Any, Choice2, Context, Decode, Encode, Explicit, ObjectIdentifier, OctetStringRef, Sequence,
    SequenceOf, Set, SetOf, decode, decode_octets, encode,
};
use bcder::decode::SliceSource;
use bcder::encode::EncodeError;
use bcder::string::Utf8String;
use bcder::{BitString, Integer, Mode, OctetString, Tag, Unsigned};
use std::alloc::Global;

/// Decodes octets as a value of the type, and encodes it again.
fn again<T: Decode<SliceSource<'static>> + Encode>(alloc: Global, octets: &'static [u8]) -> End {
    let value = match decode::<T, &'static [u8]>(alloc, Mode::Der, octets) {
        Ok(value) => value,
        Err(error) => return refused(error.is_memory(), true),
    };
    match encode(alloc, Mode::Der, &value) {
        Ok(encoded) => answered(encoded.as_slice() == octets),
        Err(error) => refused(error == EncodeError::NoMemory, true),
    }
}

/// Decodes a string in BER that is cut into two, and encodes it as one.
fn joined(alloc: Global) -> End {
    let cut: &[u8] = &[0x24, 0x06, 0x04, 0x01, 0x07, 0x04, 0x01, 0x08];
    let value = match decode::<OctetString, &[u8]>(alloc, Mode::Ber, cut) {
        Ok(value) => value,
        Err(error) => return refused(error.is_memory(), true),
    };
    match encode(alloc, Mode::Der, &value) {
        Ok(encoded) => answered(encoded.as_slice() == [0x04, 0x02, 0x07, 0x08].as_slice()),
        Err(error) => refused(error == EncodeError::NoMemory, true),
    }
}

/// Finds out that the second number of a list has more than 32 bits. If memory runs out for the
/// path to it, the position is told all the same.
fn refuses(alloc: Global) -> End {
    let octets: &[u8] = &[
        0x30, 0x0A, 0x02, 0x01, 0x05, 0x02, 0x05, 0x01, 0x00, 0x00, 0x00, 0x00,
    ];
    match decode_octets::<SequenceOf<u32>>(alloc, Mode::Der, octets) {
        Ok(_) => End::Wrong,
        Err(error) => match error.position() {
            Some(pos) => answered(usize::from(pos) == 7),
            None => refused(error.error.is_memory(), true),
        },
    }
}

/// A number, octets that are lent, and a number that is left out.
type Plain<'a> = Sequence<(u32, OctetStringRef<&'a [u8]>, Option<u8>)>;

/// The octets of such a value.
const PLAIN: &[u8] = &[0x30, 0x07, 0x02, 0x01, 0x05, 0x04, 0x02, 0x07, 0x08];

/// Decodes octets as a value of the type, and writes it to a target that has room.
fn is_again<T: Decode<SliceSource<'static>> + Encode>(
    alloc: Global,
    octets: &'static [u8],
    target: &mut Vec<u8>,
) -> bool {
    target.clear();
    match decode::<T, &'static [u8]>(alloc, Mode::Der, octets) {
        Ok(value) => {
            value.encoded_len_as(Tag::SEQUENCE, Mode::Der) == Ok(octets.len())
                && value
                    .write_encoded_as(Tag::SEQUENCE, Mode::Der, target)
                    .is_ok()
                && target.as_slice() == octets
        }
        Err(_) => false,
    }
}

/// Decodes a value without memory, and writes it to a target that has room.
pub fn is_plain_again(alloc: Global, target: &mut Vec<u8>) -> bool {
    is_again::<Plain<'static>>(alloc, PLAIN, target)
}

/// Octets of types that hold no others.
const INTEGER: &[u8] = &[0x02, 0x02, 0xFF, 0x00];

const UNSIGNED: &[u8] = &[0x02, 0x02, 0x00, 0xFF];

const IDENTIFIER: &[u8] = &[0x06, 0x02, 0x2A, 0x03];

const BITS: &[u8] = &[0x03, 0x02, 0x04, 0xB0];

const OCTETS: &[u8] = &[0x04, 0x02, 0x07, 0x08];

const TEXT: &[u8] = &[0x0C, 0x02, 0x41, 0x42];

const NUMBER: &[u8] = &[0x02, 0x01, 0x05];

/// Octets of types that hold others.
const EXPLICIT: &[u8] = &[0xA0, 0x04, 0x04, 0x02, 0x07, 0x08];

const LIST: &[u8] = &[0x30, 0x06, 0x02, 0x01, 0x07, 0x02, 0x01, 0x05];

const SET_OF: &[u8] = &[0x31, 0x06, 0x02, 0x01, 0x05, 0x02, 0x01, 0x07];

const SET: &[u8] = &[0x31, 0x06, 0x01, 0x01, 0xFF, 0x02, 0x01, 0x05];

fn leaves(alloc: Global) -> [(&'static str, End); 5] {
    [
        ("asn1, lent octets", again::<Plain<'static>>(alloc, PLAIN)),
        ("asn1, Integer", again::<Integer>(alloc, INTEGER)),
        ("asn1, Unsigned", again::<Unsigned>(alloc, UNSIGNED)),
        (
            "asn1, ObjectIdentifier",
            again::<ObjectIdentifier>(alloc, IDENTIFIER),
        ),
        ("asn1, BitString", again::<BitString>(alloc, BITS)),
    ]
}

fn strings(alloc: Global) -> [(&'static str, End); 5] {
    [
        ("asn1, OctetString", again::<OctetString>(alloc, OCTETS)),
        ("asn1, OctetString, in segments", joined(alloc)),
        ("asn1, Utf8String", again::<Utf8String>(alloc, TEXT)),
        ("asn1, Any", again::<Any>(alloc, PLAIN)),
        ("asn1, Box", again::<Box<u32>>(alloc, NUMBER)),
    ]
}

fn composed(alloc: Global) -> [(&'static str, End); 6] {
    [
        (
            "asn1, Choice2",
            again::<Choice2<Integer, OctetString>>(alloc, OCTETS),
        ),
        (
            "asn1, Explicit",
            again::<Explicit<Context<0>, OctetString>>(alloc, EXPLICIT),
        ),
        ("asn1, SequenceOf", again::<SequenceOf<u32>>(alloc, LIST)),
        ("asn1, SetOf", again::<SetOf<u32>>(alloc, SET_OF)),
        ("asn1, Set", again::<Set<(bool, u32)>>(alloc, SET)),
        ("asn1, a refusal", refuses(alloc)),
    ]
}

pub fn run(rt: &HostRuntime) -> Result<(), Error> {
    tell_all(rt, &leaves(rt.alloc()))?;
    tell_all(rt, &strings(rt.alloc()))?;
    tell_all(rt, &composed(rt.alloc()))
}
