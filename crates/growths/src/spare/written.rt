//! Encoders, over targets that have room.
#![tactic(auto, using(bcder::specs::laws::Listed::gives_one_list))]

use super::values::Things;
use bcder::encode::{
    Choice2, Choice3, EncodeError, Nothing, PrimitiveContent, Values, iter, sequence, set, slice,
    total_encoded_len, write_header,
};
use bcder::{BitString, Mode, OctetString, Oid, Tag};
use std::alloc::Global;

/// Returns whether the values have this number of octets, and are written as these.
fn writes<V: Values>(values: &V, mode: Mode, target: &mut Vec<u8>, wanted: &[u8]) -> bool
    requires { V.can_encode values.now }
{
    target.clear();
    values.encoded_len(mode) == Ok(wanted.len())
        && values.write_encoded(mode, target).is_ok()
        && target.as_slice() == wanted
}

/// Writes values that keep octets, by reference.
fn kept_values(things: &Things, target: &mut Vec<u8>) -> bool {
    let values = (
        (&things.integer).encode(),
        (&things.unsigned).encode(),
        things.oid.encode_ref(),
        things.bits.encode_ref(),
    );
    let wanted = [
        0x02, 0x02, 0xFF, 0x7F, 0x02, 0x02, 0x00, 0xC8, 0x06, 0x03, 0x55, 0x1D, 0x13, 0x03, 0x03,
        0x04, 0x0A, 0xF0,
    ];
    writes(&values, Mode::Der, target, &wanted)
}

/// Writes strings in one piece and cut, and captured values.
fn strings(things: &Things, target: &mut Vec<u8>) -> bool {
    let values = (
        things.whole.encode_ref(),
        things.cut.encode_ref(),
        things.text.encode_ref(),
        &things.captured,
    );
    let wanted = [
        0x04, 0x04, 0x61, 0x62, 0x63, 0x64, 0x04, 0x04, 0x61, 0x62, 0x63, 0x64, 0x0C, 0x03, 0x61,
        0xC3, 0xA9, 0x02, 0x01, 0x05,
    ];
    writes(&values, Mode::Der, target, &wanted)
}

/// Writes a value that is wrapped.
fn wrapped(alloc: Global, target: &mut Vec<u8>) -> bool {
    let value = OctetString::encode_wrapped(alloc, Mode::Der, true.encode());
    writes(&value, Mode::Cer, target, &[0x04, 0x03, 0x01, 0x01, 0xFF])
}

/// Writes octets of a slice.
fn slices(target: &mut Vec<u8>) -> bool {
    let values = (
        OctetString::encode_slice(b"ab"),
        BitString::encode_slice(b"ab", 0),
        b"ab".as_slice().encode(),
        Oid(&[0x55, 0x1D]).encode(),
    );
    let wanted = [
        0x04, 0x02, 0x61, 0x62, 0x03, 0x03, 0x00, 0x61, 0x62, 0x04, 0x02, 0x61, 0x62, 0x06, 0x02,
        0x55, 0x1D,
    ];
    writes(&values, Mode::Der, target, &wanted)
}

/// Writes over 1000 octets in CER, in segments.
fn segments(target: &mut Vec<u8>) -> bool {
    let octets = [0x61; 1001];
    let value = OctetString::encode_slice(&octets);
    target.clear();
    value.encoded_len(Mode::Cer) == Ok(1011)
        && value.write_encoded(Mode::Cer, target).is_ok()
        && target.len() == 1011
}

/// Writes headers, and checks their lengths.
fn headers(target: &mut Vec<u8>) -> bool {
    target.clear();
    total_encoded_len(Tag::SEQUENCE, 256) == Ok(260)
        && total_encoded_len(Tag::END_OF_VALUE, 0) == Err(EncodeError::EndOfValueTag)
        && write_header(target, Tag::SEQUENCE, true, 256).is_ok()
        && Tag::private(2097151).write_encoded(false, target).is_ok()
        && target.as_slice() == [0x30, 0x82, 0x01, 0x00, 0xDF, 0xFF, 0xFF, 0x7F].as_slice()
}

/// Returns what these calls return.
pub fn ends(alloc: Global, things: &Things, target: &mut Vec<u8>) -> [(&'static str, bool); 6] {
    [
        ("encoders of what is kept", kept_values(things, target)),
        ("encoders of strings", strings(things, target)),
        ("WrappingOctetStringEncoder", wrapped(alloc, target)),
        ("encoders of slices", slices(target)),
        ("encoders of segments", segments(target)),
        ("headers", headers(target)),
    ]
}

/// Writes signed and unsigned numbers, a boolean and a null.
fn numbers(target: &mut Vec<u8>) -> bool {
    let values = (
        (
            1i8.encode(),
            2i16.encode(),
            3i32.encode(),
            4i64.encode(),
            5i128.encode(),
        ),
        (
            1u8.encode(),
            2u16.encode(),
            3u32.encode(),
            4u64.encode(),
            5u128.encode(),
        ),
        (true.encode(), ().encode()),
    );
    let wanted = [
        0x02, 0x01, 0x01, 0x02, 0x01, 0x02, 0x02, 0x01, 0x03, 0x02, 0x01, 0x04, 0x02, 0x01, 0x05,
        0x02, 0x01, 0x01, 0x02, 0x01, 0x02, 0x02, 0x01, 0x03, 0x02, 0x01, 0x04, 0x02, 0x01, 0x05,
        0x01, 0x01, 0xFF, 0x05, 0x00,
    ];
    writes(&values, Mode::Der, target, &wanted)
}

/// Writes constructed values, in CER.
fn constructed(target: &mut Vec<u8>) -> bool {
    let values = sequence((set(Nothing), true.encode().explicit(Tag::CTX_3)));
    let wanted = [
        0x30, 0x80, 0x31, 0x80, 0x00, 0x00, 0xA3, 0x80, 0x01, 0x01, 0xFF, 0x00, 0x00, 0x00, 0x00,
    ];
    writes(&values, Mode::Cer, target, &wanted)
}

/// Writes lists: a slice, a slice through a closure, and an iterator.
fn lists(target: &mut Vec<u8>) -> bool {
    let numbers = [1u8.encode(), 2u8.encode()];
    let values = (
        numbers.as_slice(),
        slice([3u8, 4], |x: &u8| (*x).encode()),
        iter(numbers.iter()),
    );
    let wanted = [
        0x02, 0x01, 0x01, 0x02, 0x01, 0x02, 0x02, 0x01, 0x03, 0x02, 0x01, 0x04, 0x02, 0x01, 0x01,
        0x02, 0x01, 0x02,
    ];
    writes(&values, Mode::Der, target, &wanted)
}

/// Writes what may be there, and one of several.
fn choices(target: &mut Vec<u8>) -> bool {
    let two: Choice2<_, Nothing> = Choice2::One(5u8.encode());
    let three: Choice3<Nothing, _, Nothing> = Choice3::Two(6u8.encode());
    let values = (Some(4u8.encode()), None::<Nothing>, two, three);
    let wanted = [0x02, 0x01, 0x04, 0x02, 0x01, 0x05, 0x02, 0x01, 0x06];
    writes(&values, Mode::Der, target, &wanted)
}

/// Returns what these calls return.
pub fn several_ends(target: &mut Vec<u8>) -> [(&'static str, bool); 4] {
    [
        ("encoders of numbers", numbers(target)),
        ("encoders of constructed values", constructed(target)),
        ("encoders of lists", lists(target)),
        ("encoders of one of several", choices(target)),
    ]
}
