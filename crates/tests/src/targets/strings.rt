//! Encoders of strings.
use super::put;
use crate::asserts::done;
use bcder::decode::SliceSource;
use bcder::encode::{PrimitiveContent, WriteError};
use bcder::string::Utf8String;
use bcder::{BitString, Mode, OctetString, Tag};
use bytes::Bytes;
use std::alloc::Global;
use std::io;
use std::process::Abort;

/// A known string.
#[derive(Clone, Copy)]
pub enum Text {
    Whole,
    WholeAs,
    Cut,
    CutRef,
    CutRefAs,
    Octets,
    OctetsAs,
    Bits,
    BitsAs,
    Characters,
    CharactersAs,
    CharactersRef,
    CharactersRefAs,
    Wrapped,
    WrappedRef,
}

/// Returns the string "ab", in one piece.
fn whole(rt: &impl Abort, alloc: Global) -> OctetString {
    OctetString::new(done(rt, Bytes::copy_from_slice(alloc, b"ab")))
}

/// The string "ab", cut into segments of which one is constructed.
const CUT: &[u8] = &[
    0x24, 0x0A, 0x04, 0x01, 0x61, 0x24, 0x80, 0x04, 0x01, 0x62, 0x00, 0x00,
];

/// Returns the string that these octets are.
#[tactic(auto, using(bcder::specs::laws::Moved::steps))]
pub fn cut(rt: &impl Abort, alloc: Global, octets: &[u8]) -> OctetString {
    let mut source = SliceSource::new(octets);
    let read = Mode::Ber.decode_lent(&mut source, |cons| OctetString::take_from(alloc, cons));
    done(rt, read)
}

/// Writes an octet string.
fn write_octets<W: io::Write>(
    rt: &impl Abort,
    alloc: Global,
    text: Text,
    mode: Mode,
    target: &mut W,
) -> Result<(), WriteError> {
    match text {
        Text::Whole => put(&whole(rt, alloc).encode(), mode, target),
        Text::WholeAs => {
            let encoder = whole(rt, alloc).encode_as(Tag::CTX_3);
            put(&encoder, mode, target)
        }
        Text::Cut => put(&cut(rt, alloc, CUT).encode(), mode, target),
        Text::CutRef => {
            let string = cut(rt, alloc, CUT);
            put(&string.encode_ref(), mode, target)
        }
        _ => {
            let string = cut(rt, alloc, CUT);
            put(&string.encode_ref_as(Tag::CTX_3), mode, target)
        }
    }
}

/// Writes octets of a slice as a string.
fn write_slice<W: io::Write>(text: Text, mode: Mode, target: &mut W) -> Result<(), WriteError> {
    let bits = [0x0A, 0xFF];
    match text {
        Text::OctetsAs => {
            put(
                &OctetString::encode_slice_as(b"ab", Tag::CTX_3),
                mode,
                target,
            )
        }
        Text::Bits => put(&BitString::encode_slice(bits, 4), mode, target),
        Text::BitsAs => {
            put(
                &BitString::encode_slice_as(bits, 4, Tag::CTX_3),
                mode,
                target,
            )
        }
        _ => put(&OctetString::encode_slice(b"ab"), mode, target),
    }
}

/// Writes a string of characters.
fn write_characters<W: io::Write>(
    rt: &impl Abort,
    alloc: Global,
    text: Text,
    mode: Mode,
    target: &mut W,
) -> Result<(), WriteError> {
    let string = done(rt, Utf8String::from_str(alloc, "aé"));
    match text {
        Text::CharactersAs => put(&string.encode_as(Tag::CTX_3), mode, target),
        Text::CharactersRef => put(&string.encode_ref(), mode, target),
        Text::CharactersRefAs => put(&string.encode_ref_as(Tag::CTX_3), mode, target),
        _ => put(&string.encode(), mode, target),
    }
}

/// Writes a string.
pub fn write_text<W: io::Write>(
    rt: &impl Abort,
    alloc: Global,
    text: Text,
    mode: Mode,
    target: &mut W,
) -> Result<(), WriteError> {
    match text {
        Text::Whole | Text::WholeAs | Text::Cut | Text::CutRef | Text::CutRefAs => {
            write_octets(rt, alloc, text, mode, target)
        }
        Text::Octets | Text::OctetsAs | Text::Bits | Text::BitsAs => {
            write_slice(text, mode, target)
        }
        Text::Wrapped => {
            let encoder = OctetString::encode_wrapped(alloc, Mode::Der, true.encode());
            put(&encoder, mode, target)
        }
        Text::WrappedRef => {
            let value = true.encode();
            put(
                &OctetString::encode_wrapped(alloc, Mode::Der, &value),
                mode,
                target,
            )
        }
        _ => write_characters(rt, alloc, text, mode, target),
    }
}
