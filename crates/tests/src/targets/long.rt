//! Strings of over 1000 octets, which CER writes in segments (X.690, 9.2).
use super::put;
use super::strings::cut;
use crate::asserts::done;
use bcder::encode::{PrimitiveContent, WriteError};
use bcder::string::Utf8String;
use bcder::{Mode, OctetString};
use bytes::Bytes;
use std::alloc::Global;
use std::io;
use std::process::Abort;

/// An encoder of a string of 1001 octets.
#[derive(Clone, Copy)]
pub enum Long {
    Slice,
    Whole,
    Cut,
    Characters,
    Wrapped,
}

/// Each encoder, and the first of its identifier octets.
pub const LONG: [(Long, u8); 5] = [
    (Long::Slice, 0x24),
    (Long::Whole, 0x24),
    (Long::Cut, 0x24),
    (Long::Characters, 0x2C),
    (Long::Wrapped, 0x24),
];

/// Returns the octets of the string. For a wrapped value they are that value.
pub fn octets_of(rt: &impl Abort, alloc: Global, long: Long) -> Vec<u8> {
    let mut octets = Vec::new(alloc);
    if matches!(long, Long::Wrapped) {
        done(rt, octets.extend_from_slice(&[0x04, 0x82, 0x03, 0xE5]));
    }
    for index in octets.len()..1001 {
        done(rt, octets.push((index % 127) as u8));
    }
    octets
}

/// Returns these octets in segments.
pub fn spelled(rt: &impl Abort, alloc: Global, identifier: u8, octets: &[u8]) -> Vec<u8> {
    let mut list = Vec::new(alloc);
    let (front, last) = octets.split_at(octets.len().min(1000));
    done(rt, list.extend_from_slice(&[identifier, 0x80]));
    done(rt, list.extend_from_slice(&[0x04, 0x82, 0x03, 0xE8]));
    done(rt, list.extend_from_slice(front));
    done(rt, list.extend_from_slice(&[0x04, 0x01]));
    done(rt, list.extend_from_slice(last));
    done(rt, list.extend_from_slice(&[0x00, 0x00]));
    list
}

/// Returns a string of these octets, cut after the first 600.
fn in_two(rt: &impl Abort, alloc: Global, octets: &[u8]) -> OctetString {
    let mut list = Vec::new(alloc);
    let (front, last) = octets.split_at(octets.len().min(600));
    done(rt, list.extend_from_slice(&[0x24, 0x80]));
    done(rt, list.extend_from_slice(&[0x04, 0x82, 0x02, 0x58]));
    done(rt, list.extend_from_slice(front));
    done(rt, list.extend_from_slice(&[0x04, 0x82, 0x01, 0x91]));
    done(rt, list.extend_from_slice(last));
    done(rt, list.extend_from_slice(&[0x00, 0x00]));
    cut(rt, alloc, list.as_slice())
}

/// Writes a string.
pub fn write_long<W: io::Write>(
    rt: &impl Abort,
    alloc: Global,
    long: Long,
    octets: &[u8],
    mode: Mode,
    target: &mut W,
) -> Result<(), WriteError> {
    match long {
        Long::Slice => put(&OctetString::encode_slice(octets), mode, target),
        Long::Whole => {
            let string = OctetString::new(done(rt, Bytes::copy_from_slice(alloc, octets)));
            put(&string.encode(), mode, target)
        }
        Long::Cut => put(&in_two(rt, alloc, octets).encode(), mode, target),
        Long::Characters => {
            let text = done(rt, str::from_utf8(octets));
            let string = done(rt, Utf8String::from_str(alloc, text));
            put(&string.encode(), mode, target)
        }
        Long::Wrapped => {
            let (_, value) = octets.split_at(octets.len().min(4));
            let encoder = OctetString::encode_wrapped(alloc, Mode::Der, value.encode());
            put(&encoder, mode, target)
        }
    }
}
