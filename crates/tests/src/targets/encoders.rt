//! The encoders, in one list.
#![tactic(auto, using(bcder::specs::laws::Listed::gives_one_list))]

use super::lists::{Listed, write_listed};
use super::put;
use super::strings::{Text, write_text};
use crate::asserts::done;
use bcder::encode::{PrimitiveContent, WriteError, write_header};
use bcder::{BitString, ConstOid, Integer, Mode, Oid, Tag, Unsigned};
use bytes::Bytes;
use std::alloc::Global;
use std::io;
use std::process::Abort;

/// An encoder of a known value.
#[derive(Clone, Copy)]
pub enum Encoder {
    /// A value with the tag of its type.
    Value(Content),

    /// A value by reference, with another tag.
    RefAs(Content),

    /// The contents octets of a value.
    Contents(Content),

    /// Identifier octets.
    Identifier,

    /// Identifier octets and length octets.
    Header,

    /// A string.
    Text(Text),

    /// A list, a constructed value, or one of several.
    Listed(Listed),
}

/// A known primitive value.
#[derive(Clone, Copy)]
pub enum Content {
    I8,
    I16,
    I32,
    I64,
    I128,
    U8,
    U16,
    U32,
    U64,
    U128,
    Bool,
    Null,
    Octets,
    Integer,
    Unsigned,
    Identifier,
    SharedIdentifier,
    Bits,
}

/// How a primitive value is written.
#[derive(Clone, Copy)]
enum How {
    Value,
    RefAs,
    Contents,
}

/// Writes a primitive value, or its contents octets.
fn write_as<P: PrimitiveContent + Drop, W: io::Write>(
    content: P,
    how: How,
    mode: Mode,
    target: &mut W,
) -> Result<(), WriteError> {
    match how {
        How::Value => put(&content.encode(), mode, target),
        How::RefAs => put(&content.encode_ref_as(Tag::CTX_3), mode, target),
        How::Contents => content.write_encoded(mode, target),
    }
}

/// Writes a signed number.
fn write_signed<W: io::Write>(
    content: Content,
    how: How,
    mode: Mode,
    target: &mut W,
) -> Result<(), WriteError> {
    match content {
        Content::I8 => write_as(-128i8, how, mode, target),
        Content::I16 => write_as(-129i16, how, mode, target),
        Content::I32 => write_as(-1200000i32, how, mode, target),
        Content::I64 => write_as(-32769i64, how, mode, target),
        _ => write_as(18446744073709551616i128, how, mode, target),
    }
}

/// Writes an unsigned number.
fn write_unsigned<W: io::Write>(
    content: Content,
    how: How,
    mode: Mode,
    target: &mut W,
) -> Result<(), WriteError> {
    match content {
        Content::U8 => write_as(128u8, how, mode, target),
        Content::U16 => write_as(300u16, how, mode, target),
        Content::U32 => write_as(0xA2345678u32, how, mode, target),
        Content::U64 => write_as(u64::MAX, how, mode, target),
        _ => write_as(u128::MAX, how, mode, target),
    }
}

/// The object identifier of an extension, 2.5.29.19.
const EXTENSION: ConstOid = Oid(&[0x55, 0x1D, 0x13]);

/// Writes a value whose octets are kept.
fn write_kept<W: io::Write>(
    rt: &impl Abort,
    alloc: Global,
    content: Content,
    how: How,
    mode: Mode,
    target: &mut W,
) -> Result<(), WriteError> {
    match content {
        Content::Integer => {
            let number = done(rt, Integer::from_i64(alloc, -32769));
            write_as(&number, how, mode, target)
        }
        Content::Unsigned => {
            let number = done(rt, Unsigned::from_u32(alloc, 0xDEADBEEF));
            write_as(&number, how, mode, target)
        }
        Content::SharedIdentifier => {
            let octets = done(rt, Bytes::copy_from_slice(alloc, &[0x55, 0x1D, 0x13]));
            write_as(Oid(octets), how, mode, target)
        }
        _ => {
            let octets = done(rt, Bytes::copy_from_slice(alloc, &[0x0A, 0xFF]));
            write_as(BitString::new(4, octets), how, mode, target)
        }
    }
}

/// Writes a primitive value.
fn write_content<W: io::Write>(
    rt: &impl Abort,
    alloc: Global,
    content: Content,
    how: How,
    mode: Mode,
    target: &mut W,
) -> Result<(), WriteError> {
    match content {
        Content::I8 | Content::I16 | Content::I32 | Content::I64 | Content::I128 => {
            write_signed(content, how, mode, target)
        }
        Content::U8 | Content::U16 | Content::U32 | Content::U64 | Content::U128 => {
            write_unsigned(content, how, mode, target)
        }
        Content::Bool => write_as(true, how, mode, target),
        Content::Null => write_as((), how, mode, target),
        Content::Octets => write_as(b"ab".as_slice(), how, mode, target),
        Content::Identifier => write_as(EXTENSION, how, mode, target),
        _ => write_kept(rt, alloc, content, how, mode, target),
    }
}

/// Writes the value of an encoder.
pub fn write<W: io::Write>(
    rt: &impl Abort,
    alloc: Global,
    encoder: Encoder,
    mode: Mode,
    target: &mut W,
) -> Result<(), WriteError> {
    match encoder {
        Encoder::Value(content) => write_content(rt, alloc, content, How::Value, mode, target),
        Encoder::RefAs(content) => write_content(rt, alloc, content, How::RefAs, mode, target),
        Encoder::Contents(content) => {
            write_content(rt, alloc, content, How::Contents, mode, target)
        }
        Encoder::Identifier => match Tag::private(2097151).write_encoded(false, target) {
            Ok(()) => Ok(()),
            Err(error) => Err(WriteError::Target(error)),
        },
        Encoder::Header => write_header(target, Tag::SEQUENCE, true, 256),
        Encoder::Text(text) => write_text(rt, alloc, text, mode, target),
        Encoder::Listed(listed) => write_listed(rt, alloc, listed, mode, target),
    }
}
