//! The readers of a primitive value's octets, and those of content of either form.
ghost use Rattle.bcder.specs.calls.Views.{Moved, MovedContent, MovedOctets};

use super::answer::Answer;
use bcder::decode::{Constructed, Content, DecodeError, Primitive, Source};
use bcder::{Integer, Oid, Unsigned};
use std::alloc::Global;

/// A reader of a primitive value's octets.
#[derive(Clone, Copy)]
pub enum Reader {
    Bool,
    Null,
    SkipAll,
    TakeAll,
    SliceAll,
    WithSliceAll,
    Signed(Width),
    Unsigned(Width),
    SignedFrom(Width),
    UnsignedFrom(Width),
    Integer,
    UnsignedInteger,
    Identifier,
    SkipIdentifier,
}

/// The number of bits that the type of a number has.
#[derive(Clone, Copy)]
pub enum Width {
    W8,
    W16,
    W32,
    W64,
    W128,
}

/// Returns whether the octets are the signed number 5, by the readers of `Primitive`.
fn is_signed<S: Source>(
    octets: &mut Primitive<'_, S>,
    width: Width,
) -> Result<bool, DecodeError<S::Error>>
    ensures { MovedOctets S.stream octets }
{
    match width {
        Width::W8 => Ok(octets.to_i8()? == 5),
        Width::W16 => Ok(octets.to_i16()? == 5),
        Width::W32 => Ok(octets.to_i32()? == 5),
        Width::W64 => Ok(octets.to_i64()? == 5),
        Width::W128 => Ok(octets.to_i128()? == 5),
    }
}

/// Returns whether the octets are the unsigned number 5, by the readers of `Primitive`.
fn is_unsigned<S: Source>(
    octets: &mut Primitive<'_, S>,
    width: Width,
) -> Result<bool, DecodeError<S::Error>>
    ensures { MovedOctets S.stream octets }
{
    match width {
        Width::W8 => Ok(octets.to_u8()? == 5),
        Width::W16 => Ok(octets.to_u16()? == 5),
        Width::W32 => Ok(octets.to_u32()? == 5),
        Width::W64 => Ok(octets.to_u64()? == 5),
        Width::W128 => Ok(octets.to_u128()? == 5),
    }
}

/// Returns whether the octets are the signed number 5, by the readers of `Integer`.
fn is_signed_from<S: Source>(
    octets: &mut Primitive<'_, S>,
    width: Width,
) -> Result<bool, DecodeError<S::Error>>
    ensures { MovedOctets S.stream octets }
{
    match width {
        Width::W8 => Ok(Integer::i8_from_primitive(octets)? == 5),
        Width::W16 => Ok(Integer::i16_from_primitive(octets)? == 5),
        Width::W32 => Ok(Integer::i32_from_primitive(octets)? == 5),
        Width::W64 => Ok(Integer::i64_from_primitive(octets)? == 5),
        Width::W128 => Ok(Integer::i128_from_primitive(octets)? == 5),
    }
}

/// Returns whether the octets are the unsigned number 5, by the readers of `Unsigned`.
fn is_unsigned_from<S: Source>(
    octets: &mut Primitive<'_, S>,
    width: Width,
) -> Result<bool, DecodeError<S::Error>>
    ensures { MovedOctets S.stream octets }
{
    match width {
        Width::W8 => Ok(Unsigned::u8_from_primitive(octets)? == 5),
        Width::W16 => Ok(Unsigned::u16_from_primitive(octets)? == 5),
        Width::W32 => Ok(Unsigned::u32_from_primitive(octets)? == 5),
        Width::W64 => Ok(Unsigned::u64_from_primitive(octets)? == 5),
        Width::W128 => Ok(Unsigned::u128_from_primitive(octets)? == 5),
    }
}

/// Returns how many octets are taken, borrowed or kept.
fn len_of<S: Source>(
    octets: &mut Primitive<'_, S>,
    alloc: Global,
    reader: Reader,
) -> Result<usize, DecodeError<S::Error>>
    ensures { MovedOctets S.stream octets }
{
    match reader {
        Reader::TakeAll => Ok(octets.take_all(alloc)?.len()),
        Reader::WithSliceAll => octets.with_slice_all(|octets| Ok(octets.len())),
        Reader::Integer => Ok(Integer::from_primitive(alloc, octets)?.as_slice().len()),
        Reader::UnsignedInteger => Ok(Unsigned::from_primitive(alloc, octets)?.as_slice().len()),
        _ => Ok(Oid::from_primitive(alloc, octets)?.0.len()),
    }
}

/// Borrows the octets, then takes them.
fn lend<S: Source>(octets: &mut Primitive<'_, S>) -> Result<usize, DecodeError<S::Error>>
    ensures { MovedOctets S.stream octets }
{
    let len = octets.slice_all(|octets| octets.len())?;
    octets.skip_all()?;
    Ok(len)
}

/// Skips the octets.
fn pass<S: Source>(
    octets: &mut Primitive<'_, S>,
    reader: Reader,
) -> Result<(), DecodeError<S::Error>>
    ensures { MovedOctets S.stream octets }
{
    match reader {
        Reader::Null => octets.to_null(),
        Reader::SkipIdentifier => Oid::skip_primitive(octets),
        _ => octets.skip_all(),
    }
}

/// Makes the call of a reader, and returns its answer.
fn read<S: Source>(
    octets: &mut Primitive<'_, S>,
    alloc: Global,
    reader: Reader,
) -> Result<Answer, DecodeError<S::Error>>
    ensures { MovedOctets S.stream octets }
{
    match reader {
        Reader::Bool => Ok(Answer::Truth(octets.to_bool()?)),
        Reader::Signed(width) => Ok(Answer::Truth(is_signed(octets, width)?)),
        Reader::Unsigned(width) => Ok(Answer::Truth(is_unsigned(octets, width)?)),
        Reader::SignedFrom(width) => Ok(Answer::Truth(is_signed_from(octets, width)?)),
        Reader::UnsignedFrom(width) => Ok(Answer::Truth(is_unsigned_from(octets, width)?)),
        Reader::SliceAll => Ok(Answer::Number(lend(octets)?)),
        Reader::Null | Reader::SkipAll | Reader::SkipIdentifier => {
            pass(octets, reader)?;
            Ok(Answer::Passed)
        }
        _ => Ok(Answer::Number(len_of(octets, alloc, reader)?)),
    }
}

/// Takes the next value, which has to be primitive, and returns the answer of the reader.
pub fn ask<S: Source>(
    cons: &mut Constructed<'_, S>,
    alloc: Global,
    reader: Reader,
) -> Result<Answer, DecodeError<S::Error>>
    ensures { Moved S.stream cons }
{
    cons.take_primitive(|_tag, octets| read(octets, alloc, reader))
}

/// A reader of content of either form.
#[derive(Clone, Copy)]
pub enum Either {
    U8,
    U16,
    U32,
    U64,
    Null,
    SkipU8If,
    AsPrimitive,
    AsConstructed,
}

/// Skips content.
fn pass_content<S: Source>(
    content: &mut Content<'_, S>,
    alloc: Global,
    either: Either,
) -> Result<(), DecodeError<S::Error>>
    ensures { MovedContent S.stream content }
{
    match either {
        Either::Null => content.to_null(),
        Either::SkipU8If => content.skip_u8_if(5),
        Either::AsPrimitive => content.as_primitive(|octets| octets.skip_all()),
        _ => content.as_constructed(|values| values.skip_all(alloc)),
    }
}

/// Makes the call of a reader of content, and returns its answer.
fn read_content<S: Source>(
    content: &mut Content<'_, S>,
    alloc: Global,
    either: Either,
) -> Result<Answer, DecodeError<S::Error>>
    ensures { MovedContent S.stream content }
{
    match either {
        Either::U8 => Ok(Answer::Truth(content.to_u8()? == 5)),
        Either::U16 => Ok(Answer::Truth(content.to_u16()? == 5)),
        Either::U32 => Ok(Answer::Truth(content.to_u32()? == 5)),
        Either::U64 => Ok(Answer::Truth(content.to_u64()? == 5)),
        _ => {
            pass_content(content, alloc, either)?;
            Ok(Answer::Passed)
        }
    }
}

/// Takes the next value, and returns the answer of the reader of content.
pub fn ask_content<S: Source>(
    cons: &mut Constructed<'_, S>,
    alloc: Global,
    either: Either,
) -> Result<Answer, DecodeError<S::Error>>
    ensures { Moved S.stream cons }
{
    cons.take_value(|_tag, content| read_content(content, alloc, either))
}
