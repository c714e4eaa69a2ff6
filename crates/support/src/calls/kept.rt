//! The readers of integers, object identifiers and strings.
ghost use Rattle.bcder.specs.calls.Views.{Moved};

use super::answer::{Answer, count, passed};
use bcder::decode::{Constructed, DecodeError, Source};
use bcder::string::Utf8String;
use bcder::{BitString, ConstOid, Integer, OctetString, Oid, Tag, Unsigned};
use std::alloc::Global;

/// A reader of an integer or an object identifier.
#[derive(Clone, Copy)]
pub enum Kept {
    Integer,
    Unsigned,
    Identifier,
    OptIdentifier,
    SkipIdentifier,
    SkipOptIdentifier,
    SkipIdentifierIf,
}

/// The object identifier that `skip_if` asks for: 2.5.29.19.
const EXTENSION: ConstOid = Oid(&[0x55, 0x1D, 0x13]);

/// Takes a value, if there is one, and returns the number of its contents octets.
fn len_of<S: Source>(
    cons: &mut Constructed<'_, S>,
    alloc: Global,
    kept: Kept,
) -> Result<Option<usize>, DecodeError<S::Error>>
    ensures { Moved S.stream cons }
{
    match kept {
        Kept::Integer => Ok(Some(Integer::take_from(alloc, cons)?.as_slice().len())),
        Kept::Unsigned => Ok(Some(Unsigned::take_from(alloc, cons)?.as_slice().len())),
        Kept::Identifier => Ok(Some(Oid::take_from(alloc, cons)?.0.len())),
        _ => match Oid::take_opt_from(alloc, cons)? {
            Some(oid) => Ok(Some(oid.0.len())),
            None => Ok(None),
        },
    }
}

/// Skips an object identifier.
fn skip<S: Source>(
    cons: &mut Constructed<'_, S>,
    kept: Kept,
) -> Result<Option<()>, DecodeError<S::Error>>
    ensures { Moved S.stream cons }
{
    match kept {
        Kept::SkipOptIdentifier => return Oid::skip_opt_in(cons),
        Kept::SkipIdentifier => Oid::skip_in(cons)?,
        _ => EXTENSION.skip_if(cons)?,
    }
    Ok(Some(()))
}

/// Makes the call of a reader, and returns its answer.
pub fn ask<S: Source>(
    cons: &mut Constructed<'_, S>,
    alloc: Global,
    kept: Kept,
) -> Result<Answer, DecodeError<S::Error>>
    ensures { Moved S.stream cons }
{
    match kept {
        Kept::Integer | Kept::Unsigned | Kept::Identifier | Kept::OptIdentifier => {
            Ok(count(len_of(cons, alloc, kept)?))
        }
        _ => Ok(passed(skip(cons, kept)?)),
    }
}

/// A reader of a string.
#[derive(Clone, Copy)]
pub enum Text {
    Bits,
    BitsOfContent,
    SkipBits,
    SkipBitsOfContent,
    Octets,
    OptOctets,
    OctetsOfContent,
    Characters,
    OptCharacters,
    CharactersOfContent,
}

/// Takes a bit string and returns the number of its bits, or skips it and returns `None`.
fn bits<S: Source>(
    cons: &mut Constructed<'_, S>,
    alloc: Global,
    text: Text,
) -> Result<Option<usize>, DecodeError<S::Error>>
    ensures { Moved S.stream cons }
{
    match text {
        Text::Bits => Ok(Some(BitString::take_from(alloc, cons)?.bit_len())),
        Text::BitsOfContent => {
            let string = cons.take_value_if(
                Tag::BIT_STRING,
                |content| BitString::from_content(alloc, content),
            )?;
            Ok(Some(string.bit_len()))
        }
        Text::SkipBits => {
            BitString::skip_in(cons)?;
            Ok(None)
        }
        _ => {
            cons.take_value_if(Tag::BIT_STRING, |content| BitString::skip_content(content))?;
            Ok(None)
        }
    }
}

/// Takes an octet string, if there is one, and returns the number of its octets.
fn octets<S: Source>(
    cons: &mut Constructed<'_, S>,
    alloc: Global,
    text: Text,
) -> Result<Option<usize>, DecodeError<S::Error>>
    ensures { Moved S.stream cons }
{
    match text {
        Text::Octets => Ok(Some(OctetString::take_from(alloc, cons)?.len())),
        Text::OptOctets => match OctetString::take_opt_from(alloc, cons)? {
            Some(string) => Ok(Some(string.len())),
            None => Ok(None),
        },
        _ => {
            let string = cons.take_value_if(
                Tag::OCTET_STRING,
                |content| OctetString::from_content(alloc, content),
            )?;
            Ok(Some(string.len()))
        }
    }
}

/// Takes a character string, if there is one, and returns the number of its octets.
fn characters<S: Source>(
    cons: &mut Constructed<'_, S>,
    alloc: Global,
    text: Text,
) -> Result<Option<usize>, DecodeError<S::Error>>
    ensures { Moved S.stream cons }
{
    match text {
        Text::Characters => Ok(Some(Utf8String::take_from(alloc, cons)?.len())),
        Text::OptCharacters => match Utf8String::take_opt_from(alloc, cons)? {
            Some(string) => Ok(Some(string.len())),
            None => Ok(None),
        },
        _ => {
            let string = cons.take_value_if(
                Tag::UTF8_STRING,
                |content| Utf8String::from_content(alloc, content),
            )?;
            Ok(Some(string.len()))
        }
    }
}

/// Makes the call of a reader of a string, and returns its answer.
pub fn ask_text<S: Source>(
    cons: &mut Constructed<'_, S>,
    alloc: Global,
    text: Text,
) -> Result<Answer, DecodeError<S::Error>>
    ensures { Moved S.stream cons }
{
    match text {
        Text::Bits | Text::BitsOfContent => Ok(count(bits(cons, alloc, text)?)),
        Text::SkipBits | Text::SkipBitsOfContent => {
            bits(cons, alloc, text)?;
            Ok(Answer::Passed)
        }
        Text::Octets | Text::OptOctets | Text::OctetsOfContent => {
            Ok(count(octets(cons, alloc, text)?))
        }
        _ => Ok(count(characters(cons, alloc, text)?)),
    }
}
