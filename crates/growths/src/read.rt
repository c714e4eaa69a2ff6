//! Strings that are read.
ghost use Rattle.bcder.specs.calls.Views.{Moved};

use crate::end::{End, read, tell_over};
use anyhow::Error;
use bcder::decode::{BytesSource, Constructed, DecodeError, SliceSource, Source};
use bcder::string::Utf8String;
use bcder::{BitString, Mode, OctetString, Tag};
use bytes::Bytes;
use std::alloc::Global;

/// A reader of a string.
#[derive(Clone, Copy)]
pub enum Reader {
    Bits,
    BitsOfContent,
    OptOctets,

    /// It takes a string with the tag `[0]`.
    OptTagged,
    OctetsOfContent,
    Text,
    OptText,
    TextOfContent,
}

/// Takes a bit string.
fn take_bits<S: Source>(
    cons: &mut Constructed<'_, S>,
    alloc: Global,
    reader: Reader,
) -> Result<BitString, DecodeError<S::Error>>
    ensures { Moved S.stream cons }
{
    match reader {
        Reader::BitsOfContent => cons.take_value_if(
            Tag::BIT_STRING,
            |content| BitString::from_content(alloc, content),
        ),
        _ => BitString::take_from(alloc, cons),
    }
}

/// Takes an octet string, if there is one.
fn take_octets<S: Source>(
    cons: &mut Constructed<'_, S>,
    alloc: Global,
    reader: Reader,
) -> Result<Option<OctetString>, DecodeError<S::Error>>
    ensures { Moved S.stream cons }
{
    match reader {
        Reader::OctetsOfContent => Ok(Some(cons.take_value_if(
            Tag::OCTET_STRING,
            |content| OctetString::from_content(alloc, content),
        )?)),
        Reader::OptTagged => OctetString::take_opt_if(alloc, cons, Tag::CTX_0),
        _ => OctetString::take_opt_from(alloc, cons),
    }
}

/// Takes a character string, if there is one.
fn take_text<S: Source>(
    cons: &mut Constructed<'_, S>,
    alloc: Global,
    reader: Reader,
) -> Result<Option<Utf8String>, DecodeError<S::Error>>
    ensures { Moved S.stream cons }
{
    match reader {
        Reader::TextOfContent => Ok(Some(cons.take_value_if(
            Tag::UTF8_STRING,
            |content| Utf8String::from_content(alloc, content),
        )?)),
        Reader::OptText => Utf8String::take_opt_from(alloc, cons),
        _ => Ok(Some(Utf8String::take_from(alloc, cons)?)),
    }
}

/// Reads a string, and returns whether it has these octets. A bit string has four bits fewer.
fn reads<S: Source>(
    cons: &mut Constructed<'_, S>,
    alloc: Global,
    reader: Reader,
    wanted: &[u8],
) -> Result<bool, DecodeError<S::Error>>
    ensures { Moved S.stream cons }
{
    match reader {
        Reader::Bits | Reader::BitsOfContent => {
            let bits = take_bits(cons, alloc, reader)?;
            Ok(bits.unused() == 4 && bits.octet_slice() == Some(wanted))
        }
        Reader::OptOctets | Reader::OptTagged | Reader::OctetsOfContent => {
            match take_octets(cons, alloc, reader)? {
                Some(string) => Ok(string.eq_octets(wanted)),
                None => Ok(false),
            }
        }
        _ => match take_text(cons, alloc, reader)? {
            Some(string) => Ok(string.eq_octets(wanted)),
            None => Ok(false),
        },
    }
}

/// A reader, the mode, a value, and the octets of its string.
#[derive(Clone, Copy)]
pub struct Reading<'a> {
    pub reader: Reader,
    pub mode: Mode,
    pub value: &'a [u8],
    pub wanted: &'a [u8],
}

impl Reading<'_> {
    /// Returns how reading ends, over a source of the value.
    fn of<S: Source>(self, alloc: Global, source: &mut S) -> End {
        let Reading { reader, wanted, .. } = self;
        read(
            self.mode
                .decode_lent(source, |cons| reads(cons, alloc, reader, wanted)),
        )
    }

    /// Returns how reading ends, over octets that are copied.
    pub fn copied(self, alloc: Global) -> End {
        self.of(alloc, &mut SliceSource::new(self.value))
    }

    /// Prints how reading ends, over octets that are copied.
    pub fn tell_copied(self, rt: &HostRuntime, call: &str) -> Result<(), Error> {
        tell_over(rt, call, "copied", self.copied(rt.alloc()))
    }

    /// Prints how reading ends, over octets that are shared.
    pub fn tell_shared(self, rt: &HostRuntime, call: &str) -> Result<(), Error> {
        let mut shared = BytesSource::new(Bytes::copy_from_slice(rt.alloc(), self.value)?);
        tell_over(rt, call, "shared", self.of(rt.alloc(), &mut shared))
    }
}
