//! Contents octets of booleans, null and octets (X.690, 8.2, 8.7, 8.8, 11.1).
ghost use Rattle.std.specs.Prelude.{◌≡◌, ◌<◌, ◌^◌, []};
ghost use Rattle.bcder.specs.x690.Identifier.{universal};
ghost use Rattle.bcder.specs.calls.Encoders.{SizeOfContents, WritesContents};
ghost use Rattle.bcder.specs.calls.Encoders.{HasContents, WritesPrimitive, into_result};
ghost use Rattle.bcder.specs.calls.Meaning.{Exactly, ExactlyOctets, truth_octets};
ghost use Rattle.bcder.specs.calls.Meaning.{fits_primitive, PieceMeans};
ghost use Rattle.bcder.specs.declared.encode.error.EncodeError.TheVariants.{LongCerPrimitive};
ghost use Rattle.bcder.specs.laws.Octets.{AreOctets-nil};
ghost use Rattle.bcder.specs.laws.Meanings.{Exactly_lawful, PieceMeans_lawful};
ghost use Rattle.bcder.specs.laws.Meanings.{truth_octets_are};

use super::PrimitiveContent;
use crate::encode::short::{put_contents, put_empty, put_octet};
use crate::encode::slot::Failed;
use crate::encode::target::write_all;
use crate::encode::{EncodeError, WriteError};
use crate::mode::Mode;
use crate::tag::Tag;
use std::io;

/// Encodes NULL, as no octets (8.8).
impl PrimitiveContent for () {
    ghost own_tag = { record { class = universal; number = 5 } };

    ghost means = { λ _ _. Exactly [] };

    fn tag() -> Tag {
        Tag::NULL
    }

    #[inline(always)]
    fn encoded_len(&self, _mode: Mode) -> Result<usize, EncodeError> {
        Ok(0)
    }

    fn write_encoded<W: io::Write>(&self, _mode: Mode, target: &mut W) -> Result<(), WriteError> {
        write_all(target, &[])
    }

    #[inline(always)]
    fn write_value<W: io::Write>(
        &self,
        tag: Tag,
        _len: usize,
        _mode: Mode,
        target: &mut W,
        why: &mut WriteError,
    ) -> Result<(), Failed> {
        put_empty(tag, target, why)
    }

    ghost lawful = { λ _ _. Exactly_lawful [] AreOctets-nil };
}

/// Encodes a boolean as one octet: `FF` for true, `00` for false (8.2, 11.1).
impl PrimitiveContent for bool {
    ghost own_tag = { record { class = universal; number = 1 } };

    ghost means = { λ x _. Exactly (truth_octets x) };

    fn tag() -> Tag {
        Tag::BOOLEAN
    }

    #[inline(always)]
    fn encoded_len(&self, _mode: Mode) -> Result<usize, EncodeError> {
        Ok(1)
    }

    fn write_encoded<W: io::Write>(&self, _mode: Mode, target: &mut W) -> Result<(), WriteError> {
        if *self {
            write_all(target, &[0xFF])
        } else {
            write_all(target, &[0x00])
        }
    }

    #[inline(always)]
    fn write_value<W: io::Write>(
        &self,
        tag: Tag,
        _len: usize,
        _mode: Mode,
        target: &mut W,
        why: &mut WriteError,
    ) -> Result<(), Failed> {
        put_octet(tag, if *self { 0xFF } else { 0x00 }, target, why)
    }

    ghost lawful = { λ x _. Exactly_lawful (truth_octets x) (truth_octets_are x) };
}

/// Returns the number of octets.
#[inline(always)]
pub(crate) fn octets_len(octets: &[u8]) -> Result<usize, EncodeError>
    ensures { SizeOfContents (ExactlyOctets octets.now) ⊥ result }
{
    Ok(octets.len())
}

/// Writes the octets.
pub(crate) fn write_octets<W: io::Write>(octets: &[u8], target: &mut W) -> Result<(), WriteError>
    ensures { WritesContents W.contents target (ExactlyOctets octets.now) ⊥ result }
{
    write_all(target, octets)
}

/// Writes the octets as a value.
#[inline(always)]
pub(crate) fn put_octets<W: io::Write>(
    octets: &[u8],
    tag: Tag,
    _len: usize,
    target: &mut W,
    why: &mut WriteError,
) -> Result<(), Failed>
    requires contents { HasContents (ExactlyOctets octets.now) _len }
    requires fits { _len < 2 ^ 32 }
    ensures { WritesPrimitive W.contents target tag (ExactlyOctets octets.now) ⊥
        (into_result result why.new) }
{
    put_contents(tag, octets, target, why)
}

/// Returns whether a primitive string may have `len` contents octets in the mode (9.2).
#[inline(always)]
pub(crate) fn fits_primitive(mode: Mode, len: usize) -> bool
    ensures { result ≡ fits_primitive mode len }
{
    match mode {
        Mode::Cer => len <= 1000,
        Mode::Ber | Mode::Der => true,
    }
}

/// Returns the number of octets of a string, if a primitive one may have that many in the mode.
#[inline(always)]
fn string_len(octets: &[u8], mode: Mode) -> Result<usize, EncodeError>
    ensures { SizeOfContents (PieceMeans LongCerPrimitive mode octets.now) ⊥ result }
{
    if fits_primitive(mode, octets.len()) {
        Ok(octets.len())
    } else {
        Err(EncodeError::LongCerPrimitive)
    }
}

/// Writes the octets of a string, if a primitive one may have that many in the mode.
fn write_string<W: io::Write>(octets: &[u8], mode: Mode, target: &mut W) -> Result<(), WriteError>
    ensures { WritesContents W.contents target
        (PieceMeans LongCerPrimitive mode octets.now) ⊥ result }
{
    if fits_primitive(mode, octets.len()) {
        write_all(target, octets)
    } else {
        Err(WriteError::Refused(EncodeError::LongCerPrimitive))
    }
}

/// Writes the octets of a string as a value.
#[inline(always)]
fn put_string<W: io::Write>(
    octets: &[u8],
    tag: Tag,
    _len: usize,
    _mode: Mode,
    target: &mut W,
    why: &mut WriteError,
) -> Result<(), Failed>
    requires contents { HasContents (PieceMeans LongCerPrimitive _mode octets.now) _len }
    requires fits { _len < 2 ^ 32 }
    ensures { WritesPrimitive W.contents target tag
        (PieceMeans LongCerPrimitive _mode octets.now) ⊥ (into_result result why.new) }
{
    put_contents(tag, octets, target, why)
}

/// Encodes the octets themselves (8.7), in CER at most 1000 (9.2).
impl PrimitiveContent for &'_ [u8] {
    ghost own_tag = { record { class = universal; number = 4 } };

    ghost means = { λ x mode. PieceMeans LongCerPrimitive mode x.now };

    fn tag() -> Tag
        ensures { result ≡ record { class = universal; number = 4 } }
    {
        Tag::OCTET_STRING
    }

    #[inline(always)]
    fn encoded_len(&self, mode: Mode) -> Result<usize, EncodeError> {
        string_len(*self, mode)
    }

    fn write_encoded<W: io::Write>(&self, mode: Mode, target: &mut W) -> Result<(), WriteError> {
        write_string(*self, mode, target)
    }

    #[inline(always)]
    fn write_value<W: io::Write>(
        &self,
        tag: Tag,
        len: usize,
        mode: Mode,
        target: &mut W,
        why: &mut WriteError,
    ) -> Result<(), Failed> {
        put_string(*self, tag, len, mode, target, why)
    }

    ghost lawful = { λ x mode. PieceMeans_lawful LongCerPrimitive mode x.now };
}
