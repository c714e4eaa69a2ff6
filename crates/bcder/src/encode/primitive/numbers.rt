//! Contents octets of integers of any size (X.690, 8.3).
ghost use Rattle.std.specs.Prelude.{◌≡◌, ◌<◌, ◌^◌, pos};
ghost use Rattle.bcder.specs.x690.Identifier.{universal};
ghost use Rattle.bcder.specs.x690.Integer.{integer_octets};
ghost use Rattle.bcder.specs.calls.Encoders.{SizeOfContents, WritesContents};
ghost use Rattle.bcder.specs.calls.Encoders.{HasContents, WritesPrimitive, into_result};
ghost use Rattle.bcder.specs.calls.Meaning.{Exactly};
ghost use Rattle.bcder.specs.laws.Integers.{integer_octets_are};
ghost use Rattle.bcder.specs.laws.Meanings.{Exactly_lawful};

use super::PrimitiveContent;
use crate::encode::short::put_number;
use crate::encode::slot::Failed;
use crate::encode::target::write_all;
use crate::encode::{EncodeError, WriteError};
use crate::int::{Integer, Unsigned};
use crate::mode::Mode;
use crate::tag::Tag;
use std::convert::AsSlice;
use std::io;

/// Returns the number of contents octets of an integer.
#[inline(always)]
fn integer_len(x: &Integer) -> Result<usize, EncodeError>
    ensures { SizeOfContents (Exactly (integer_octets x.now)) ⊥ result }
{
    Ok(AsSlice::as_slice(x).len())
}

/// Writes the contents octets of an integer.
fn write_integer<W: io::Write>(x: &Integer, target: &mut W) -> Result<(), WriteError>
    ensures { WritesContents W.contents target (Exactly (integer_octets x.now)) ⊥ result }
{
    write_all(target, AsSlice::as_slice(x))
}

/// Writes an integer as a value.
#[inline(always)]
fn put_integer<W: io::Write>(
    x: &Integer,
    tag: Tag,
    _len: usize,
    target: &mut W,
    why: &mut WriteError,
) -> Result<(), Failed>
    requires contents { HasContents (Exactly (integer_octets x.now)) _len }
    requires fits { _len < 2 ^ 32 }
    ensures { WritesPrimitive W.contents target tag (Exactly (integer_octets x.now)) ⊥
        (into_result result why.new) }
{
    put_number(tag, AsSlice::as_slice(x), target, why)
}

/// Encodes the octets that the integer holds, which are the smallest of its number.
impl PrimitiveContent for &'_ Integer {
    ghost own_tag = { record { class = universal; number = 2 } };

    ghost means = { λ x _. Exactly (integer_octets x.now) };

    fn tag() -> Tag
        ensures { result ≡ record { class = universal; number = 2 } }
    {
        Tag::INTEGER
    }

    #[inline(always)]
    fn encoded_len(&self, _mode: Mode) -> Result<usize, EncodeError> {
        integer_len(*self)
    }

    fn write_encoded<W: io::Write>(&self, _mode: Mode, target: &mut W) -> Result<(), WriteError> {
        write_integer(*self, target)
    }

    #[inline(always)]
    fn write_value<W: io::Write>(
        &self,
        tag: Tag,
        len: usize,
        _mode: Mode,
        target: &mut W,
        why: &mut WriteError,
    ) -> Result<(), Failed> {
        put_integer(*self, tag, len, target, why)
    }

    ghost lawful = { λ x _. Exactly_lawful (integer_octets x.now) (integer_octets_are x.now) };
}

/// Encodes the octets that the integer holds, which are the smallest of its number.
impl PrimitiveContent for &'_ Unsigned {
    ghost own_tag = { record { class = universal; number = 2 } };

    ghost means = { λ x _. Exactly (integer_octets (pos x.now)) };

    fn tag() -> Tag
        ensures { result ≡ record { class = universal; number = 2 } }
    {
        Tag::INTEGER
    }

    #[inline(always)]
    fn encoded_len(&self, _mode: Mode) -> Result<usize, EncodeError> {
        integer_len((*self).as_ref())
    }

    fn write_encoded<W: io::Write>(&self, _mode: Mode, target: &mut W) -> Result<(), WriteError> {
        write_integer((*self).as_ref(), target)
    }

    #[inline(always)]
    fn write_value<W: io::Write>(
        &self,
        tag: Tag,
        len: usize,
        _mode: Mode,
        target: &mut W,
        why: &mut WriteError,
    ) -> Result<(), Failed> {
        put_integer((*self).as_ref(), tag, len, target, why)
    }

    ghost lawful = { λ x _.
        Exactly_lawful (integer_octets (pos x.now)) (integer_octets_are (pos x.now)) };
}
