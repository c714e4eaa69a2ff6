//! Encoders of the contents octets of primitive values.
ghost use Rattle.std.specs.Prelude.{◌≡◌, ◌<◌, ◌^◌, false, List, ℕ, [], ◌∷◌};
ghost use Rattle.bcder.specs.declared.mode.Mode.{Mode};
ghost use Rattle.bcder.specs.x690.Identifier.{Tag as TagValue};
ghost use Rattle.bcder.specs.calls.Meaning.{ContentsMeaning, IsLawfulContents, ValueMeans};
ghost use Rattle.bcder.specs.calls.Meaning.{primitive_meaning};
ghost use Rattle.bcder.specs.steps.Enclosing.{ContentsSize};
ghost use Rattle.bcder.specs.calls.Encoders.{SizeOfContents, WritesContents, GathersContents};
ghost use Rattle.bcder.specs.calls.Encoders.{SizeOfValues, HasContents};
ghost use Rattle.bcder.specs.calls.Encoders.{WritesPrimitive, into_result};
ghost use Rattle.bcder.specs.calls.Noted.{ReadsNone};
ghost use Rattle.bcder.specs.laws.Meanings.{primitive_lawful};

mod identifier;
mod integers;
mod numbers;
pub(crate) mod plain;

use crate::encode::buffer::Buffer;
use crate::encode::gather::gather_contents;
use crate::encode::header::put_header;
use crate::encode::sizes::{Sizes, SizesLeft};
use crate::encode::slot::{Failed, into_result, slot, store, store_refusal};
use crate::encode::target::put_all;
use crate::encode::values::{Encoder, Values};
use crate::encode::{EncodeError, WriteError};
use crate::length::Length;
use crate::mode::Mode;
use crate::tag::Tag;
use bytes::Bytes;
use std::alloc::Global;
use std::io;

/// An encoder of the contents octets of a primitive value.
///
/// In each mode it means at most one thing: a refusal, or octets. Its calls give that meaning every
/// time.
pub trait PrimitiveContent: Sized {
    /// The tag that such a value has by default.
    ghost own_tag: { TagValue };

    /// What the encoder means in a mode.
    ghost means: { Self → Mode → ContentsMeaning → Type 0 };

    /// When a call may run out of memory. By default never.
    ghost may_lack: { Self → Mode → Type 0 } = { λ _ _. ⊥ };

    /// Returns the tag that such a value has by default.
    fn tag() -> Tag
        ensures { result ≡ own_tag };

    /// Returns the number of contents octets.
    ///
    /// # Errors
    ///
    /// Returns the reason why there is no encoding, or `NoMemory` if memory runs out.
    fn encoded_len(&self, mode: Mode) -> Result<usize, EncodeError>
        ensures { SizeOfContents (means self.now mode) (may_lack self.now mode) result };

    /// Writes the contents octets.
    ///
    /// # Errors
    ///
    /// Returns one of these errors:
    ///
    /// - `Refused` with the error of `encoded_len`; nothing was written then;
    /// - `Refused` with `NoMemory` if memory runs out while writing; a prefix of the octets was
    ///   written then;
    /// - `Target` if the target fails; a proper prefix of the octets was written then.
    fn write_encoded<W: io::Write>(&self, mode: Mode, target: &mut W) -> Result<(), WriteError>
        ensures { WritesContents W.contents target
            (means self.now mode) (may_lack self.now mode) result };

    /// Writes a primitive value with these contents octets, of which there are `len`. Up to 64 are
    /// gathered first, and written with their header by one call of the target's `write`, if that
    /// takes all of it.
    ///
    /// # Errors
    ///
    /// Returns `NoMemory` or the target's error, like `write_encoded`.
    #[doc(hidden)]
    #[inline(always)]
    fn write_value<W: io::Write>(
        &self,
        tag: Tag,
        len: usize,
        mode: Mode,
        target: &mut W,
        why: &mut WriteError,
    ) -> Result<(), Failed>
        requires contents { HasContents (means self.now mode) len }
        requires fits { len < 2 ^ 32 }
        ensures { WritesPrimitive W.contents target tag
            (means self.now mode) (may_lack self.now mode) (into_result result why.new) }
    {
        if len > 64 {
            put_header(target, tag, false, Length::Definite(len), why)?;
            return store(self.write_encoded(mode, target), why);
        }
        let mut buffer = Buffer::new();
        tag.spell(false, &mut buffer);
        Length::Definite(len).spell(&mut buffer);
        store(self.write_encoded(mode, &mut buffer), why)?;
        put_all(target, buffer.as_slice(), why)
    }

    /// There is at most one meaning, and it is a refusal or octets.
    ghost lawful: { (x : Self) (mode : Mode) → IsLawfulContents (means x mode) };

    /// Returns the contents octets.
    ///
    /// # Errors
    ///
    /// Returns the errors of `encoded_len`, or `NoMemory` if there are octets and no memory for
    /// them.
    final fn to_encoded_bytes(&self, alloc: Global, mode: Mode) -> Result<Bytes, EncodeError>
        ensures { GathersContents (means self.now mode) (may_lack self.now mode) result }
    {
        gather_contents(self, alloc, mode)
    }

    /// Creates an encoder of this as a primitive value with its own tag.
    final fn encode(self) -> Primitive<Self>
        ensures { result ≡ record { tag = own_tag; prim = self } }
    {
        self.encode_as(Self::tag())
    }

    /// Creates an encoder of this as a primitive value with another tag.
    final fn encode_as(self, tag: Tag) -> Primitive<Self>
        ensures { result ≡ record { tag = tag; prim = self } }
    {
        Primitive { tag, prim: self }
    }

    /// Creates an encoder of a reference to this, as a primitive value with its own tag.
    final fn encode_ref(&self) -> Primitive<&Self>
        ensures { result ≡ record { tag = own_tag; prim = self.entry } }
    {
        self.encode_ref_as(Self::tag())
    }

    /// Creates an encoder of a reference to this, as a primitive value with another tag.
    final fn encode_ref_as(&self, tag: Tag) -> Primitive<&Self>
        ensures { result ≡ record { tag = tag; prim = self.entry } }
    {
        Primitive { tag, prim: self }
    }
}

impl<P: PrimitiveContent> PrimitiveContent for &'_ P {
    ghost own_tag = { P.own_tag };

    ghost means = { λ x mode. P.means x.now mode };

    ghost may_lack = { λ x mode. P.may_lack x.now mode };

    fn tag() -> Tag {
        P::tag()
    }

    #[inline(always)]
    fn encoded_len(&self, mode: Mode) -> Result<usize, EncodeError> {
        (**self).encoded_len(mode)
    }

    #[inline(always)]
    fn write_encoded<W: io::Write>(&self, mode: Mode, target: &mut W) -> Result<(), WriteError> {
        (**self).write_encoded(mode, target)
    }

    #[inline(always)]
    fn write_value<W: io::Write>(
        &self,
        tag: Tag,
        len: usize,
        mode: Mode,
        target: &mut W,
        why: &mut WriteError,
    ) -> Result<(), Failed> {
        (**self).write_value(tag, len, mode, target, why)
    }

    ghost lawful = { λ x mode. P.lawful x.now mode };
}

/// An encoder of one primitive value: a tag, and an encoder of its contents octets.
#[derive(Clone, Copy, Debug, Drop)]
pub struct Primitive<P> {
    tag: Tag,
    prim: P,
}

/// Returns the number of octets of the value, or its refusal.
#[inline(always)]
fn value_len<P: PrimitiveContent>(tag: Tag, prim: &P, mode: Mode) -> Result<usize, EncodeError>
    ensures { SizeOfValues (ValueMeans tag (primitive_meaning tag) (P.means prim.now mode))
        (P.may_lack prim.now mode) result }
{
    let Some(identifier) = tag.value_len() else {
        return Err(EncodeError::EndOfValueTag);
    };
    let len = prim.encoded_len(mode)?;
    if len < 0x80 {
        return Ok(identifier + 1 + len);
    }
    if len > 0xFFFF_FFFF {
        return Err(EncodeError::LengthTooLarge);
    }
    Ok(identifier + Length::Definite(len).octet_count() + len)
}

impl<P: PrimitiveContent> Encoder for Primitive<P> {
    ghost all = { λ x mode. ValueMeans x.tag (primitive_meaning x.tag) (P.means x.prim mode) };

    ghost lacks = { λ x mode. P.may_lack x.prim mode };

    ghost takes = { λ _ _. ReadsNone };

    #[inline(always)]
    #[tactic(auto, using(crate::proofs::Noting::nothing_noted))]
    fn measured<Pass>(&self, mode: Mode, _sizes: &mut Sizes) -> Result<usize, EncodeError> {
        value_len(self.tag, &self.prim, mode)
    }

    #[inline(always)]
    #[tactic(auto, using(crate::proofs::Noting::none_read))]
    fn put<Pass, W: io::Write>(
        &self,
        mode: Mode,
        _sizes: &mut SizesLeft<'_>,
        target: &mut W,
        why: &mut WriteError,
    ) -> Result<(), Failed> {
        match self.prim.encoded_len(mode) {
            Ok(len) => self.prim.write_value(self.tag, len, mode, target, why),
            Err(error) => Err(store_refusal(why, error)),
        }
    }

    ghost one = { λ x mode can. primitive_lawful x.tag mode (P.lawful x.prim mode) };
}
