//! Bit strings (X.690, 8.6).
ghost use Rattle.std.specs.Prelude.{◌≡◌, ◌≤◌, ◌<◌, ◌^◌, ◌&&◌, [], false, length, get_or};
ghost use Rattle.std.specs.Prelude.{slice_index, nat_eq, IfOk, IsSomeAnd};
ghost use Rattle.std.specs.Cmp.Lexicographic.{pointwise};
ghost use Rattle.std.specs.Cmp.Rules.{comparing};
ghost use Rattle.std.proofs.Common.{rules};
ghost use Rattle.bcder.specs.calls.Readers.{NoBits};
ghost use Rattle.bcder.specs.x690.BitString.{bits, bit_string_tag, IsBits, IsBitString};
ghost use Rattle.bcder.specs.calls.BitOctets.{octets_left};
ghost use Rattle.bcder.specs.x690.Identifier.{AreOctets};
ghost use Rattle.bcder.specs.calls.Readers.{HoldBits};
ghost use Rattle.bcder.specs.calls.Readers.{MeanNothing, ReadContentBy, ReadContent, RefusedValues};
ghost use Rattle.bcder.specs.calls.Valued.{TakesOneAs, TakesOneBy};
ghost use Rattle.bcder.specs.calls.Views.{Moved, MovedContent, before, content_before};
ghost use Rattle.bcder.specs.calls.Views.{of_constructed};

pub(crate) mod contents;
mod encode;
mod write;

use crate::NoMemory;
use crate::decode::{Constructed, Content, DecodeError, Source};
use crate::tag::Tag;
use bytes::Bytes;
pub use encode::BitSliceEncoder;
use std::alloc::{AllocError, Global};
use std::convert::AsSlice;
use std::marker::Model;

/// A bit string: octets, bit 8 of each first. Some bits of the last octet may be unused (8.6.2).
///
/// The octets are shared: a clone copies none of them. Unused bits are kept as they are.
#[derive(Debug, Drop)]
pub struct BitString {
    unused: u8,
    octets: Bytes,
}

impl Model for BitString {
    ghost use Rattle.bcder.specs.x690.BitString.{Bits, IsBits};

    ghost Value = { Bits };

    ghost view = { λ x. record { unused = x.unused; octets = x.octets } };

    ghost invariant = { λ x. IsBits (record { unused = x.unused; octets = x.octets }) };
}

impl BitString {
    /// Creates a bit string of these octets, without the last `unused` bits. At most 7 bits may be
    /// unused, and none if there are no octets. There must be fewer than 2^61 octets.
    pub fn new(unused: u8, bits: Bytes) -> Self
        requires few { unused ≤ 7 }
        requires none { bits ≡ [] → unused ≡ 0 }
        requires size { length bits < 2 ^ 61 }
        ensures { result ≡ record { unused = unused; octets = bits } }
    {
        BitString {
            unused,
            octets: bits,
        }
    }

    /// Returns the bit at an index, counted from 0 for the leading bit, or `false` after the last
    /// bit.
    pub fn bit(&self, bit: usize) -> bool
        ensures { result ≡ get_or (bits self.now) bit false }
    {
        if bit >= self.bit_len() {
            return false;
        }
        self.octets[bit / 8] >> (7 - bit % 8) & 1 == 1
    }

    /// Returns the octet at an index, counted from 0, or 0 after the last octet.
    pub fn octet(&self, idx: usize) -> u8
        ensures { result ≡ slice_index self.now.octets idx }
    {
        match self.octets.get(idx) {
            Some(octet) => *octet,
            None => 0,
        }
    }

    /// Returns the number of bits.
    pub fn bit_len(&self) -> usize
        ensures { result ≡ length (bits self.now) }
    {
        8 * self.octets.len() - usize::from(self.unused)
    }

    /// Returns the number of unused bits in the last octet.
    pub fn unused(&self) -> u8
        ensures { result ≡ self.now.unused }
    {
        self.unused
    }

    /// Returns the number of octets.
    pub fn octet_len(&self) -> usize
        ensures { result ≡ length self.now.octets }
    {
        self.octets.len()
    }

    /// Returns an iterator over the octets, in order.
    pub fn octets(&self) -> BitStringIter<'_>
        ensures { octets_left result ≡ self.now.octets }
    {
        BitStringIter(self.octets.iter())
    }

    /// Returns the octets as a slice. This is never `None`.
    pub fn octet_slice(&self) -> Option<&[u8]>
        ensures { IsSomeAnd result (λ octets. octets.now ≡ self.now.octets) }
    {
        Some(self.octets.as_slice())
    }

    /// Returns the octets, shared.
    ///
    /// # Errors
    ///
    /// Returns an error if memory runs out while sharing them.
    pub fn octet_bytes(&self) -> Result<Bytes, NoMemory>
        ensures { IfOk result (λ octets. octets ≡ self.now.octets) }
    {
        Ok(self.octets.clone()?)
    }

    // What the type promises of its fields, for proofs only.
    pub(crate) fn see(&self)
        ensures bits { IsBits self.now }
        ensures octets { AreOctets self.now.octets }
    {
        let _unused = self.unused;
        let slice = self.octets.as_slice();
        let _slice = slice;
    }

    /// Creates an encoder of a BIT STRING of these octets, without the last `unused` bits. The
    /// arguments have to meet the conditions of [`new`](Self::new).
    pub fn encode_slice<T: AsSlice<u8>>(value: T, unused: u8) -> BitSliceEncoder<T>
        requires { IsBits (record { unused = unused; octets = T.items value }) }
        ensures { result ≡ record { slice = value; unused = unused; tag = bit_string_tag } }
    {
        BitSliceEncoder::new(value, unused, Tag::BIT_STRING)
    }

    /// Creates an encoder like [`encode_slice`](Self::encode_slice), but with another tag.
    pub fn encode_slice_as<T: AsSlice<u8>>(value: T, unused: u8, tag: Tag) -> BitSliceEncoder<T>
        requires { IsBits (record { unused = unused; octets = T.items value }) }
        ensures { result ≡ record { slice = value; unused = unused; tag = tag } }
    {
        BitSliceEncoder::new(value, unused, tag)
    }
}

#[tactic(auto, using(crate::specs::laws::Moved::untouched_is_moved))]
impl BitString {
    /// Takes the next value, which has to be a primitive BIT STRING (8.6.2). Its octets are shared
    /// with the source if the source shares them.
    ///
    /// # Errors
    ///
    /// Returns the errors of [`skip_in`](Self::skip_in), and an error if there is no memory for the
    /// octets.
    pub fn take_from<S: Source>(
        alloc: Global,
        constructed: &mut Constructed<'_, S>,
    ) -> Result<Self, DecodeError<S::Error>>
        ensures moves { Moved S.stream constructed }
        ensures took { TakesOneBy bit_string_tag (IsBitString (before S.stream constructed).mode)
            (NoBits (before S.stream constructed).mode) (of_constructed S.stream constructed.old)
            result (of_constructed S.stream constructed.new) }
    {
        constructed.take_primitive_if(Tag::BIT_STRING, |octets| octets.take_bits(alloc))
    }

    /// Skips the next value, which has to be a primitive BIT STRING (8.6.2).
    ///
    /// # Errors
    ///
    /// Returns `ContentError::ExpectedTag` at the end and at a value of another tag. The content
    /// then stays usable.
    ///
    /// Returns an error, and the content has then failed, if
    ///
    /// - the contents octets are no bit string in the mode, for example in CER over 1000 octets
    ///   (9.2), or in CER and DER unused bits that aren't zero (11.2.1);
    /// - the value is constructed, or the octets are no value;
    /// - an earlier value was refused;
    /// - the source fails.
    pub fn skip_in<S: Source>(cons: &mut Constructed<'_, S>) -> Result<(), DecodeError<S::Error>>
        ensures moves { Moved S.stream cons }
        ensures took { TakesOneAs bit_string_tag (HoldBits (before S.stream cons).mode)
            (of_constructed S.stream cons.old) result (of_constructed S.stream cons.new) }
    {
        cons.take_primitive_if(Tag::BIT_STRING, |octets| octets.skip_bits())
    }

    /// Takes all contents octets as a bit string. They are shared with the source if the source
    /// shares them.
    ///
    /// # Errors
    ///
    /// Returns the errors of [`skip_content`](Self::skip_content), and an error if there is no
    /// memory for the octets. No octet is taken then.
    pub fn from_content<S: Source>(
        alloc: Global,
        content: &mut Content<'_, S>,
    ) -> Result<Self, DecodeError<S::Error>>
        ensures moves { MovedContent S.stream content }
        ensures read { ReadContentBy S.stream content
            (IsBitString (content_before S.stream content).mode)
            (NoBits (content_before S.stream content).mode) result }
        ensures form { RefusedValues S.stream content result }
    {
        content.take_bits(alloc)
    }

    /// Skips all contents octets, which have to be those of a bit string.
    ///
    /// # Errors
    ///
    /// Returns an error, and takes no octet, if the contents octets are no bit string in the mode,
    /// if there are fewer than the length promises, if the source fails, or if the content is that
    /// of a constructed value.
    pub fn skip_content<S: Source>(
        content: &mut Content<'_, S>,
    ) -> Result<(), DecodeError<S::Error>>
        ensures moves { MovedContent S.stream content }
        ensures read { ReadContent S.stream content
            (HoldBits (content_before S.stream content).mode) result }
        ensures form { RefusedValues S.stream content result }
    {
        content.skip_bits()
    }
}

/// The clone has the same octets and the same number of unused bits.
impl Clone for BitString {
    ghost is_clone = { λ x y. y ≡ x };

    fn clone(&self) -> Result<BitString, AllocError> {
        Ok(BitString {
            unused: self.unused,
            octets: self.octets.clone()?,
        })
    }
}

/// Bit strings are equal if their octets and their numbers of unused bits are. Unused bits are
/// compared too.
impl PartialEq for BitString {
    ghost eq = { λ x y. nat_eq x.unused y.unused && pointwise nat_eq x.octets y.octets };

    ghost laws = { Prim.search (comparing, rules) };

    fn eq(&self, other: &BitString) -> bool {
        self.unused == other.unused && self.octets.as_slice() == other.octets.as_slice()
    }
}

impl Eq for BitString {
    ghost laws = { Prim.search (comparing, rules) };
}

/// An iterator over the octets of a bit string, in order.
#[derive(Clone, Debug, Drop)]
pub struct BitStringIter<'a>(std::slice::Iter<'a, u8>);

impl Iterator for BitStringIter<'_> {
    ghost use Rattle.std.specs.Iterator.{YieldsFirstBy, item_count};
    ghost use Rattle.bcder.specs.calls.BitOctets.{octets_left};

    type Item = u8;

    ghost next_gives = { YieldsFirstBy (λ x. x) octets_left };

    ghost remaining = { item_count octets_left };

    fn next(&mut self) -> Option<u8> {
        self.0.next().copied()
    }
}
