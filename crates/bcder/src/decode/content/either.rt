//! Reading the content of a primitive value as a number, null or bit string, in a closure that gets
//! content of either form.
ghost use Rattle.bcder.specs.calls.Readers.{NoBits};
ghost use Rattle.bcder.specs.x690.BitString.{IsBitString};
ghost use Rattle.bcder.specs.x690.Number.{IsNumber};
ghost use Rattle.bcder.specs.calls.Readers.{HoldBits};
ghost use Rattle.bcder.specs.calls.Readers.{ReadContent, ReadContentBy, RefusedValues, IsUnsigned};
ghost use Rattle.bcder.specs.calls.Readers.{IsNull, IsThis, MeanAnother};
ghost use Rattle.bcder.specs.calls.Views.{content_before, MovedContent};

use super::Content;
use crate::decode::error::DecodeError;
use crate::decode::source::Source;
use crate::int::number::Number;
use crate::string::BitString;
use std::alloc::Global;

#[tactic(auto, using(crate::specs::laws::Moved::untouched_is_moved))]
impl<'a, S: Source> Content<'a, S> {
    /// Reads all octets as a number of type `N`, and takes them.
    #[inline(always)]
    fn read_number<N: Number + Drop>(&mut self) -> Result<N, DecodeError<S::Error>>
        ensures moves { MovedContent S.stream self }
        ensures read { ReadContent S.stream self (IsNumber N.value N.in_range) result }
        ensures form { RefusedValues S.stream self result }
    {
        match self {
            Content::Primitive(octets) => octets.read_number(),
            Content::Constructed(values) => Err(values.refusal("expected a primitive value")),
        }
    }

    /// Reads all octets as the INTEGER (X.690, 8.3) with this value, and takes them.
    ///
    /// # Errors
    ///
    /// Returns `ContentError::ExpectedInteger` if they are another integer that a `u8` holds.
    /// Returns the errors of [`to_u8`](Self::to_u8) as well.
    pub fn skip_u8_if(&mut self, expected: u8) -> Result<(), DecodeError<S::Error>>
        ensures moves { MovedContent S.stream self }
        ensures read { ReadContentBy S.stream self
            (IsThis 8 expected) (MeanAnother expected) result }
        ensures form { RefusedValues S.stream self result }
    {
        match self {
            Content::Primitive(octets) => octets.skip_u8_if(expected),
            Content::Constructed(values) => Err(values.refusal("expected a primitive value")),
        }
    }

    /// Checks that this is the content of a NULL (X.690, 8.8): primitive, and without octets.
    ///
    /// # Errors
    ///
    /// Returns an error if the length promises octets, or if the content is that of a constructed
    /// value, which then stays as it is.
    pub fn to_null(&mut self) -> Result<(), DecodeError<S::Error>>
        ensures moves { MovedContent S.stream self }
        ensures read { ReadContent S.stream self IsNull result }
        ensures form { RefusedValues S.stream self result }
    {
        match self {
            Content::Primitive(octets) => octets.to_null(),
            Content::Constructed(values) => Err(values.refusal("expected a primitive value")),
        }
    }

    /// Takes all octets if they are contents octets of a bit string.
    pub(crate) fn take_bits(&mut self, alloc: Global) -> Result<BitString, DecodeError<S::Error>>
        ensures moves { MovedContent S.stream self }
        ensures read { ReadContentBy S.stream self
            (IsBitString (content_before S.stream self).mode)
            (NoBits (content_before S.stream self).mode) result }
        ensures form { RefusedValues S.stream self result }
    {
        match self {
            Content::Primitive(octets) => octets.take_bits(alloc),
            Content::Constructed(values) => Err(values.refusal("expected a primitive value")),
        }
    }

    /// Passes over all octets if they are contents octets of a bit string.
    pub(crate) fn skip_bits(&mut self) -> Result<(), DecodeError<S::Error>>
        ensures moves { MovedContent S.stream self }
        ensures read { ReadContent S.stream self
            (HoldBits (content_before S.stream self).mode) result }
        ensures form { RefusedValues S.stream self result }
    {
        match self {
            Content::Primitive(octets) => octets.skip_bits(),
            Content::Constructed(values) => Err(values.refusal("expected a primitive value")),
        }
    }

    /// Reads all octets as an INTEGER (X.690, 8.3) that fits into a `u8`, and takes them.
    ///
    /// # Errors
    ///
    /// Returns the errors of [`Primitive::to_u8`](super::Primitive::to_u8), and an error if the
    /// content is that of a constructed value, which then stays as it is.
    #[inline(always)]
    pub fn to_u8(&mut self) -> Result<u8, DecodeError<S::Error>>
        ensures moves { MovedContent S.stream self }
        ensures read { ReadContent S.stream self (IsUnsigned 8) result }
        ensures form { RefusedValues S.stream self result }
    {
        self.read_number()
    }

    /// Reads all octets as an INTEGER (X.690, 8.3) that fits into a `u16`, and takes them.
    ///
    /// # Errors
    ///
    /// Returns the errors of [`Primitive::to_u16`](super::Primitive::to_u16), and an error if the
    /// content is that of a constructed value, which then stays as it is.
    #[inline(always)]
    pub fn to_u16(&mut self) -> Result<u16, DecodeError<S::Error>>
        ensures moves { MovedContent S.stream self }
        ensures read { ReadContent S.stream self (IsUnsigned 16) result }
        ensures form { RefusedValues S.stream self result }
    {
        self.read_number()
    }

    /// Reads all octets as an INTEGER (X.690, 8.3) that fits into a `u32`, and takes them.
    ///
    /// # Errors
    ///
    /// Returns the errors of [`Primitive::to_u32`](super::Primitive::to_u32), and an error if the
    /// content is that of a constructed value, which then stays as it is.
    #[inline(always)]
    pub fn to_u32(&mut self) -> Result<u32, DecodeError<S::Error>>
        ensures moves { MovedContent S.stream self }
        ensures read { ReadContent S.stream self (IsUnsigned 32) result }
        ensures form { RefusedValues S.stream self result }
    {
        self.read_number()
    }

    /// Reads all octets as an INTEGER (X.690, 8.3) that fits into a `u64`, and takes them.
    ///
    /// # Errors
    ///
    /// Returns the errors of [`Primitive::to_u64`](super::Primitive::to_u64), and an error if the
    /// content is that of a constructed value, which then stays as it is.
    #[inline(always)]
    pub fn to_u64(&mut self) -> Result<u64, DecodeError<S::Error>>
        ensures moves { MovedContent S.stream self }
        ensures read { ReadContent S.stream self (IsUnsigned 64) result }
        ensures form { RefusedValues S.stream self result }
    {
        self.read_number()
    }
}
