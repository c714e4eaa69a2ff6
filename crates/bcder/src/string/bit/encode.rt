//! Octets of a slice, written as a bit string.
ghost use Rattle.std.specs.Prelude.{◌≡◌};
ghost use Rattle.bcder.specs.declared.encode.error.EncodeError.TheVariants.{LongCerBitString};
ghost use Rattle.bcder.specs.x690.BitString.{bit_string_tag};
ghost use Rattle.bcder.specs.calls.Meaning.{BitsMean, ValueMeans, primitive_meaning};
ghost use Rattle.bcder.specs.calls.Noted.{ReadsNone};
ghost use Rattle.bcder.specs.laws.Meanings.{BitsMean_lawful, primitive_lawful};

use super::write::{bits_len, put_meant, write_bits};
use crate::encode::sizes::{Sizes, SizesLeft};
use crate::encode::slot::{Failed, store_refusal};
use crate::encode::values::Encoder;
use crate::encode::{EncodeError, PrimitiveContent, Values, WriteError};
use crate::mode::Mode;
use crate::tag::Tag;
use std::convert::AsSlice;
use std::io;

/// An encoder of one primitive value: the bits of octets, the last of which may have unused bits.
#[derive(Clone, Debug, Drop)]
pub struct BitSliceEncoder<T> {
    slice: T,
    unused: u8,
    tag: Tag,
}

impl<T> BitSliceEncoder<T> {
    /// Creates the encoder from its parts.
    pub(super) fn new(slice: T, unused: u8, tag: Tag) -> Self
        ensures { result ≡ record { slice = slice; unused = unused; tag = tag } }
    {
        BitSliceEncoder { slice, unused, tag }
    }
}

/// The contents octets of such a value.
#[derive(Clone, Copy)]
struct BitSlice<'a> {
    unused: u8,
    octets: &'a [u8],
}

impl PrimitiveContent for BitSlice<'_> {
    ghost own_tag = { bit_string_tag };

    ghost means = { λ x mode. BitsMean LongCerBitString mode
        (record { unused = x.unused; octets = x.octets.now }) };

    fn tag() -> Tag
        ensures { result ≡ bit_string_tag }
    {
        Tag::BIT_STRING
    }

    fn encoded_len(&self, mode: Mode) -> Result<usize, EncodeError> {
        bits_len(
            self.unused,
            self.octets,
            mode,
            EncodeError::LongCerBitString,
        )
    }

    fn write_encoded<W: io::Write>(&self, mode: Mode, target: &mut W) -> Result<(), WriteError> {
        write_bits(
            self.unused,
            self.octets,
            mode,
            EncodeError::LongCerBitString,
            target,
        )
    }

    fn write_value<W: io::Write>(
        &self,
        tag: Tag,
        len: usize,
        mode: Mode,
        target: &mut W,
        why: &mut WriteError,
    ) -> Result<(), Failed> {
        put_meant(
            self.unused,
            self.octets,
            tag,
            len,
            mode,
            EncodeError::LongCerBitString,
            target,
            why,
        )
    }

    ghost lawful = { λ x mode. BitsMean_lawful LongCerBitString mode
        (record { unused = x.unused; octets = x.octets.now }) };
}

impl<T: AsSlice<u8>> BitSliceEncoder<T> {
    /// Returns the contents octets.
    fn contents(&self) -> BitSlice<'_>
        ensures unused { result.unused ≡ self.now.unused }
        ensures octets { result.octets.now ≡ T.items self.now.slice }
    {
        BitSlice {
            unused: self.unused,
            octets: self.slice.as_slice(),
        }
    }
}

/// Encodes the bits as one primitive value (8.6.2). Unused bits are written as they are in BER, and
/// as zero in CER and DER (11.2.1). In CER there are at most 1000 contents octets (9.2).
impl<T: AsSlice<u8>> Encoder for BitSliceEncoder<T> {
    ghost all = { λ x mode. ValueMeans x.tag (primitive_meaning x.tag)
        (BitsMean LongCerBitString mode
        (record { unused = x.unused; octets = T.items x.slice })) };

    ghost takes = { λ _ _. ReadsNone };

    #[inline(always)]
    #[tactic(auto, using(crate::proofs::Noting::nothing_noted))]
    fn measured<Pass>(&self, mode: Mode, _sizes: &mut Sizes) -> Result<usize, EncodeError> {
        self.contents().encode_as(self.tag).encoded_len(mode)
    }

    #[tactic(auto, using(crate::proofs::Noting::none_read))]
    fn put<Pass, W: io::Write>(
        &self,
        mode: Mode,
        _sizes: &mut SizesLeft<'_>,
        target: &mut W,
        why: &mut WriteError,
    ) -> Result<(), Failed> {
        let contents = self.contents();
        match contents.encoded_len(mode) {
            Ok(len) => contents.write_value(self.tag, len, mode, target, why),
            Err(error) => Err(store_refusal(why, error)),
        }
    }

    ghost one = { λ x mode can. primitive_lawful x.tag mode
        (BitsMean_lawful LongCerBitString mode
        (record { unused = x.unused; octets = T.items x.slice })) };
}
