//! Octets of a slice as an octet string (X.690, 8.7, 9.2, 10.2).
ghost use Rattle.std.specs.Prelude.{◌≡◌};
ghost use Rattle.bcder.specs.x690.Identifier.{AreOctets};
ghost use Rattle.bcder.specs.x690.OctetString.{octet_string_tag};
ghost use Rattle.bcder.specs.calls.Noted.{ReadsNone};
ghost use Rattle.bcder.specs.calls.StringMeaning.{OctetsMean};
ghost use Rattle.bcder.specs.laws.StringMeanings.{OctetsMean_lawful};

use super::OctetString;
use super::write::{octets_len, put_octets};
use crate::encode::sizes::{Sizes, SizesLeft};
use crate::encode::values::Encoder;
use crate::encode::{EncodeError, Failed, Values, WriteError};
use crate::mode::Mode;
use crate::tag::Tag;
use std::convert::AsSlice;
use std::io;

/// An encoder of an octet string of the octets of a slice.
///
/// In BER and DER the string is one primitive value. In CER it is one primitive value of at most
/// 1000 octets. A longer string is a constructed value with segments of 1000 octets, the last with
/// the octets that are left (9.2).
#[derive(Clone, Debug, Drop)]
pub struct OctetSliceEncoder<T> {
    slice: T,
    tag: Tag,
}

impl OctetString {
    /// Creates an encoder of the octets of a slice as an OCTET STRING.
    pub fn encode_slice<T: AsSlice<u8>>(value: T) -> OctetSliceEncoder<T>
        ensures { result ≡ record { slice = value; tag = octet_string_tag } }
    {
        OctetString::encode_slice_as(value, Tag::OCTET_STRING)
    }

    /// Creates an encoder of the octets of a slice as an octet string with a tag.
    pub fn encode_slice_as<T: AsSlice<u8>>(value: T, tag: Tag) -> OctetSliceEncoder<T>
        ensures { result ≡ record { slice = value; tag = tag } }
    {
        OctetSliceEncoder { slice: value, tag }
    }
}

impl<T: AsSlice<u8>> OctetSliceEncoder<T> {
    // What the slice holds are octets, for proofs only.
    pub(crate) fn see(&self)
        ensures { AreOctets (T.items self.now.slice) }
    {
        let slice = self.slice.as_slice();
        let _slice = slice;
    }
}

impl<T: AsSlice<u8>> Encoder for OctetSliceEncoder<T> {
    ghost all = { λ x mode. OctetsMean x.tag (T.items x.slice) mode };

    ghost takes = { λ _ _. ReadsNone };

    #[inline(always)]
    #[tactic(auto, using(crate::proofs::Noting::nothing_noted))]
    fn measured<Pass>(&self, mode: Mode, _sizes: &mut Sizes) -> Result<usize, EncodeError> {
        octets_len(self.tag, self.slice.as_slice(), mode)
    }

    #[tactic(auto, using(crate::proofs::Noting::none_read))]
    fn put<Pass, W: io::Write>(
        &self,
        mode: Mode,
        _sizes: &mut SizesLeft<'_>,
        target: &mut W,
        why: &mut WriteError,
    ) -> Result<(), Failed> {
        put_octets(self.tag, self.slice.as_slice(), mode, target, why)
    }

    ghost one = { λ x mode can. OctetsMean_lawful x.tag (T.items x.slice) mode };
}
