//! OCTET STRING and restricted character strings, written (X.690, 8.7, 8.23, 9.2, 10.2).
ghost use Rattle.bcder.specs.calls.StringMeaning.{OctetsMean, StringMeans};
ghost use Rattle.bcder.specs.calls.StringOctets.{octets_of};
ghost use Rattle.bcder.specs.laws.StringMeanings.{OctetsMean_lawful, StringMeans_lawful};
ghost use Rattle.bcder.specs.x690.CharSet.{IsOfSet};
ghost use Rattle.asn1.specs.Lent.{IsPiece};
ghost use Rattle.asn1.specs.Strings.{IsWrittenAsString};

use crate::writers::Encode;
use crate::{OctetStringRef, RestrictedStringRef, TaggedCharSet};
use bcder::encode::{EncodeError, Values, WriteError};
use bcder::string::RestrictedString;
use bcder::{Mode, OctetString, Tag};
use std::convert::AsSlice;
use std::io;

/// In BER a string is written as it was cut, in CER and DER as the mode cuts it.
impl Encode for OctetString {
    ghost writes = { StringMeans };

    ghost is_clear = { λ x mode. IsWrittenAsString mode x };

    fn encoded_len_as(&self, tag: Tag, mode: Mode) -> Result<usize, EncodeError> {
        self.encode_ref_as(tag).encoded_len(mode)
    }

    fn write_encoded_as<W: io::Write>(
        &self,
        tag: Tag,
        mode: Mode,
        target: &mut W,
    ) -> Result<(), WriteError> {
        self.encode_ref_as(tag).write_encoded(mode, target)
    }

    fn is_read_back(_tag: Tag, _mode: Mode) {
        let _known = (_tag, _mode);
    }

    ghost lawful = { λ tag x mode. StringMeans_lawful tag x mode };
}

/// It is written like an OCTET STRING (X.690, 8.23.3).
impl<L: TaggedCharSet> Encode for RestrictedString<L> {
    ghost writes = { λ tag x mode. StringMeans tag x mode };

    ghost is_clear = { λ x mode. IsWrittenAsString mode x × IsOfSet L.step (octets_of x) };

    fn encoded_len_as(&self, tag: Tag, mode: Mode) -> Result<usize, EncodeError> {
        self.encode_ref_as(tag).encoded_len(mode)
    }

    fn write_encoded_as<W: io::Write>(
        &self,
        tag: Tag,
        mode: Mode,
        target: &mut W,
    ) -> Result<(), WriteError> {
        self.encode_ref_as(tag).write_encoded(mode, target)
    }

    fn is_read_back(_tag: Tag, _mode: Mode) {
        let _known = (_tag, _mode);
    }

    ghost lawful = { λ tag x mode. StringMeans_lawful tag x mode };
}

/// The octets, in one piece. In CER more than 1000 are cut (X.690, 9.2), and so aren't read back
/// as lent octets.
impl<L: AsSlice<u8> + Copy + Drop> Encode for OctetStringRef<L> {
    ghost writes = { λ tag x mode. OctetsMean tag (L.items x) mode };

    ghost is_clear = { λ x mode. IsPiece mode (L.items x) };

    fn encoded_len_as(&self, tag: Tag, mode: Mode) -> Result<usize, EncodeError> {
        OctetString::encode_slice_as(self.0, tag).encoded_len(mode)
    }

    fn write_encoded_as<W: io::Write>(
        &self,
        tag: Tag,
        mode: Mode,
        target: &mut W,
    ) -> Result<(), WriteError> {
        OctetString::encode_slice_as(self.0, tag).write_encoded(mode, target)
    }

    fn is_read_back(_tag: Tag, _mode: Mode) {
        let _known = (_tag, _mode);
    }

    ghost lawful = { λ tag x mode. OctetsMean_lawful tag (L.items x) mode };
}

/// It is written like an [`OctetStringRef`] (X.690, 8.23.3).
impl<C: TaggedCharSet, L: AsSlice<u8> + Copy + Drop> Encode for RestrictedStringRef<C, L> {
    ghost writes = { λ tag x mode. OctetsMean tag (L.items x) mode };

    ghost is_clear = { λ x mode. IsPiece mode (L.items x) × IsOfSet C.step (L.items x) };

    fn encoded_len_as(&self, tag: Tag, mode: Mode) -> Result<usize, EncodeError> {
        OctetString::encode_slice_as(self.octets(), tag).encoded_len(mode)
    }

    fn write_encoded_as<W: io::Write>(
        &self,
        tag: Tag,
        mode: Mode,
        target: &mut W,
    ) -> Result<(), WriteError> {
        OctetString::encode_slice_as(self.octets(), tag).write_encoded(mode, target)
    }

    fn is_read_back(_tag: Tag, _mode: Mode) {
        let _known = (_tag, _mode);
    }

    ghost lawful = { λ tag x mode. OctetsMean_lawful tag (L.items x) mode };
}
