//! UTCTime and GeneralizedTime, written in the one form of CER and DER (X.690, 11.7, 11.8).
ghost use Rattle.bcder.specs.calls.Meaning.{PieceMeans, ValueMeans, primitive_meaning};
ghost use Rattle.bcder.specs.declared.encode.error.EncodeError.TheVariants.{LongCerPrimitive};
ghost use Rattle.bcder.specs.laws.Meanings.{PieceMeans_lawful, primitive_lawful};
ghost use Rattle.civil.specs.Time.{IsTime, IsUtcTime};
ghost use Rattle.civil.specs.Octets.{utc_octets, generalized_octets};

use crate::writers::Encode;
use bcder::encode::{EncodeError, PrimitiveContent, Values, WriteError};
use bcder::{Mode, Tag};
use civil::laws::octets_tell_times_apart;
use civil::{GeneralizedTime, UtcTime};
use std::io;

/// `YYMMDDhhmmssZ` (X.690, 11.8), in each mode.
impl Encode for UtcTime {
    ghost writes = { λ tag x mode. ValueMeans tag (primitive_meaning tag)
        (PieceMeans LongCerPrimitive mode (utc_octets x)) };

    ghost is_clear = { λ x _. IsUtcTime x };

    fn encoded_len_as(&self, tag: Tag, mode: Mode) -> Result<usize, EncodeError> {
        let octets = self.to_octets();
        octets.as_slice().encode_as(tag).encoded_len(mode)
    }

    fn write_encoded_as<W: io::Write>(
        &self,
        tag: Tag,
        mode: Mode,
        target: &mut W,
    ) -> Result<(), WriteError> {
        let octets = self.to_octets();
        octets.as_slice().encode_as(tag).write_encoded(mode, target)
    }

    fn is_read_back(_tag: Tag, _mode: Mode) {
        octets_tell_times_apart();
        let _known = (_tag, _mode);
    }

    ghost lawful = { λ tag x mode. primitive_lawful tag mode
        (PieceMeans_lawful LongCerPrimitive mode (utc_octets x)) };
}

/// `YYYYMMDDhhmmssZ`, with a fraction of a second if there is one (X.690, 11.7), in each mode.
impl Encode for GeneralizedTime {
    ghost writes = { λ tag x mode. ValueMeans tag (primitive_meaning tag)
        (PieceMeans LongCerPrimitive mode (generalized_octets x)) };

    ghost is_clear = { λ x _. IsTime x };

    fn encoded_len_as(&self, tag: Tag, mode: Mode) -> Result<usize, EncodeError> {
        let octets = self.to_octets();
        octets.as_slice().encode_as(tag).encoded_len(mode)
    }

    fn write_encoded_as<W: io::Write>(
        &self,
        tag: Tag,
        mode: Mode,
        target: &mut W,
    ) -> Result<(), WriteError> {
        let octets = self.to_octets();
        octets.as_slice().encode_as(tag).write_encoded(mode, target)
    }

    fn is_read_back(_tag: Tag, _mode: Mode) {
        octets_tell_times_apart();
        let _known = (_tag, _mode);
    }

    ghost lawful = { λ tag x mode. primitive_lawful tag mode
        (PieceMeans_lawful LongCerPrimitive mode (generalized_octets x)) };
}
