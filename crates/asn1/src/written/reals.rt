//! REAL, written in the one form of CER and DER (X.690, 11.3).
ghost use Rattle.bcder.specs.calls.Meaning.{PieceMeans, ValueMeans, primitive_meaning};
ghost use Rattle.bcder.specs.declared.encode.error.EncodeError.TheVariants.{LongCerPrimitive};
ghost use Rattle.bcder.specs.laws.Meanings.{PieceMeans_lawful, primitive_lawful};
ghost use Rattle.real.specs.Contents.{IsHeld, real_octets};

use crate::writers::Encode;
use bcder::encode::{EncodeError, PrimitiveContent, Values, WriteError};
use bcder::{Mode, Tag};
use real::laws::contents_are_one;
use real::{Real, write};
use std::io;

/// The form of CER and DER, in each mode.
impl Encode for Real {
    ghost writes = { λ tag x mode. ValueMeans tag (primitive_meaning tag)
        (PieceMeans LongCerPrimitive mode (real_octets x)) };

    ghost is_clear = { λ x _. IsHeld x };

    fn encoded_len_as(&self, tag: Tag, mode: Mode) -> Result<usize, EncodeError> {
        let octets = write(self);
        octets.as_slice().encode_as(tag).encoded_len(mode)
    }

    fn write_encoded_as<W: io::Write>(
        &self,
        tag: Tag,
        mode: Mode,
        target: &mut W,
    ) -> Result<(), WriteError> {
        let octets = write(self);
        octets.as_slice().encode_as(tag).write_encoded(mode, target)
    }

    fn is_read_back(_tag: Tag, mode: Mode) {
        contents_are_one();
        let _known = (_tag, mode);
    }

    ghost lawful = { λ tag x mode. primitive_lawful tag mode
        (PieceMeans_lawful LongCerPrimitive mode (real_octets x)) };
}
