//! BIT STRING, written (X.690, 8.6, 9.2, 11.2.1).
ghost use Rattle.bcder.specs.declared.encode.error.EncodeError.TheVariants.{LongCerPrimitive};
ghost use Rattle.bcder.specs.calls.Meaning.{BitsMean, ValueMeans, primitive_meaning};
ghost use Rattle.bcder.specs.laws.Meanings.{BitsMean_lawful, primitive_lawful};
ghost use Rattle.bcder.specs.x690.BitString.{IsBits, MayHave};

use crate::writers::Encode;
use bcder::encode::{EncodeError, PrimitiveContent, Values, WriteError};
use bcder::{BitString, Mode, Tag};
use std::io;

/// In CER and DER unused bits are written as zero (X.690, 11.2.1). One whose unused bits are zero
/// is read back as it was. In CER one of more than 999 octets is refused (X.690, 9.2).
impl Encode for BitString {
    ghost writes = { λ tag x mode.
        ValueMeans tag (primitive_meaning tag) (BitsMean LongCerPrimitive mode x) };

    ghost is_clear = { λ x mode. IsBits x × MayHave mode x };

    fn encoded_len_as(&self, tag: Tag, mode: Mode) -> Result<usize, EncodeError> {
        self.encode_ref_as(tag).encoded_len(mode)
    }

    fn write_encoded_as<W: io::Write>(
        &self,
        tag: Tag,
        mode: Mode,
        target: &mut W,
    ) -> Result<(), WriteError> {
        self.encode_ref_as(tag).write_encoded(mode, target)
    }

    fn is_read_back(_tag: Tag, _mode: Mode) {
        let _known = (_tag, _mode);
    }

    ghost lawful = { λ tag x mode.
        primitive_lawful tag mode (BitsMean_lawful LongCerPrimitive mode x) };
}
