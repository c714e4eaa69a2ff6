//! OBJECT IDENTIFIER, written (X.690, 8.19).
ghost use Rattle.bcder.specs.calls.Meaning.{ExactlyOctets, ValueMeans, primitive_meaning};
ghost use Rattle.bcder.specs.laws.Meanings.{ExactlyOctets_lawful, primitive_lawful};
ghost use Rattle.bcder.specs.x690.ObjectIdentifier.{IsComplete};

use crate::writers::Encode;
use bcder::encode::{EncodeError, PrimitiveContent, Values, WriteError};
use bcder::{Mode, Oid, Tag};
use std::convert::AsSlice;
use std::io;

/// The octets that it holds. It is read back if they end with a subidentifier.
impl<T: AsSlice<u8> + Drop> Encode for Oid<T> {
    ghost writes = { λ tag x _.
        ValueMeans tag (primitive_meaning tag) (ExactlyOctets (T.items x.0)) };

    ghost is_clear = { λ x _. IsComplete (T.items x.0) };

    fn encoded_len_as(&self, tag: Tag, mode: Mode) -> Result<usize, EncodeError> {
        self.encode_ref_as(tag).encoded_len(mode)
    }

    fn write_encoded_as<W: io::Write>(
        &self,
        tag: Tag,
        mode: Mode,
        target: &mut W,
    ) -> Result<(), WriteError> {
        self.encode_ref_as(tag).write_encoded(mode, target)
    }

    fn is_read_back(_tag: Tag, _mode: Mode) {
        let _known = (_tag, _mode);
    }

    ghost lawful = { λ tag x mode. primitive_lawful tag mode (ExactlyOctets_lawful (T.items x.0)) };
}
