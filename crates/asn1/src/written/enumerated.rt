//! ENUMERATED, written (X.690, 8.4).
ghost use Rattle.std.specs.Int.{w64};
ghost use Rattle.std.specs.Prelude.{FitsSigned};
ghost use Rattle.bcder.specs.x690.Integer.{integer_octets};
ghost use Rattle.bcder.specs.calls.Meaning.{Exactly, ValueMeans, primitive_meaning};
ghost use Rattle.bcder.specs.laws.Integers.{integer_octets_are};
ghost use Rattle.bcder.specs.laws.Meanings.{Exactly_lawful, primitive_lawful};

use crate::writers::Encode;
use crate::{Enumerated, Enumeration};
use bcder::encode::{EncodeError, WriteError};
use bcder::{Mode, Tag};
use std::io;

/// It is written as its number is.
impl<E: Enumeration> Encode for Enumerated<E> {
    ghost writes = { λ tag x _.
        ValueMeans tag (primitive_meaning tag) (Exactly (integer_octets (E.number x.0))) };

    ghost is_clear = { λ x _. FitsSigned w64 (E.number x.0) };

    fn encoded_len_as(&self, tag: Tag, mode: Mode) -> Result<usize, EncodeError> {
        self.0.number().encoded_len_as(tag, mode)
    }

    fn write_encoded_as<W: io::Write>(
        &self,
        tag: Tag,
        mode: Mode,
        target: &mut W,
    ) -> Result<(), WriteError> {
        self.0.number().write_encoded_as(tag, mode, target)
    }

    fn is_read_back(_tag: Tag, _mode: Mode) {
        let _known = (_tag, _mode);
    }

    ghost lawful = { λ tag x mode. primitive_lawful tag mode
        (Exactly_lawful (integer_octets (E.number x.0)) (integer_octets_are (E.number x.0))) };
}
