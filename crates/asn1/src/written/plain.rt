//! BOOLEAN and NULL, written (X.690, 8.2, 8.8, 11.1).
ghost use Rattle.std.specs.Prelude.{[]};
ghost use Rattle.bcder.specs.calls.Meaning.{Exactly, ValueMeans, primitive_meaning, truth_octets};
ghost use Rattle.bcder.specs.laws.Integers.{AreOctets-nil};
ghost use Rattle.bcder.specs.laws.Meanings.{Exactly_lawful, primitive_lawful, truth_octets_are};

use crate::writers::Encode;
use bcder::encode::{EncodeError, PrimitiveContent, Values, WriteError};
use bcder::{Mode, Tag};
use std::io;

/// BOOLEAN: `FF` for true in each mode (X.690, 8.2, 11.1).
impl Encode for bool {
    ghost writes = { λ tag x _.
        ValueMeans tag (primitive_meaning tag) (Exactly (truth_octets x)) };

    fn encoded_len_as(&self, tag: Tag, mode: Mode) -> Result<usize, EncodeError> {
        (*self).encode_as(tag).encoded_len(mode)
    }

    fn write_encoded_as<W: io::Write>(
        &self,
        tag: Tag,
        mode: Mode,
        target: &mut W,
    ) -> Result<(), WriteError> {
        (*self).encode_as(tag).write_encoded(mode, target)
    }

    fn is_read_back(_tag: Tag, _mode: Mode) {
        let _known = (_tag, _mode);
    }

    ghost lawful = { λ tag x mode. primitive_lawful tag mode
        (Exactly_lawful (truth_octets x) (truth_octets_are x)) };
}

/// NULL, which has no contents octets (X.690, 8.8).
impl Encode for () {
    ghost writes = { λ tag x _.
        ValueMeans tag (primitive_meaning tag) (Exactly []) };

    fn encoded_len_as(&self, tag: Tag, mode: Mode) -> Result<usize, EncodeError> {
        (*self).encode_as(tag).encoded_len(mode)
    }

    fn write_encoded_as<W: io::Write>(
        &self,
        tag: Tag,
        mode: Mode,
        target: &mut W,
    ) -> Result<(), WriteError> {
        (*self).encode_as(tag).write_encoded(mode, target)
    }

    fn is_read_back(_tag: Tag, _mode: Mode) {
        let _known = (_tag, _mode);
    }

    ghost lawful = { λ tag x mode. primitive_lawful tag mode
        (Exactly_lawful [] AreOctets-nil) };
}
