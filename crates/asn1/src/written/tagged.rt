//! Tagged types, written (X.690, 8.14).
ghost use Rattle.bcder.specs.calls.Meaning.{ValueMeans, constructed_meaning};
ghost use Rattle.bcder.specs.laws.Meanings.{constructed_lawful};

use crate::writers::{ByRef, Encode, EncodeFields};
use crate::{Explicit, FixedTag, Implicit, TagMarker};
use bcder::encode::{EncodeError, Values, WriteError, sequence_as};
use bcder::{Mode, Tag};
use std::io;

/// A constructed value with the tag, inside which the value stands (X.690, 8.14.3).
impl<M: TagMarker, T: Encode> Encode for Explicit<M, T> {
    ghost writes = { λ tag x mode.
        ValueMeans tag (constructed_meaning tag mode) (T.writes T.TAG x mode) };

    ghost may_lack = { λ x mode. T.may_lack x mode };

    ghost is_clear = { λ x mode. T.is_clear x mode };

    fn encoded_len_as(&self, tag: Tag, mode: Mode) -> Result<usize, EncodeError> {
        sequence_as(tag, ByRef(&self.value)).encoded_len(mode)
    }

    fn write_encoded_as<W: io::Write>(
        &self,
        tag: Tag,
        mode: Mode,
        target: &mut W,
    ) -> Result<(), WriteError> {
        sequence_as(tag, ByRef(&self.value)).write_encoded(mode, target)
    }

    fn is_read_back(_tag: Tag, mode: Mode) {
        <T as EncodeFields>::are_read_back(mode);
    }

    ghost lawful = { λ tag x mode. constructed_lawful tag (T.lawful T.TAG x mode) };
}

/// The value, with the tag in place of its own (X.690, 8.14.4).
impl<M: TagMarker, T: FixedTag + Encode> Encode for Implicit<M, T> {
    ghost writes = { λ tag x mode. T.writes tag x mode };

    ghost may_lack = { λ x mode. T.may_lack x mode };

    ghost is_clear = { λ x mode. T.is_clear x mode };

    fn encoded_len_as(&self, tag: Tag, mode: Mode) -> Result<usize, EncodeError> {
        self.value.encoded_len_as(tag, mode)
    }

    fn write_encoded_as<W: io::Write>(
        &self,
        tag: Tag,
        mode: Mode,
        target: &mut W,
    ) -> Result<(), WriteError> {
        self.value.write_encoded_as(tag, mode, target)
    }

    fn is_read_back(tag: Tag, mode: Mode) {
        T::is_read_back(tag, mode);
    }

    ghost lawful = { λ tag x mode. T.lawful tag x mode };
}
