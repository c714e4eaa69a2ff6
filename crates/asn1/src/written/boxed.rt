//! Values in memory of their own, written.
use crate::writers::Encode;
use bcder::encode::{EncodeError, WriteError};
use bcder::{Mode, Tag};
use std::io;

/// What is in the box is written.
impl<T: Encode> Encode for Box<T> {
    ghost writes = { λ tag x mode. T.writes tag x.value mode };

    ghost may_lack = { λ x mode. T.may_lack x.value mode };

    ghost is_clear = { λ x mode. T.is_clear x.value mode };

    fn encoded_len_as(&self, tag: Tag, mode: Mode) -> Result<usize, EncodeError> {
        (**self).encoded_len_as(tag, mode)
    }

    fn write_encoded_as<W: io::Write>(
        &self,
        tag: Tag,
        mode: Mode,
        target: &mut W,
    ) -> Result<(), WriteError> {
        (**self).write_encoded_as(tag, mode, target)
    }

    fn is_read_back(tag: Tag, mode: Mode) {
        T::is_read_back(tag, mode);
    }

    ghost lawful = { λ tag x mode. T.lawful tag x.value mode };
}
