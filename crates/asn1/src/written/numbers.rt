//! INTEGER, written (X.690, 8.3).
ghost use Rattle.std.specs.Int.{w8, w16, w32, w64, w128, FitsUnsignedBits};
ghost use Rattle.std.specs.Prelude.{pos, FitsSigned};
ghost use Rattle.bcder.specs.x690.Integer.{integer_octets};
ghost use Rattle.bcder.specs.calls.Meaning.{Exactly, ValueMeans, primitive_meaning};
ghost use Rattle.bcder.specs.laws.Integers.{integer_octets_are};
ghost use Rattle.bcder.specs.laws.Meanings.{Exactly_lawful, primitive_lawful};

use crate::writers::Encode;
use bcder::encode::{EncodeError, PrimitiveContent, Values, WriteError};
use bcder::{Integer, Mode, Tag, Unsigned};
use std::io;

impl Encode for u8 {
    ghost writes = { λ tag x _.
        ValueMeans tag (primitive_meaning tag) (Exactly (integer_octets (pos x))) };

    ghost is_clear = { λ x _. FitsUnsignedBits 8 (pos x) };

    fn encoded_len_as(&self, tag: Tag, mode: Mode) -> Result<usize, EncodeError> {
        (*self).encode_as(tag).encoded_len(mode)
    }

    fn write_encoded_as<W: io::Write>(
        &self,
        tag: Tag,
        mode: Mode,
        target: &mut W,
    ) -> Result<(), WriteError> {
        (*self).encode_as(tag).write_encoded(mode, target)
    }

    fn is_read_back(_tag: Tag, _mode: Mode) {
        let _known = (_tag, _mode);
    }

    ghost lawful = { λ tag x mode. primitive_lawful tag mode
        (Exactly_lawful (integer_octets (pos x)) (integer_octets_are (pos x))) };
}

impl Encode for u16 {
    ghost writes = { λ tag x _.
        ValueMeans tag (primitive_meaning tag) (Exactly (integer_octets (pos x))) };

    ghost is_clear = { λ x _. FitsUnsignedBits 16 (pos x) };

    fn encoded_len_as(&self, tag: Tag, mode: Mode) -> Result<usize, EncodeError> {
        (*self).encode_as(tag).encoded_len(mode)
    }

    fn write_encoded_as<W: io::Write>(
        &self,
        tag: Tag,
        mode: Mode,
        target: &mut W,
    ) -> Result<(), WriteError> {
        (*self).encode_as(tag).write_encoded(mode, target)
    }

    fn is_read_back(_tag: Tag, _mode: Mode) {
        let _known = (_tag, _mode);
    }

    ghost lawful = { λ tag x mode. primitive_lawful tag mode
        (Exactly_lawful (integer_octets (pos x)) (integer_octets_are (pos x))) };
}

impl Encode for u32 {
    ghost writes = { λ tag x _.
        ValueMeans tag (primitive_meaning tag) (Exactly (integer_octets (pos x))) };

    ghost is_clear = { λ x _. FitsUnsignedBits 32 (pos x) };

    fn encoded_len_as(&self, tag: Tag, mode: Mode) -> Result<usize, EncodeError> {
        (*self).encode_as(tag).encoded_len(mode)
    }

    fn write_encoded_as<W: io::Write>(
        &self,
        tag: Tag,
        mode: Mode,
        target: &mut W,
    ) -> Result<(), WriteError> {
        (*self).encode_as(tag).write_encoded(mode, target)
    }

    fn is_read_back(_tag: Tag, _mode: Mode) {
        let _known = (_tag, _mode);
    }

    ghost lawful = { λ tag x mode. primitive_lawful tag mode
        (Exactly_lawful (integer_octets (pos x)) (integer_octets_are (pos x))) };
}

impl Encode for u64 {
    ghost writes = { λ tag x _.
        ValueMeans tag (primitive_meaning tag) (Exactly (integer_octets (pos x))) };

    ghost is_clear = { λ x _. FitsUnsignedBits 64 (pos x) };

    fn encoded_len_as(&self, tag: Tag, mode: Mode) -> Result<usize, EncodeError> {
        (*self).encode_as(tag).encoded_len(mode)
    }

    fn write_encoded_as<W: io::Write>(
        &self,
        tag: Tag,
        mode: Mode,
        target: &mut W,
    ) -> Result<(), WriteError> {
        (*self).encode_as(tag).write_encoded(mode, target)
    }

    fn is_read_back(_tag: Tag, _mode: Mode) {
        let _known = (_tag, _mode);
    }

    ghost lawful = { λ tag x mode. primitive_lawful tag mode
        (Exactly_lawful (integer_octets (pos x)) (integer_octets_are (pos x))) };
}

impl Encode for u128 {
    ghost writes = { λ tag x _.
        ValueMeans tag (primitive_meaning tag) (Exactly (integer_octets (pos x))) };

    ghost is_clear = { λ x _. FitsUnsignedBits 128 (pos x) };

    fn encoded_len_as(&self, tag: Tag, mode: Mode) -> Result<usize, EncodeError> {
        (*self).encode_as(tag).encoded_len(mode)
    }

    fn write_encoded_as<W: io::Write>(
        &self,
        tag: Tag,
        mode: Mode,
        target: &mut W,
    ) -> Result<(), WriteError> {
        (*self).encode_as(tag).write_encoded(mode, target)
    }

    fn is_read_back(_tag: Tag, _mode: Mode) {
        let _known = (_tag, _mode);
    }

    ghost lawful = { λ tag x mode. primitive_lawful tag mode
        (Exactly_lawful (integer_octets (pos x)) (integer_octets_are (pos x))) };
}

impl Encode for i8 {
    ghost writes = { λ tag x _.
        ValueMeans tag (primitive_meaning tag) (Exactly (integer_octets x)) };

    ghost is_clear = { λ x _. FitsSigned w8 x };

    fn encoded_len_as(&self, tag: Tag, mode: Mode) -> Result<usize, EncodeError> {
        (*self).encode_as(tag).encoded_len(mode)
    }

    fn write_encoded_as<W: io::Write>(
        &self,
        tag: Tag,
        mode: Mode,
        target: &mut W,
    ) -> Result<(), WriteError> {
        (*self).encode_as(tag).write_encoded(mode, target)
    }

    fn is_read_back(_tag: Tag, _mode: Mode) {
        let _known = (_tag, _mode);
    }

    ghost lawful = { λ tag x mode. primitive_lawful tag mode
        (Exactly_lawful (integer_octets x) (integer_octets_are x)) };
}

impl Encode for i16 {
    ghost writes = { λ tag x _.
        ValueMeans tag (primitive_meaning tag) (Exactly (integer_octets x)) };

    ghost is_clear = { λ x _. FitsSigned w16 x };

    fn encoded_len_as(&self, tag: Tag, mode: Mode) -> Result<usize, EncodeError> {
        (*self).encode_as(tag).encoded_len(mode)
    }

    fn write_encoded_as<W: io::Write>(
        &self,
        tag: Tag,
        mode: Mode,
        target: &mut W,
    ) -> Result<(), WriteError> {
        (*self).encode_as(tag).write_encoded(mode, target)
    }

    fn is_read_back(_tag: Tag, _mode: Mode) {
        let _known = (_tag, _mode);
    }

    ghost lawful = { λ tag x mode. primitive_lawful tag mode
        (Exactly_lawful (integer_octets x) (integer_octets_are x)) };
}

impl Encode for i32 {
    ghost writes = { λ tag x _.
        ValueMeans tag (primitive_meaning tag) (Exactly (integer_octets x)) };

    ghost is_clear = { λ x _. FitsSigned w32 x };

    fn encoded_len_as(&self, tag: Tag, mode: Mode) -> Result<usize, EncodeError> {
        (*self).encode_as(tag).encoded_len(mode)
    }

    fn write_encoded_as<W: io::Write>(
        &self,
        tag: Tag,
        mode: Mode,
        target: &mut W,
    ) -> Result<(), WriteError> {
        (*self).encode_as(tag).write_encoded(mode, target)
    }

    fn is_read_back(_tag: Tag, _mode: Mode) {
        let _known = (_tag, _mode);
    }

    ghost lawful = { λ tag x mode. primitive_lawful tag mode
        (Exactly_lawful (integer_octets x) (integer_octets_are x)) };
}

impl Encode for i64 {
    ghost writes = { λ tag x _.
        ValueMeans tag (primitive_meaning tag) (Exactly (integer_octets x)) };

    ghost is_clear = { λ x _. FitsSigned w64 x };

    fn encoded_len_as(&self, tag: Tag, mode: Mode) -> Result<usize, EncodeError> {
        (*self).encode_as(tag).encoded_len(mode)
    }

    fn write_encoded_as<W: io::Write>(
        &self,
        tag: Tag,
        mode: Mode,
        target: &mut W,
    ) -> Result<(), WriteError> {
        (*self).encode_as(tag).write_encoded(mode, target)
    }

    fn is_read_back(_tag: Tag, _mode: Mode) {
        let _known = (_tag, _mode);
    }

    ghost lawful = { λ tag x mode. primitive_lawful tag mode
        (Exactly_lawful (integer_octets x) (integer_octets_are x)) };
}

impl Encode for i128 {
    ghost writes = { λ tag x _.
        ValueMeans tag (primitive_meaning tag) (Exactly (integer_octets x)) };

    ghost is_clear = { λ x _. FitsSigned w128 x };

    fn encoded_len_as(&self, tag: Tag, mode: Mode) -> Result<usize, EncodeError> {
        (*self).encode_as(tag).encoded_len(mode)
    }

    fn write_encoded_as<W: io::Write>(
        &self,
        tag: Tag,
        mode: Mode,
        target: &mut W,
    ) -> Result<(), WriteError> {
        (*self).encode_as(tag).write_encoded(mode, target)
    }

    fn is_read_back(_tag: Tag, _mode: Mode) {
        let _known = (_tag, _mode);
    }

    ghost lawful = { λ tag x mode. primitive_lawful tag mode
        (Exactly_lawful (integer_octets x) (integer_octets_are x)) };
}

impl Encode for Integer {
    ghost writes = { λ tag x _.
        ValueMeans tag (primitive_meaning tag) (Exactly (integer_octets x)) };

    fn encoded_len_as(&self, tag: Tag, mode: Mode) -> Result<usize, EncodeError> {
        self.encode_as(tag).encoded_len(mode)
    }

    fn write_encoded_as<W: io::Write>(
        &self,
        tag: Tag,
        mode: Mode,
        target: &mut W,
    ) -> Result<(), WriteError> {
        self.encode_as(tag).write_encoded(mode, target)
    }

    fn is_read_back(_tag: Tag, _mode: Mode) {
        let _known = (_tag, _mode);
    }

    ghost lawful = { λ tag x mode. primitive_lawful tag mode
        (Exactly_lawful (integer_octets x) (integer_octets_are x)) };
}

impl Encode for Unsigned {
    ghost writes = { λ tag x _.
        ValueMeans tag (primitive_meaning tag) (Exactly (integer_octets (pos x))) };

    fn encoded_len_as(&self, tag: Tag, mode: Mode) -> Result<usize, EncodeError> {
        self.encode_as(tag).encoded_len(mode)
    }

    fn write_encoded_as<W: io::Write>(
        &self,
        tag: Tag,
        mode: Mode,
        target: &mut W,
    ) -> Result<(), WriteError> {
        self.encode_as(tag).write_encoded(mode, target)
    }

    fn is_read_back(_tag: Tag, _mode: Mode) {
        let _known = (_tag, _mode);
    }

    ghost lawful = { λ tag x mode. primitive_lawful tag mode
        (Exactly_lawful (integer_octets (pos x)) (integer_octets_are (pos x))) };
}
