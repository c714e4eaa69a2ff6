//! Contents octets of object identifiers (X.690, 8.19).
ghost use Rattle.bcder.specs.x690.Identifier.{universal};
ghost use Rattle.bcder.specs.calls.Meaning.{ExactlyOctets};
ghost use Rattle.bcder.specs.laws.Meanings.{ExactlyOctets_lawful};

use super::PrimitiveContent;
use super::plain::{octets_len, put_octets, write_octets};
use crate::encode::slot::Failed;
use crate::encode::{EncodeError, WriteError};
use crate::mode::Mode;
use crate::oid::Oid;
use crate::tag::Tag;
use std::convert::AsSlice;
use std::io;

/// Encodes the octets that the identifier holds, even if they don't end with a subidentifier.
impl<T: AsSlice<u8>> PrimitiveContent for Oid<T> {
    ghost own_tag = { record { class = universal; number = 6 } };

    ghost means = { λ x _. ExactlyOctets (T.items x.0) };

    fn tag() -> Tag {
        Tag::OID
    }

    #[inline(always)]
    fn encoded_len(&self, _mode: Mode) -> Result<usize, EncodeError> {
        octets_len(self.0.as_slice())
    }

    fn write_encoded<W: io::Write>(&self, _mode: Mode, target: &mut W) -> Result<(), WriteError> {
        write_octets(self.0.as_slice(), target)
    }

    #[inline(always)]
    fn write_value<W: io::Write>(
        &self,
        tag: Tag,
        len: usize,
        _mode: Mode,
        target: &mut W,
        why: &mut WriteError,
    ) -> Result<(), Failed> {
        put_octets(self.0.as_slice(), tag, len, target, why)
    }

    ghost lawful = { λ x _. ExactlyOctets_lawful (T.items x.0) };
}
