//! What each type writes.
ghost use Rattle.std.specs.Prelude.{⊤, ◌⊎◌, Ok, MatchOption};
ghost use Rattle.bcder.specs.x690.Tree.{no_trees, ◌+++◌};
ghost use Rattle.bcder.specs.calls.Meaning.{Then, NoValues, Joined};
ghost use Rattle.bcder.specs.calls.Meaning.{Encoded, ValueMeans};
ghost use Rattle.bcder.specs.calls.Meaning.{constructed_meaning};
ghost use Rattle.bcder.specs.laws.Joined.{Then_lawful, NoValues_lawful, Joined_lawful};
ghost use Rattle.bcder.specs.laws.Meanings.{constructed_lawful};
ghost use Rattle.asn1.specs.Types.{BeginWithout};
ghost use Rattle.asn1.specs.Writing.{WritesOptional, optional_lawful};

mod additions;
mod bit_strings;
mod boxed;
mod choice;
mod default;
mod enumerated;
mod identifiers;
mod lists;
mod named_bits;
mod numbers;
mod plain;
mod reals;
mod sets;
mod strings;
mod tagged;
mod times;
mod tuples;

use crate::writers::{ByRef, Encode, EncodeFields};
use crate::{Sequence, Type};
use bcder::encode::{EncodeError, Values, WriteError, sequence_as};
use bcder::{Mode, Tag};
use std::io;

/// A SEQUENCE of fields (X.690, 8.9).
impl<F: EncodeFields> Encode for Sequence<F> {
    ghost writes = { λ tag x mode.
        ValueMeans tag (constructed_meaning tag mode) (F.lays x mode) };

    ghost may_lack = { λ x mode. F.may_lack x mode };

    ghost is_clear = { λ x mode. F.is_clear x mode × F.may_precede x mode no_trees };

    fn encoded_len_as(&self, tag: Tag, mode: Mode) -> Result<usize, EncodeError> {
        sequence_as(tag, ByRef(&self.0)).encoded_len(mode)
    }

    fn write_encoded_as<W: io::Write>(
        &self,
        tag: Tag,
        mode: Mode,
        target: &mut W,
    ) -> Result<(), WriteError> {
        sequence_as(tag, ByRef(&self.0)).write_encoded(mode, target)
    }

    fn is_read_back(_tag: Tag, mode: Mode) {
        F::are_read_back(mode);
    }

    ghost lawful = { λ tag x mode. constructed_lawful tag (F.lawful x mode) };
}

/// A value.
impl<T: Encode> EncodeFields for T {
    ghost lays = { λ x mode. T.writes T.TAG x mode };

    ghost may_lack = { λ x mode. T.may_lack x mode };

    ghost is_clear = { λ x mode. T.is_clear x mode };

    ghost may_precede = { λ _ _ _. ⊤ };

    fn len_fields(&self, mode: Mode) -> Result<usize, EncodeError> {
        self.encoded_len_as(T::tag(), mode)
    }

    fn write_fields<W: io::Write>(&self, mode: Mode, target: &mut W) -> Result<(), WriteError> {
        self.write_encoded_as(T::tag(), mode, target)
    }

    fn are_read_back(mode: Mode) {
        T::is_read_back(T::tag(), mode);
    }

    ghost lawful = { λ x mode. T.lawful T.TAG x mode };
}

/// A value that may be left out. It is read back if no value with one of its tags follows.
impl<T: Encode> EncodeFields for Option<T> {
    ghost lays = { λ x mode. WritesOptional (λ v. T.writes T.TAG v mode) x };

    ghost may_lack = { λ x mode. MatchOption x ⊥ (λ v. T.may_lack v mode) };

    ghost is_clear = { λ x mode. MatchOption x ⊤ (λ v. T.is_clear v mode) };

    ghost may_precede = { λ x _ us. MatchOption x (BeginWithout (T.tags T.TAG) us) (λ _. ⊤) };

    fn len_fields(&self, mode: Mode) -> Result<usize, EncodeError> {
        match self {
            Some(value) => value.encoded_len_as(T::tag(), mode),
            None => Ok(0),
        }
    }

    fn write_fields<W: io::Write>(&self, mode: Mode, target: &mut W) -> Result<(), WriteError> {
        match self {
            Some(value) => value.write_encoded_as(T::tag(), mode, target),
            None => Ok(()),
        }
    }

    fn are_read_back(mode: Mode) {
        T::is_read_back(T::tag(), mode);
    }

    ghost lawful = { λ x mode.
        optional_lawful (λ v. T.writes T.TAG v mode) (λ v. T.lawful T.TAG v mode) x };
}

/// One behind the other.
impl<A: EncodeFields, B: EncodeFields> EncodeFields for (A, B) {
    ghost lays = { λ x mode. Joined (Then (A.lays x.0 mode) (Then (B.lays x.1 mode) NoValues)) };

    ghost may_lack = { λ x mode. A.may_lack x.0 mode ⊎ (B.may_lack x.1 mode ⊎ ⊥) };

    ghost is_clear = { λ x mode. A.is_clear x.0 mode × B.is_clear x.1 mode };

    ghost may_precede = { λ x mode us. B.may_precede x.1 mode us
        × ((e : Encoded) → B.lays x.1 mode (Ok e) → A.may_precede x.0 mode (e.values +++ us)) };

    fn len_fields(&self, mode: Mode) -> Result<usize, EncodeError> {
        (ByRef(&self.0), ByRef(&self.1)).encoded_len(mode)
    }

    fn write_fields<W: io::Write>(&self, mode: Mode, target: &mut W) -> Result<(), WriteError> {
        (ByRef(&self.0), ByRef(&self.1)).write_encoded(mode, target)
    }

    fn are_read_back(mode: Mode) {
        A::are_read_back(mode);
        B::are_read_back(mode);
    }

    ghost lawful = { λ x mode. Joined_lawful (Then_lawful (A.lawful x.0 mode)
        (Then_lawful (B.lawful x.1 mode) (NoValues_lawful mode))) };
}
