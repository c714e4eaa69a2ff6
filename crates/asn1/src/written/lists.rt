//! SEQUENCE OF, written (X.690, 8.10).
ghost use Rattle.std.specs.Prelude.{All, Any};
ghost use Rattle.bcder.specs.calls.Meaning.{EachOf, Joined, IsSum};
ghost use Rattle.bcder.specs.calls.Encoders.{HasEncoding, TellsSum, WritesParts};
ghost use Rattle.std.specs.Prelude.{ℕ, ◌+◌};
ghost use Rattle.bcder.specs.laws.Meanings.{constructed_lawful};
ghost use Rattle.asn1.specs.Types.{BeginWithout};
ghost use Rattle.asn1.specs.Writing.{each_lawful};

use crate::writers::{ByRef, Encode, EncodeFields};
use crate::{Sequence, SequenceOf, Type};
use bcder::encode::{EncodeError, WriteError};
use bcder::{Mode, Tag};
use std::io;

/// Returns a sum of sizes with one more.
#[inline(always)]
fn add_len(sum: Option<usize>, len: usize) -> Option<usize>
    ensures { (k : ℕ) → IsSum sum k → IsSum result (k + len) }
{
    match sum {
        Some(sum) => sum.checked_add(len),
        None => None,
    }
}

/// Returns the sum of the sizes, or `None` if it exceeds `usize`.
fn items_len<T: Encode>(items: &[T], mode: Mode) -> Result<Option<usize>, EncodeError>
    ensures { TellsSum (EachOf (λ v. T.writes T.TAG v mode) items.now)
        (Any (λ v. T.may_lack v mode) items.now) result }
{
    let mut sum = Some(0usize);
    for item in items {
        let len = item.len_fields(mode)?;
        sum = add_len(sum, len);
    }
    Ok(sum)
}

/// Writes the items, none of which is refused.
fn write_items<T: Encode, W: io::Write>(
    items: &[T],
    mode: Mode,
    target: &mut W,
) -> Result<(), WriteError>
    requires { HasEncoding (EachOf (λ v. T.writes T.TAG v mode) items.now) }
    ensures { WritesParts W.contents target (EachOf (λ v. T.writes T.TAG v mode) items.now)
        (Any (λ v. T.may_lack v mode) items.now) result }
{
    for item in items {
        item.write_fields(mode, target)?;
    }
    Ok(())
}

/// They are read back in front of values that have none of the type's tags.
impl<T: Encode> EncodeFields for Vec<T> {
    ghost lays = { λ x mode. Joined (EachOf (λ v. T.writes T.TAG v mode) x.items) };

    ghost may_lack = { λ x mode. Any (λ v. T.may_lack v mode) x.items };

    ghost is_clear = { λ x mode. All (λ v. T.is_clear v mode) x.items };

    ghost may_precede = { λ _ _ us. BeginWithout (T.tags T.TAG) us };

    fn len_fields(&self, mode: Mode) -> Result<usize, EncodeError> {
        match items_len(self.as_slice(), mode) {
            Ok(Some(len)) => Ok(len),
            Ok(None) => Err(EncodeError::SizeOverflow),
            Err(error) => Err(error),
        }
    }

    fn write_fields<W: io::Write>(&self, mode: Mode, target: &mut W) -> Result<(), WriteError> {
        match self.len_fields(mode) {
            Ok(_) => write_items(self.as_slice(), mode, target),
            Err(error) => Err(WriteError::Refused(error)),
        }
    }

    fn are_read_back(mode: Mode) {
        T::is_read_back(T::tag(), mode);
    }

    ghost lawful = { λ x mode.
        each_lawful (λ v. T.writes T.TAG v mode) (λ v. T.lawful T.TAG v mode) x.items };
}

/// It is written as a SEQUENCE of the values.
impl<T: Encode> Encode for SequenceOf<T> {
    ghost writes = { ⟦<Sequence<Vec<T>> as Encode>⟧.writes };

    ghost may_lack = { ⟦<Sequence<Vec<T>> as Encode>⟧.may_lack };

    ghost is_clear = { ⟦<Sequence<Vec<T>> as Encode>⟧.is_clear };

    fn encoded_len_as(&self, tag: Tag, mode: Mode) -> Result<usize, EncodeError> {
        Sequence(ByRef(&self.0)).encoded_len_as(tag, mode)
    }

    fn write_encoded_as<W: io::Write>(
        &self,
        tag: Tag,
        mode: Mode,
        target: &mut W,
    ) -> Result<(), WriteError> {
        Sequence(ByRef(&self.0)).write_encoded_as(tag, mode, target)
    }

    fn is_read_back(tag: Tag, mode: Mode) {
        <Sequence<Vec<T>>>::is_read_back(tag, mode);
    }

    ghost lawful = { λ tag x mode. constructed_lawful tag
        (each_lawful (λ v. T.writes T.TAG v mode) (λ v. T.lawful T.TAG v mode) x.items) };
}
