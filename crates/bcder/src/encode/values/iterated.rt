//! The items of an iterator, one after the other.
ghost use Rattle.std.specs.Prelude.{◌≡◌, IfOk, OnErr};
ghost use Rattle.bcder.specs.calls.Iterated.{RunsMean, RunsLack, GivesOneList};
ghost use Rattle.bcder.specs.laws.Composed.{runs_lawful};
ghost use Rattle.bcder.specs.calls.Meaning.{Joined};
ghost use Rattle.bcder.specs.calls.Noted.{ReadsNone};
ghost use Rattle.bcder.specs.laws.Joined.{Joined_lawful};

use crate::NoMemory;
use crate::encode::sizes::{Sizes, SizesLeft};
use crate::encode::slot::{Failed, store_refusal};
use crate::encode::values::parts::{Parts, add_len, note_joined, write_known_parts};
use crate::encode::values::{Encoder, Values};
use crate::encode::{EncodeError, WriteError};
use crate::mode::Mode;
use std::io;

/// An encoder of the items of an iterator, one after the other.
///
/// Each call goes over the items of a clone. Calls require that every clone gives the same finite
/// list.
#[derive(Clone, Debug, Drop)]
pub struct Iter<T> {
    value: T,
}

impl<T: IntoIterator + Clone> Iter<T> {
    /// Creates an encoder of the items of `value`.
    pub fn new(value: T) -> Self
        ensures { result ≡ record { value = value } }
    {
        Iter { value }
    }

    /// Returns the items, from a clone.
    ///
    /// # Errors
    ///
    /// Returns `NoMemory` if cloning fails, which never happens if a clone can't fail.
    pub fn items(&self) -> Result<T::IntoIter, NoMemory>
        ensures items { IfOk result (λ i. (t : T) × T.is_clone self.now.value t
            × T.into_iter_gives t i) }
        ensures refused { OnErr result (T.is_infallible self.now.value → ⊥) }
    {
        match self.value.clone() {
            Ok(copy) => Ok(copy.into_iter()),
            Err(_) => Err(NoMemory),
        }
    }
}

impl<T: IntoIterator> IntoIterator for Iter<T> {
    type Item = T::Item;

    type IntoIter = T::IntoIter;

    ghost into_iter_gives = { λ s r. T.into_iter_gives s.value r };

    fn into_iter(self) -> T::IntoIter {
        self.value.into_iter()
    }
}

impl<T: IntoIterator + Clone> Parts for Iter<T>
where
    T::Item: Values + Drop,
{
    ghost all = { λ x mode. RunsMean T.is_clone T.into_iter_gives T.IntoIter.next_gives
        (λ v. T.Item.means v mode) x.value };

    ghost may_lack = { λ x mode. RunsLack T.is_clone T.is_infallible T.into_iter_gives
        T.IntoIter.next_gives (λ v. T.Item.may_lack v mode) x.value };

    ghost reads = { λ _ _. ReadsNone };

    ghost can_encode = { λ x. GivesOneList T.is_clone T.into_iter_gives T.IntoIter.next_gives
        T.IntoIter.can_next T.IntoIter.remaining T.Item.can_encode T.Item.means x.value };

    #[tactic(auto, using(crate::proofs::Noting::nothing_noted))]
    fn note_parts<Pass>(
        &self,
        mode: Mode,
        _sizes: &mut Sizes,
    ) -> Result<Option<usize>, EncodeError> {
        let items = match self.items() {
            Ok(items) => items,
            Err(_) => return Err(EncodeError::NoMemory),
        };
        let mut sum = Some(0usize);
        for item in items {
            let len = item.encoded_len(mode)?;
            sum = add_len(sum, len);
        }
        Ok(sum)
    }

    #[tactic(auto, using(crate::proofs::Noting::none_read))]
    fn write_parts<Pass, W: io::Write>(
        &self,
        mode: Mode,
        _sizes: &mut SizesLeft<'_>,
        target: &mut W,
        why: &mut WriteError,
    ) -> Result<(), Failed> {
        let items = match self.items() {
            Ok(items) => items,
            Err(_) => return Err(store_refusal(why, EncodeError::NoMemory)),
        };
        for item in items {
            item.write_known::<Pass, _>(mode, &mut SizesLeft::none(), target, why)?;
        }
        Ok(())
    }

    ghost all_lawful = { λ x mode can. runs_lawful can mode (λ v. T.Item.lawful v mode) };
}

impl<T: IntoIterator + Clone> Encoder for Iter<T>
where
    T::Item: Values + Drop,
{
    ghost all = { λ x mode. Joined (RunsMean T.is_clone T.into_iter_gives
        T.IntoIter.next_gives (λ v. T.Item.means v mode) x.value) };

    ghost lacks = { λ x mode. RunsLack T.is_clone T.is_infallible T.into_iter_gives
        T.IntoIter.next_gives (λ v. T.Item.may_lack v mode) x.value };

    ghost takes = { λ _ _. ReadsNone };

    ghost can = { λ x. GivesOneList T.is_clone T.into_iter_gives T.IntoIter.next_gives
        T.IntoIter.can_next T.IntoIter.remaining T.Item.can_encode T.Item.means x.value };

    fn measured<Pass>(&self, mode: Mode, sizes: &mut Sizes) -> Result<usize, EncodeError> {
        note_joined::<Pass, _>(self, mode, sizes)
    }

    fn put<Pass, W: io::Write>(
        &self,
        mode: Mode,
        sizes: &mut SizesLeft<'_>,
        target: &mut W,
        why: &mut WriteError,
    ) -> Result<(), Failed> {
        write_known_parts::<Pass, _, _>(self, mode, sizes, target, why)
    }

    ghost one = { λ x mode can.
        Joined_lawful (runs_lawful can mode (λ v. T.Item.lawful v mode)) };
}
