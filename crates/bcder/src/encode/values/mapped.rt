//! The items of a slice, each encoded as what a closure returns for it.
ghost use Rattle.std.specs.Prelude.{◌≡◌, All, Any};
ghost use Rattle.bcder.specs.calls.Encoders.{HasEncoding, SizeOfValues, WritesParts, into_result};
ghost use Rattle.bcder.specs.calls.Meaning.{EachOf, Joined};
ghost use Rattle.bcder.specs.calls.Iterated.{TakesItem, Gives, ItemMeans, ItemLacks, MayMap};
ghost use Rattle.bcder.specs.laws.Composed.{item_lawful};
ghost use Rattle.bcder.specs.calls.Noted.{ReadsNone};
ghost use Rattle.bcder.specs.laws.Joined.{EachOf_lawful, Joined_lawful};

use crate::encode::sizes::{Inside, Sizes, SizesLeft};
use crate::encode::slot::Failed;
use crate::encode::values::parts::{Parts, add_len, note_joined, write_known_parts};
use crate::encode::values::{Encoder, Values};
use crate::encode::{EncodeError, WriteError};
use crate::mode::Mode;
use std::convert::AsSlice;
use std::io;
use std::marker::PhantomData;

/// An encoder of the items of a slice, each encoded as what a closure returns for it.
///
/// Calls require that the closure may be called on every item, and gives each item one meaning. For
/// a closure without clauses this is known from its body.
#[derive(Drop)]
pub struct Slice<T, F, U, V> {
    value: T,
    f: F,
    marker: PhantomData<(U, V)>,
}

impl<T: AsSlice<U>, F: Fn(&U) -> V, U, V: Values> Slice<T, F, U, V> {
    /// Creates an encoder of the items of `value`, each as what `f` returns for it.
    pub fn new(value: T, f: F) -> Self
        ensures value { result.value ≡ value }
        ensures closure { result.f ≡ f }
    {
        Slice {
            value,
            f,
            marker: PhantomData,
        }
    }
}

/// Returns what the closure returns for an item.
fn call_on<U, V, F: Fn(&U) -> V>(f: &F, item: &U) -> V
    requires { TakesItem F.Fn f.now item.now }
    ensures { Gives F.Fn f.now item.now result }
{
    f(item)
}

/// Returns the size of an item, or its refusal.
fn item_len<U, V: Values + Drop, F: Fn(&U) -> V>(
    f: &F,
    item: &U,
    mode: Mode,
) -> Result<usize, EncodeError>
    requires { MayMap F.Fn f.now V.can_encode V.means item.now }
    ensures { SizeOfValues (ItemMeans F.Fn f.now V.means mode item.now)
        (ItemLacks F.Fn f.now V.may_lack mode item.now) result }
{
    let value = call_on(f, item);
    value.encoded_len(mode)
}

/// Writes an item that is known to have an encoding.
fn write_item<U, V: Values + Drop, F: Fn(&U) -> V, W: io::Write>(
    f: &F,
    item: &U,
    mode: Mode,
    target: &mut W,
    why: &mut WriteError,
) -> Result<(), Failed>
    requires may { MayMap F.Fn f.now V.can_encode V.means item.now }
    requires known { HasEncoding (ItemMeans F.Fn f.now V.means mode item.now) }
    ensures { WritesParts W.contents target (ItemMeans F.Fn f.now V.means mode item.now)
        (ItemLacks F.Fn f.now V.may_lack mode item.now) (into_result result why.new) }
{
    let value = call_on(f, item);
    value.write_known::<Inside, _>(mode, &mut SizesLeft::none(), target, why)
}

/// The items and the closure.
#[derive(Drop)]
struct Mapped<'a, F, U, V> {
    items: &'a [U],
    f: &'a F,
    marker: PhantomData<V>,
}

impl<'a, F: Fn(&U) -> V, U, V: Values + Drop> Parts for Mapped<'a, F, U, V> {
    ghost all = { λ x mode. EachOf (ItemMeans F.Fn x.f.now V.means mode) x.items.now };

    ghost may_lack = { λ x mode. Any (ItemLacks F.Fn x.f.now V.may_lack mode) x.items.now };

    ghost reads = { λ _ _. ReadsNone };

    ghost can_encode = { λ x. All (MayMap F.Fn x.f.now V.can_encode V.means) x.items.now };

    #[tactic(auto, using(crate::proofs::Noting::nothing_noted))]
    fn note_parts<Pass>(
        &self,
        mode: Mode,
        _sizes: &mut Sizes,
    ) -> Result<Option<usize>, EncodeError> {
        let mut sum = Some(0usize);
        for item in self.items {
            let len = item_len(self.f, item, mode)?;
            sum = add_len(sum, len);
        }
        Ok(sum)
    }

    #[tactic(auto, using(crate::proofs::Noting::none_read))]
    fn write_parts<Pass, W: io::Write>(
        &self,
        mode: Mode,
        _sizes: &mut SizesLeft<'_>,
        target: &mut W,
        why: &mut WriteError,
    ) -> Result<(), Failed> {
        for item in self.items {
            write_item(self.f, item, mode, target, why)?;
        }
        Ok(())
    }

    ghost all_lawful = { λ x mode can.
        EachOf_lawful mode (item_lawful F.Fn x.f.now mode (λ v. V.lawful v mode)) x.items.now can };
}

impl<T: AsSlice<U>, F: Fn(&U) -> V, U, V: Values + Drop> Encoder for Slice<T, F, U, V> {
    ghost all = { λ x mode.
        Joined (EachOf (ItemMeans F.Fn x.f V.means mode) (T.items x.value)) };

    ghost lacks = { λ x mode. Any (ItemLacks F.Fn x.f V.may_lack mode) (T.items x.value) };

    ghost takes = { λ _ _. ReadsNone };

    ghost can = { λ x. All (MayMap F.Fn x.f V.can_encode V.means) (T.items x.value) };

    fn measured<Pass>(&self, mode: Mode, sizes: &mut Sizes) -> Result<usize, EncodeError> {
        let items = self.value.as_slice();
        let parts = Mapped {
            items,
            f: &self.f,
            marker: PhantomData,
        };
        note_joined::<Pass, _>(&parts, mode, sizes)
    }

    fn put<Pass, W: io::Write>(
        &self,
        mode: Mode,
        sizes: &mut SizesLeft<'_>,
        target: &mut W,
        why: &mut WriteError,
    ) -> Result<(), Failed> {
        let items = self.value.as_slice();
        let parts = Mapped {
            items,
            f: &self.f,
            marker: PhantomData,
        };
        write_known_parts::<Pass, _, _>(&parts, mode, sizes, target, why)
    }

    ghost one = { λ x mode can. Joined_lawful (EachOf_lawful mode
        (item_lawful F.Fn x.f mode (λ v. V.lawful v mode)) (T.items x.value) can) };
}
