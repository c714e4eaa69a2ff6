//! Lists of encoders: their values, one after the other.
ghost use Rattle.std.specs.Prelude.{Any, All, IfOk};
ghost use Rattle.bcder.specs.calls.Meaning.{EachOf, Joined};
ghost use Rattle.bcder.specs.calls.Encoders.{SizeOfValues};
ghost use Rattle.bcder.specs.calls.Noted.{ReadsEach, Notes};
ghost use Rattle.bcder.specs.laws.Joined.{EachOf_lawful, Joined_lawful};

use crate::encode::sizes::{Sizes, SizesLeft};
use crate::encode::slot::Failed;
use crate::encode::values::parts::{Parts, add_len, note_joined, write_known_parts};
use crate::encode::values::{Encoder, Values};
use crate::encode::{EncodeError, WriteError};
use crate::mode::Mode;
use std::io;

/// Returns the number of octets of an item. Notes the sizes that its length octets need, while
/// there is room.
#[inline(always)]
fn note_item<Pass, V: Values>(item: &V, mode: Mode, sizes: &mut Sizes) -> Result<usize, EncodeError>
    requires { V.can_encode item.now }
    ensures sized { SizeOfValues (V.means item.now mode) (V.may_lack item.now mode) result }
    ensures noted { IfOk result (λ _. Notes (V.reads item.now mode) sizes.old sizes.new) }
{
    if sizes.is_full() {
        return item.encoded_len(mode);
    }
    item.note_sizes::<Pass>(mode, sizes)
}

/// The items of a slice.
#[derive(Clone, Copy)]
struct Items<'a, V> {
    items: &'a [V],
}

impl<'a, V: Values> Parts for Items<'a, V> {
    ghost all = { λ x mode. EachOf (λ v. V.means v mode) x.items.now };

    ghost may_lack = { λ x mode. Any (λ v. V.may_lack v mode) x.items.now };

    ghost reads = { λ x mode. ReadsEach (λ v. V.reads v mode) x.items.now };

    ghost can_encode = { λ x. All V.can_encode x.items.now };

    #[inline(always)]
    fn note_parts<Pass>(
        &self,
        mode: Mode,
        sizes: &mut Sizes,
    ) -> Result<Option<usize>, EncodeError> {
        let mut sum = Some(0usize);
        for item in self.items {
            let len = note_item::<Pass, _>(item, mode, sizes)?;
            sum = add_len(sum, len);
        }
        Ok(sum)
    }

    fn write_parts<Pass, W: io::Write>(
        &self,
        mode: Mode,
        sizes: &mut SizesLeft<'_>,
        target: &mut W,
        why: &mut WriteError,
    ) -> Result<(), Failed> {
        for item in self.items {
            item.write_known::<Pass, _>(mode, sizes, target, why)?;
        }
        Ok(())
    }

    ghost all_lawful = { λ x mode can.
        EachOf_lawful mode (λ v. V.lawful v mode) x.items.now can };
}

impl<V: Values> Encoder for &'_ [V] {
    ghost all = { λ x mode. Joined (EachOf (λ v. V.means v mode) x.now) };

    ghost lacks = { λ x mode. Any (λ v. V.may_lack v mode) x.now };

    ghost takes = { λ x mode. ReadsEach (λ v. V.reads v mode) x.now };

    ghost can = { λ x. All V.can_encode x.now };

    #[inline(always)]
    fn measured<Pass>(&self, mode: Mode, sizes: &mut Sizes) -> Result<usize, EncodeError> {
        note_joined::<Pass, _>(&Items { items: *self }, mode, sizes)
    }

    fn put<Pass, W: io::Write>(
        &self,
        mode: Mode,
        sizes: &mut SizesLeft<'_>,
        target: &mut W,
        why: &mut WriteError,
    ) -> Result<(), Failed> {
        write_known_parts::<Pass, _, _>(&Items { items: *self }, mode, sizes, target, why)
    }

    ghost one = { λ x mode can.
        Joined_lawful (EachOf_lawful mode (λ v. V.lawful v mode) x.now can) };
}

impl<V: Values> Encoder for Vec<V> {
    ghost all = { λ x mode. Joined (EachOf (λ v. V.means v mode) x.items) };

    ghost lacks = { λ x mode. Any (λ v. V.may_lack v mode) x.items };

    ghost takes = { λ x mode. ReadsEach (λ v. V.reads v mode) x.items };

    ghost can = { λ x. All V.can_encode x.items };

    #[inline(always)]
    fn measured<Pass>(&self, mode: Mode, sizes: &mut Sizes) -> Result<usize, EncodeError> {
        self.as_slice().note_sizes::<Pass>(mode, sizes)
    }

    fn put<Pass, W: io::Write>(
        &self,
        mode: Mode,
        sizes: &mut SizesLeft<'_>,
        target: &mut W,
        why: &mut WriteError,
    ) -> Result<(), Failed> {
        self.as_slice()
            .write_known::<Pass, _>(mode, sizes, target, why)
    }

    ghost one = { λ x mode can.
        Joined_lawful (EachOf_lawful mode (λ v. V.lawful v mode) x.items can) };
}
