//! SET and SET OF, written (X.690, 8.11, 8.12, 11.6).
ghost use Rattle.std.specs.Prelude.{◌≡◌, ◌≢◌, ◌<◌, ◌≤◌, true, false, ◌⊎◌, All, Any, Ok, IfOk};
ghost use Rattle.std.specs.Prelude.{length};
ghost use Rattle.bcder.specs.declared.mode.Mode.TheVariants.{Ber};
ghost use Rattle.bcder.specs.x690.Tree.{no_trees};
ghost use Rattle.bcder.specs.calls.Meaning.{Encoded, ValueMeans, constructed_meaning};
ghost use Rattle.bcder.specs.calls.Encoders.{Writes};
ghost use Rattle.bcder.specs.laws.Meanings.{constructed_lawful};
ghost use Rattle.asn1.specs.SetsWritten.{WritesSetOf, AreKeptInOrder, MayLackForSet};
ghost use Rattle.asn1.specs.SetsLaws.{set_lawful};
ghost use Rattle.asn1.specs.Sets.{AreOrdered};

use crate::writers::{ByRef, Encode, EncodeFields};
use crate::{Set, SetOf, SetOrder, Type};
use bcder::encode::{EncodeError, Values, WriteError, sequence_as};
use bcder::{Captured, Mode, Tag};
use std::alloc::Global;
use std::io;

/// The encodings of items, in ascending order (X.690, 11.6).
fn in_order<T: Encode>(alloc: Global, items: &[T], mode: Mode) -> Result<Vec<Captured>, EncodeError>
    ensures { IfOk result (λ cs.
        AreKeptInOrder mode (λ v. T.writes T.TAG v mode) items.now cs.items) }
{
    let mut pieces = Vec::new(alloc);
    for item in items {
        let Ok(piece) = Captured::from_values(alloc, mode, ByRef(item)) else {
            return Err(EncodeError::NoMemory);
        };
        if pieces.push(piece).is_err() {
            return Err(EncodeError::NoMemory);
        }
    }
    pieces.sort_unstable_by(|a, b| a.as_slice().cmp(b.as_slice()));
    Ok(pieces)
}

/// Writes items in ascending order of their encodings (X.690, 11.6).
fn write_in_order<T: Encode, W: io::Write>(
    items: &Vec<T>,
    mode: Mode,
    target: &mut W,
) -> Result<(), WriteError>
    requires not_ber { mode ≢ Ber }
    requires two { 2 ≤ length items.now.items }
    ensures { Writes (λ (e : Encoded). e.octets)
        (WritesSetOf mode (λ v. T.writes T.TAG v mode) items.now.items)
        (MayLackForSet mode (λ v. T.may_lack v mode) items.now.items)
        (W.contents target.old) (W.contents target.new) result }
{
    match items.len_fields(mode) {
        Ok(_) => match in_order(*items.allocator(), items.as_slice(), mode) {
            Ok(pieces) => pieces.write_encoded(mode, target),
            Err(_) => Err(WriteError::Refused(EncodeError::NoMemory)),
        },
        Err(error) => Err(WriteError::Refused(error)),
    }
}

/// Whether so many items are written as they stand: in BER, and if there are none or one.
fn is_in_order(mode: Mode, len: usize) -> bool
    ensures yes { result ≡ true → mode ≢ Ber → len < 2 }
    ensures no { result ≡ false → mode ≢ Ber }
    ensures two { result ≡ false → 2 ≤ len }
{
    mode.is_ber() || len < 2
}

/// The items of a set, in the order that they are written in.
#[derive(Clone, Copy, Drop)]
struct Items<'a, T>(&'a Vec<T>);

impl<T: Encode> Values for Items<'_, T> {
    ghost means = { λ x mode. WritesSetOf mode (λ v. T.writes T.TAG v mode) x.0.now.items };

    ghost may_lack = { λ x mode.
        MayLackForSet mode (λ v. T.may_lack v mode) x.0.now.items };

    fn encoded_len(&self, mode: Mode) -> Result<usize, EncodeError> {
        self.0.len_fields(mode)
    }

    fn write_encoded<W: io::Write>(&self, mode: Mode, target: &mut W) -> Result<(), WriteError> {
        if is_in_order(mode, self.0.len()) {
            self.0.write_fields(mode, target)
        } else {
            write_in_order(self.0, mode, target)
        }
    }

    ghost lawful = { λ x mode can. set_lawful (λ v. T.writes T.TAG v mode)
        (λ v. T.lawful T.TAG v mode) x.0.now.items };
}

/// A SET OF: in BER as the items stand, in CER and DER in ascending order of their encodings.
impl<T: Encode> Encode for SetOf<T> {
    ghost writes = { λ tag x mode. ValueMeans tag (constructed_meaning tag mode)
        (WritesSetOf mode (λ v. T.writes T.TAG v mode) x.items) };

    ghost may_lack = { λ x mode. MayLackForSet mode (λ v. T.may_lack v mode) x.items };

    ghost is_clear = { λ x mode. All (λ v. T.is_clear v mode) x.items };

    fn encoded_len_as(&self, tag: Tag, mode: Mode) -> Result<usize, EncodeError> {
        sequence_as(tag, Items(&self.0)).encoded_len(mode)
    }

    fn write_encoded_as<W: io::Write>(
        &self,
        tag: Tag,
        mode: Mode,
        target: &mut W,
    ) -> Result<(), WriteError> {
        sequence_as(tag, Items(&self.0)).write_encoded(mode, target)
    }

    fn is_read_back(_tag: Tag, mode: Mode) {
        T::values_are_one();
        T::is_read_back(T::tag(), mode);
    }

    ghost lawful = { λ tag x mode. constructed_lawful tag (set_lawful
        (λ v. T.writes T.TAG v mode) (λ v. T.lawful T.TAG v mode) x.items) };
}

/// A SET of fields, in their order. It is read back if that is the order of their tags.
impl<F: EncodeFields + SetOrder> Encode for Set<F> {
    ghost writes = { λ tag x mode.
        ValueMeans tag (constructed_meaning tag mode) (F.lays x mode) };

    ghost may_lack = { λ x mode. F.may_lack x mode };

    ghost is_clear = { λ x mode. F.is_clear x mode × F.may_precede x mode no_trees
        × ((e : Encoded) → F.lays x mode (Ok e)
        → AreOrdered mode F.place e.values e.values) };

    fn encoded_len_as(&self, tag: Tag, mode: Mode) -> Result<usize, EncodeError> {
        sequence_as(tag, ByRef(&self.0)).encoded_len(mode)
    }

    fn write_encoded_as<W: io::Write>(
        &self,
        tag: Tag,
        mode: Mode,
        target: &mut W,
    ) -> Result<(), WriteError> {
        sequence_as(tag, ByRef(&self.0)).write_encoded(mode, target)
    }

    fn is_read_back(_tag: Tag, mode: Mode) {
        F::are_read_back(mode);
    }

    ghost lawful = { λ tag x mode. constructed_lawful tag (F.lawful x mode) };
}
