//! Types that write themselves.
ghost use Rattle.std.specs.Prelude.{⊤};
ghost use Rattle.bcder.specs.declared.mode.Mode.{Mode};
ghost use Rattle.bcder.specs.x690.Identifier.{Tag as TagValue};
ghost use Rattle.bcder.specs.x690.Tree.{Trees};
ghost use Rattle.bcder.specs.calls.Meaning.{Encoded, Meaning, IsLawful};
ghost use Rattle.bcder.specs.calls.Encoders.{SizeOfValues, Writes};
ghost use Rattle.asn1.specs.Writing.{IsReadAs, AreReadAs};

use crate::{Fields, Type};
use bcder::encode::{EncodeError, Values, WriteError};
use bcder::{Mode, Tag};
use std::io;

/// A type that writes itself.
///
/// What is written of a value is read back as the same value; the laws in [`laws`](crate::laws)
/// say how.
pub trait Encode: Type {
    /// What is written of a value with a tag, in a mode: one encoding, or a refusal. A CHOICE
    /// writes the tag of its alternative instead (X.680, 29.7).
    ghost writes: { TagValue → Self → Mode → Meaning → Type 0 };

    /// When writing may run out of memory. By default never.
    ghost may_lack: { Self → Mode → Type 0 } = { λ _ _. ⊥ };

    /// Which values are read back: those in range, none of whose parts can be taken for another
    /// (X.680, 25.5). By default all.
    ghost is_clear: { Self → Mode → Type 0 } = { λ _ _. ⊤ };

    /// Returns the number of octets of the encoding with the tag.
    ///
    /// # Errors
    ///
    /// Returns the reason why there is no encoding, or `NoMemory` if memory runs out.
    fn encoded_len_as(&self, tag: Tag, mode: Mode) -> Result<usize, EncodeError>
        ensures { SizeOfValues (writes tag self.now mode) (may_lack self.now mode) result };

    /// Writes the encoding with the tag.
    ///
    /// # Errors
    ///
    /// Returns one of these errors:
    ///
    /// - `Refused` with the error of `encoded_len_as`; nothing was written then;
    /// - `Refused` with `NoMemory` if memory runs out while writing; a prefix of the octets was
    ///   written then;
    /// - `Target` if the target fails; a proper prefix of the octets was written then.
    fn write_encoded_as<W: io::Write>(
        &self,
        tag: Tag,
        mode: Mode,
        target: &mut W,
    ) -> Result<(), WriteError>
        ensures { Writes (λ (e : Encoded). e.octets) (writes tag self.now mode)
            (may_lack self.now mode) (W.contents target.old) (W.contents target.new) result };

    /// A law: what is written is read back.
    fn is_read_back(tag: Tag, mode: Mode)
        ensures { (x : Self) → is_clear x mode →
            IsReadAs (Self.tags tag) (Self.means mode) Self.key x (writes tag x mode) };

    /// There is at most one meaning, and it is a refusal or an encoding.
    ghost lawful: { (tag : TagValue) (x : Self) (mode : Mode) → IsLawful mode (writes tag x mode) };
}

/// Fields that write themselves, one after the other.
pub trait EncodeFields: Fields {
    /// What is written of them in a mode: one encoding of values, or a refusal.
    ghost lays: { Self → Mode → Meaning → Type 0 };

    /// When writing may run out of memory. By default never.
    ghost may_lack: { Self → Mode → Type 0 } = { λ _ _. ⊥ };

    /// Which fields are read back: those in range, none of which can be taken for another
    /// (X.680, 25.5). By default all.
    ghost is_clear: { Self → Mode → Type 0 } = { λ _ _. ⊤ };

    /// In front of which values they are read back.
    ghost may_precede: { Self → Mode → Trees → Type 0 };

    /// Returns the number of octets of the encodings.
    ///
    /// # Errors
    ///
    /// Returns the reason why there are none, or `NoMemory` if memory runs out.
    fn len_fields(&self, mode: Mode) -> Result<usize, EncodeError>
        ensures { SizeOfValues (lays self.now mode) (may_lack self.now mode) result };

    /// Writes the encodings.
    ///
    /// # Errors
    ///
    /// Those of [`write_encoded_as`](Encode::write_encoded_as).
    fn write_fields<W: io::Write>(&self, mode: Mode, target: &mut W) -> Result<(), WriteError>
        ensures { Writes (λ (e : Encoded). e.octets) (lays self.now mode)
            (may_lack self.now mode) (W.contents target.old) (W.contents target.new) result };

    /// A law: what is written is read back.
    fn are_read_back(mode: Mode)
        ensures { (x : Self) → is_clear x mode →
            AreReadAs (Self.takes mode) Self.keys (may_precede x mode) x (lays x mode) };

    /// There is at most one meaning, and it is a refusal or encodings.
    ghost lawful: { (x : Self) (mode : Mode) → IsLawful mode (lays x mode) };
}

/// Fields behind a reference.
///
/// A user's own type is written by the type behind its `::=`, with a reference in place of each
/// field: `Sequence((ByRef(&self.from), ByRef(&self.until)))`.
#[derive(Clone, Copy, Debug, Drop)]
pub struct ByRef<'a, F>(pub &'a F);

impl<F: Fields> Fields for ByRef<'_, F> {
    ghost Keys = { F.Keys };

    ghost keys = { λ x. F.keys x.0.now };

    ghost takes = { λ mode ts x us. F.takes mode ts x.0.now us };

    ghost keep_all = { F.keep_all };

    ghost count = { F.count };

    fn count() -> usize {
        F::count()
    }

    fn fields_are_one() {
        F::fields_are_one();
    }
}

impl<F: EncodeFields> EncodeFields for ByRef<'_, F> {
    ghost lays = { λ x mode. F.lays x.0.now mode };

    ghost may_lack = { λ x mode. F.may_lack x.0.now mode };

    ghost is_clear = { λ x mode. F.is_clear x.0.now mode };

    ghost may_precede = { λ x mode us. F.may_precede x.0.now mode us };

    fn len_fields(&self, mode: Mode) -> Result<usize, EncodeError> {
        self.0.len_fields(mode)
    }

    fn write_fields<W: io::Write>(&self, mode: Mode, target: &mut W) -> Result<(), WriteError> {
        self.0.write_fields(mode, target)
    }

    fn are_read_back(mode: Mode) {
        F::are_read_back(mode);
    }

    ghost lawful = { λ x mode. F.lawful x.0.now mode };
}

/// The values of fields, for the encoders of [`bcder::encode`].
impl<F: EncodeFields> Values for ByRef<'_, F> {
    ghost means = { λ x mode. F.lays x.0.now mode };

    ghost may_lack = { λ x mode. F.may_lack x.0.now mode };

    fn encoded_len(&self, mode: Mode) -> Result<usize, EncodeError> {
        self.0.len_fields(mode)
    }

    fn write_encoded<W: io::Write>(&self, mode: Mode, target: &mut W) -> Result<(), WriteError> {
        self.0.write_fields(mode, target)
    }

    ghost lawful = { λ x mode can. F.lawful x.0.now mode };
}
