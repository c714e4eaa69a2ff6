//! Encoders of lists of values.
ghost use Rattle.std.specs.Prelude.{◌≡◌, ⊤, ℕ, List, [], IfOk};
ghost use Rattle.bcder.specs.declared.mode.Mode.{Mode};
ghost use Rattle.bcder.specs.calls.Meaning.{Encoded, Meaning, IsLawful};
ghost use Rattle.bcder.specs.calls.Encoders.{HasEncoding, SizeOfValues, Writes, WritesKnown};
ghost use Rattle.bcder.specs.calls.Encoders.{into_result};
ghost use Rattle.bcder.specs.calls.Noted.{ReadsInside, Notes, MayRead, HasRead};
ghost use Rattle.bcder.specs.calls.Noted.{noted};
ghost use Rattle.bcder.specs.calls.Gathered.{GathersValues};

pub(crate) mod choice;
pub(crate) mod constructed;
pub(crate) mod iter;
pub(crate) mod iterated;
pub(crate) mod lists;
pub(crate) mod mapped;
mod parts;
pub(crate) mod slice;
mod tuples;

use crate::captured::Captured;
use crate::encode::sizes::{First, InCer, Sizes, SizesLeft};
use crate::encode::slot::{Failed, into_result, slot, store};
use crate::encode::values::constructed::Constructed;
use crate::encode::{EncodeError, WriteError};
use crate::mode::Mode;
use crate::tag::Tag;
use std::alloc::Global;
use std::io;

/// An encoder of a list of values, one after the other.
///
/// In each mode an encoder means at most one thing: a refusal, or a list of values together with
/// octets that are their encoding. Its calls give that meaning every time.
pub trait Values {
    /// What the encoder means in a mode.
    ghost means: { Self → Mode → Meaning → Type 0 };

    /// When a call may run out of memory. By default never.
    ghost may_lack: { Self → Mode → Type 0 } = { λ _ _. ⊥ };

    /// Which of the sizes that are left the encoder reads when it is written, and which are left
    /// then. By default none.
    ghost reads: { Self → Mode → List ℕ → List ℕ → Type 0 } = { λ _ _ _ _. ⊥ };

    /// The condition under which the encoder's calls may be made. By default there is none.
    ghost can_encode: { Self → Type 0 } = { λ _. ⊤ };

    /// Returns the number of octets of the encoding.
    ///
    /// # Errors
    ///
    /// Returns the reason why there is no encoding, or `NoMemory` if memory runs out.
    fn encoded_len(&self, mode: Mode) -> Result<usize, EncodeError>
        requires { can_encode self.now }
        ensures { SizeOfValues (means self.now mode) (may_lack self.now mode) result };

    /// Returns the number of octets of the encoding, like `encoded_len`, and notes the sizes that
    /// writing needs for length octets, so that none is computed again. `Pass` tells the first
    /// measuring from one while a value is written; both do the same.
    ///
    /// # Errors
    ///
    /// Returns the errors of `encoded_len`.
    #[doc(hidden)]
    #[inline(always)]
    fn note_sizes<Pass>(&self, mode: Mode, sizes: &mut Sizes) -> Result<usize, EncodeError>
        requires { can_encode self.now }
        ensures sized { SizeOfValues (means self.now mode) (may_lack self.now mode) result }
        ensures noted { IfOk result (λ _. Notes (reads self.now mode) sizes.old sizes.new) }
    {
        sizes.close();
        self.encoded_len(mode)
    }

    /// Writes the encoding.
    ///
    /// # Errors
    ///
    /// Returns one of these errors:
    ///
    /// - `Refused` with the error of `encoded_len`; nothing was written then;
    /// - `Refused` with `NoMemory` if memory runs out while writing; a prefix of the octets was
    ///   written then;
    /// - `Target` if the target fails; a proper prefix of the octets was written then.
    fn write_encoded<W: io::Write>(&self, mode: Mode, target: &mut W) -> Result<(), WriteError>
        requires { can_encode self.now }
        ensures { Writes (λ (e : Encoded). e.octets) (means self.now mode) (may_lack self.now mode)
            (W.contents target.old) (W.contents target.new) result };

    /// Writes an encoding that is known to exist, so that an encoder of many parts looks for
    /// refusals only once. Sizes for length octets are read from those that are left. `Pass` tells
    /// the outermost values from those inside others; both are written alike.
    ///
    /// # Errors
    ///
    /// Returns `NoMemory` or the target's error, like `write_encoded`.
    #[doc(hidden)]
    #[inline(always)]
    fn write_known<Pass, W: io::Write>(
        &self,
        mode: Mode,
        sizes: &mut SizesLeft<'_>,
        target: &mut W,
        why: &mut WriteError,
    ) -> Result<(), Failed>
        requires can { can_encode self.now }
        requires known { HasEncoding (means self.now mode) }
        requires sized { MayRead (reads self.now mode) sizes.old.sizes.now }
        ensures written { WritesKnown W.contents target
            (means self.now mode) (may_lack self.now mode) (into_result result why.new) }
        ensures left { IfOk result (λ _.
            HasRead (reads self.now mode) sizes.old.sizes.now sizes.new.sizes.now) }
    {
        sizes.clear();
        store(self.write_encoded(mode, target), why)
    }

    /// There is at most one meaning, and it is a refusal or an encoding.
    ghost lawful: { (x : Self) (mode : Mode) → can_encode x → IsLawful mode (means x mode) };

    /// Creates an encoder of one constructed value with the tag and these values inside.
    final fn explicit(self, tag: Tag) -> Constructed<Self>
    where
        Self: Sized,
        ensures { result ≡ record { tag = tag; inner = self } }
    {
        Constructed::new(tag, self)
    }

    /// Encodes the values in a mode, and returns them as [`Captured`] at position 0.
    ///
    /// # Errors
    ///
    /// Returns the errors of `encoded_len`, or `NoMemory` if there are octets and no memory for
    /// them.
    final fn to_captured(&self, alloc: Global, mode: Mode) -> Result<Captured, EncodeError>
    where
        Self: Sized,
        requires { can_encode self.now }
        ensures { GathersValues (means self.now mode) (may_lack self.now mode) mode result }
    {
        Captured::from_values(alloc, mode, self)
    }
}

/// An encoder of this crate, by two calls. The four calls of [`Values`] are made of them.
#[doc(hidden)]
pub trait Encoder {
    /// What the encoder means in a mode.
    ghost all: { Self → Mode → Meaning → Type 0 };

    /// When a call may run out of memory. By default never.
    ghost lacks: { Self → Mode → Type 0 } = { λ _ _. ⊥ };

    /// Which of the sizes that are left are read when it is written, and which are left then.
    ghost takes: { Self → Mode → List ℕ → List ℕ → Type 0 } = { λ _ _ _ _. ⊥ };

    /// The condition under which the calls may be made. By default there is none.
    ghost can: { Self → Type 0 } = { λ _. ⊤ };

    /// Returns the number of octets of the encoding, and notes the sizes that writing needs.
    fn measured<Pass>(&self, mode: Mode, sizes: &mut Sizes) -> Result<usize, EncodeError>
        requires { can self.now }
        ensures sized { SizeOfValues (all self.now mode) (lacks self.now mode) result }
        ensures noted { IfOk result (λ _. Notes (takes self.now mode) sizes.old sizes.new) };

    /// Writes an encoding that is known to exist. Sizes are read from those that are left.
    fn put<Pass, W: io::Write>(
        &self,
        mode: Mode,
        sizes: &mut SizesLeft<'_>,
        target: &mut W,
        why: &mut WriteError,
    ) -> Result<(), Failed>
        requires can { can self.now }
        requires known { HasEncoding (all self.now mode) }
        requires sized { MayRead (takes self.now mode) sizes.old.sizes.now }
        ensures written { WritesKnown W.contents target
            (all self.now mode) (lacks self.now mode) (into_result result why.new) }
        ensures left { IfOk result (λ _.
            HasRead (takes self.now mode) sizes.old.sizes.now sizes.new.sizes.now) };

    /// There is at most one meaning, and it is a refusal or an encoding.
    ghost one: { (x : Self) (mode : Mode) → can x → IsLawful mode (all x mode) };
}

impl<E: Encoder> Values for E {
    ghost means = { E.all };

    ghost may_lack = { E.lacks };

    ghost reads = { E.takes };

    ghost can_encode = { E.can };

    fn encoded_len(&self, mode: Mode) -> Result<usize, EncodeError> {
        let mut sizes = Sizes::new();
        sizes.close();
        self.measured::<First>(mode, &mut sizes)
    }

    #[inline(always)]
    fn note_sizes<Pass>(&self, mode: Mode, sizes: &mut Sizes) -> Result<usize, EncodeError> {
        self.measured::<Pass>(mode, sizes)
    }

    fn write_encoded<W: io::Write>(&self, mode: Mode, target: &mut W) -> Result<(), WriteError> {
        let mut sizes = Sizes::new();
        measure_first(self, mode, &mut sizes)?;
        let mut why = slot();
        let written = self.put::<First, _>(mode, &mut sizes.left(), target, &mut why);
        into_result(written, why)
    }

    #[inline(always)]
    fn write_known<Pass, W: io::Write>(
        &self,
        mode: Mode,
        sizes: &mut SizesLeft<'_>,
        target: &mut W,
        why: &mut WriteError,
    ) -> Result<(), Failed> {
        self.put::<Pass, _>(mode, sizes, target, why)
    }

    ghost lawful = { E.one };
}

/// Returns the number of octets of what is written next, and notes the sizes that writing needs.
///
/// CER has a call of its own, so that what is compiled for it has nothing that only lengths need.
#[inline(always)]
fn measure_first<E: Encoder>(
    encoder: &E,
    mode: Mode,
    sizes: &mut Sizes,
) -> Result<usize, EncodeError>
    requires can { E.can encoder.now }
    requires none { noted sizes.old ≡ [] }
    ensures sized { SizeOfValues (E.all encoder.now mode) (E.lacks encoder.now mode) result }
    ensures noted { IfOk result (λ _. MayRead (E.takes encoder.now mode) (noted sizes.new)) }
{
    match mode {
        Mode::Cer => encoder.measured::<InCer>(Mode::Cer, sizes),
        Mode::Ber | Mode::Der => encoder.measured::<First>(mode, sizes),
    }
}

impl<V: Values> Encoder for &'_ V {
    ghost all = { λ x mode. V.means x.now mode };

    ghost lacks = { λ x mode. V.may_lack x.now mode };

    ghost takes = { λ x mode. V.reads x.now mode };

    ghost can = { λ x. V.can_encode x.now };

    #[inline(always)]
    fn measured<Pass>(&self, mode: Mode, sizes: &mut Sizes) -> Result<usize, EncodeError> {
        (**self).note_sizes::<Pass>(mode, sizes)
    }

    #[inline(always)]
    fn put<Pass, W: io::Write>(
        &self,
        mode: Mode,
        sizes: &mut SizesLeft<'_>,
        target: &mut W,
        why: &mut WriteError,
    ) -> Result<(), Failed> {
        (**self).write_known::<Pass, _>(mode, sizes, target, why)
    }

    ghost one = { λ x mode can. V.lawful x.now mode can };
}

/// Returns the number of octets of the values. Notes it ahead of the sizes inside.
#[inline(always)]
pub(crate) fn note_inside<Pass, V: Values>(
    values: &V,
    mode: Mode,
    sizes: &mut Sizes,
) -> Result<usize, EncodeError>
    requires { V.can_encode values.now }
    ensures sized { SizeOfValues (V.means values.now mode) (V.may_lack values.now mode) result }
    ensures noted { IfOk result (λ _. Notes
        (ReadsInside (V.means values.now mode) (V.reads values.now mode)) sizes.old sizes.new) }
{
    let place = sizes.reserve();
    let len = values.note_sizes::<Pass>(mode, sizes)?;
    sizes.fill(place, len);
    Ok(len)
}

/// Returns the number of octets of values that are written next, and notes the sizes that their
/// length octets need. In CER there are none, since no constructed value has a definite length.
#[inline(always)]
pub(crate) fn measure<V: Values>(
    values: &V,
    mode: Mode,
    sizes: &mut Sizes,
) -> Result<usize, EncodeError>
    requires can { V.can_encode values.now }
    requires none { noted sizes.old ≡ [] }
    ensures sized { SizeOfValues (V.means values.now mode) (V.may_lack values.now mode) result }
    ensures noted { IfOk result (λ _. MayRead (V.reads values.now mode) (noted sizes.new)) }
{
    match mode {
        Mode::Cer => values.encoded_len(mode),
        Mode::Ber | Mode::Der => values.note_sizes::<First>(mode, sizes),
    }
}
