//! Encoders, one after the other.
ghost use Rattle.std.specs.Prelude.{◌≡◌, ℕ, ◌+◌, ⊤, ◌⊎◌, List, [], IfOk};
ghost use Rattle.bcder.specs.declared.mode.Mode.{Mode};
ghost use Rattle.bcder.specs.calls.Meaning.{Meaning, IsLawful};
ghost use Rattle.bcder.specs.calls.Encoders.{HasEncoding, SizeOfValues, WritesParts};
ghost use Rattle.bcder.specs.calls.Encoders.{TellsSum, WritesKnown, into_result};
ghost use Rattle.bcder.specs.calls.Meaning.{Then, NoValues, Joined, IsSum};
ghost use Rattle.bcder.specs.calls.Noted.{ReadsNone, ReadsThen, Notes, MayRead, HasRead};
ghost use Rattle.bcder.specs.calls.Noted.{noted};
ghost use Rattle.bcder.specs.laws.Joined.{Then_lawful, NoValues_lawful};

use crate::encode::sizes::{Sizes, SizesLeft};
use crate::encode::slot::Failed;
use crate::encode::values::Values;
use crate::encode::{EncodeError, WriteError};
use crate::mode::Mode;
use std::io;

/// Encoders that are written one after the other. Their meaning isn't refused for its size.
pub(crate) trait Parts {
    ghost all: { Self → Mode → Meaning → Type 0 };

    ghost may_lack: { Self → Mode → Type 0 };

    ghost reads: { Self → Mode → List ℕ → List ℕ → Type 0 };

    ghost can_encode: { Self → Type 0 };

    /// Returns the sum of the sizes, or `None` if it exceeds `usize`, and notes the sizes that
    /// length octets need.
    fn note_parts<Pass>(&self, mode: Mode, sizes: &mut Sizes) -> Result<Option<usize>, EncodeError>
        requires { can_encode self.now }
        ensures sized { TellsSum (all self.now mode) (may_lack self.now mode) result }
        ensures noted { IfOk result (λ _. Notes (reads self.now mode) sizes.old sizes.new) };

    /// Writes the parts, none of which is refused.
    fn write_parts<Pass, W: io::Write>(
        &self,
        mode: Mode,
        sizes: &mut SizesLeft<'_>,
        target: &mut W,
        why: &mut WriteError,
    ) -> Result<(), Failed>
        requires can { can_encode self.now }
        requires known { HasEncoding (all self.now mode) }
        requires sized { MayRead (reads self.now mode) sizes.old.sizes.now }
        ensures written { WritesParts W.contents target
            (all self.now mode) (may_lack self.now mode) (into_result result why.new) }
        ensures left { IfOk result (λ _.
            HasRead (reads self.now mode) sizes.old.sizes.now sizes.new.sizes.now) };

    ghost all_lawful: { (x : Self) (mode : Mode) → can_encode x → IsLawful mode (all x mode) };
}

/// Returns the size of the parts, or the refusal, and notes the sizes that length octets need.
#[inline(always)]
pub(crate) fn note_joined<Pass, P: Parts>(
    parts: &P,
    mode: Mode,
    sizes: &mut Sizes,
) -> Result<usize, EncodeError>
    requires { P.can_encode parts.now }
    ensures sized { SizeOfValues
        (Joined (P.all parts.now mode)) (P.may_lack parts.now mode) result }
    ensures noted { IfOk result (λ _. Notes (P.reads parts.now mode) sizes.old sizes.new) }
{
    match parts.note_parts::<Pass>(mode, sizes)? {
        Some(len) => Ok(len),
        None => Err(EncodeError::SizeOverflow),
    }
}

/// Writes parts that are known to have an encoding.
#[inline(always)]
pub(crate) fn write_known_parts<Pass, P: Parts, W: io::Write>(
    parts: &P,
    mode: Mode,
    sizes: &mut SizesLeft<'_>,
    target: &mut W,
    why: &mut WriteError,
) -> Result<(), Failed>
    requires can { P.can_encode parts.now }
    requires known { HasEncoding (Joined (P.all parts.now mode)) }
    requires sized { MayRead (P.reads parts.now mode) sizes.old.sizes.now }
    ensures written { WritesKnown W.contents target
        (Joined (P.all parts.now mode)) (P.may_lack parts.now mode) (into_result result why.new) }
    ensures left { IfOk result (λ _.
        HasRead (P.reads parts.now mode) sizes.old.sizes.now sizes.new.sizes.now) }
{
    parts.write_parts::<Pass, _>(mode, sizes, target, why)
}

/// Adds a size to a sum of sizes.
#[inline(always)]
pub(crate) fn add_len(sum: Option<usize>, len: usize) -> Option<usize>
    ensures { (k : ℕ) → IsSum sum k → IsSum result (k + len) }
{
    match sum {
        Some(sum) => sum.checked_add(len),
        None => None,
    }
}

/// No parts.
#[derive(Clone, Copy)]
pub(crate) struct End;

impl Parts for End {
    ghost all = { λ _ _. NoValues };

    ghost may_lack = { λ _ _. ⊥ };

    ghost reads = { λ _ _. ReadsNone };

    ghost can_encode = { λ _. ⊤ };

    #[inline(always)]
    #[tactic(auto, using(crate::proofs::Noting::nothing_noted))]
    fn note_parts<Pass>(
        &self,
        _mode: Mode,
        _sizes: &mut Sizes,
    ) -> Result<Option<usize>, EncodeError> {
        Ok(Some(0))
    }

    #[inline(always)]
    #[tactic(auto, using(crate::proofs::Noting::none_read))]
    fn write_parts<Pass, W: io::Write>(
        &self,
        _mode: Mode,
        _sizes: &mut SizesLeft<'_>,
        _target: &mut W,
        _why: &mut WriteError,
    ) -> Result<(), Failed> {
        Ok(())
    }

    ghost all_lawful = { λ _ mode _. NoValues_lawful mode };
}

/// A part, and those after it.
#[derive(Clone, Copy)]
pub(crate) struct Chain<'a, V, R> {
    pub(super) first: &'a V,
    pub(super) rest: R,
}

impl<'a, V: Values, R: Parts> Parts for Chain<'a, V, R> {
    ghost all = { λ x mode. Then (V.means x.first.now mode) (R.all x.rest mode) };

    ghost may_lack = { λ x mode. V.may_lack x.first.now mode ⊎ R.may_lack x.rest mode };

    ghost reads = { λ x mode. ReadsThen (V.reads x.first.now mode) (R.reads x.rest mode) };

    ghost can_encode = { λ x. V.can_encode x.first.now × R.can_encode x.rest };

    #[inline(always)]
    fn note_parts<Pass>(
        &self,
        mode: Mode,
        sizes: &mut Sizes,
    ) -> Result<Option<usize>, EncodeError> {
        let first = self.first.note_sizes::<Pass>(mode, sizes)?;
        let rest = self.rest.note_parts::<Pass>(mode, sizes)?;
        match rest {
            Some(len) => Ok(first.checked_add(len)),
            None => Ok(None),
        }
    }

    #[inline(always)]
    fn write_parts<Pass, W: io::Write>(
        &self,
        mode: Mode,
        sizes: &mut SizesLeft<'_>,
        target: &mut W,
        why: &mut WriteError,
    ) -> Result<(), Failed> {
        self.first.write_known::<Pass, _>(mode, sizes, target, why)?;
        self.rest.write_parts::<Pass, _>(mode, sizes, target, why)
    }

    ghost all_lawful = { λ x mode can.
        Then_lawful (V.lawful x.first.now mode can.0) (R.all_lawful x.rest mode can.1) };
}

impl<R: Parts> Parts for &'_ R {
    ghost all = { λ x mode. R.all x.now mode };

    ghost may_lack = { λ x mode. R.may_lack x.now mode };

    ghost reads = { λ x mode. R.reads x.now mode };

    ghost can_encode = { λ x. R.can_encode x.now };

    #[inline(always)]
    fn note_parts<Pass>(
        &self,
        mode: Mode,
        sizes: &mut Sizes,
    ) -> Result<Option<usize>, EncodeError> {
        (**self).note_parts::<Pass>(mode, sizes)
    }

    fn write_parts<Pass, W: io::Write>(
        &self,
        mode: Mode,
        sizes: &mut SizesLeft<'_>,
        target: &mut W,
        why: &mut WriteError,
    ) -> Result<(), Failed> {
        (**self).write_parts::<Pass, _>(mode, sizes, target, why)
    }

    ghost all_lawful = { λ x mode can. R.all_lawful x.now mode can };
}

/// Four parts, and those after them.
#[derive(Clone, Copy)]
pub(crate) struct Four<'a, A, B, C, D, R> {
    pub(super) a: &'a A,
    pub(super) b: &'a B,
    pub(super) c: &'a C,
    pub(super) d: &'a D,
    pub(super) rest: R,
}

impl<'a, A: Values, B: Values, C: Values, D: Values, R: Parts> Parts for Four<'a, A, B, C, D, R> {
    ghost all = { λ x mode. Then (A.means x.a.now mode) (Then (B.means x.b.now mode)
        (Then (C.means x.c.now mode) (Then (D.means x.d.now mode) (R.all x.rest mode)))) };

    ghost may_lack = { λ x mode. A.may_lack x.a.now mode ⊎ (B.may_lack x.b.now mode
        ⊎ (C.may_lack x.c.now mode ⊎ (D.may_lack x.d.now mode ⊎ R.may_lack x.rest mode))) };

    ghost reads = { λ x mode. ReadsThen (A.reads x.a.now mode) (ReadsThen (B.reads x.b.now mode)
        (ReadsThen (C.reads x.c.now mode) (ReadsThen (D.reads x.d.now mode)
        (R.reads x.rest mode)))) };

    ghost can_encode = { λ x. A.can_encode x.a.now × (B.can_encode x.b.now
        × (C.can_encode x.c.now × (D.can_encode x.d.now × R.can_encode x.rest))) };

    #[inline(always)]
    fn note_parts<Pass>(
        &self,
        mode: Mode,
        sizes: &mut Sizes,
    ) -> Result<Option<usize>, EncodeError> {
        let rest = &self.rest;
        let rest = Chain {
            first: self.d,
            rest,
        };
        let rest = Chain {
            first: self.c,
            rest,
        };
        let rest = Chain {
            first: self.b,
            rest,
        };
        let all = Chain {
            first: self.a,
            rest,
        };
        all.note_parts::<Pass>(mode, sizes)
    }

    fn write_parts<Pass, W: io::Write>(
        &self,
        mode: Mode,
        sizes: &mut SizesLeft<'_>,
        target: &mut W,
        why: &mut WriteError,
    ) -> Result<(), Failed> {
        let rest = &self.rest;
        let rest = Chain {
            first: self.d,
            rest,
        };
        let rest = Chain {
            first: self.c,
            rest,
        };
        let rest = Chain {
            first: self.b,
            rest,
        };
        let all = Chain {
            first: self.a,
            rest,
        };
        all.write_parts::<Pass, _>(mode, sizes, target, why)
    }

    ghost all_lawful = { λ x mode can. Then_lawful (A.lawful x.a.now mode can.0)
        (Then_lawful (B.lawful x.b.now mode can.1.0)
        (Then_lawful (C.lawful x.c.now mode can.1.1.0)
        (Then_lawful (D.lawful x.d.now mode can.1.1.1.0)
        (R.all_lawful x.rest mode can.1.1.1.1)))) };
}
