//! Encoders of optional values, and of one of several.
ghost use Rattle.bcder.specs.calls.Meaning.{NoValues};
ghost use Rattle.bcder.specs.calls.Noted.{ReadsNone};
ghost use Rattle.bcder.specs.calls.Iterated.{OptionMeans, OptionLacks, OptionReads, OptionCan};
ghost use Rattle.bcder.specs.laws.Composed.{option_lawful};
ghost use Rattle.bcder.specs.calls.Iterated.{EitherReads, AnyReads};
ghost use Rattle.bcder.specs.calls.Iterated.{EitherMeans, EitherHolds};
ghost use Rattle.bcder.specs.laws.Composed.{either_lawful};
ghost use Rattle.bcder.specs.calls.Iterated.{AnyMeans, AnyHolds};
ghost use Rattle.bcder.specs.laws.Composed.{any_lawful};
ghost use Rattle.bcder.specs.laws.Joined.{NoValues_lawful};

use crate::encode::sizes::{Sizes, SizesLeft};
use crate::encode::slot::Failed;
use crate::encode::values::{Encoder, Values};
use crate::encode::{EncodeError, WriteError};
use crate::mode::Mode;
use std::io;

/// An encoder of no values.
#[derive(Clone, Copy, Debug)]
pub struct Nothing;

impl Encoder for Nothing {
    ghost all = { λ x mode. NoValues };

    ghost takes = { λ _ _. ReadsNone };

    #[inline(always)]
    #[tactic(auto, using(crate::proofs::Noting::nothing_noted))]
    fn measured<Pass>(&self, _mode: Mode, _sizes: &mut Sizes) -> Result<usize, EncodeError> {
        Ok(0)
    }

    #[inline(always)]
    #[tactic(auto, using(crate::proofs::Noting::none_read))]
    fn put<Pass, W: io::Write>(
        &self,
        _mode: Mode,
        _sizes: &mut SizesLeft<'_>,
        _target: &mut W,
        _why: &mut WriteError,
    ) -> Result<(), Failed> {
        Ok(())
    }

    ghost one = { λ x mode can. NoValues_lawful mode };
}

/// Encodes `Some` as the values of what is in it, and `None` as no values.
impl<V: Values> Encoder for Option<V> {
    ghost all = { λ x mode. OptionMeans (λ v. V.means v mode) x };

    ghost lacks = { λ x mode. OptionLacks (λ v. V.may_lack v mode) x };

    ghost takes = { λ x mode. OptionReads (λ v. V.reads v mode) x };

    ghost can = { λ x. OptionCan V.can_encode x };

    #[tactic(auto, using(crate::proofs::Noting::nothing_noted))]
    #[inline(always)]
    fn measured<Pass>(&self, mode: Mode, sizes: &mut Sizes) -> Result<usize, EncodeError> {
        match self {
            Some(values) => values.note_sizes::<Pass>(mode, sizes),
            None => Nothing.note_sizes::<Pass>(mode, sizes),
        }
    }

    #[inline(always)]
    fn put<Pass, W: io::Write>(
        &self,
        mode: Mode,
        sizes: &mut SizesLeft<'_>,
        target: &mut W,
        why: &mut WriteError,
    ) -> Result<(), Failed> {
        match self {
            Some(values) => values.write_known::<Pass, _>(mode, sizes, target, why),
            None => Nothing.write_known::<Pass, _>(mode, sizes, target, why),
        }
    }

    ghost one = { λ x mode can. option_lawful mode (λ v. V.lawful v mode) x can };
}

/// One of two encoders.
#[derive(Clone, Copy, Debug, Drop)]
pub enum Choice2<L, R> {
    /// The first choice.
    One(L),

    /// The second choice.
    Two(R),
}

impl<L: Values, R: Values> Encoder for Choice2<L, R> {
    ghost all = { λ x mode. EitherMeans (λ v. L.means v mode) (λ v. R.means v mode) x };

    ghost lacks = { λ x mode. EitherHolds (λ v. L.may_lack v mode) (λ v. R.may_lack v mode) x };

    ghost takes = { λ x mode. EitherReads (λ v. L.reads v mode) (λ v. R.reads v mode) x };

    ghost can = { λ x. EitherHolds L.can_encode R.can_encode x };

    #[inline(always)]
    fn measured<Pass>(&self, mode: Mode, sizes: &mut Sizes) -> Result<usize, EncodeError> {
        match self {
            Choice2::One(values) => values.note_sizes::<Pass>(mode, sizes),
            Choice2::Two(values) => values.note_sizes::<Pass>(mode, sizes),
        }
    }

    #[inline(always)]
    fn put<Pass, W: io::Write>(
        &self,
        mode: Mode,
        sizes: &mut SizesLeft<'_>,
        target: &mut W,
        why: &mut WriteError,
    ) -> Result<(), Failed> {
        match self {
            Choice2::One(values) => values.write_known::<Pass, _>(mode, sizes, target, why),
            Choice2::Two(values) => values.write_known::<Pass, _>(mode, sizes, target, why),
        }
    }

    ghost one = { λ x mode can.
        either_lawful mode (λ v. L.lawful v mode) (λ v. R.lawful v mode) x can };
}

/// One of three encoders.
#[derive(Clone, Copy, Debug, Drop)]
pub enum Choice3<L, C, R> {
    /// The first choice.
    One(L),

    /// The second choice.
    Two(C),

    /// The third choice.
    Three(R),
}

impl<L: Values, C: Values, R: Values> Encoder for Choice3<L, C, R> {
    ghost all = { λ x mode.
        AnyMeans (λ v. L.means v mode) (λ v. C.means v mode) (λ v. R.means v mode) x };

    ghost lacks = { λ x mode.
        AnyHolds (λ v. L.may_lack v mode) (λ v. C.may_lack v mode) (λ v. R.may_lack v mode) x };

    ghost takes = { λ x mode.
        AnyReads (λ v. L.reads v mode) (λ v. C.reads v mode) (λ v. R.reads v mode) x };

    ghost can = { λ x. AnyHolds L.can_encode C.can_encode R.can_encode x };

    #[inline(always)]
    fn measured<Pass>(&self, mode: Mode, sizes: &mut Sizes) -> Result<usize, EncodeError> {
        match self {
            Choice3::One(values) => values.note_sizes::<Pass>(mode, sizes),
            Choice3::Two(values) => values.note_sizes::<Pass>(mode, sizes),
            Choice3::Three(values) => values.note_sizes::<Pass>(mode, sizes),
        }
    }

    #[inline(always)]
    fn put<Pass, W: io::Write>(
        &self,
        mode: Mode,
        sizes: &mut SizesLeft<'_>,
        target: &mut W,
        why: &mut WriteError,
    ) -> Result<(), Failed> {
        match self {
            Choice3::One(values) => values.write_known::<Pass, _>(mode, sizes, target, why),
            Choice3::Two(values) => values.write_known::<Pass, _>(mode, sizes, target, why),
            Choice3::Three(values) => values.write_known::<Pass, _>(mode, sizes, target, why),
        }
    }

    ghost one = { λ x mode can. any_lawful mode
        (λ v. L.lawful v mode) (λ v. C.lawful v mode) (λ v. R.lawful v mode) x can };
}
