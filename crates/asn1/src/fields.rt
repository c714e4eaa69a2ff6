//! What stands inside a SEQUENCE, in order.
ghost use Rattle.bcder.specs.declared.mode.Mode.{Mode};
ghost use Rattle.bcder.specs.x690.Tree.{Trees};
ghost use Rattle.bcder.specs.calls.Views.{Moved};
ghost use Rattle.std.specs.Prelude.{⊤, ◌≢◌, ◌≡◌, ◌||◌, ◌+◌, ◌-◌, ◌^◌, ℕ, min, Bool, false, Option};
ghost use Rattle.bcder.specs.declared.mode.Mode.TheVariants.{Ber};
ghost use Rattle.asn1.specs.Types.{TookFields, IsMember, IsOptional, AreBoth};
ghost use Rattle.asn1.specs.Keys.{TakeOne, LeaveEncodings, AreTakenOnce, option_key};

use crate::{Decode, Part, Trace, Type};
use bcder::decode::{Constructed, ContentError, DecodeError, Source};
use std::alloc::Global;

/// Fields, which stand in front of others.
pub trait Fields: Drop + Sized {
    /// What they are told apart by.
    ghost Keys: { Type 0 };

    /// By what fields are told apart.
    ghost keys: { Self → Keys };

    /// Of which values they take those in front, as what, and leave which, in a mode.
    ghost takes: { Mode → Trees → Self → Trees → Type 0 };

    /// When they keep all that is encoded. By default they do.
    ghost keep_all: { Type 0 } = { ⊤ };

    /// How many fields they are, for errors. By default they are one.
    ghost count: { ℕ } = { 1 };

    /// Returns how many fields they are.
    fn count() -> usize
        ensures { result ≡ count };

    /// A law: they take one thing at most, and leave one; and in CER and DER fields that are told
    /// apart by the same, with the same behind them, are the same values, if all is kept.
    fn fields_are_one()
        ensures one { (mode : Mode) → TakeOne (takes mode) keys }
        ensures left { (mode : Mode) → LeaveEncodings mode (takes mode) }
        ensures once { keep_all
            → (mode : Mode) → mode ≢ Ber → AreTakenOnce mode (takes mode) keys };
}

/// Fields that are read from a source.
pub trait DecodeFields<S: Source>: Fields {
    /// Whether memory may run out when they are read. By default it doesn't.
    ghost may_lack: { Bool } = { false };

    /// Takes them.
    ///
    /// # Errors
    ///
    /// Returns an error if they do not stand in front of values up to the end of the content; if
    /// an earlier value was refused; if the source fails; if memory runs out, which only fields
    /// that may lack it return. Which field it was, and in which part of it, is noted in the path.
    /// A missing value is refused at the position where it is missing.
    fn trace_fields<P: Trace>(
        alloc: Global,
        cons: &mut Constructed<'_, S>,
        path: &mut P,
    ) -> Result<Self, DecodeError<S::Error>>
        ensures moves { Moved S.stream cons }
        ensures took { TookFields S.stream cons Self.takes may_lack result };

    /// Takes them, as [`trace_fields`](Self::trace_fields) does.
    ///
    /// # Errors
    ///
    /// Those of `trace_fields`. Nothing is noted.
    #[inline(always)]
    final fn take_fields(
        alloc: Global,
        cons: &mut Constructed<'_, S>,
    ) -> Result<Self, DecodeError<S::Error>>
        ensures moves { Moved S.stream cons }
        ensures took { TookFields S.stream cons Self.takes may_lack result }
    {
        Self::trace_fields(alloc, cons, &mut ())
    }
}

/// A value.
impl<T: Type> Fields for T {
    ghost Keys = { T.Key };

    ghost keys = { T.key };

    ghost takes = { λ mode ts x us. IsMember (T.tags T.TAG) (T.means mode) ts x us };

    ghost keep_all = { T.keeps_all };

    fn count() -> usize {
        1
    }

    fn fields_are_one() {
        T::values_are_one();
    }
}

impl<S: Source, T: Type + Decode<S>> DecodeFields<S> for T {
    ghost may_lack = { T.may_lack };

    #[inline(always)]
    fn trace_fields<P: Trace>(
        alloc: Global,
        cons: &mut Constructed<'_, S>,
        path: &mut P,
    ) -> Result<T, DecodeError<S::Error>> {
        match T::trace_opt_from(alloc, cons, path) {
            Ok(Some(value)) => Ok(value),
            Ok(None) => {
                T::expect(path);
                path.note(Part::Field);
                Err(cons.next_err(ContentError::from_static("a value is missing")))
            }
            Err(error) => {
                path.note(Part::Field);
                Err(error)
            }
        }
    }
}

/// A value that may be left out.
impl<T: Type> Fields for Option<T> {
    ghost Keys = { Option T.Key };

    ghost keys = { option_key T.key };

    ghost takes = { λ mode ts x us. IsOptional (T.tags T.TAG) (T.means mode) ts x us };

    ghost keep_all = { T.keeps_all };

    fn count() -> usize {
        1
    }

    fn fields_are_one() {
        T::values_are_one();
    }
}

impl<S: Source, T: Decode<S>> DecodeFields<S> for Option<T> {
    ghost may_lack = { T.may_lack };

    #[inline(always)]
    fn trace_fields<P: Trace>(
        alloc: Global,
        cons: &mut Constructed<'_, S>,
        path: &mut P,
    ) -> Result<Option<T>, DecodeError<S::Error>> {
        let value = T::trace_opt_from(alloc, cons, path);
        path.note_if(value.is_err(), Part::Field);
        value
    }
}

/// One behind the other.
impl<A: Fields, B: Fields> Fields for (A, B) {
    ghost Keys = { A.Keys × B.Keys };

    ghost keys = { λ x. (A.keys x.0, B.keys x.1) };

    ghost takes = { λ mode ts x us. AreBoth (A.takes mode) (B.takes mode) ts x.0 x.1 us };

    ghost keep_all = { A.keep_all × B.keep_all };

    ghost count = { min (A.count + B.count) (2 ^ 64 - 1) };

    fn count() -> usize {
        A::count().saturating_add(B::count())
    }

    fn fields_are_one() {
        A::fields_are_one();
        B::fields_are_one();
    }
}

impl<S: Source, A: DecodeFields<S>, B: DecodeFields<S>> DecodeFields<S> for (A, B) {
    ghost may_lack = { A.may_lack || B.may_lack };

    #[inline(always)]
    fn trace_fields<P: Trace>(
        alloc: Global,
        cons: &mut Constructed<'_, S>,
        path: &mut P,
    ) -> Result<(A, B), DecodeError<S::Error>> {
        let first = match A::trace_fields(alloc, cons, path) {
            Ok(first) => first,
            Err(error) => return Err(error),
        };
        match B::trace_fields(alloc, cons, path) {
            Ok(second) => Ok((first, second)),
            Err(error) => {
                path.note(Part::Behind(A::count()));
                Err(error)
            }
        }
    }
}
