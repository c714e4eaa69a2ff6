//! Decoding the values of a source.
ghost use Rattle.std.specs.Prelude.{◌≡◌, ◌≢◌, ◌≤◌, ◌++◌, ℕ, List, Ok, IfErr, IfOk, OnOk};
ghost use Rattle.bcder.specs.calls.Calls.{Answered, MayBeCalledOn, IsLawfulOn, IsOver};
ghost use Rattle.bcder.specs.calls.Cause.{cause_of};
ghost use Rattle.bcder.specs.calls.Content.{Moves, values};
ghost use Rattle.bcder.specs.calls.Decoding.{RefusesOn, IsAllOf, IsAllBehind};
ghost use Rattle.bcder.specs.steps.Inside.{RanOn};
ghost use Rattle.bcder.specs.calls.Decoding.{Decodes, RefusesDecode};
ghost use Rattle.bcder.specs.calls.Stream.{Stream, borrowed};
ghost use Rattle.bcder.specs.calls.Views.{of_constructed, limited_stream, before, after, lent};

use super::{Constructed, Kind, State};
use crate::decode::error::DecodeError;
use crate::decode::source::{IntoSource, LimitedSource, Source};
use crate::mode::Mode;

/// Calls the closure on content, and returns an error if the closure leaves it failed.
#[tactic(auto, using(crate::proofs::moves_constructed_name), unfolding(crate::specs::calls::Views::views))]
pub(super) fn run<S: Source, F, T: Drop>(
    cons: &mut Constructed<'_, S>,
    op: F,
) -> Result<T, DecodeError<S::Error>>
where
    F: FnOnce(&mut Constructed<'_, S>) -> Result<T, DecodeError<S::Error>>,
    requires callable { MayBeCalledOn (of_constructed S.stream)
        (λ i. i ≡ of_constructed S.stream cons.old) (F.pre op) }
    requires lawful { IsLawfulOn (of_constructed S.stream)
        (λ i. i ≡ of_constructed S.stream cons.old) (F.post op) }
    ensures moves { Moves (before S.stream cons) (after S.stream cons) }
    ensures name { cons.new.source.ghost_name ≡ cons.old.source.ghost_name }
    ensures usable { OnOk result (cons.new.state ≢ State.Failed) }
    ensures ok { IfOk result (λ x.
        Answered (of_constructed S.stream) (F.post op)
        (before S.stream cons) (Ok x) (after S.stream cons)) }
    ensures refused { IfErr result (λ e.
        RefusesOn cause_of (of_constructed S.stream) (F.post op)
        (before S.stream cons) e (after S.stream cons)) }
{
    match op(cons) {
        Ok(value) => match cons.state {
            State::Failed => Err(cons.refusal("an earlier value was refused")),
            State::Open | State::Ended => Ok(value),
        },
        Err(error) => Err(error),
    }
}

/// Calls the closure on all values of a source.
#[tactic(auto, unfolding(crate::specs::calls::Views::of_constructed))]
pub(super) fn run_over<S: Source, F, T: Drop>(
    source: &mut LimitedSource<S>,
    mode: Mode,
    op: F,
) -> Result<T, DecodeError<S::Error>>
where
    F: FnOnce(&mut Constructed<'_, S>) -> Result<T, DecodeError<S::Error>>,
    requires callable { MayBeCalledOn (of_constructed S.stream)
        (IsOver (limited_stream S.stream source.old) source.old.limit (values Kind.Unbounded)
        State.Open mode)
        (F.pre op) }
    requires lawful { IsLawfulOn (of_constructed S.stream)
        (IsOver (limited_stream S.stream source.old) source.old.limit (values Kind.Unbounded)
        State.Open mode)
        (F.post op) }
    ensures { RanOn cause_of (of_constructed S.stream) (F.post op)
        (limited_stream S.stream source.old) source.old.limit mode result
        (limited_stream S.stream source.new) source.new.limit }
{
    let mut cons = Constructed::over(&mut *source, Kind::Unbounded, State::Open, mode);
    run(&mut cons, op)
}

impl<'a, S: Source + Drop> Constructed<'a, S> {
    /// Decodes values from the start of a source, in a mode.
    ///
    /// The closure gets the whole source as values up to its end, and its result is returned.
    /// Octets that the closure leaves aren't looked at.
    ///
    /// The source is consumed. To go on with it afterwards, use [`decode_lent`](Self::decode_lent).
    ///
    /// # Errors
    ///
    /// Returns the closure's error unchanged. Also returns an error if the closure leaves failed
    /// content, that is, if it dropped the error of a value.
    pub fn decode<I, F, T: Drop>(source: I, mode: Mode, op: F) -> Result<T, DecodeError<S::Error>>
    where
        I: IntoSource<Source = S>,
        F: FnOnce(&mut Constructed<'_, S>) -> Result<T, DecodeError<S::Error>>,
        requires callable { MayBeCalledOn (of_constructed S.stream)
            (IsAllOf (I.gives source) mode) (F.pre op) }
        requires lawful { IsLawfulOn (of_constructed S.stream)
            (IsAllOf (I.gives source) mode) (F.post op) }
        ensures ok { IfOk result (λ x. (left : Stream)
            × Decodes (of_constructed S.stream) (F.post op) (I.gives source) mode x left) }
        ensures refused { IfErr result (λ e. (left : Stream)
            × RefusesDecode cause_of (of_constructed S.stream) (F.post op)
            (I.gives source) mode e left) }
    {
        let mut limited = LimitedSource::new(source.into_source());
        run_over(&mut limited, mode, op)
    }
}

impl<'a, S: Source> Constructed<'a, S> {
    /// Decodes values from the start of a borrowed source, in a mode.
    ///
    /// This is [`decode`](Self::decode) for a source that its owner goes on using. What the closure
    /// leaves of the source is left there, even if it refuses.
    ///
    /// # Errors
    ///
    /// Returns the errors of `decode`.
    pub fn decode_lent<F, T: Drop>(
        source: &mut S,
        mode: Mode,
        op: F,
    ) -> Result<T, DecodeError<S::Error>>
    where
        F: FnOnce(&mut Constructed<'_, &mut S>) -> Result<T, DecodeError<S::Error>>,
        requires callable { MayBeCalledOn (of_constructed (lent S.stream))
            (IsAllBehind (S.stream source.old) mode) (F.pre op) }
        requires lawful { IsLawfulOn (of_constructed (lent S.stream))
            (IsAllBehind (S.stream source.old) mode) (F.post op) }
        ensures ok { IfOk result (λ x. (name : ℕ)
            × Decodes (of_constructed (lent S.stream)) (F.post op)
            (borrowed name (S.stream source.old)) mode x (borrowed name (S.stream source.new))) }
        ensures refused { IfErr result (λ e. (name : ℕ)
            × RefusesDecode cause_of (of_constructed (lent S.stream)) (F.post op)
            (borrowed name (S.stream source.old)) mode e (borrowed name (S.stream source.new))) }
        ensures passed { (passed : List ℕ)
            × ((S.stream source.old).rest ≡ passed ++ (S.stream source.new).rest) }
        ensures faults { (S.stream source.old).faults ≤ (S.stream source.new).faults }
        ensures kept { (S.stream source.new).kept ≡ (S.stream source.old).kept }
    {
        let mut limited = LimitedSource::new(&mut *source);
        let result = run_over(&mut limited, mode, op);
        let _back = limited.unwrap();
        result
    }
}
