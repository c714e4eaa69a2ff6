//! Capturing values.
ghost use Rattle.std.specs.Prelude.{◌≡◌, ◌≤◌, ◌++◌, ◌↔◌, length, IsTrue, IfOk, IfErr};
ghost use Rattle.std.specs.Prelude.{OnOk, OnErr};
ghost use Rattle.bcder.specs.calls.Calls.{IsOver, MayBeCalledOn, IsLawfulOn};
ghost use Rattle.bcder.specs.calls.Capturing.{of_captured, IsCaptureOf, Captures, RefusesCapture};
ghost use Rattle.bcder.specs.steps.CaptureSteps.{RanFrom, CapturesOver};
ghost use Rattle.bcder.specs.steps.CaptureSteps.{CallableOver, LawfulOver};
ghost use Rattle.bcder.specs.calls.Cause.{cause_of, MatchCause};
ghost use Rattle.bcder.specs.calls.Content.{label, values};
ghost use Rattle.bcder.specs.calls.Sources.{behind, passed, borrow_of, capturing};
ghost use Rattle.bcder.specs.calls.Stream.{Grew};
ghost use Rattle.bcder.specs.calls.Views.{of_constructed, limited_stream, Moved, before, after};

use super::decode::run;
use super::marker::strip_marker;
use super::{Constructed, Kind, State};
use crate::captured::Captured;
use crate::decode::error::DecodeError;
use crate::decode::source::{CaptureSource, LimitedSource, Pos, Source};
use crate::mode::Mode;
use bytes::Bytes;
use std::alloc::Global;

/// Returns the mode of what was passed: BER if a mode was changed.
fn label(mode: Mode, marked: bool) -> Mode
    ensures { result ≡ label mode marked }
{
    if marked { Mode::Ber } else { mode }
}

/// Returns whether the end-of-contents octets were taken between two states.
fn ends(before: State, after: State) -> bool
    ensures { IsTrue result ↔ ((before ≡ State.Open) × (after ≡ State.Ended)) }
{
    match (before, after) {
        (State::Open, State::Ended) => true,
        _ => false,
    }
}

/// Calls the closure on content, in any state, over a source that captures what is passed.
///
/// Also returns the state and the mark that the closure left. The source below keeps all its
/// octets.
#[tactic(auto, unfolding(crate::specs::calls::Views::of_constructed))]
#[inline(always)]
fn run_capturing<S: Source, F>(
    view: &mut LimitedSource<CaptureSource<'_, S>>,
    kind: Kind,
    state: State,
    mode: Mode,
    op: F,
) -> (Result<(), DecodeError<S::Error>>, State, bool)
where
    F: FnOnce(&mut Constructed<'_, CaptureSource<'_, S>>) -> Result<(), DecodeError<S::Error>>,
    requires fresh { passed view.old.source ≡ 0 }
    requires callable { MayBeCalledOn (of_constructed (capturing S.stream))
        (IsOver (limited_stream (capturing S.stream) view.old) view.old.limit (values kind)
        state mode)
        (F.pre op) }
    requires lawful { IsLawfulOn (of_constructed (capturing S.stream))
        (IsOver (limited_stream (capturing S.stream) view.old) view.old.limit (values kind)
        state mode)
        (F.post op) }
    ensures ran { RanFrom cause_of (of_constructed (capturing S.stream)) (F.post op)
        (limited_stream (capturing S.stream) view.old) view.old.limit kind state mode
        result.0 result.1 result.2
        (limited_stream (capturing S.stream) view.new) view.new.limit }
    ensures name { borrow_of view.new.source ≡ borrow_of view.old.source }
    ensures within { passed view.new.source ≤ length (S.stream (behind view.new.source)).rest }
    ensures rest { (S.stream (behind view.new.source)).rest
        ≡ (S.stream (behind view.old.source)).rest }
    ensures kept { (S.stream (behind view.new.source)).kept
        ≡ (S.stream (behind view.old.source)).kept }
{
    let start = view.pos();
    // No call of `over`: behind it a proof can't tell what is left of a view that names a lifetime.
    let mut cons = Constructed {
        source: &mut *view,
        kind,
        state,
        mode,
        marked: false,
        start,
    };
    let result = run(&mut cons, op);
    (result, cons.state, cons.marked)
}

/// Takes the octets that were passed over out of the borrowed source, and returns that source as
/// well. A refusal takes none.
fn take_passed<'a, S: Source>(
    mut capture: CaptureSource<'a, S>,
    alloc: Global,
) -> (Result<Bytes, DecodeError<S::Error>>, &'a mut S)
    requires { passed capture ≤ length (S.stream (behind capture)).rest }
    ensures same_reference { result.1.ghost_name ≡ borrow_of capture.entry }
    ensures value { IfOk result.0
        (λ b. b ++ (S.stream result.1.now).rest ≡ (S.stream (behind capture.entry)).rest) }
    ensures count { IfOk result.0 (λ b. length b ≡ passed capture.entry) }
    ensures no_fault { OnOk result.0
        ((S.stream result.1.now).faults ≡ (S.stream (behind capture.entry)).faults) }
    ensures cause { IfErr result.0 (λ e. MatchCause (cause_of e)
        (Grew (S.stream (behind capture.entry)).faults (S.stream result.1.now).faults)
        ⊥
        (((S.stream result.1.now).faults ≡ (S.stream (behind capture.entry)).faults)
        × (1 ≤ passed capture.entry))) }
    ensures err { OnErr result.0
        ((S.stream result.1.now).rest ≡ (S.stream (behind capture.entry)).rest) }
    ensures kept { (S.stream result.1.now).kept ≡ (S.stream (behind capture.entry)).kept }
{
    match capture.request_passed() {
        Ok(()) => {
            let (octets, source) = capture.into_bytes_and_source(alloc);
            match octets {
                Ok(octets) => (Ok(octets), source),
                Err(_) => (Err(DecodeError::no_memory()), source),
            }
        }
        Err(error) => (Err(DecodeError::Source(error)), capture.into_source()),
    }
}

/// Calls the closure on what comes of a source up to a limit, and takes the octets that it passed.
/// A refusal takes none.
#[inline(always)]
fn capture_over<S: Source, F>(
    source: &mut S,
    alloc: Global,
    limit: Option<usize>,
    kind: Kind,
    state: State,
    mode: Mode,
    op: F,
) -> (Result<Bytes, DecodeError<S::Error>>, State, bool)
where
    F: FnOnce(&mut Constructed<'_, CaptureSource<'_, S>>) -> Result<(), DecodeError<S::Error>>,
    requires callable { CallableOver S.stream source limit kind state mode (F.pre op) }
    requires lawful { LawfulOver S.stream source limit kind state mode (F.post op) }
    ensures { CapturesOver (of_constructed (capturing S.stream)) (F.post op)
        (S.stream source.old) limit kind state mode
        result.0 result.1 result.2 (S.stream source.new) }
{
    let mut view = LimitedSource::new(CaptureSource::new(&mut *source));
    view.set_limit(limit);
    let (result, state, marked) = run_capturing(&mut view, kind, state, mode, op);
    let capture = view.unwrap();
    match result {
        Ok(()) => {
            let (octets, _back) = take_passed(capture, alloc);
            (octets, state, marked)
        }
        Err(error) => {
            let _back = capture.into_source();
            (Err(error), state, marked)
        }
    }
}

impl<'a, S: Source> Constructed<'a, S> {
    /// Returns the position where the values to come begin.
    #[tactic(auto, unfolding(crate::specs::calls::Views::of_constructed))]
    fn position(&self) -> Pos
        ensures { result ≡ (of_constructed S.stream self.now).stream.position }
    {
        self.source.pos()
    }

    /// Calls the closure on this content, and captures the octets that it passes over.
    ///
    /// The closure gets content with the same values to come, in the same state and mode. What it
    /// leaves of that is what is left of this content. Only the mode stays as it was. The octets
    /// are shared with the source if the source holds shared octets. End-of-contents octets that
    /// end the content are taken, but aren't captured (X.690, 8.1.5).
    ///
    /// The octets are encodings in this content's mode, or in BER if the closure changed a mode.
    ///
    /// # Errors
    ///
    /// Returns the closure's error unchanged. Also returns an error if
    ///
    /// - the closure leaves failed content (content that had failed before stays failed);
    /// - the source fails;
    /// - memory runs out for the octets, of which there is then at least one.
    ///
    /// The content is then as it was. If it was open, it can still be used.
    #[tactic(auto, unfolding(crate::specs::calls::Views::of_constructed))]
    pub fn capture<F>(&mut self, alloc: Global, op: F) -> Result<Captured, DecodeError<S::Error>>
    where
        F: FnOnce(
            &mut Constructed<'_, CaptureSource<'_, LimitedSource<S>>>,
        ) -> Result<(), DecodeError<S::Error>>,
        requires callable { MayBeCalledOn (of_captured S.stream)
            (IsCaptureOf (of_constructed S.stream self.old)) (F.pre op) }
        requires lawful { IsLawfulOn (of_captured S.stream)
            (IsCaptureOf (of_constructed S.stream self.old)) (F.post op) }
        ensures moves { Moved S.stream self }
        ensures captured { IfOk result (λ k. Captures (of_captured S.stream) (F.post op)
            (before S.stream self) k (after S.stream self)) }
        ensures refused { IfErr result (λ e. RefusesCapture (of_captured S.stream) (F.post op)
            (before S.stream self) e (after S.stream self)) }
        ensures mode { (after S.stream self).mode ≡ (before S.stream self).mode }
    {
        let start = self.position();
        let limit = self.owed();
        let (result, state, marked) = capture_over(
            self.source,
            alloc,
            limit,
            self.kind,
            self.state,
            self.mode,
            op,
        );
        self.marked |= marked;
        match result {
            Ok(octets) => {
                let mode = label(self.mode, marked);
                let octets = strip_marker(mode, alloc, octets, ends(self.state, state));
                self.state = state;
                Ok(Captured::new(octets, mode, start))
            }
            Err(error) => Err(error),
        }
    }
}
