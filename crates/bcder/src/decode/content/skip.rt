//! Skipping values with a stack of limits, and a closure that is called for each value.
ghost use Rattle.std.specs.Prelude.{◌≡◌, ◌+◌, ◌^◌, ◌<◌, ◌≤◌, [], ◌∷◌, true, false, IfSome, OnOk};
ghost use Rattle.std.specs.Prelude.{IfErr, IfNone, IfOk, OnErr};
ghost use Rattle.bcder.specs.calls.Cause.{cause_of, of_content, of_memory, of_source};
ghost use Rattle.bcder.specs.steps.StopCause.{stop_cause};
ghost use Rattle.bcder.specs.calls.Cause.{IsOfContent, IsRefusal};
ghost use Rattle.bcder.specs.calls.Content.{any, FitsOwed, Moves, Resembles};
ghost use Rattle.bcder.specs.steps.Inside.{kind_behind, limit_inside};
ghost use Rattle.bcder.specs.steps.Peek.{len_of};
ghost use Rattle.bcder.specs.calls.Walking.{AllBy, PassesValue, RefusesOne, RefusesSkipAll};
ghost use Rattle.bcder.specs.calls.Walking.{SkippedValueBy, SkipsValue};
ghost use Rattle.bcder.specs.calls.Walking.{RefusesSkip};
ghost use Rattle.bcder.specs.calls.Calls.{NextBy};
ghost use Rattle.bcder.specs.steps.Stacked.{Counts, Gone, IsCounted};
ghost use Rattle.bcder.specs.steps.Stacked.{LeavesInnermost, RanOverSource};
ghost use Rattle.bcder.specs.steps.Stacked.{TopIs};
ghost use Rattle.bcder.specs.steps.Stacked.{entries, entry_of, framed};
ghost use Rattle.bcder.specs.steps.Stacked.{interrupt_cause, limit_around};
ghost use Rattle.bcder.specs.steps.Stacked.{limit_in};
ghost use Rattle.bcder.specs.steps.Stacked.{source_of, unwound};
ghost use Rattle.bcder.specs.calls.Views.{of_constructed, after, before, Moved};
ghost use Rattle.bcder.specs.steps.WalkSteps.{Between};
ghost use Rattle.bcder.specs.steps.WalkSteps.{Fault, NoFault};

use super::inside::go_inside;
use super::walk::Lookahead;
use super::{Constructed, Kind, State};
use crate::decode::error::{ContentError, DecodeError};
use crate::decode::header::{Form, Header, Wanted};
use crate::decode::source::{LimitedSource, Source};
use crate::decode::stop::Stop;
use crate::length::Length;
use crate::mode::Mode;
use crate::tag::Tag;
use smallvec::SmallVec;
use std::alloc::Global;

/// An open value of definite length.
#[derive(Clone, Copy, Default)]
struct Frame {
    /// How many octets are owed behind it, if there is a limit.
    behind: Option<usize>,

    /// How many values of indefinite length are open around it, up to the next of definite length.
    indefinite_around: usize,
}

/// The open values. Those of definite length need memory, the others are only counted.
#[derive(Drop)]
struct OpenValues<'f> {
    /// The number of open values.
    depth: usize,

    /// How many values of indefinite length are open inside the innermost value of definite length.
    indefinite: usize,

    /// The open values of definite length, the innermost last. They are behind a reference, so that
    /// the numbers beside it need no place in memory.
    frames: &'f mut SmallVec<Frame, 4>,
}

/// Why skipping a value was interrupted.
///
/// This isn't part of `Stop`, which has no room for a closure's error. The loop would otherwise
/// move that room at each value.
enum Interrupt<E> {
    /// The closure refused a header.
    Closure(ContentError),

    /// A step over content stopped.
    Stopped(Stop<E>),
}

/// Returns the octets owed around a value, given those owed behind it and those left in it.
#[inline(always)]
fn limit_around(behind: Option<usize>, left: Option<usize>) -> Option<usize>
    requires { IfSome (limit_around behind left) (λ n. n < 2 ^ 64) }
    ensures { result ≡ limit_around behind left }
{
    match (behind, left) {
        (Some(behind), Some(left)) => Some(behind + left),
        _ => None,
    }
}

/// Opens a value whose header was passed, and returns whether there was memory for it.
#[inline(always)]
fn open<S>(cons: &mut Constructed<'_, S>, opened: &mut OpenValues<'_>, len: Length) -> bool
    requires counted { IsCounted opened.old }
    requires few { opened.old.depth + 1 < 2 ^ 64 }
    requires fits { FitsOwed len (limit_in cons.old) }
    ensures counted { IsCounted opened.new }
    ensures entries { result ≡ true
        → entries opened.new ≡ entry_of len (limit_in cons.old) ∷ entries opened.old }
    ensures limit { result ≡ true → limit_in cons.new ≡ limit_inside len (limit_in cons.old) }
    ensures kind { result ≡ true → cons.new.kind ≡ kind_behind len }
    ensures state { result ≡ true → cons.new.state ≡ State.Open }
    ensures full { result ≡ false → 4 ≤ opened.old.depth }
    ensures same_entries { result ≡ false → entries opened.new ≡ entries opened.old }
    ensures same_limit { result ≡ false → limit_in cons.new ≡ limit_in cons.old }
    ensures source { cons.new.source.now.source ≡ cons.old.source.now.source }
    ensures name { cons.new.source.ghost_name ≡ cons.old.source.ghost_name }
    ensures mode { cons.new.mode ≡ cons.old.mode }
    ensures marked { cons.new.marked ≡ cons.old.marked }
{
    match len {
        Length::Definite(len) => {
            let behind = match cons.source.limit() {
                Some(owed) => Some(owed - len),
                None => None,
            };
            let frame = Frame {
                behind,
                indefinite_around: opened.indefinite,
            };
            if opened.frames.push(frame).is_err() {
                return false;
            }
            opened.indefinite = 0;
        }
        Length::Indefinite => opened.indefinite += 1,
    }
    opened.depth += 1;
    cons.kind = go_inside(cons.source, len);
    cons.state = State::Open;
    true
}

/// Goes on behind the innermost open value, which has ended.
#[inline(always)]
fn leave<S>(cons: &mut Constructed<'_, S>, opened: &mut OpenValues<'_>)
    requires counted { IsCounted opened.old }
    requires some { 0 < opened.old.depth }
    ensures counted { IsCounted opened.new }
    ensures leaves { LeavesInnermost (entries opened.old) (limit_in cons.old)
        (entries opened.new) (limit_in cons.new) }
    ensures fewer { opened.new.depth + 1 ≡ opened.old.depth }
    ensures kind { TopIs (entries opened.new) cons.new.kind }
    ensures state { cons.new.state ≡ State.Open }
    ensures source { cons.new.source.now.source ≡ cons.old.source.now.source }
    ensures name { cons.new.source.ghost_name ≡ cons.old.source.ghost_name }
    ensures mode { cons.new.mode ≡ cons.old.mode }
    ensures marked { cons.new.marked ≡ cons.old.marked }
{
    opened.depth -= 1;
    if opened.indefinite > 0 {
        opened.indefinite -= 1;
    } else if let Some(frame) = opened.frames.pop() {
        opened.indefinite = frame.indefinite_around;
        cons.source.set_limit(frame.behind);
    }
    cons.kind = if opened.indefinite > 0 {
        Kind::Indefinite
    } else {
        Kind::Definite
    };
    cons.state = State::Open;
}

/// Restores the limit from before the open values were entered. The frames are those of definite
/// length.
#[inline(never)]
fn unwind<S>(source: &mut LimitedSource<S>, frames: &mut SmallVec<Frame, 4>, outer: Option<usize>)
    requires { Counts outer (unwound (framed frames.old) source.old.limit) }
    ensures limit { source.new.limit ≡ unwound (framed frames.old) source.old.limit }
    ensures source { source.new.source ≡ source.old.source }
{
    if outer.is_none() {
        source.set_limit(None);
        return;
    }
    while let Some(frame) = frames.pop() {
        source.set_limit(limit_around(frame.behind, source.limit()));
    }
}

/// Enters the content of a value whose header was passed: goes past its octets, or to the values
/// inside it.
#[inline(always)]
fn go_into<S: Source>(
    cons: &mut Constructed<'_, S>,
    opened: &mut OpenValues<'_>,
    header: Header,
) -> Result<(), Stop<S::Error>>
    requires counted { IsCounted opened.old }
    requires few { opened.old.depth + 1 < 2 ^ 64 }
    requires fits { FitsOwed (len_of header.form) (limit_in cons.old) }
    ensures counted { IsCounted opened.new }
    ensures gone { Gone S.stream cons opened header result }
    ensures kind { OnOk result (TopIs (entries opened.old) cons.old.kind
        → TopIs (entries opened.new) cons.new.kind) }
    ensures state { OnOk result (cons.new.state ≡ State.Open) }
    ensures name { cons.new.source.ghost_name ≡ cons.old.source.ghost_name }
    ensures mode { cons.new.mode ≡ cons.old.mode }
    ensures marked { cons.new.marked ≡ cons.old.marked }
{
    match header.form {
        Form::Primitive(len) => match cons.source.skip_owed(len) {
            Ok(()) => {
                cons.state = State::Open;
                Ok(())
            }
            Err(stop) => Err(stop),
        },
        Form::Constructed(len) => {
            if open(cons, opened, len) {
                return Ok(());
            }
            Err(Stop::NoMemory)
        }
    }
}

/// Passes over the content of a value whose header was passed.
#[inline(never)]
fn skip_content<S: Source, F>(
    source: &mut LimitedSource<S>,
    mode: Mode,
    alloc: Global,
    outermost: Header,
    op: &mut F,
) -> Result<(), Interrupt<S::Error>>
where
    F: FnMut(Tag, bool, usize) -> Result<(), ContentError>,
    requires callable { F.IsAlwaysCallable op.old }
    requires fits { FitsOwed (len_of outermost.form) source.old.limit }
    ensures { RanOverSource S.stream F.step source mode outermost op result }
{
    let outer = source.limit();
    let mut cons = Constructed::over(&mut *source, Kind::Definite, State::Failed, mode);
    let mut frames = SmallVec::new(alloc);
    let mut opened = OpenValues {
        depth: 0,
        indefinite: 0,
        frames: &mut frames,
    };
    if let Err(error) = op(outermost.tag, outermost.form.is_constructed(), 0) {
        return Err(Interrupt::Closure(error));
    }
    if let Err(stop) = go_into(&mut cons, &mut opened, outermost) {
        return Err(Interrupt::Stopped(stop));
    }
    while opened.depth > 0 {
        match cons.next_header(Wanted::Any) {
            Ok(Some(header)) => {
                if let Err(error) = op(header.tag, header.form.is_constructed(), opened.depth) {
                    unwind(cons.source, opened.frames, outer);
                    return Err(Interrupt::Closure(error));
                }
                if let Err(stop) = go_into(&mut cons, &mut opened, header) {
                    unwind(cons.source, opened.frames, outer);
                    return Err(Interrupt::Stopped(stop));
                }
            }
            Ok(None) => leave(&mut cons, &mut opened),
            Err(stop) => {
                unwind(cons.source, opened.frames, outer);
                return Err(Interrupt::Stopped(stop));
            }
        }
    }
    Ok(())
}

/// Calls `skip_content`, with the stack space of the result cleared here and not before a primitive
/// value is passed.
#[inline(always)]
fn skip_content_on<S: Source, F>(
    source: &mut LimitedSource<S>,
    mode: Mode,
    alloc: Global,
    outermost: Header,
    op: &mut F,
) -> Result<(), Interrupt<S::Error>>
where
    F: FnMut(Tag, bool, usize) -> Result<(), ContentError>,
    requires callable { F.IsAlwaysCallable op.old }
    requires fits { FitsOwed (len_of outermost.form) source.old.limit }
    ensures { RanOverSource S.stream F.step source mode outermost op result }
{
    let skipped = skip_content(source, mode, alloc, outermost, op);
    skipped
}

impl<'a, S: Source> Constructed<'a, S> {
    /// Returns the error for an interrupt, at the current position. It is inlined for the same
    /// reason as `stop_error`.
    #[inline(always)]
    fn interrupt_error(&self, interrupt: Interrupt<S::Error>) -> DecodeError<S::Error>
        ensures content { IsOfContent (interrupt_cause interrupt) → IsRefusal result }
        ensures source { interrupt_cause interrupt ≡ of_source → cause_of result ≡ of_source }
        ensures memory { interrupt_cause interrupt ≡ of_memory → cause_of result ≡ of_memory }
        ensures closure { (x : _) → interrupt ≡ Interrupt.Closure x
            → cause_of result ≡ of_content x }
    {
        match interrupt {
            Interrupt::Closure(error) => self.source.content_err(error),
            Interrupt::Stopped(stop) => self.stop_error(stop),
        }
    }

    /// Does what `skip_opt` does.
    #[inline(always)]
    fn skip_next<F>(
        &mut self,
        alloc: Global,
        op: &mut F,
    ) -> Result<Option<()>, DecodeError<S::Error>>
    where
        F: FnMut(Tag, bool, usize) -> Result<(), ContentError>,
        requires { F.IsAlwaysCallable op.old }
        ensures moves { Moves (before S.stream self) (after S.stream self) }
        ensures skipped { NextBy any (λ i _ j. SkipsValue F.step i op.old op.new j)
            (λ i e j. RefusesSkip cause_of F.step i op.old e op.new j)
            (of_constructed S.stream self.old) result (of_constructed S.stream self.new) }
        ensures uncalled { IfOk result (λ o. IfNone o (op.new ≡ op.old)) }
    {
        match self.next_header(Wanted::Any) {
            Ok(Some(header)) => {
                let form = header.form;
                if let Form::Primitive(len) = form {
                    if let Err(error) = op(header.tag, false, 0) {
                        return Err(self.interrupt_error(Interrupt::Closure(error)));
                    }
                    if let Err(stop) = self.source.skip_owed(len) {
                        return Err(self.interrupt_error(Interrupt::Stopped(stop)));
                    }
                    self.state = State::Open;
                    return Ok(Some(()));
                }
                match skip_content_on(self.source, self.mode, alloc, header, op) {
                    Ok(()) => {
                        self.state = State::Open;
                        Ok(Some(()))
                    }
                    Err(interrupt) => Err(self.interrupt_error(interrupt)),
                }
            }
            Ok(None) => Ok(None),
            Err(stop) => Err(self.stop_error(stop)),
        }
    }

    /// Passes over the next value, or returns `None` at the end of the content, whose marker it
    /// takes.
    ///
    /// The closure is called for the value and for each value inside it, in preorder: a value
    /// before those inside it. It gets the tag, the form (true for constructed) and the depth. It
    /// is called when the header has been read and is allowed, before any contents octets are
    /// looked at. It isn't called for end-of-contents octets. If it refuses, the skip ends and
    /// returns that refusal unchanged.
    ///
    /// Unless the source fails or memory runs out, a value is passed exactly if its encoding comes
    /// next, in the content's mode (X.690, 8.1.1), and the closure returns `Ok` each time. Contents
    /// octets of primitive values aren't looked at.
    ///
    /// Values may be nested to any depth. Each value of definite length that is open beyond the
    /// first four needs memory. The depth of calls doesn't grow with the depth of values.
    ///
    /// # Errors
    ///
    /// Returns an error if
    ///
    /// - neither the encoding of a value nor the end comes next;
    /// - the closure refuses;
    /// - an earlier value was refused;
    /// - the source fails;
    /// - memory runs out for an open value.
    ///
    /// The content has then failed, and every later take refuses.
    #[inline(always)]
    pub fn skip_opt<F>(
        &mut self,
        alloc: Global,
        op: &mut F,
    ) -> Result<Option<()>, DecodeError<S::Error>>
    where
        F: FnMut(Tag, bool, usize) -> Result<(), ContentError>,
        requires { F.IsAlwaysCallable op.old }
        ensures moves { Moved S.stream self }
        ensures skipped { NextBy any (λ i _ j. SkipsValue F.step i op.old op.new j)
            (λ i e j. RefusesSkip cause_of F.step i op.old e op.new j)
            (of_constructed S.stream self.old) result (of_constructed S.stream self.new) }
        ensures uncalled { IfOk result (λ o. IfNone o (op.new ≡ op.old)) }
    {
        self.skip_next(alloc, op)
    }

    /// Passes over the next value, which has to be there.
    ///
    /// The closure is called as by [`skip_opt`](Self::skip_opt).
    ///
    /// # Errors
    ///
    /// Returns the errors of `skip_opt`, and an error at the end of the content, which then stays
    /// usable.
    #[inline(always)]
    pub fn skip<F>(&mut self, alloc: Global, op: &mut F) -> Result<(), DecodeError<S::Error>>
    where
        F: FnMut(Tag, bool, usize) -> Result<(), ContentError>,
        requires { F.IsAlwaysCallable op.old }
        ensures moves { Moved S.stream self }
        ensures skipped { SkippedValueBy F.step (of_constructed S.stream self.old) op.old
            result op.new (of_constructed S.stream self.new) }
    {
        match self.skip_opt(alloc, op) {
            Ok(Some(())) => Ok(()),
            Ok(None) => self.refuse("no value at the end of the content"),
            Err(error) => Err(error),
        }
    }

    /// Does what `skip_one` does, by the stack alone.
    #[inline(never)]
    fn skip_stacked(&mut self, alloc: Global) -> Result<Option<()>, DecodeError<S::Error>>
        ensures moves { Moves (before S.stream self) (after S.stream self) }
        ensures skipped { NextBy any (λ i _ j. PassesValue i j) (RefusesOne cause_of)
            (of_constructed S.stream self.old) result (of_constructed S.stream self.new) }
        ensures name { self.new.source.ghost_name ≡ self.old.source.ghost_name }
    {
        let mut all = |_tag: Tag, _constructed: bool, _depth: usize| -> Result<(), ContentError> {
            Ok(())
        };
        self.skip_opt(alloc, &mut all)
    }

    /// Does what `skip_one` does, whatever comes next.
    ///
    /// It lends a copy of the content, and sets the state of the original only if no value was
    /// passed. So content that is a caller's local variable has no address, and a loop over its
    /// values checks neither its state nor its kind.
    #[inline(always)]
    fn skip_copy(&mut self, alloc: Global) -> Result<Option<()>, DecodeError<S::Error>>
        ensures moves { Moves (before S.stream self) (after S.stream self) }
        ensures skipped { NextBy any (λ i _ j. PassesValue i j) (RefusesOne cause_of)
            (of_constructed S.stream self.old) result (of_constructed S.stream self.new) }
    {
        // No call makes the copy, since a call would get the address of the content.
        let mut copy = Constructed {
            source: &mut *self.source,
            kind: self.kind,
            state: self.state,
            mode: self.mode,
            marked: self.marked,
            start: self.start,
        };
        match copy.pass_shallow() {
            Ok(true) => Ok(Some(())),
            Ok(false) => match copy.skip_stacked(alloc) {
                Ok(Some(())) => Ok(Some(())),
                Ok(None) => {
                    self.state = copy.state;
                    Ok(None)
                }
                Err(error) => {
                    self.state = State::Failed;
                    Err(error)
                }
            },
            Err(stop) => {
                self.state = State::Failed;
                Err(self.stop_error(stop))
            }
        }
    }

    /// Passes over the next value, or returns `None` at the end of the content, whose marker it
    /// takes.
    ///
    /// A value is passed as by [`skip_opt`](Self::skip_opt) with a closure that always returns
    /// `Ok`.
    ///
    /// # Errors
    ///
    /// Returns an error if neither the encoding of a value nor the end comes next, if an earlier
    /// value was refused, if the source fails, or if memory runs out for a value that is open at a
    /// depth of four or more. The content has then failed.
    #[inline(always)]
    pub fn skip_one(&mut self, alloc: Global) -> Result<Option<()>, DecodeError<S::Error>>
        ensures moves { Moved S.stream self }
        ensures skipped { NextBy any (λ i _ j. PassesValue i j) (RefusesOne cause_of)
            (of_constructed S.stream self.old) result (of_constructed S.stream self.new) }
    {
        match self.pass_at_hand(Lookahead::Short) {
            Ok(true) => Ok(Some(())),
            Ok(false) => self.skip_copy(alloc),
            Err(stop) => Err(self.stop_error(stop)),
        }
    }

    /// Passes over all values up to the end of the content, whose marker it takes.
    ///
    /// # Errors
    ///
    /// Returns the errors of [`skip_one`](Self::skip_one).
    pub fn skip_all(&mut self, alloc: Global) -> Result<(), DecodeError<S::Error>>
        ensures moves { Moved S.stream self }
        ensures skipped { AllBy (RefusesSkipAll cause_of) (of_constructed S.stream self.old) result
            (of_constructed S.stream self.new) }
    {
        while self.skip_one(alloc)?.is_some() {}
        Ok(())
    }
}
