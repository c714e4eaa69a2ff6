//! Taking the content of a value whose header was passed.
ghost use Rattle.std.specs.Prelude.{◌≡◌, ◌||◌, true, false, None, Some, Ok, IfErr, IfOk, OnOk};
ghost use Rattle.bcder.specs.calls.Calls.{AnswersDone, IsLawfulOn, MayBeCalledOn, RefusesContent};
ghost use Rattle.bcder.specs.calls.Calls.{RefusesEnd};
ghost use Rattle.bcder.specs.calls.Cause.{cause_of};
ghost use Rattle.bcder.specs.steps.StopCause.{stop_cause};
ghost use Rattle.bcder.specs.calls.Content.{Reading, Moves, FitsOwed, EndsBefore, IsDone};
ghost use Rattle.bcder.specs.steps.Entering.{MeetsNoFault};
ghost use Rattle.bcder.specs.steps.Inside.{kind_behind, limit_inside, limit_outside, IsBehind};
ghost use Rattle.bcder.specs.steps.Inside.{IsTaken};
ghost use Rattle.bcder.specs.steps.Inside.{RanInside, TakesBehind};
ghost use Rattle.bcder.specs.steps.Peek.{header_of, len_of};
ghost use Rattle.bcder.specs.calls.Views.{of_constructed, of_primitive, of_content, limited_stream};
ghost use Rattle.bcder.specs.calls.Views.{content_name, before};
ghost use Rattle.bcder.specs.calls.Views.{after};
ghost use Rattle.bcder.specs.x690.Identifier.{Tag};

use super::take::pop;
use super::{Constructed, Content, Kind, Primitive, State};
use crate::decode::error::DecodeError;
use crate::decode::header::{Form, Header, Wanted};
use crate::decode::source::{LimitedSource, Source};
use crate::decode::stop::{Reason, Stop};
use crate::length::Length;

/// Limits the source to the content behind a length, and returns how the end of that content is
/// known (X.690, 8.1.3.2).
#[inline(always)]
pub(super) fn go_inside<S>(source: &mut LimitedSource<S>, len: Length) -> Kind
    ensures kind { result ≡ kind_behind len }
    ensures limit { source.new.limit ≡ limit_inside len source.old.limit }
    ensures source { source.new.source ≡ source.old.source }
{
    match len {
        Length::Definite(len) => {
            source.set_limit(Some(len));
            Kind::Definite
        }
        Length::Indefinite => Kind::Indefinite,
    }
}

/// Restores the limit of the content around a value in the source, less what was passed.
#[inline(always)]
fn go_outside<S>(source: &mut LimitedSource<S>, outer: Option<usize>, len: Length)
    ensures limit { source.new.limit ≡ limit_outside len outer source.old.limit }
    ensures source { source.new.source ≡ source.old.source }
{
    if let Length::Definite(len) = len {
        pop(source, outer, len);
    }
}

/// Restores the limit of the content around a value in the source, if all of its octets were taken.
#[inline(always)]
fn close<S>(source: &mut LimitedSource<S>, outer: Option<usize>, len: Length)
    requires fits { FitsOwed len outer }
    requires taken { IsTaken len source.old.limit }
    ensures limit { source.new.limit ≡ limit_outside len outer source.old.limit }
    ensures source { source.new.source ≡ source.old.source }
{
    if let Length::Definite(len) = len {
        let limit = match outer {
            Some(outer) => Some(outer - len),
            None => None,
        };
        source.set_limit(limit);
    }
}

/// Content that a closure gets inside a value, and has to leave at its end.
trait Inside {
    /// The error of a failed request of the source.
    type Error;

    /// The content in the terms of the clauses.
    ghost view: { Self → Reading };

    /// Checks that this is at its end, and takes the marker there.
    fn finish(&mut self) -> Result<(), DecodeError<Self::Error>>
        ensures moves { Moves (view self.old) (view self.new) }
        ensures marked { (view self.new).marked ≡ (view self.old).marked }
        ensures no_fault { MeetsNoFault (view self.old) (view self.new) result }
        ensures done { OnOk result (IsDone (view self.new)) }
        ensures end { OnOk result (EndsBefore (view self.old) (view self.new).stream.rest) }
        ensures refused { IfErr result (λ e.
            RefusesEnd cause_of (view self.old) e (view self.new)) };

    /// Drops what a closure returned, when the content isn't at its end.
    #[inline(always)]
    fn let_go<T: Drop>(_value: T) {}
}

impl<'a, S: Source> Inside for Primitive<'a, S> {
    type Error = S::Error;

    ghost view = { of_primitive S.stream };

    #[tactic(auto, using(crate::specs::laws::Moved::untouched_is_moved), unfolding(crate::specs::calls::Views::of_primitive))]
    #[inline(always)]
    fn finish(&mut self) -> Result<(), DecodeError<S::Error>> {
        match self.source.limit() {
            Some(0) => Ok(()),
            _ => self.refuse("octets left in a primitive value"),
        }
    }
}

impl<'a, S: Source> Inside for Constructed<'a, S> {
    type Error = S::Error;

    ghost view = { of_constructed S.stream };

    #[tactic(auto, using(crate::specs::laws::Moved::untouched_is_moved), unfolding(crate::specs::calls::Views::views))]
    #[inline(always)]
    fn finish(&mut self) -> Result<(), DecodeError<S::Error>> {
        if let (State::Open, Kind::Definite) = (self.state, self.kind) {
            if let Some(0) = self.source.limit() {
                return Ok(());
            }
        }
        match self.finish_slow() {
            Ok(()) => Ok(()),
            Err(stop) => Err(self.stop_error(stop)),
        }
    }

    /// Drops what a closure returned. It is out of line, so that a large result needs no place in
    /// memory if it isn't dropped.
    #[cold]
    #[inline(never)]
    fn let_go<T: Drop>(_value: T) {}
}

impl<'a, S: Source> Inside for Content<'a, S> {
    type Error = S::Error;

    ghost view = { of_content S.stream };

    #[tactic(auto, using(crate::specs::laws::Moved::untouched_is_moved), unfolding(crate::specs::calls::Views::views))]
    #[inline(always)]
    fn finish(&mut self) -> Result<(), DecodeError<S::Error>> {
        match self {
            Content::Primitive(octets) => octets.finish(),
            Content::Constructed(values) => values.finish(),
        }
    }
}

impl<'a, S: Source> Constructed<'a, S> {
    /// Checks that the content is at its end, and takes its marker. It is a call of its own, and
    /// returns a stop instead of an error.
    #[tactic(auto, using(crate::proofs::moves_constructed_name))]
    #[inline(never)]
    fn finish_slow(&mut self) -> Result<(), Stop<S::Error>>
        ensures moves { Moves (before S.stream self) (after S.stream self) }
        ensures name { self.new.source.ghost_name ≡ self.old.source.ghost_name }
        ensures marked { self.new.marked ≡ self.old.marked }
        ensures no_fault { MeetsNoFault (before S.stream self) (after S.stream self) result }
        ensures done { OnOk result (IsDone (after S.stream self)) }
        ensures end { OnOk result
            (EndsBefore (before S.stream self) (after S.stream self).stream.rest) }
        ensures refused { IfErr result (λ e.
            RefusesEnd stop_cause (before S.stream self) e (after S.stream self)) }
    {
        match self.next_header(Wanted::Any) {
            Ok(None) => Ok(()),
            Ok(Some(_)) => Err(Stop::Refused(Reason::ValuesLeft)),
            Err(stop) => Err(stop),
        }
    }
}

/// Calls the closure on what is inside a value, and returns an error if the closure doesn't leave
/// it at its end.
#[tactic(auto, using(crate::specs::laws::Moved::moved_twice_is_moved))]
#[inline(always)]
fn run<C: Inside, F, T: Drop>(inside: &mut C, op: F) -> Result<T, DecodeError<C::Error>>
where
    F: FnOnce(&mut C) -> Result<T, DecodeError<C::Error>>,
    requires callable { MayBeCalledOn C.view (λ i. i ≡ C.view inside.old) (F.pre op) }
    requires lawful { IsLawfulOn C.view (λ i. i ≡ C.view inside.old) (F.post op) }
    ensures moves { Moves (C.view inside.old) (C.view inside.new) }
    ensures name { (C.view inside.new).name ≡ (C.view inside.old).name }
    ensures ok { IfOk result (λ x. (t : Tag) → AnswersDone C.view (λ _. F.post op) t
        (C.view inside.old) (Ok x) (C.view inside.new)) }
    ensures refused { IfErr result (λ e. (t : Tag)
        → RefusesContent cause_of C.view (λ _. F.post op) t
        (C.view inside.old) e (C.view inside.new)) }
{
    let value = match op(inside) {
        Ok(value) => value,
        Err(error) => return Err(error),
    };
    match inside.finish() {
        Ok(()) => Ok(value),
        Err(error) => {
            C::let_go(value);
            Err(error)
        }
    }
}

/// Calls the closure on open content that is inside a value, and consumes the content.
///
/// Also returns whether the mode was changed, and the source.
#[inline(always)]
fn run_over<'a, S: Source, F, T: Drop>(
    mut content: Content<'a, S>,
    op: F,
) -> (
    Result<T, DecodeError<S::Error>>,
    bool,
    &'a mut LimitedSource<S>,
)
where
    F: FnOnce(&mut Content<'_, S>) -> Result<T, DecodeError<S::Error>>,
    requires usable { (of_content S.stream content).state ≡ State.Open }
    requires unmarked { (of_content S.stream content).marked ≡ false }
    requires callable { MayBeCalledOn (of_content S.stream)
        (λ i. i ≡ of_content S.stream content) (F.pre op) }
    requires lawful { IsLawfulOn (of_content S.stream)
        (λ i. i ≡ of_content S.stream content) (F.post op) }
    ensures name { result.2.ghost_name ≡ content_name content.entry }
    ensures ran { (t : Tag) → RanInside cause_of (of_content S.stream) (λ _. F.post op)
        (of_content S.stream content.entry) t
        result.0 result.1 (limited_stream S.stream result.2.now) result.2.now.limit }
{
    let result = run(&mut content, op);
    match content {
        Content::Primitive(Primitive { source, marked, .. }) => (result, marked, source),
        Content::Constructed(Constructed { source, marked, .. }) => (result, marked, source),
    }
}

#[tactic(auto, unfolding(crate::specs::calls::Views::views))]
impl<'a, S: Source> Constructed<'a, S> {
    /// Takes a value whose header was passed, and which has to be primitive. If it was taken, the
    /// content is usable again.
    #[inline(always)]
    pub(crate) fn take_primitive_body<F, T: Drop>(
        &mut self,
        header: Header,
        op: F,
    ) -> Result<Option<T>, DecodeError<S::Error>>
    where
        F: FnOnce(&mut Primitive<'_, S>) -> Result<T, DecodeError<S::Error>>,
        requires callable { MayBeCalledOn (of_primitive S.stream) (IsBehind S.stream self header)
            (F.pre op) }
        requires lawful { IsLawfulOn (of_primitive S.stream) (IsBehind S.stream self header)
            (F.post op) }
        requires fits { FitsOwed (len_of header.form) self.old.source.now.limit }
        ensures { TakesBehind (of_primitive S.stream) (λ _. F.post op) (Some true)
            (before S.stream self) (header_of header) result (after S.stream self) }
    {
        let Form::Primitive(len) = header.form else {
            return self.refuse("expected a primitive value");
        };
        let mode = self.mode;
        let source = &mut *self.source;
        let outer = source.limit();
        source.set_limit(Some(len));
        let mut octets = Primitive::over(&mut *source, mode);
        let value = match run(&mut octets, op) {
            Ok(value) => value,
            Err(error) => {
                let marked = octets.marked;
                pop(source, outer, len);
                self.marked |= marked;
                return Err(error);
            }
        };
        let marked = octets.marked;
        close(source, outer, Length::Definite(len));
        self.marked |= marked;
        self.state = State::Open;
        Ok(Some(value))
    }

    /// Takes a value whose header was passed, and which has to be constructed. If it was taken, the
    /// content is usable again.
    #[inline(always)]
    pub(crate) fn take_constructed_body<F, T: Drop>(
        &mut self,
        header: Header,
        op: F,
    ) -> Result<Option<T>, DecodeError<S::Error>>
    where
        F: FnOnce(&mut Constructed<'_, S>) -> Result<T, DecodeError<S::Error>>,
        requires callable { MayBeCalledOn (of_constructed S.stream) (IsBehind S.stream self header)
            (F.pre op) }
        requires lawful { IsLawfulOn (of_constructed S.stream) (IsBehind S.stream self header)
            (F.post op) }
        requires fits { FitsOwed (len_of header.form) self.old.source.now.limit }
        ensures { TakesBehind (of_constructed S.stream) (λ _. F.post op) (Some false)
            (before S.stream self) (header_of header) result (after S.stream self) }
    {
        let Form::Constructed(len) = header.form else {
            return self.refuse("expected a constructed value");
        };
        let mode = self.mode;
        let source = &mut *self.source;
        let outer = source.limit();
        let kind = go_inside(source, len);
        let mut values = Constructed::over(&mut *source, kind, State::Open, mode);
        let value = match run(&mut values, op) {
            Ok(value) => value,
            Err(error) => {
                let marked = values.marked;
                go_outside(source, outer, len);
                self.marked |= marked;
                return Err(error);
            }
        };
        let marked = values.marked;
        close(source, outer, len);
        self.marked |= marked;
        self.state = State::Open;
        Ok(Some(value))
    }

    /// Takes a value of either form whose header was passed. If it was taken, the content is usable
    /// again.
    #[inline(always)]
    pub(super) fn take_body<F, T: Drop>(
        &mut self,
        header: Header,
        op: F,
    ) -> Result<Option<T>, DecodeError<S::Error>>
    where
        F: FnOnce(&mut Content<'_, S>) -> Result<T, DecodeError<S::Error>>,
        requires callable { MayBeCalledOn (of_content S.stream) (IsBehind S.stream self header)
            (F.pre op) }
        requires lawful { IsLawfulOn (of_content S.stream) (IsBehind S.stream self header)
            (F.post op) }
        requires fits { FitsOwed (len_of header.form) self.old.source.now.limit }
        ensures { TakesBehind (of_content S.stream) (λ _. F.post op) None
            (before S.stream self) (header_of header) result (after S.stream self) }
    {
        let mode = self.mode;
        let source = &mut *self.source;
        match header.form {
            Form::Primitive(len) => {
                let outer = source.limit();
                source.set_limit(Some(len));
                let octets = Primitive::over(&mut *source, mode);
                let (result, marked, _back) = run_over(Content::Primitive(octets), op);
                pop(source, outer, len);
                self.marked |= marked;
                match result {
                    Ok(value) => {
                        self.state = State::Open;
                        Ok(Some(value))
                    }
                    Err(error) => Err(error),
                }
            }
            Form::Constructed(len) => {
                let outer = source.limit();
                let kind = go_inside(source, len);
                let values = Constructed::over(&mut *source, kind, State::Open, mode);
                let (result, marked, _back) = run_over(Content::Constructed(values), op);
                go_outside(source, outer, len);
                self.marked |= marked;
                match result {
                    Ok(value) => {
                        self.state = State::Open;
                        Ok(Some(value))
                    }
                    Err(error) => Err(error),
                }
            }
        }
    }
}
