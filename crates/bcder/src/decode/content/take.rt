//! Passing over the header of the next value.
ghost use Rattle.std.specs.Prelude.{◌≡◌, Some};
ghost use Rattle.std.specs.Prelude.{IfOk, IfErr, IfSome, IsErrAnd, OnOk, OnErr};
ghost use Rattle.bcder.specs.steps.Inside.{popped};
ghost use Rattle.bcder.specs.calls.Sources.{SameFaults, MoreFaults, SameRest, SameKept};
ghost use Rattle.bcder.specs.calls.Cause.{cause_of, IsRefusal};
ghost use Rattle.bcder.specs.steps.StopCause.{stop_cause};
ghost use Rattle.bcder.specs.calls.Content.{any, tagged, Moves};
ghost use Rattle.bcder.specs.steps.Entering.{Enters, TakesMarker, NoFront};
ghost use Rattle.bcder.specs.steps.Entering.{EntersNext, EntersOctets, FindsNone, RefusesNext};
ghost use Rattle.bcder.specs.steps.Entering.{GoesOn, MeetsNoFault, NamesViolation};
ghost use Rattle.bcder.specs.steps.Peek.{header_of, octets_header, asked};
ghost use Rattle.bcder.specs.steps.Peek.{Fronts, FrontsEnd};
ghost use Rattle.bcder.specs.declared.mode.Mode.{Mode as ModeValue};
ghost use Rattle.bcder.specs.calls.Calls.{TellsNone};
ghost use Rattle.bcder.specs.calls.Views.{before, after, limited_stream};

use super::{Constructed, Kind, Primitive, State};
use crate::decode::error::{ContentError, DecodeError};
use crate::decode::header::{Form, Header, Peeked, Wanted, peek};
use crate::decode::source::{LimitedSource, Source};
use crate::decode::stop::{Reason, Stop};
use crate::decode::violation::Violation;
use crate::length::Length;
use crate::tag::{Tag, leads_primitive};

/// Returns the header of a primitive value with `len` contents octets.
#[inline(always)]
pub(super) fn octets_header(tag: Tag, len: usize) -> Header
    ensures { result ≡ octets_header tag len }
{
    Header {
        tag,
        form: Form::Primitive(len),
    }
}

/// Returns how many contents octets the next value of a source has, if it is primitive, has this
/// tag and has a header of two octets.
///
/// It requests two octets, since every header has at least two, and takes none. An error is the
/// source's own.
#[inline(always)]
fn peek_short<S: Source>(source: &mut S, tag: Tag) -> Result<Option<usize>, S::Error>
    ensures peeked { IfOk result (λ o. IfSome o (λ n. (mode : ModeValue)
        → Fronts mode (octets_header tag n) 2 (S.stream source.new))) }
    ensures no_fault { OnOk result (SameFaults S.stream source) }
    ensures fault { OnErr result (MoreFaults S.stream source) }
    ensures rest { SameRest S.stream source }
    ensures kept { SameKept S.stream source }
{
    let found = source.request(2)?;
    match &source.slice()[..found] {
        [leading, len, ..] if tag.is_value() && leads_primitive(tag, *leading) && *len < 0x80 => {
            Ok(Some(usize::from(*len)))
        }
        _ => Ok(None),
    }
}

impl<'a, S: Source> Primitive<'a, S> {
    /// Returns a refusal at the current position.
    #[cold]
    pub(crate) fn refusal(&self, text: &'static str) -> DecodeError<S::Error>
        ensures { IsRefusal result }
    {
        self.source.content_err(ContentError::from_static(text))
    }

    /// Returns a refusal at the current position as a result.
    ///
    /// It is a function of its own, so that no stack space is cleared for an error if nothing is
    /// refused.
    #[inline(always)]
    pub(super) fn refuse<T>(&self, text: &'static str) -> Result<T, DecodeError<S::Error>>
        ensures { IsErrAnd result IsRefusal }
    {
        Err(self.refusal(text))
    }
}

impl<'a, S: Source> Constructed<'a, S> {
    /// Returns a refusal at the current position.
    #[cold]
    pub(crate) fn refusal(&self, text: &'static str) -> DecodeError<S::Error>
        ensures { IsRefusal result }
    {
        self.source.content_err(ContentError::from_static(text))
    }

    /// Returns a refusal at the current position as a result.
    ///
    /// It is a function of its own, so that no stack space is cleared for an error if nothing is
    /// refused.
    #[inline(always)]
    pub(super) fn refuse<T>(&self, text: &'static str) -> Result<T, DecodeError<S::Error>>
        ensures { IsErrAnd result IsRefusal }
    {
        Err(self.refusal(text))
    }

    /// Returns the error for a stop, at the current position.
    ///
    /// It is inlined, without the texts. So neither the content nor an error needs an address in a
    /// loop over values that stop nothing.
    #[inline(always)]
    pub(crate) fn stop_error(&self, stop: Stop<S::Error>) -> DecodeError<S::Error>
        ensures { cause_of result ≡ stop_cause stop }
    {
        match stop {
            Stop::Violated(violation) => self
                .source
                .content_err(ContentError::from_static(violation.text())),
            Stop::Refused(why) => self
                .source
                .content_err(ContentError::from_static(why.text())),
            Stop::Source(error) => DecodeError::Source(error),
            Stop::NoMemory => DecodeError::no_memory(),
        }
    }

    /// Returns the error for a stop as a result. It is a function of its own for the same reason
    /// as `refuse`.
    #[inline(always)]
    pub(super) fn refuse_for<T>(&self, stop: Stop<S::Error>) -> Result<T, DecodeError<S::Error>>
        ensures { IsErrAnd result (λ e. cause_of e ≡ stop_cause stop) }
    {
        Err(self.stop_error(stop))
    }

    /// Returns an error that refuses what doesn't have this tag.
    #[cold]
    pub(crate) fn expected_tag_error(&self, tag: Tag) -> DecodeError<S::Error>
        ensures { TellsNone (tagged tag) result }
    {
        self.source.content_err(ContentError::ExpectedTag(tag))
    }

    /// Returns, as a result, an error that refuses what doesn't have this tag.
    #[inline(always)]
    pub(super) fn refuse_without<T>(&self, tag: Tag) -> Result<T, DecodeError<S::Error>>
        ensures { IsErrAnd result (TellsNone (tagged tag)) }
    {
        Err(self.expected_tag_error(tag))
    }

    /// Passes over the header of a value, whose octets have to fit into what is owed. The content
    /// has failed until the value is taken.
    #[tactic(auto, unfolding(crate::specs::calls::Views::of_constructed))]
    #[inline(always)]
    fn enter(&mut self, header: &Header, size: usize) -> Result<(), Stop<S::Error>>
        requires read { Fronts self.old.mode header.now size
            (limited_stream S.stream self.old.source.now) }
        requires usable { self.old.state ≡ State.Open }
        ensures moves { Moves (before S.stream self) (after S.stream self) }
        ensures entered { OnOk result
            (Enters (before S.stream self) (header_of header.now) (after S.stream self)) }
        ensures refused { IfErr result (λ e.
            NamesViolation (stop_cause e) (before S.stream self) × NoFront (before S.stream self)) }
        ensures no_fault { MeetsNoFault (before S.stream self) (after S.stream self) result }
        ensures failed { OnErr result (self.new.state ≡ State.Failed) }
        ensures mode { self.new.mode ≡ self.old.mode }
        ensures marked { self.new.marked ≡ self.old.marked }
    {
        self.state = State::Failed;
        self.source.advance(size);
        let Some(owed) = self.source.limit() else {
            return Ok(());
        };
        let fits = match header.form {
            Form::Primitive(len) => len <= owed,
            Form::Constructed(Length::Definite(len)) => len <= owed,
            Form::Constructed(Length::Indefinite) => true,
        };
        if fits {
            return Ok(());
        }
        Err(Stop::Violated(Violation::ValueTooLong))
    }

    /// Passes over end-of-contents octets, which have to end the content.
    #[tactic(auto, unfolding(crate::specs::calls::Views::of_constructed))]
    #[inline(always)]
    fn take_end(&mut self, size: usize) -> Result<(), Stop<S::Error>>
        requires read { FrontsEnd self.old.mode size
            (limited_stream S.stream self.old.source.now) }
        requires usable { self.old.state ≡ State.Open }
        ensures moves { Moves (before S.stream self) (after S.stream self) }
        ensures ended { OnOk result (TakesMarker (before S.stream self) (after S.stream self)) }
        ensures refused { IfErr result (λ e.
            NamesViolation (stop_cause e) (before S.stream self) × NoFront (before S.stream self)) }
        ensures no_fault { MeetsNoFault (before S.stream self) (after S.stream self) result }
        ensures failed { OnErr result (self.new.state ≡ State.Failed) }
        ensures mode { self.new.mode ≡ self.old.mode }
        ensures marked { self.new.marked ≡ self.old.marked }
    {
        self.state = State::Failed;
        self.source.advance(size);
        let Kind::Indefinite = self.kind else {
            return Err(Stop::Violated(Violation::StrayEnd));
        };
        self.state = State::Ended;
        Ok(())
    }

    /// Passes over the next header, if it is a wanted one.
    ///
    /// Returns `None` for another tag and at the end of the content. The marker there is taken if
    /// any header is wanted. After a header the content has failed until the value is taken.
    #[tactic(auto, using(crate::specs::laws::Moved::untouched_is_moved), unfolding(crate::specs::calls::Views::views))]
    #[inline(always)]
    pub(crate) fn next_header(&mut self, wanted: Wanted) -> Result<Option<Header>, Stop<S::Error>>
        ensures moves { Moves (before S.stream self) (after S.stream self) }
        ensures entered { EntersNext (before S.stream self) (after S.stream self)
            (asked wanted) result }
        ensures none { FindsNone (before S.stream self) (after S.stream self)
            (asked wanted) result }
        ensures refused { RefusesNext (before S.stream self) (after S.stream self)
            stop_cause (asked wanted) result }
        ensures no_fault { MeetsNoFault (before S.stream self) (after S.stream self) result }
        ensures failed { OnErr result (self.new.state ≡ State.Failed) }
        ensures mode { self.new.mode ≡ self.old.mode }
        ensures marked { self.new.marked ≡ self.old.marked }
    {
        match self.state {
            State::Failed => return Err(Stop::Refused(Reason::Earlier)),
            State::Ended => return Ok(None),
            State::Open => {}
        }
        if let Kind::Definite = self.kind {
            if let Some(0) = self.source.limit() {
                return Ok(None);
            }
        }
        match peek(self.source, self.mode, &wanted) {
            Ok(Peeked::Front { header, size }) => match self.enter(&header, size) {
                Ok(()) => Ok(Some(header)),
                Err(stop) => Err(stop),
            },
            Ok(Peeked::Other) => Ok(None),
            Ok(Peeked::End { size }) => match self.take_end(size) {
                Ok(()) => Ok(None),
                Err(stop) => Err(stop),
            },
            Ok(Peeked::Nothing) => {
                match &wanted {
                    Wanted::Tagged(_) => return Ok(None),
                    Wanted::Any => {}
                }
                if let Kind::Unbounded = self.kind {
                    return Ok(None);
                }
                self.state = State::Failed;
                Err(Stop::Violated(Violation::TruncatedContents))
            }
            Ok(Peeked::Refused(violation)) => {
                self.state = State::Failed;
                Err(Stop::Violated(violation))
            }
            Err(error) => {
                self.state = State::Failed;
                Err(Stop::Source(error))
            }
        }
    }

    /// Looks for the next value, and takes none of it.
    ///
    /// Returns `Some` if the header of a value comes next. Returns `None` at the end of the
    /// content, whose marker it takes.
    #[tactic(auto, using(crate::specs::laws::Moved::untouched_is_moved), unfolding(crate::specs::calls::Views::views))]
    #[inline(never)]
    pub(super) fn find_next(&mut self) -> Result<Option<()>, Stop<S::Error>>
        ensures moves { Moves (before S.stream self) (after S.stream self) }
        ensures found { IfOk result (λ o. IfSome o (λ _.
            GoesOn (before S.stream self) (after S.stream self))) }
        ensures none { FindsNone (before S.stream self) (after S.stream self) any result }
        ensures refused { RefusesNext (before S.stream self) (after S.stream self)
            stop_cause any result }
        ensures no_fault { MeetsNoFault (before S.stream self) (after S.stream self) result }
        ensures failed { OnErr result (self.new.state ≡ State.Failed) }
        ensures mode { self.new.mode ≡ self.old.mode }
        ensures marked { self.new.marked ≡ self.old.marked }
    {
        match self.state {
            State::Failed => return Err(Stop::Refused(Reason::Earlier)),
            State::Ended => return Ok(None),
            State::Open => {}
        }
        if let Kind::Definite = self.kind {
            if let Some(0) = self.source.limit() {
                return Ok(None);
            }
        }
        match peek(self.source, self.mode, &Wanted::Any) {
            Ok(Peeked::Front { .. }) => Ok(Some(())),
            Ok(Peeked::Other) => Ok(Some(())),
            Ok(Peeked::End { size }) => match self.take_end(size) {
                Ok(()) => Ok(None),
                Err(stop) => Err(stop),
            },
            Ok(Peeked::Nothing) => {
                if let Kind::Unbounded = self.kind {
                    return Ok(None);
                }
                self.state = State::Failed;
                Err(Stop::Violated(Violation::TruncatedContents))
            }
            Ok(Peeked::Refused(violation)) => {
                self.state = State::Failed;
                Err(Stop::Violated(violation))
            }
            Err(error) => {
                self.state = State::Failed;
                Err(Stop::Source(error))
            }
        }
    }

    /// Passes over a header of two octets of a primitive value.
    #[inline(always)]
    fn enter_octets(&mut self, tag: Tag, len: usize) -> Result<Option<usize>, Stop<S::Error>>
        requires read { Fronts self.old.mode (octets_header tag len) 2
            (limited_stream S.stream self.old.source.now) }
        requires usable { self.old.state ≡ State.Open }
        ensures moves { Moves (before S.stream self) (after S.stream self) }
        ensures entered { EntersOctets stop_cause tag
            (before S.stream self) result (after S.stream self) }
    {
        match self.enter(&octets_header(tag, len), 2) {
            Ok(()) => Ok(Some(len)),
            Err(stop) => Err(stop),
        }
    }

    /// Passes over the header of the next value if it has this tag, whatever the header's size.
    #[inline(always)]
    fn next_long_if(&mut self, tag: Tag) -> Result<Option<usize>, Stop<S::Error>>
        ensures moves { Moves (before S.stream self) (after S.stream self) }
        ensures entered { EntersOctets stop_cause tag
            (before S.stream self) result (after S.stream self) }
    {
        match self.next_header(Wanted::Tagged(tag)) {
            Ok(Some(header)) => {
                let form = header.form;
                match form {
                    Form::Primitive(len) => Ok(Some(len)),
                    Form::Constructed(_) => Err(Stop::Refused(Reason::Constructed)),
                }
            }
            Ok(None) => Ok(None),
            Err(stop) => Err(stop),
        }
    }

    /// Passes over the header of the next value if it has this tag, and returns how many contents
    /// octets it has.
    ///
    /// The value has to be primitive. The content has then failed until the value is taken.
    #[tactic(auto, using(crate::specs::laws::Moved::untouched_is_moved), unfolding(crate::specs::calls::Views::views))]
    #[inline(always)]
    pub(super) fn next_octets_if(&mut self, tag: Tag) -> Result<Option<usize>, Stop<S::Error>>
        ensures moves { Moves (before S.stream self) (after S.stream self) }
        ensures entered { EntersOctets stop_cause tag
            (before S.stream self) result (after S.stream self) }
    {
        match self.state {
            State::Failed => return Err(Stop::Refused(Reason::Earlier)),
            State::Ended => return Ok(None),
            State::Open => {}
        }
        if let Kind::Definite = self.kind {
            if let Some(0) = self.source.limit() {
                return Ok(None);
            }
        }
        match peek_short(self.source, tag) {
            Ok(Some(len)) => self.enter_octets(tag, len),
            Ok(None) => self.next_long_if(tag),
            Err(error) => {
                self.state = State::Failed;
                Err(Stop::Source(error))
            }
        }
    }
}

/// Restores the limit of the content around a value in the source, less what was passed.
#[inline(always)]
pub(super) fn pop<S>(source: &mut LimitedSource<S>, outer: Option<usize>, len: usize)
    ensures limit { source.new.limit ≡ popped outer len source.old.limit }
    ensures source { source.new.source ≡ source.old.source }
{
    let limit = match (outer, source.limit()) {
        (Some(outer), Some(left)) => Some(outer.saturating_sub(len.saturating_sub(left))),
        _ => None,
    };
    source.set_limit(limit);
}
