//! Content: the values inside a value or at top level, and the octets inside a primitive value.
ghost use Rattle.std.specs.Prelude.{◌≡◌, ◌≢◌, ℕ, ◌↔◌, true, false, IsTrue, Some};
ghost use Rattle.bcder.specs.calls.Cause.{cause_of, position_of, of_content as of_refusal};
ghost use Rattle.bcder.specs.calls.Content.{Octets};
ghost use Rattle.bcder.specs.calls.Views.{of_constructed, of_primitive, of_content, content_start};
ghost use Rattle.bcder.specs.calls.Views.{before, after, octets_before, octets_after, Moved};
ghost use Rattle.bcder.specs.calls.Views.{MovedOctets, limited_stream};

mod alone;
mod capture;
mod capture_values;
mod decode;
mod decode_all;
mod either;
mod forms;
mod inside;
mod marker;
mod octets;
mod readers;
mod remaining;
mod repeat;
mod sequences;
mod skip;
mod take;
mod typed;
mod values;
pub(super) mod walk;

use crate::decode::error::{ContentError, DecodeError};
use crate::decode::source::{LimitedSource, Pos, Source};
use crate::mode::Mode;

/// How the end of a list of values is known.
#[derive(Clone, Copy, Debug)]
enum Kind {
    /// By the number of their octets.
    Definite,

    /// By the end-of-contents octets that follow them.
    Indefinite,

    /// By the end of the source.
    Unbounded,
}

/// How far the values were taken.
#[derive(Clone, Copy, Debug)]
enum State {
    /// The next value can be taken.
    Open,

    /// The end-of-contents octets were taken.
    Ended,

    /// A value was refused.
    Failed,
}

/// The contents octets of a primitive value.
#[derive(Drop)]
pub struct Primitive<'a, S> {
    source: &'a mut LimitedSource<S>,
    mode: Mode,
    marked: bool,
    start: Pos,
}

/// A list of values: those inside a constructed value, or those at top level.
#[derive(Debug, Drop)]
pub struct Constructed<'a, S> {
    source: &'a mut LimitedSource<S>,
    kind: Kind,
    state: State,
    mode: Mode,
    marked: bool,
    start: Pos,
}

/// The content of a value of either form.
#[derive(Drop)]
pub enum Content<'a, S> {
    /// The content of a primitive value.
    Primitive(Primitive<'a, S>),

    /// The content of a constructed value.
    Constructed(Constructed<'a, S>),
}

#[tactic(auto, using(crate::proofs::moves), unfolding(crate::specs::calls::Views::of_constructed))]
impl<'a, S: Source> Constructed<'a, S> {
    /// Creates unmarked content that begins at the current position of a source.
    #[inline(always)]
    fn over(
        source: &'a mut LimitedSource<S>,
        kind: Kind,
        state: State,
        mode: Mode,
    ) -> Constructed<'a, S>
        ensures same_reference { result.source.ghost_name ≡ source.entry.ghost_name }
        ensures source { result.source.now ≡ source.old }
        ensures kind { result.kind ≡ kind }
        ensures state { result.state ≡ state }
        ensures mode { result.mode ≡ mode }
        ensures marked { result.marked ≡ false }
        ensures start { result.start ≡ (limited_stream S.stream source.old).position }
    {
        let start = source.pos();
        Constructed {
            source,
            kind,
            state,
            mode,
            marked: false,
            start,
        }
    }

    /// Returns the encoding rules that the content is read by.
    pub fn mode(&self) -> Mode
        ensures { result ≡ (of_constructed S.stream self.now).mode }
    {
        self.mode
    }

    /// Sets the encoding rules that the rest of the content is read by.
    ///
    /// A change marks this content as no longer known to be in its own rules. Once this content is
    /// taken, the content around it is marked as well.
    pub fn set_mode(&mut self, mode: Mode)
        ensures moves { Moved S.stream self }
        ensures mode { (after S.stream self).mode ≡ mode }
        ensures changed { (before S.stream self).mode ≢ mode → (after S.stream self).marked ≡ true }
        ensures unchanged { (before S.stream self).mode ≡ mode
            → (after S.stream self).marked ≡ (before S.stream self).marked }
        ensures stream { (after S.stream self).stream ≡ (before S.stream self).stream }
        ensures owed { (after S.stream self).owed ≡ (before S.stream self).owed }
        ensures state { (after S.stream self).state ≡ (before S.stream self).state }
        ensures start { self.new.start ≡ self.old.start }
    {
        if self.mode != mode {
            self.mode = mode;
            self.marked = true;
        }
    }

    /// Returns an error that refuses these values, at the position where the content begins.
    pub fn content_err(&self, error: ContentError) -> DecodeError<S::Error>
        ensures cause { cause_of result ≡ of_refusal error }
        ensures position { position_of result ≡ Some self.now.start }
    {
        DecodeError::content(error, self.start)
    }

    /// Returns an error that refuses the next value, at the current position.
    pub fn next_err(&self, error: ContentError) -> DecodeError<S::Error>
        ensures cause { cause_of result ≡ of_refusal error }
        ensures position { position_of result
            ≡ Some (of_constructed S.stream self.now).stream.position }
    {
        self.source.content_err(error)
    }

    /// Makes the content fail: every later take returns an error.
    ///
    /// A closure that got a value and can't use it calls this before it returns its error, if what
    /// is around it may go on. Content whose end was taken has no values left, and stays as it is.
    pub fn fail(&mut self)
        ensures moves { Moved S.stream self }
        ensures failed { (before S.stream self).state ≢ State.Ended
            → (after S.stream self).state ≡ State.Failed }
        ensures ended { (before S.stream self).state ≡ State.Ended
            → (after S.stream self).state ≡ State.Ended }
        ensures stream { (after S.stream self).stream ≡ (before S.stream self).stream }
        ensures owed { (after S.stream self).owed ≡ (before S.stream self).owed }
        ensures mode { (after S.stream self).mode ≡ (before S.stream self).mode }
        ensures marked { (after S.stream self).marked ≡ (before S.stream self).marked }
        ensures start { self.new.start ≡ self.old.start }
    {
        match self.state {
            State::Ended => {}
            _ => self.state = State::Failed,
        }
    }
}

#[tactic(auto, using(crate::proofs::moves), unfolding(crate::specs::calls::Views::of_primitive))]
impl<'a, S: Source> Primitive<'a, S> {
    /// Creates unmarked content that begins at the current position of a source.
    #[inline(always)]
    fn over(source: &'a mut LimitedSource<S>, mode: Mode) -> Primitive<'a, S>
        ensures same_reference { result.source.ghost_name ≡ source.entry.ghost_name }
        ensures source { result.source.now ≡ source.old }
        ensures mode { result.mode ≡ mode }
        ensures marked { result.marked ≡ false }
        ensures start { result.start ≡ (limited_stream S.stream source.old).position }
    {
        let start = source.pos();
        Primitive {
            source,
            mode,
            marked: false,
            start,
        }
    }

    /// Returns the encoding rules that the content is read by.
    pub fn mode(&self) -> Mode
        ensures { result ≡ (of_primitive S.stream self.now).mode }
    {
        self.mode
    }

    /// Sets the encoding rules that the rest of the content is read by.
    ///
    /// A change marks this content as no longer known to be in its own rules. Once this content is
    /// taken, the content around it is marked as well.
    pub fn set_mode(&mut self, mode: Mode)
        ensures moves { MovedOctets S.stream self }
        ensures mode { (octets_after S.stream self).mode ≡ mode }
        ensures changed { (octets_before S.stream self).mode ≢ mode
            → (octets_after S.stream self).marked ≡ true }
        ensures unchanged { (octets_before S.stream self).mode ≡ mode
            → (octets_after S.stream self).marked ≡ (octets_before S.stream self).marked }
        ensures stream { (octets_after S.stream self).stream
            ≡ (octets_before S.stream self).stream }
        ensures owed { (octets_after S.stream self).owed ≡ (octets_before S.stream self).owed }
        ensures state { (octets_after S.stream self).state ≡ (octets_before S.stream self).state }
        ensures start { self.new.start ≡ self.old.start }
    {
        if self.mode != mode {
            self.mode = mode;
            self.marked = true;
        }
    }

    /// Returns an error that refuses these octets, at the position where the content begins.
    pub fn content_err(&self, error: ContentError) -> DecodeError<S::Error>
        ensures cause { cause_of result ≡ of_refusal error }
        ensures position { position_of result ≡ Some self.now.start }
    {
        DecodeError::content(error, self.start)
    }
}

#[tactic(auto, unfolding(crate::specs::calls::Views::views))]
impl<'a, S: Source> Content<'a, S> {
    /// Returns the encoding rules that the content is read by.
    pub fn mode(&self) -> Mode
        ensures { result ≡ (of_content S.stream self.now).mode }
    {
        match self {
            Content::Primitive(primitive) => primitive.mode,
            Content::Constructed(constructed) => constructed.mode,
        }
    }

    /// Returns whether this is the content of a primitive value.
    pub fn is_primitive(&self) -> bool
        ensures { IsTrue result ↔ ((of_content S.stream self.now).kind ≡ Octets) }
    {
        match self {
            Content::Primitive(_) => true,
            Content::Constructed(_) => false,
        }
    }

    /// Returns whether this is the content of a constructed value.
    pub fn is_constructed(&self) -> bool
        ensures { IsTrue result ↔ ((of_content S.stream self.now).kind ≢ Octets) }
    {
        match self {
            Content::Primitive(_) => false,
            Content::Constructed(_) => true,
        }
    }

    /// Returns an error that refuses this content, at the position where it begins.
    pub fn content_err(&self, error: ContentError) -> DecodeError<S::Error>
        ensures cause { cause_of result ≡ of_refusal error }
        ensures position { position_of result ≡ Some (content_start self.now) }
    {
        match self {
            Content::Primitive(primitive) => primitive.content_err(error),
            Content::Constructed(constructed) => constructed.content_err(error),
        }
    }
}
