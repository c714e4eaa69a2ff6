//! The errors of decoding.
ghost use Rattle.std.specs.Prelude.{◌≡◌, ℕ, List, Some, IfSome, IsNone, IfOk, IfErr};
ghost use Rattle.bcder.specs.calls.Cause.{Cause, of_source, of_content, of_memory, cause_of};
ghost use Rattle.bcder.specs.calls.Cause.{position_of, memory_for_source};
ghost use Rattle.bcder.specs.calls.Cause.{is_source_cause, is_memory_cause, IsContentless, IsBoxed};
ghost use Rattle.bcder.specs.calls.Cause.{content_text, decode_text};

use crate::NoMemory;
use crate::decode::source::Pos;
use crate::tag::Tag;
use bytes::ByteStr;
use std::alloc::Global;
use std::convert::Infallible;
use std::error::Error;
use std::fmt;

/// A message that users define.
pub trait Message: Drop {
    /// The text of the message, for the clauses.
    ghost shown: { Self → List ℕ };

    /// Returns the text of the message.
    fn text(&self) -> &str
        ensures { result.now ≡ shown self.now };
}

/// The reason that content was refused.
#[derive(Drop)]
pub enum ContentError {
    /// A fixed text. It isn't copied.
    Static(ByteStr),

    /// A text that was put together.
    Owned(String),

    /// This tag was expected, but wasn't there.
    ExpectedTag(Tag),

    /// This integer was expected, but another was there.
    ExpectedInteger(u64),

    /// The text of a message that users define.
    Boxed(String),
}

impl ContentError {
    /// Creates an error with a fixed text.
    pub fn from_static(text: &'static str) -> ContentError
        ensures { result ≡ ContentError.Static text.now }
    {
        ContentError::Static(ByteStr::from_static(text))
    }

    /// Creates an error with the text of a message that users define. The text is copied.
    ///
    /// # Errors
    ///
    /// Returns `NoMemory` if memory runs out for the text.
    pub fn from_boxed(alloc: Global, message: Box<dyn Message>) -> Result<ContentError, NoMemory>
        ensures { IfOk result (λ e. IsBoxed e (shown message)) }
    {
        let text = String::from_str(alloc, message.text())?;
        Ok(ContentError::Boxed(text))
    }
}

impl From<&'static str> for ContentError {
    ghost use Rattle.bcder.specs.declared.decode.error.ContentError.TheVariants.{Static};

    ghost from_gives = { λ text e. e ≡ Static text.now };

    fn from(text: &'static str) -> ContentError {
        ContentError::from_static(text)
    }
}

impl From<String> for ContentError {
    ghost use Rattle.bcder.specs.declared.decode.error.ContentError.TheVariants.{Owned};

    ghost from_gives = { λ text e. e ≡ Owned text };

    fn from(text: String) -> ContentError {
        ContentError::Owned(text)
    }
}

/// Writes the text, `expected tag TAG` or `expected integer value N`.
impl fmt::Display for ContentError {
    ghost output = { content_text ⟦<Tag as fmt::Display>⟧.output };

    fn fmt<W: fmt::Write>(&self, f: &mut fmt::Formatter<W>) -> fmt::Result {
        match self {
            ContentError::Static(text) => write!(f, "{}", text.as_str()),
            ContentError::Owned(text) => write!(f, "{text}"),
            ContentError::ExpectedTag(tag) => write!(f, "expected tag {tag}"),
            ContentError::ExpectedInteger(value) => write!(f, "expected integer value {value}"),
            ContentError::Boxed(text) => write!(f, "{text}"),
        }
    }
}

impl fmt::Debug for ContentError {
    fn fmt<W: fmt::Write>(&self, f: &mut fmt::Formatter<W>) -> fmt::Result {
        write!(f, "ContentError({self})")
    }
}

/// The reason that decoding failed.
#[derive(Debug, Drop)]
pub enum DecodeError<S> {
    /// The source failed.
    Source(S),

    /// The content was refused, at a position in the source.
    Content { error: ContentError, pos: Pos },

    /// Memory ran out.
    NoMemory,
}

impl<S> DecodeError<S> {
    /// Creates an error that refuses content for this reason, at this position.
    pub fn content(error: ContentError, pos: Pos) -> DecodeError<S>
        ensures cause { cause_of result ≡ of_content error }
        ensures position { position_of result ≡ Some pos }
    {
        DecodeError::Content { error, pos }
    }

    /// Creates the error for running out of memory.
    pub fn no_memory() -> DecodeError<S>
        ensures { cause_of result ≡ of_memory }
    {
        DecodeError::NoMemory
    }

    /// Creates the error for running out of memory from the error of a growth, a push or a clone.
    ///
    /// ```text
    /// match all.push(entry) {
    ///     Ok(()) => Ok(Some(())),
    ///     Err(error) => Err(DecodeError::from_alloc(error)),
    /// }
    /// ```
    pub fn from_alloc<E: Into<NoMemory> + Drop>(_error: E) -> DecodeError<S>
        ensures { cause_of result ≡ of_memory }
    {
        DecodeError::NoMemory
    }

    /// Returns whether memory ran out.
    pub fn is_memory(&self) -> bool
        ensures { result ≡ is_memory_cause (cause_of self.now) }
    {
        match self {
            DecodeError::NoMemory => true,
            _ => false,
        }
    }

    /// Returns whether the source failed.
    pub fn is_source(&self) -> bool
        ensures { result ≡ is_source_cause (cause_of self.now) }
    {
        match self {
            DecodeError::Source(_) => true,
            _ => false,
        }
    }

    /// Returns why the content was refused, if it was.
    pub fn content_error(&self) -> Option<&ContentError>
        ensures some { IfSome result (λ e. cause_of self.now ≡ of_content e.now) }
        ensures none { IsNone result → IsContentless (cause_of self.now) }
    {
        match self {
            DecodeError::Content { error, .. } => Some(error),
            _ => None,
        }
    }
}

impl DecodeError<Infallible> {
    /// Converts this into the error of a source that can fail, with the same cause and position.
    pub fn convert<S>(self) -> DecodeError<S>
        ensures cause { cause_of result ≡ cause_of self }
        ensures position { position_of result ≡ position_of self }
    {
        match self {
            DecodeError::Source(never) => match never {},
            DecodeError::Content { error, pos } => DecodeError::Content { error, pos },
            DecodeError::NoMemory => DecodeError::NoMemory,
        }
    }

    /// Returns why the content was refused. The source can't have failed.
    ///
    /// # Errors
    ///
    /// Returns `NoMemory` if memory ran out.
    pub fn into_content(self) -> Result<ContentError, NoMemory>
        ensures ok { IfOk result (λ e. cause_of self ≡ of_content e) }
        ensures err { IfErr result (λ _. cause_of self ≡ of_memory) }
    {
        match self {
            DecodeError::Source(never) => match never {},
            DecodeError::Content { error, .. } => Ok(error),
            DecodeError::NoMemory => Err(NoMemory),
        }
    }
}

impl DecodeError<NoMemory> {
    /// Converts this into the error of a source that can fail in other ways, at the same position.
    ///
    /// Use it for an octet string that is decoded inside another source. A failure of the string's
    /// source means that memory ran out, and becomes that.
    ///
    /// ```text
    /// match Mode::Der.decode(string, |cons| cons.take_u8()) {
    ///     Ok(number) => Ok(number),
    ///     Err(error) => Err(error.convert()),
    /// }
    /// ```
    pub fn convert<S>(self) -> DecodeError<S>
        ensures cause { cause_of result ≡ memory_for_source (cause_of self) }
        ensures position { position_of result ≡ position_of self }
    {
        match self {
            DecodeError::Source(NoMemory) => DecodeError::NoMemory,
            DecodeError::Content { error, pos } => DecodeError::Content { error, pos },
            DecodeError::NoMemory => DecodeError::NoMemory,
        }
    }
}

impl<S> From<S> for DecodeError<S> {
    ghost use Rattle.bcder.specs.declared.decode.error.DecodeError.TheVariants.{Source};

    ghost from_gives = { λ e d. d ≡ Source e };

    fn from(error: S) -> DecodeError<S> {
        DecodeError::Source(error)
    }
}

/// Writes the source's text, `TEXT (at position N)` or `out of memory`.
impl<S: fmt::Display> fmt::Display for DecodeError<S> {
    ghost output = { decode_text S.output (content_text ⟦<Tag as fmt::Display>⟧.output) };

    fn fmt<W: fmt::Write>(&self, f: &mut fmt::Formatter<W>) -> fmt::Result {
        match self {
            DecodeError::Source(error) => write!(f, "{error}"),
            DecodeError::Content { error, pos } => write!(f, "{error} (at position {pos})"),
            DecodeError::NoMemory => write!(f, "out of memory"),
        }
    }
}

impl<S: Error> Error for DecodeError<S> {}
