//! Conversion into sources.
ghost use Rattle.std.specs.Prelude.{◌≡◌};
ghost use Rattle.bcder.specs.calls.Stream.{Stream, at_hand};

use super::{BytesSource, SliceSource, Source};
use bytes::Bytes;

/// A value that can be made a source.
pub trait IntoSource {
    /// The source that is made.
    type Source: Source;

    /// The source in the terms of the clauses: the octets that it will give, and what is known of
    /// them.
    ghost gives: { Self → Stream };

    /// Returns the source that gives these octets.
    fn into_source(self) -> Self::Source
        ensures { Self.Source.stream result ≡ gives self };
}

/// A source is itself.
impl<T: Source> IntoSource for T {
    type Source = T;

    ghost gives = { λ s. T.stream s };

    fn into_source(self) -> T {
        self
    }
}

/// Shared octets, from position 0.
impl IntoSource for Bytes {
    type Source = BytesSource;

    ghost gives = { at_hand };

    fn into_source(self) -> BytesSource {
        BytesSource::new(self)
    }
}

/// Borrowed octets, from position 0.
impl<'a> IntoSource for &'a [u8] {
    type Source = SliceSource<'a>;

    ghost gives = { λ s. at_hand s.now };

    fn into_source(self) -> SliceSource<'a> {
        SliceSource::new(self)
    }
}
