//! Sources: where the octets to decode come from.
ghost use Rattle.std.specs.Prelude.{◌≡◌, ℕ, ◌+◌, ◌-◌, ◌<◌, ◌≤◌, [], ◌∷◌};
ghost use Rattle.std.specs.Prelude.{length, take, drop, min, slice_range};
ghost use Rattle.std.specs.Prelude.{Some, IfOk, IfErr, OnOk, OnErr, MatchOption, IfNone};
ghost use Rattle.bcder.specs.calls.Cause.{cause_of, position_of, of_content, MatchCause, IsRefusal};
ghost use Rattle.bcder.specs.calls.Stream.{Stream, IsSound, Grew, Provides, pos_after, borrowed};
ghost use Rattle.bcder.specs.laws.Limits.{borrowed_sound};

mod bytes_source;
mod capture;
mod into;
mod lending;
mod limited;
mod pos;
mod slice;

use crate::NoMemory;
use crate::decode::error::{ContentError, DecodeError};
use bytes::Bytes;
pub use bytes_source::BytesSource;
pub use capture::CaptureSource;
pub use into::IntoSource;
pub use lending::LendingSource;
pub use limited::LimitedSource;
pub use pos::Pos;
pub use slice::SliceSource;
use std::alloc::Global;
use std::error::Error;

/// A source of octets.
///
/// A source is the list of the octets to come, its rest. A prefix of the rest is available: `slice`
/// lends it, `bytes` keeps it, and `advance` passes over it. `request` makes more of it available.
/// It is the one call that can fail.
///
/// The clauses are the laws that each implementation keeps. The five calls without a body have such
/// clauses. Besides, the rest is octets, fewer than `2^64` of them, and the available octets are a
/// prefix of it. The calls with a body follow from these and can't be replaced.
pub trait Source {
    /// The error of a failed request.
    type Error: Error;

    /// The source in the terms of the clauses: the octets to come, how many of them are available,
    /// how often a request failed, the position, and what no call changes.
    ghost stream: { Self → Stream };

    /// Returns the position of the first octet to come, for messages.
    fn pos(&self) -> Pos
        ensures { result ≡ (stream self.now).position };

    /// Makes at least `len` octets available, or all that are left if these are fewer, and returns
    /// how many are available.
    ///
    /// A failed request leaves the rest as it was, and at least as much of it available.
    fn request(&mut self, len: usize) -> Result<usize, Self::Error>
        ensures ok { IfOk result (λ k. Provides len k (stream self.new)) }
        ensures no_fault { OnOk result ((stream self.new).faults ≡ (stream self.old).faults) }
        ensures fault { OnErr result (Grew (stream self.old).faults (stream self.new).faults) }
        ensures no_fewer { OnErr result ((stream self.old).avail ≤ (stream self.new).avail) }
        ensures rest { (stream self.new).rest ≡ (stream self.old).rest }
        ensures position { (stream self.new).position ≡ (stream self.old).position }
        ensures kept { (stream self.new).kept ≡ (stream self.old).kept };

    /// Returns the available octets, a prefix of the rest. They may be more than the last request
    /// returned.
    fn slice(&self) -> &[u8]
        ensures front { take (length result.now) (stream self.now).rest ≡ result.now }
        ensures enough { (stream self.now).avail ≤ length result.now };

    /// Returns the available octets from `start` up to, but not including, `end`.
    ///
    /// Returns `NoMemory` if memory runs out.
    fn bytes(&self, alloc: Global, start: usize, end: usize) -> Result<Bytes, NoMemory>
        requires start_le_end { start ≤ end }
        requires in_bounds { end ≤ (stream self.now).avail }
        ensures { IfOk result (λ b. b ≡ slice_range (stream self.now).rest start end) };

    /// Passes over the first `len` octets, which have to be available.
    fn advance(&mut self, len: usize)
        requires { len ≤ (stream self.old).avail }
        ensures rest { (stream self.new).rest ≡ drop len (stream self.old).rest }
        ensures avail { (stream self.new).avail + len ≡ (stream self.old).avail }
        ensures faults { (stream self.new).faults ≡ (stream self.old).faults }
        ensures kept { (stream self.new).kept ≡ (stream self.old).kept };

    /// The rest is octets, and the available octets are a prefix of it.
    ghost sound: { (x : Self) → IsSound (stream x) };

    /// Passes over `len` octets, or over all that are left if these are fewer, and returns how many
    /// were passed. An error passes over none.
    final fn skip(&mut self, len: usize) -> Result<usize, Self::Error>
    where
        Self: Sized,
        ensures count { IfOk result (λ k. k ≡ min len (length (stream self.old).rest)) }
        ensures ok { IfOk result (λ k. (stream self.new).rest ≡ drop k (stream self.old).rest) }
        ensures no_fault { OnOk result ((stream self.new).faults ≡ (stream self.old).faults) }
        ensures fault { OnErr result (Grew (stream self.old).faults (stream self.new).faults) }
        ensures err { OnErr result ((stream self.new).rest ≡ (stream self.old).rest) }
        ensures err_position { OnErr result
            ((stream self.new).position ≡ (stream self.old).position) }
        ensures kept { (stream self.new).kept ≡ (stream self.old).kept }
    {
        let found = self.request(len)?.min(len);
        self.advance(found);
        Ok(found)
    }

    /// Takes the next octet. At the end of the source it returns an error. An error takes no octet.
    final fn take_u8(&mut self) -> Result<u8, DecodeError<Self::Error>>
    where
        Self: Sized,
        ensures ok { IfOk result (λ b. (stream self.old).rest ≡ b ∷ (stream self.new).rest) }
        ensures no_fault { OnOk result ((stream self.new).faults ≡ (stream self.old).faults) }
        ensures cause { IfErr result (λ e. MatchCause (cause_of e)
            (Grew (stream self.old).faults (stream self.new).faults)
            (((stream self.new).faults ≡ (stream self.old).faults)
            × ((stream self.old).rest ≡ [])
            × IsRefusal e)
            ⊥) }
        ensures no_fewer { (stream self.old).faults ≤ (stream self.new).faults }
        ensures err { OnErr result ((stream self.new).rest ≡ (stream self.old).rest) }
        ensures err_position { OnErr result
            ((stream self.new).position ≡ (stream self.old).position) }
        ensures kept { (stream self.new).kept ≡ (stream self.old).kept }
    {
        match self.take_opt_u8()? {
            Some(octet) => Ok(octet),
            None => Err(self.content_err(ContentError::from_static("unexpected end of data"))),
        }
    }

    /// Takes the next octet, or returns `None` at the end of the source. An error takes no octet.
    final fn take_opt_u8(&mut self) -> Result<Option<u8>, Self::Error>
    where
        Self: Sized,
        ensures ok { IfOk result (λ o. MatchOption o
            (((stream self.old).rest ≡ []) × ((stream self.new).rest ≡ []))
            (λ b. (stream self.old).rest ≡ b ∷ (stream self.new).rest)) }
        ensures end_position { IfOk result (λ o.
            IfNone o ((stream self.new).position ≡ (stream self.old).position)) }
        ensures no_fault { OnOk result ((stream self.new).faults ≡ (stream self.old).faults) }
        ensures fault { OnErr result (Grew (stream self.old).faults (stream self.new).faults) }
        ensures err { OnErr result ((stream self.new).rest ≡ (stream self.old).rest) }
        ensures err_position { OnErr result
            ((stream self.new).position ≡ (stream self.old).position) }
        ensures kept { (stream self.new).kept ≡ (stream self.old).kept }
    {
        if self.request(1)? < 1 {
            return Ok(None);
        }
        let octet = self.slice()[0];
        self.advance(1);
        Ok(Some(octet))
    }

    /// Returns an error that refuses content for this reason, at the current position.
    final fn content_err(&self, error: ContentError) -> DecodeError<Self::Error>
    where
        Self: Sized,
        ensures cause { cause_of result ≡ of_content error }
        ensures position { position_of result ≡ Some (stream self.now).position }
    {
        DecodeError::content(error, self.pos())
    }
}

/// A borrowed source is the source itself, and gives the borrow back when it ends.
impl<T: Source> Source for &mut T {
    type Error = T::Error;

    ghost stream = { λ s. borrowed s.ghost_name (T.stream s.now) };

    ghost sound = { λ s. borrowed_sound s.ghost_name (T.stream s.now) (T.sound s.now) };

    fn pos(&self) -> Pos {
        T::pos(&**self)
    }

    fn request(&mut self, len: usize) -> Result<usize, T::Error> {
        T::request(&mut **self, len)
    }

    fn slice(&self) -> &[u8] {
        T::slice(&**self)
    }

    /// Returns the available octets from `start` up to, but not including, `end`.
    ///
    /// Returns `NoMemory` if memory runs out.
    fn bytes(&self, alloc: Global, start: usize, end: usize) -> Result<Bytes, NoMemory> {
        T::bytes(&**self, alloc, start, end)
    }

    fn advance(&mut self, len: usize) {
        T::advance(&mut **self, len)
    }
}
