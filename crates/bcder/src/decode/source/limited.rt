//! A source with a limit.
ghost use Rattle.std.specs.Prelude.{◌≡◌, true, ℕ, ◌+◌, ◌-◌, ◌^◌, ◌<◌, ◌≤◌, List, [], ◌∷◌, ◌++◌};
ghost use Rattle.std.specs.Prelude.{length, take, drop, slice_range};
ghost use Rattle.std.specs.Prelude.{Some, None, IsSome, IfOk, IfErr, OnOk, OnErr};
ghost use Rattle.bcder.specs.steps.Inside.{popped};
ghost use Rattle.bcder.specs.calls.Sources.{SameFaults, MoreFaults, SameRest, SamePosition};
ghost use Rattle.bcder.specs.calls.Sources.{SameKept};
ghost use Rattle.bcder.specs.calls.Sources.{RefusedWhere, inside, EndsEarly, ReachesLimit};
ghost use Rattle.bcder.specs.calls.Sources.{HasNoneLeft};
ghost use Rattle.bcder.specs.calls.Cause.{cause_of, position_of, MatchCause, IsRefusal};
ghost use Rattle.bcder.specs.steps.StopCause.{MatchStop};
ghost use Rattle.bcder.specs.calls.Content.{FitsOwed};
ghost use Rattle.bcder.specs.calls.Sources.{wrapped, limit_of, owed};
ghost use Rattle.bcder.specs.calls.Stream.{limited, IsNoLooser};
ghost use Rattle.bcder.specs.laws.Limits.{limited_sound};

use super::capture::take_front;
use super::{LendingSource, Pos, Source};
use crate::NoMemory;
use crate::decode::error::{ContentError, DecodeError};
use crate::decode::stop::Stop;
use crate::decode::violation::Violation;
use crate::length::Length;
use bytes::Bytes;
use std::alloc::Global;
use std::mem;

/// A source up to a limit: the longest prefix of the wrapped source's rest within that many octets.
///
/// The limit is the number of octets that may still be taken, so it falls by each octet that is
/// passed. Without a limit this is the wrapped source itself.
#[derive(Clone, Debug, Drop)]
pub struct LimitedSource<S> {
    source: S,
    limit: Option<usize>,
}

impl<S> LimitedSource<S> {
    /// Creates a source without a limit.
    pub fn new(source: S) -> LimitedSource<S>
        ensures source { wrapped result ≡ source }
        ensures limit { limit_of result ≡ None }
    {
        LimitedSource {
            source,
            limit: None,
        }
    }

    /// Returns the wrapped source.
    pub fn unwrap(self) -> S
        ensures { result ≡ wrapped self }
    {
        self.source
    }

    /// Returns how many octets may still be taken, or `None` without a limit.
    pub fn limit(&self) -> Option<usize>
        ensures { result ≡ limit_of self.now }
    {
        self.limit
    }

    /// Sets a limit that isn't larger than the current one, and returns the old one.
    ///
    /// This can't remove a limit. [`set_limit`](Self::set_limit) sets any.
    pub fn limit_further(&mut self, limit: Option<usize>) -> Option<usize>
        requires { IsNoLooser limit (limit_of self.old) }
        ensures old { result ≡ limit_of self.old }
        ensures limit { limit_of self.new ≡ limit }
        ensures source { wrapped self.new ≡ wrapped self.old }
    {
        mem::replace(&mut self.limit, limit)
    }

    /// Sets a limit, or removes the current one.
    pub fn set_limit(&mut self, limit: Option<usize>)
        ensures limit { limit_of self.new ≡ limit }
        ensures source { wrapped self.new ≡ wrapped self.old }
    {
        self.limit = limit;
    }
}

impl<S: Source> LimitedSource<S> {
    /// Passes over all octets up to the limit. There has to be a limit.
    ///
    /// # Errors
    ///
    /// Returns an error if the wrapped source ends before the limit, or if it fails. No octet is
    /// then passed.
    pub fn skip_all(&mut self) -> Result<(), DecodeError<S::Error>>
        requires { IsSome (limit_of self.old) }
        ensures enough { OnOk result (ReachesLimit S.stream self.old) }
        ensures limit { OnOk result (limit_of self.new ≡ Some 0) }
        ensures rest { OnOk result
            ((inside S.stream self.new).rest
            ≡ drop (owed self.old) (inside S.stream self.old).rest) }
        ensures no_fault { OnOk result (SameFaults (inside S.stream) self) }
        ensures cause { IfErr result
            (RefusedWhere (inside S.stream) self (EndsEarly S.stream self.old)) }
        ensures err { OnErr result (SameRest (inside S.stream) self) }
        ensures err_limit { OnErr result (limit_of self.new ≡ limit_of self.old) }
        ensures err_position { OnErr result (SamePosition (inside S.stream) self) }
        ensures kept { SameKept (inside S.stream) self }
    {
        let limit = self.limit.unwrap();
        if self.source.request(limit)? < limit {
            return Err(self.content_err(ContentError::from_static("unexpected end of data")));
        }
        self.source.advance(limit);
        self.limit = Some(0);
        Ok(())
    }

    /// Passes over `len` octets, which have to be within the limit and at hand.
    #[inline(always)]
    pub(crate) fn pass_owed(&mut self, len: usize)
        requires owed { FitsOwed (Length.Definite len) self.old.limit }
        requires at_hand { len ≤ (inside S.stream self.old).avail }
        ensures enough { len ≤ length (inside S.stream self.old).rest }
        ensures limit { self.new.limit ≡ popped self.old.limit len (Some 0) }
        ensures rest { (inside S.stream self.new).rest ≡ drop len (inside S.stream self.old).rest }
        ensures no_fault { SameFaults (inside S.stream) self }
        ensures kept { SameKept (inside S.stream) self }
    {
        self.source.advance(len);
        if let Some(owed) = &mut self.limit {
            *owed -= len;
        }
    }

    /// Passes over `len` octets, which have to be within the limit. A refusal passes over none.
    #[inline(always)]
    pub(crate) fn skip_owed(&mut self, len: usize) -> Result<(), Stop<S::Error>>
        requires { FitsOwed (Length.Definite len) self.old.limit }
        ensures enough { OnOk result (len ≤ length (inside S.stream self.old).rest) }
        ensures limit { OnOk result (self.new.limit ≡ popped self.old.limit len (Some 0)) }
        ensures rest { OnOk result
            ((inside S.stream self.new).rest ≡ drop len (inside S.stream self.old).rest) }
        ensures no_fault { OnOk result (SameFaults (inside S.stream) self) }
        ensures cause { IfErr result (λ e. MatchStop e
            (MoreFaults (inside S.stream) self)
            (length (inside S.stream self.old).rest < len)) }
        ensures no_fewer { (inside S.stream self.old).faults ≤ (inside S.stream self.new).faults }
        ensures err { OnErr result (SameRest (inside S.stream) self) }
        ensures err_limit { OnErr result (self.new.limit ≡ self.old.limit) }
        ensures kept { SameKept (inside S.stream) self }
    {
        match self.source.request(len) {
            Ok(found) => {
                if found < len {
                    return Err(Stop::Violated(Violation::TruncatedContents));
                }
                self.pass_owed(len);
                Ok(())
            }
            Err(error) => Err(Stop::Source(error)),
        }
    }

    /// Takes all octets up to the limit. There has to be a limit.
    ///
    /// # Errors
    ///
    /// Returns an error if the wrapped source ends before the limit, if it fails, or if memory runs
    /// out for the octets. No octet is then taken.
    pub fn take_all(&mut self, alloc: Global) -> Result<Bytes, DecodeError<S::Error>>
        requires { IsSome (limit_of self.old) }
        ensures value { IfOk result
            (λ b. b ++ (inside S.stream self.new).rest ≡ (inside S.stream self.old).rest) }
        ensures count { IfOk result (λ b. length b ≡ owed self.old) }
        ensures limit { OnOk result (limit_of self.new ≡ Some 0) }
        ensures no_fault { OnOk result (SameFaults (inside S.stream) self) }
        ensures cause { IfErr result (λ e. MatchCause (cause_of e)
            (MoreFaults (inside S.stream) self)
            (SameFaults (inside S.stream) self × EndsEarly S.stream self.old × IsRefusal e)
            (SameFaults (inside S.stream) self × ReachesLimit S.stream self.old)) }
        ensures err { OnErr result (SameRest (inside S.stream) self) }
        ensures err_limit { OnErr result (limit_of self.new ≡ limit_of self.old) }
        ensures err_position { OnErr result (SamePosition (inside S.stream) self) }
        ensures kept { SameKept (inside S.stream) self }
    {
        let limit = self.limit.unwrap();
        if self.source.request(limit)? < limit {
            return Err(self.content_err(ContentError::from_static("unexpected end of data")));
        }
        let taken = match take_front(&mut self.source, alloc, limit) {
            Ok(taken) => taken,
            Err(_) => return Err(DecodeError::no_memory()),
        };
        self.limit = Some(0);
        Ok(taken)
    }

    /// Checks that no octets are left: that the limit is 0 or, without a limit, that the wrapped
    /// source is at its end.
    ///
    /// # Errors
    ///
    /// Returns an error if octets are left, or if the wrapped source fails.
    pub fn exhausted(&mut self) -> Result<(), DecodeError<S::Error>>
        ensures ok { OnOk result (HasNoneLeft S.stream self.old) }
        ensures no_fault { OnOk result (SameFaults (inside S.stream) self) }
        ensures cause { IfErr result
            (RefusedWhere (inside S.stream) self (¬ HasNoneLeft S.stream self.old)) }
        ensures at { IfErr result (λ e. IsRefusal e
            → position_of e ≡ Some (inside S.stream self.old).position) }
        ensures limit { limit_of self.new ≡ limit_of self.old }
        ensures rest { SameRest (inside S.stream) self }
        ensures position { SamePosition (inside S.stream) self }
        ensures kept { SameKept (inside S.stream) self }
    {
        match self.limit {
            Some(0) => Ok(()),
            Some(_) => Err(self.content_err(ContentError::from_static("trailing data"))),
            None => {
                if self.source.request(1)? == 0 {
                    Ok(())
                } else {
                    Err(self.content_err(ContentError::from_static("trailing data")))
                }
            }
        }
    }
}

/// The rest is the prefix of the wrapped rest up to the limit.
impl<S: Source> Source for LimitedSource<S> {
    type Error = S::Error;

    ghost stream = { λ s. limited s.limit (S.stream s.source) };

    ghost sound = { λ s. limited_sound s.limit (S.stream s.source) (S.sound s.source) };

    fn pos(&self) -> Pos {
        self.source.pos()
    }

    fn request(&mut self, len: usize) -> Result<usize, S::Error> {
        match self.limit {
            Some(limit) => Ok(self.source.request(len.min(limit))?.min(limit)),
            None => self.source.request(len),
        }
    }

    fn slice(&self) -> &[u8] {
        let all = self.source.slice();
        match self.limit {
            Some(limit) => &all[..all.len().min(limit)],
            None => all,
        }
    }

    fn bytes(&self, alloc: Global, start: usize, end: usize) -> Result<Bytes, NoMemory> {
        self.source.bytes(alloc, start, end)
    }

    fn advance(&mut self, len: usize) {
        if let Some(limit) = &mut self.limit {
            *limit -= len;
        }
        self.source.advance(len)
    }
}

/// Lends what the wrapped source lends, up to the limit.
impl<S: LendingSource> LendingSource for LimitedSource<S> {
    type Lent = S::Lent;

    fn lent(&self, start: usize, end: usize) -> S::Lent {
        self.source.lent(start, end)
    }
}
