//! A source for tests that makes available exactly what is requested, and can fail.
ghost use Rattle.std.specs.Prelude.{◌≡◌, ℕ, ◌+◌, ◌-◌, ◌^◌, ◌<◌, ◌≤◌, length, drop};
ghost use Rattle.bcder.specs.x690.Identifier.{AreOctets};
ghost use Rattle.support.specs.Sip.{sipped, sipped_sound};

use bcder::NoMemory;
use bcder::decode::{Pos, Source};
use bytes::Bytes;
use std::alloc::Global;
use std::error::Error;
use std::fmt;

/// The error of a request that failed.
#[derive(Clone, Copy, Debug, PartialEq, Eq)]
pub struct SipError;

impl fmt::Display for SipError {
    ghost use Rattle.std.specs.Prelude.{codes, Some};

    ghost output = { λ _. Some (codes "the sip failed") };

    fn fmt<W: fmt::Write>(&self, f: &mut fmt::Formatter<W>) -> fmt::Result {
        write!(f, "the sip failed")
    }
}

impl Error for SipError {}

/// A source over octets, one of whose requests can be made to fail. A request makes available what
/// it asks for and no more ([`new`](Self::new)), or all that is left ([`whole`](Self::whole)).
#[derive(Drop)]
pub struct Sip {
    octets: Vec<u8>,
    start: usize,
    avail: usize,
    faults: usize,
    requests: usize,
    failing: usize,
    whole: bool,
    ghost are_octets: { AreOctets octets.items },
    ghost fit: { length octets.items < 2 ^ 64 },
    ghost within: { start + avail ≤ length octets.items },
}

impl Sip {
    /// Creates a source over `octets`, of which none is available yet. The request with the number
    /// `failing`, counted from 1, fails; if it is 0, none does.
    pub fn new(octets: Vec<u8>, failing: usize) -> Sip
        ensures { ⟦<Sip as Source>⟧.stream result ≡ sipped octets.items 0 0 0 }
    {
        see_octets(octets.as_slice());
        Sip {
            octets,
            start: 0,
            avail: 0,
            faults: 0,
            requests: 0,
            failing,
            whole: false,
        }
    }

    /// Creates a source like [`new`](Self::new), but each request makes all octets available that
    /// are left.
    pub fn whole(octets: Vec<u8>, failing: usize) -> Sip
        ensures { ⟦<Sip as Source>⟧.stream result ≡ sipped octets.items 0 0 0 }
    {
        let mut sip = Sip::new(octets, failing);
        sip.whole = true;
        sip
    }

    /// Returns how many requests failed.
    pub fn faults(&self) -> usize
        ensures { result ≡ (⟦<Sip as Source>⟧.stream self.now).faults }
    {
        self.faults
    }
}

// States what a slice's type says of its items, for the proof alone.
fn see_octets(octets: &[u8])
    ensures are_octets { AreOctets octets.now }
    ensures fit { length octets.now < 2 ^ 64 }
{
    let _count = octets.len();
}

impl Source for Sip {
    type Error = SipError;

    ghost stream = { λ s. sipped s.octets.items s.start s.avail s.faults };

    ghost sound = { λ s. sipped_sound s.octets.items s.start s.avail s.faults
        s.are_octets s.fit s.within };

    fn pos(&self) -> Pos {
        Pos::from(self.start)
    }

    fn request(&mut self, len: usize) -> Result<usize, SipError> {
        self.requests = self.requests.saturating_add(1);
        if self.requests == self.failing {
            self.faults = self.faults.saturating_add(1);
            return Err(SipError);
        }
        let len = if self.whole { usize::MAX } else { len };
        self.avail = len.min(self.octets.len() - self.start);
        Ok(self.avail)
    }

    fn slice(&self) -> &[u8] {
        &self.octets[self.start..self.start + self.avail]
    }

    fn bytes(&self, alloc: Global, start: usize, end: usize) -> Result<Bytes, NoMemory> {
        Ok(Bytes::copy_from_slice(alloc, &self.octets[self.start + start..self.start + end])?)
    }

    fn advance(&mut self, len: usize) {
        self.start += len;
        self.avail -= len;
    }
}
