//! A source for tests that fails at an octet.
ghost use Rattle.std.specs.Prelude.{ℕ, ◌+◌, ◌^◌, ◌<◌, ◌≤◌, length};
ghost use Rattle.bcder.specs.x690.Identifier.{AreOctets};
ghost use Rattle.support.specs.Sip.{sipped, sipped_sound};

use bcder::NoMemory;
use bcder::decode::{Pos, Source};
use bytes::Bytes;
use std::alloc::Global;
use std::error::Error;
use std::fmt;

/// The error of a source that failed.
#[derive(Debug, Drop)]
pub struct IsCut;

impl fmt::Display for IsCut {
    fn fmt<W: fmt::Write>(&self, f: &mut fmt::Formatter<W>) -> fmt::Result {
        write!(f, "the source is cut")
    }
}

impl Error for IsCut {}

/// A source over octets, which fails if more is requested than the first of them.
///
/// A request makes available what it asks for, or all up to where the source fails.
#[derive(Drop)]
pub struct Cut {
    octets: Vec<u8>,
    start: usize,
    avail: usize,
    faults: usize,
    end: usize,
    whole: bool,
    ghost are_octets: { AreOctets octets.items },
    ghost fit: { length octets.items < 2 ^ 64 },
    ghost within: { start + avail ≤ length octets.items },
}

impl Cut {
    /// Creates a source over `octets` that fails behind the first `end` of them. It gives all in
    /// front of that at once if it is `whole`.
    pub fn new(octets: Vec<u8>, end: usize, whole: bool) -> Cut {
        see_octets(octets.as_slice());
        Cut {
            octets,
            start: 0,
            avail: 0,
            faults: 0,
            end,
            whole,
        }
    }
}

// States what a slice's type says of its items, for the proof alone.
fn see_octets(octets: &[u8])
    ensures are_octets { AreOctets octets.now }
    ensures fit { length octets.now < 2 ^ 64 }
{
    let _count = octets.len();
}

impl Source for Cut {
    type Error = IsCut;

    ghost stream = { λ s. sipped s.octets.items s.start s.avail s.faults };

    ghost sound = { λ s. sipped_sound s.octets.items s.start s.avail s.faults
        s.are_octets s.fit s.within };

    fn pos(&self) -> Pos {
        Pos::from(self.start)
    }

    fn request(&mut self, len: usize) -> Result<usize, IsCut> {
        let front = self.end.saturating_sub(self.start);
        if len > front {
            self.faults = self.faults.saturating_add(1);
            return Err(IsCut);
        }
        let len = if self.whole { front } else { len };
        self.avail = len.min(self.octets.len() - self.start);
        Ok(self.avail)
    }

    fn slice(&self) -> &[u8] {
        &self.octets[self.start..self.start + self.avail]
    }

    fn bytes(&self, alloc: Global, start: usize, end: usize) -> Result<Bytes, NoMemory> {
        Ok(Bytes::copy_from_slice(alloc, &self.octets[self.start + start..self.start + end])?)
    }

    fn advance(&mut self, len: usize) {
        self.start += len;
        self.avail -= len;
    }
}
