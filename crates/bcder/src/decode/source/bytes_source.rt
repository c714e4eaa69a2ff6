//! A source over shared octets.
ghost use Rattle.std.specs.Prelude.{◌≡◌, true, ℕ, ◌+◌, ◌-◌, ◌^◌, ◌<◌, ◌≤◌, [], ◌↔◌};
ghost use Rattle.std.specs.Prelude.{IsTrue, length, take, drop, slice_range, IfOk, OnOk, OnErr};
ghost use Rattle.bcder.specs.x690.Identifier.{AreOctets};
ghost use Rattle.bcder.specs.calls.Stream.{pos_after};

use super::{Pos, Source};
use crate::NoMemory;
use bytes::Bytes;
use std::alloc::{AllocError, Global};
use std::convert::Infallible;

/// A source over shared octets, all of which are available.
///
/// It never fails, and `bytes` shares the octets.
#[derive(Debug, Drop)]
pub struct BytesSource {
    octets: Bytes,
    pos: Pos,
    ghost are_octets: { AreOctets octets },
    ghost fit: { length octets < 2 ^ 64 },
}

/// The clone has the same octets at the same position.
impl Clone for BytesSource {
    ghost use Rattle.bcder.specs.calls.Sources.{shared_rest, shared_start};

    ghost is_clone = { λ s t. (shared_rest t ≡ shared_rest s) × (shared_start t ≡ shared_start s) };

    fn clone(&self) -> Result<BytesSource, AllocError> {
        Ok(BytesSource {
            octets: self.octets.clone()?,
            pos: self.pos,
        })
    }
}

impl BytesSource {
    ghost use Rattle.bcder.specs.calls.Sources.{shared_rest, shared_start};

    /// Creates a source over `octets`, at position 0.
    pub fn new(octets: Bytes) -> BytesSource
        ensures octets { shared_rest result ≡ octets }
        ensures start { shared_start result ≡ 0 }
    {
        BytesSource::with_offset(octets, Pos::default())
    }

    /// Creates a source over `octets`, at position `offset`.
    pub fn with_offset(octets: Bytes, offset: Pos) -> BytesSource
        ensures octets { shared_rest result ≡ octets }
        ensures start { shared_start result ≡ offset }
    {
        // for the proof: the items of a slice that is read are octets
        let slice = octets.as_slice();
        let _slice = slice;
        BytesSource {
            octets,
            pos: offset,
        }
    }

    /// Returns how many octets are left.
    pub fn len(&self) -> usize
        ensures { result ≡ length (shared_rest self.now) }
    {
        self.octets.len()
    }

    /// Returns whether no octets are left.
    pub fn is_empty(&self) -> bool
        ensures { IsTrue result ↔ (shared_rest self.now ≡ []) }
    {
        self.octets.is_empty()
    }

    /// Takes the first `len` octets and returns them, shared. At least `len` octets have to be
    /// left.
    ///
    /// # Errors
    ///
    /// Returns `NoMemory` if memory runs out for sharing them. The source is then as it was.
    pub fn split_to(&mut self, len: usize) -> Result<Bytes, NoMemory>
        requires { len ≤ length (shared_rest self.old) }
        ensures front { IfOk result (λ b. b ≡ take len (shared_rest self.old)) }
        ensures rest { OnOk result (shared_rest self.new ≡ drop len (shared_rest self.old)) }
        ensures position { OnOk result
            (shared_start self.new ≡ pos_after (shared_start self.old) len) }
        ensures err { OnErr result (self.new ≡ self.old) }
    {
        let front = self.octets.split_to(len)?;
        self.pos = self.pos + Pos::from(len);
        Ok(front)
    }

    /// Returns the octets that are left.
    pub fn into_bytes(self) -> Bytes
        ensures { result ≡ shared_rest self }
    {
        self.octets
    }
}

/// The rest is the octets that are left.
impl Source for BytesSource {
    type Error = Infallible;

    ghost stream = { λ s. record {
      rest = s.octets;
      avail = length s.octets;
      faults = 0;
      position = s.pos;
      kept = [];
    } };

    ghost use Rattle.bcder.specs.laws.Limits.{at_most_itself};

    ghost sound = { λ s. record {
      octets = s.are_octets;
      size = s.fit;
      at_hand = at_most_itself (length s.octets);
    } };

    fn pos(&self) -> Pos {
        self.pos
    }

    fn request(&mut self, _len: usize) -> Result<usize, Infallible> {
        Ok(self.octets.len())
    }

    fn slice(&self) -> &[u8] {
        self.octets.as_slice()
    }

    fn bytes(&self, _alloc: Global, start: usize, end: usize) -> Result<Bytes, NoMemory> {
        Ok(self.octets.slice(start..end)?)
    }

    fn advance(&mut self, len: usize) {
        self.octets.advance(len);
        self.pos = self.pos + Pos::from(len);
    }
}
