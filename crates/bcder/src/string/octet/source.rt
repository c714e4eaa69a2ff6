//! The octets of an octet string as a source.
ghost use Rattle.std.specs.Prelude.{◌≡◌, ◌≢◌, ℕ, ◌+◌, ◌-◌, ◌^◌, ◌<◌, ◌≤◌, ◌⊎◌, ◌↔◌, List, [], ◌∷◌};
ghost use Rattle.std.specs.Prelude.{◌++◌, length, drop, Some, None, Ok, IsTrue, IfOk, OnOk, OnErr};
ghost use Rattle.std.specs.Prelude.{MatchOption};
ghost use Rattle.std.specs.List.{concat};
ghost use Rattle.bcder.specs.x690.Identifier.{AreOctets};
ghost use Rattle.bcder.specs.calls.StringOctets.{whole, cut};
ghost use Rattle.bcder.specs.steps.SegmentTable.{AreWithin, segment_at, segments_at, IsTable};
ghost use Rattle.bcder.specs.calls.StringSource.{SharesBlock, all_behind, string_stream, IsJoined};

mod chunk;

use super::{OctetString, OctetStringIter, Octets, Segment};
use crate::NoMemory;
use crate::captured::Captured;
use crate::decode::{IntoSource, Pos, Source};
use bytes::Bytes;
use chunk::Chunk;
use std::alloc::Global;
use std::marker::Model;

/// Segments that are still to come.
#[derive(Debug, Drop)]
struct Behind {
    /// The octets in which the segments are.
    octets: Bytes,

    /// The places of the segments, and how many segments have come.
    segments: Vec<Segment>,
    next: usize,
}

/// The clauses see the octets of each segment, and those in which the segments are.
impl Model for Behind {
    ghost use Rattle.std.specs.Prelude.{◌≤◌, length, drop};
    ghost use Rattle.bcder.specs.steps.SegmentTable.{segments_at, AreWithin};
    ghost use Rattle.bcder.specs.calls.StringSource.{ToCome};

    ghost Value = { ToCome };

    ghost view = { λ b. record {
      octets = b.octets;
      parts = segments_at b.octets (drop b.next b.segments.items);
    } };

    ghost invariant = { λ b. AreWithin b.octets (drop b.next b.segments.items)
        × (b.next ≤ length b.segments.items) };
}

impl Behind {
    /// Creates a list of segments, none of which has come.
    fn new(octets: Bytes, segments: Vec<Segment>) -> Behind
        requires { AreWithin octets segments.items }
        ensures { result
            ≡ record { octets = octets; parts = segments_at octets segments.items } }
    {
        Behind {
            octets,
            segments,
            next: 0,
        }
    }

    /// Returns the octets of the segments, in order.
    fn iter(&self) -> OctetStringIter<'_>
        ensures { result ≡ self.now.parts }
    {
        OctetStringIter::of_segments(self.octets.as_slice(), &self.segments[self.next..])
    }

    /// Returns whether no octet is left in any of them.
    fn is_empty(&self) -> bool
        ensures { IsTrue result ↔ (concat self.now.parts ≡ []) }
    {
        self.iter().is_empty()
    }

    /// Returns the octets in which the segments are, shared.
    fn share(&self) -> Result<Bytes, NoMemory>
        ensures { IfOk result (λ octets. octets ≡ self.now.octets) }
    {
        Ok(self.octets.clone()?)
    }

    /// Returns the place of the next segment.
    #[inline(always)]
    fn next(&mut self) -> Option<Segment>
        ensures { MatchOption result
            ((self.old.parts ≡ []) × (self.new ≡ self.old))
            (λ s. (self.old.parts ≡ segment_at self.old.octets s ∷ self.new.parts)
            × (s.start + s.len ≤ length self.old.octets)
            × (self.new.octets ≡ self.old.octets)) }
    {
        if self.next == self.segments.len() {
            return None;
        }
        let segment = self.segments[self.next];
        self.next += 1;
        Some(segment)
    }

    /// Skips the first `count` segments.
    fn pass(&mut self, count: usize)
        requires { count ≤ length self.old.parts }
        ensures { self.new
            ≡ record { octets = self.old.octets; parts = drop count self.old.parts } }
    {
        self.next += count;
    }

    /// Joins `front` with the octets of the first segments after it in one block, and returns the
    /// number of these segments. The block has at least `len` octets, and at least twice as many as
    /// `front`, unless fewer are left. So a caller that asks for one octet more each time doesn't
    /// have all of them copied each time.
    fn join(&self, front: &[u8], len: usize) -> Result<(Bytes, usize), NoMemory>
        ensures { IfOk result (λ r. IsJoined front.now self.now.parts len r.0 r.1) }
    {
        let enough = len.max(front.len().saturating_add(front.len()));
        let mut block = Vec::from_slice(*self.segments.allocator(), front)?;
        let mut count = 0;
        for part in self.iter() {
            if block.len() >= enough {
                break;
            }
            block.extend_from_slice(part)?;
            count += 1;
        }
        Ok((Bytes::from_vec(block)?, count))
    }
}

/// Makes the next segment the front, if the front is empty and is in the block of the segments.
#[inline(always)]
fn move_on(front: &mut Chunk, behind: &mut Behind)
    requires { SharesBlock front.old (Some behind.old) }
    ensures stands { SharesBlock front.new (Some behind.new) }
    ensures same { front.new.octets ++ concat behind.new.parts
        ≡ front.old.octets ++ concat behind.old.parts }
    ensures no_fewer { length front.old.octets ≤ length front.new.octets }
{
    if front.is_empty() && front.is_shared() {
        if let Some(segment) = behind.next() {
            front.move_to(segment);
        }
    }
}

/// Makes the front hold at least `len` octets, or all that there are. It allocates nothing if there
/// are none after it.
#[inline(never)]
fn refill(front: &mut Chunk, behind: &mut Behind, len: usize) -> Result<(), NoMemory>
    requires shares { SharesBlock front.old (Some behind.old) }
    requires fewer { length front.old.octets < len }
    ensures stands { SharesBlock front.new (Some behind.new) }
    ensures same { front.new.octets ++ concat behind.new.parts
        ≡ front.old.octets ++ concat behind.old.parts }
    ensures no_fewer { length front.old.octets ≤ length front.new.octets }
    ensures enough { OnOk result
        ((len ≤ length front.new.octets) ⊎ (concat behind.new.parts ≡ [])) }
    ensures memory { OnErr result (concat behind.old.parts ≢ []) }
{
    if behind.is_empty() {
        return Ok(());
    }
    if front.is_empty() && !front.is_shared() {
        *front = Chunk::before_segments(behind.share()?);
    }
    while front.is_empty() {
        match behind.next() {
            Some(segment) => front.move_to(segment),
            None => return Ok(()),
        }
    }
    if front.len() < len && !behind.is_empty() {
        let (block, count) = behind.join(front.as_slice(), len)?;
        *front = Chunk::of_block(block);
        behind.pass(count);
    }
    Ok(())
}

/// A source over the octets of an octet string.
///
/// It lends the part that comes next. If more is requested than one part holds, it joins parts in a
/// block of its own. Only that can fail, if memory runs out.
#[derive(Debug, Drop)]
pub struct OctetStringSource {
    front: Chunk,
    behind: Option<Behind>,

    /// The number of octets of the string up to the end of the front.
    reached: usize,
    faults: u64,
    ghost stands: { SharesBlock front behind },
    ghost are_octets: { AreOctets (front.octets ++ all_behind behind) },
    ghost fit: { length (front.octets ++ all_behind behind) < 2 ^ 64 },
    ghost counted: { length front.octets ≤ reached },
    ghost bounded: { reached + length (all_behind behind) < 2 ^ 64 },
}

impl OctetStringSource {
    ghost use Rattle.bcder.specs.calls.StringStream.{source_stream};
    ghost use Rattle.bcder.specs.steps.StringSources.{FillsFront};

    /// Creates a source over octets in one piece.
    fn of_piece(octets: Bytes) -> OctetStringSource
        ensures { source_stream result ≡ string_stream (whole octets) }
    {
        let slice = octets.as_slice();
        let reached = slice.len();
        OctetStringSource {
            front: Chunk::of_block(octets),
            behind: None,
            reached,
            faults: 0,
        }
    }

    /// Creates a source over the octets of segments.
    fn of_segments(captured: Captured, segments: Vec<Segment>) -> OctetStringSource
        requires { IsTable captured.mode captured.octets segments.items }
        ensures { source_stream result
            ≡ string_stream (cut captured (segments_at captured.octets segments.items)) }
    {
        // for the proof: the length of a slice fits a `usize`
        let _octets = captured.as_slice();
        let behind = Behind::new(captured.into_bytes(), segments);
        OctetStringSource {
            front: Chunk::of_block(Bytes::new()),
            behind: Some(behind),
            reached: 0,
            faults: 0,
        }
    }

    /// Makes the front hold at least `len` octets, or all that there are.
    #[inline(never)]
    fn fill(&mut self, len: usize) -> Result<(), NoMemory>
        ensures { FillsFront len self result }
    {
        match &mut self.behind {
            Some(behind) => {
                let before = self.front.len();
                move_on(&mut self.front, behind);
                let filled = if self.front.len() < len {
                    refill(&mut self.front, behind, len)
                } else {
                    Ok(())
                };
                self.reached += self.front.len() - before;
                filled
            }
            None => Ok(()),
        }
    }
}

/// The rest of the source is the octets that are left.
impl Source for OctetStringSource {
    type Error = NoMemory;

    ghost use Rattle.bcder.specs.calls.Stream.{Provides, Grew};
    ghost use Rattle.bcder.specs.calls.StringStream.{source_stream, HasMoreFor};
    ghost use Rattle.bcder.specs.laws.Limits.{within_front};

    ghost stream = { source_stream };

    ghost sound = { λ s. record {
      octets = s.are_octets;
      size = s.fit;
      at_hand = within_front s.front.octets (all_behind s.behind);
    } };

    fn pos(&self) -> Pos {
        Pos::from(self.reached - self.front.len())
    }

    /// Fails only if fewer than `len` octets are at hand and others are to come. So it never fails
    /// over octets in one piece.
    #[inline(always)]
    fn request(&mut self, len: usize) -> Result<usize, NoMemory>
        ensures ok { IfOk result (λ k. Provides len k (source_stream self.new)) }
        ensures no_fault { OnOk result (self.new.faults ≡ self.old.faults) }
        ensures fault { OnErr result (Grew self.old.faults self.new.faults) }
        ensures no_fewer { OnErr result
            ((source_stream self.old).avail ≤ (source_stream self.new).avail) }
        ensures memory { OnErr result (HasMoreFor len (source_stream self.old)) }
        ensures rest { (source_stream self.new).rest ≡ (source_stream self.old).rest }
        ensures position { (source_stream self.new).position
            ≡ (source_stream self.old).position }
        ensures kept { (source_stream self.new).kept ≡ (source_stream self.old).kept }
    {
        let found = self.front.len();
        if len <= found {
            return Ok(found);
        }
        match self.fill(len) {
            Ok(()) => Ok(self.front.len()),
            Err(error) => {
                self.faults = self.faults.saturating_add(1);
                Err(error)
            }
        }
    }

    #[inline(always)]
    fn slice(&self) -> &[u8] {
        self.front.as_slice()
    }

    fn bytes(&self, _alloc: Global, start: usize, end: usize) -> Result<Bytes, NoMemory> {
        self.front.slice(start, end)
    }

    #[inline(always)]
    fn advance(&mut self, len: usize) {
        self.front.advance(len);
    }
}

/// The octets come from position 0 on.
impl IntoSource for OctetString {
    type Source = OctetStringSource;

    ghost gives = { string_stream };

    fn into_source(self) -> OctetStringSource {
        match self.octets {
            Octets::Whole(octets) => OctetStringSource::of_piece(octets),
            Octets::Cut(captured, segments) => OctetStringSource::of_segments(captured, segments),
        }
    }
}
