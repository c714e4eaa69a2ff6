//! The octets of a string that come before those still to come.
ghost use Rattle.std.specs.Prelude.{◌≡◌, ◌==◌, ◌+◌, ◌≤◌, [], true, false, length, drop};
ghost use Rattle.std.specs.Prelude.{slice_range, IfOk};
ghost use Rattle.bcder.specs.steps.SegmentTable.{segment_at};

use crate::NoMemory;
use crate::string::octet::Segment;
use bytes::Bytes;
use std::marker::Model;

/// Octets in a block. Octets that are skipped stay in the block, so that a step over one changes
/// one number only.
#[derive(Debug, Drop)]
pub(super) struct Chunk {
    block: Bytes,

    /// The place of the octets in the block.
    start: usize,
    end: usize,

    /// Whether the segments to come are in the same block.
    is_shared: bool,
}

/// The clauses see the octets, and the block.
impl Model for Chunk {
    ghost use Rattle.std.specs.Prelude.{length, slice_range, ◌≤◌};
    ghost use Rattle.bcder.specs.calls.StringSource.{InBlock};

    ghost Value = { InBlock };

    ghost view = { λ f. record {
      block = f.block;
      octets = slice_range f.block f.start f.end;
      is_shared = f.is_shared;
    } };

    ghost invariant = { λ f. (f.start ≤ f.end) × (f.end ≤ length f.block) };
}

impl Chunk {
    /// Creates a chunk of all octets of a block of their own.
    pub(super) fn of_block(block: Bytes) -> Chunk
        ensures { result ≡ record { block = block; octets = block; is_shared = false } }
    {
        let end = block.len();
        Chunk {
            block,
            start: 0,
            end,
            is_shared: false,
        }
    }

    /// Creates an empty chunk in the block in which the segments are.
    pub(super) fn before_segments(block: Bytes) -> Chunk
        ensures { result ≡ record { block = block; octets = []; is_shared = true } }
    {
        Chunk {
            block,
            start: 0,
            end: 0,
            is_shared: true,
        }
    }

    /// Returns whether the segments to come are in the same block.
    #[inline(always)]
    pub(super) fn is_shared(&self) -> bool
        ensures { result ≡ self.now.is_shared }
    {
        self.is_shared
    }

    /// Returns the number of octets.
    #[inline(always)]
    pub(super) fn len(&self) -> usize
        ensures { result ≡ length self.now.octets }
    {
        self.end - self.start
    }

    /// Returns whether there are no octets.
    #[inline(always)]
    pub(super) fn is_empty(&self) -> bool
        ensures { result ≡ (length self.now.octets == 0) }
    {
        self.len() == 0
    }

    /// Returns the octets.
    #[inline(always)]
    pub(super) fn as_slice(&self) -> &[u8]
        ensures { result.now ≡ self.now.octets }
    {
        &self.block.as_slice()[self.start..self.end]
    }

    /// Returns some of the octets, shared.
    pub(super) fn slice(&self, start: usize, end: usize) -> Result<Bytes, NoMemory>
        requires start_le_end { start ≤ end }
        requires in_bounds { end ≤ length self.now.octets }
        ensures { IfOk result (λ b. b ≡ slice_range self.now.octets start end) }
    {
        let _bound = self.block.len();
        Ok(self.block.slice(self.start + start..self.start + end)?)
    }

    /// Skips the first octets.
    #[inline(always)]
    pub(super) fn advance(&mut self, len: usize)
        requires { len ≤ length self.old.octets }
        ensures { self.new ≡ record {
          block = self.old.block;
          octets = drop len self.old.octets;
          is_shared = self.old.is_shared;
        } }
    {
        self.start += len;
    }

    /// Replaces the octets by a segment in the same block.
    #[inline(always)]
    pub(super) fn move_to(&mut self, segment: Segment)
        requires { segment.start + segment.len ≤ length self.old.block }
        ensures { self.new ≡ record {
          block = self.old.block;
          octets = segment_at self.old.block segment;
          is_shared = self.old.is_shared;
        } }
    {
        let _bound = self.block.len();
        self.start = segment.start;
        self.end = segment.start + segment.len;
    }
}
