//! The parts of an octet string, and its octets.
ghost use Rattle.std.specs.Prelude.{◌≡◌, ◌+◌, ◌<◌, ◌≤◌, ◌↔◌, [], ◌++◌, length, IsTrue, IsSome};
ghost use Rattle.std.specs.Prelude.{⊤, IfSome, MatchOption};
ghost use Rattle.std.specs.List.{concat};
ghost use Rattle.bcder.specs.calls.StringOctets.{piece, parts, octets_of, is_in_one_piece};
ghost use Rattle.bcder.specs.steps.SegmentTable.{segment_at};
ghost use Rattle.bcder.specs.steps.SegmentTable.{AreWithin, segments_at};

use super::{OctetString, Octets, Segment};
use std::alloc::AllocError;
use std::marker::Model;

/// An iterator over the parts of an octet string, in order.
///
/// A string in one piece has one part, or none if it is empty. In a string that came in segments
/// each segment is a part, even an empty one.
#[derive(Debug, Drop)]
pub struct OctetStringIter<'a> {
    /// The octets of a string in one piece, until they are returned.
    front: &'a [u8],

    /// The octets in which the segments are, and the places of the segments that are still to come.
    octets: &'a [u8],
    segments: &'a [Segment],
}

/// The clauses see the parts that are still to come.
impl<'a> Model for OctetStringIter<'a> {
    ghost use Rattle.std.specs.Prelude.{ℕ, List, ◌++◌};
    ghost use Rattle.bcder.specs.calls.StringOctets.{piece};
    ghost use Rattle.bcder.specs.steps.SegmentTable.{segments_at, AreWithin};

    ghost Value = { List (List ℕ) };

    ghost view = { λ i. piece i.front.now ++ segments_at i.octets.now i.segments.now };

    ghost invariant = { λ i. AreWithin i.octets.now i.segments.now };
}

/// Returns the octets of a segment.
#[inline(always)]
fn octets_at<'a>(octets: &'a [u8], segment: Segment) -> &'a [u8]
    requires { segment.start + segment.len ≤ length octets.now }
    ensures { result.now ≡ segment_at octets.now segment }
{
    &octets[segment.start..segment.start + segment.len]
}

impl<'a> OctetStringIter<'a> {
    /// Returns the parts of octets in one piece.
    pub(super) fn of_piece(octets: &'a [u8]) -> OctetStringIter<'a>
        ensures { result ≡ piece octets.now }
    {
        OctetStringIter {
            front: octets,
            octets: &[],
            segments: &[],
        }
    }

    /// Returns whether there are no octets, in any part.
    pub(super) fn is_empty(self) -> bool
        ensures { IsTrue result ↔ (concat self.entry ≡ []) }
    {
        for part in self {
            if !part.is_empty() {
                return false;
            }
        }
        true
    }

    /// Returns the parts of segments among octets.
    pub(super) fn of_segments(octets: &'a [u8], segments: &'a [Segment]) -> OctetStringIter<'a>
        requires { AreWithin octets.now segments.now }
        ensures { result ≡ segments_at octets.now segments.now }
    {
        OctetStringIter {
            front: &[],
            octets,
            segments,
        }
    }
}

impl OctetString {
    /// Returns an iterator over the parts, in order. A string in one piece has its octets as one
    /// part, unless it is empty. A string that was cut (X.690, 8.7.3) has each segment as a part,
    /// even an empty one.
    pub fn iter(&self) -> OctetStringIter<'_>
        ensures { result ≡ parts self.now }
    {
        match &self.octets {
            Octets::Whole(octets) => OctetStringIter::of_piece(octets.as_slice()),
            Octets::Cut(captured, segments) => OctetStringIter {
                front: &[],
                octets: captured.as_slice(),
                segments: segments.as_slice(),
            },
        }
    }

    /// Returns the octets in order, those of one part after those of another.
    pub fn octets(&self) -> OctetStringOctets<'_>
        ensures octets { result.octets ≡ octets_of self.now }
        ensures whole { result.is_whole ≡ is_in_one_piece self.now }
    {
        match &self.octets {
            Octets::Whole(octets) => OctetStringOctets::new(octets.as_slice()),
            Octets::Cut(..) => OctetStringOctets {
                part: &[],
                given: 0,
                parts: self.iter(),
            },
        }
    }
}

impl<'a> IntoIterator for &'a OctetString {
    type Item = &'a [u8];

    type IntoIter = OctetStringIter<'a>;

    ghost into_iter_gives = { λ s i. i ≡ parts s.now };

    fn into_iter(self) -> OctetStringIter<'a> {
        self.iter()
    }
}

/// The clone has the same parts to come, and allocates nothing.
impl Clone for OctetStringIter<'_> {
    ghost is_clone = { λ i copy. copy ≡ i };

    ghost is_infallible = { λ _. ⊤ };

    fn clone(&self) -> Result<Self, AllocError> {
        Ok(OctetStringIter {
            front: self.front,
            octets: self.octets,
            segments: self.segments,
        })
    }
}

impl<'a> Iterator for OctetStringIter<'a> {
    ghost use Rattle.std.specs.Iterator.{YieldsFirstRef, item_count};

    type Item = &'a [u8];

    ghost next_gives = { YieldsFirstRef (λ parts. parts) };

    ghost remaining = { item_count (λ parts. parts) };

    fn next(&mut self) -> Option<&'a [u8]> {
        let front = self.front;
        if !front.is_empty() {
            self.front = &[];
            return Some(front);
        }
        match self.segments {
            [] => None,
            [segment, rest @ ..] => {
                self.segments = rest;
                Some(octets_at(self.octets, *segment))
            }
        }
    }
}

/// An iterator over the octets of an octet string, in order.
#[derive(Debug, Drop)]
pub struct OctetStringOctets<'a> {
    /// A part, and the number of its octets that were returned, so that a step over one octet
    /// changes one number only.
    part: &'a [u8],
    given: usize,

    /// The parts after it.
    parts: OctetStringIter<'a>,
}

/// The clauses see the octets that are still to come, and whether no part is after them.
impl<'a> Model for OctetStringOctets<'a> {
    ghost use Rattle.std.specs.Prelude.{◌++◌, ◌≤◌, length, drop};
    ghost use Rattle.std.specs.List.{concat};
    ghost use Rattle.bcder.specs.calls.StringOctets.{OctetsLeft, is_no_part};

    ghost Value = { OctetsLeft };

    ghost view = { λ o. record {
      octets = drop o.given o.part.now ++ concat o.parts;
      is_whole = is_no_part o.parts;
    } };

    ghost invariant = { λ o. o.given ≤ length o.part.now };
}

impl<'a> OctetStringOctets<'a> {
    /// Creates an iterator over octets in one piece.
    pub fn new(octets: &'a [u8]) -> OctetStringOctets<'a>
        ensures octets { result.octets ≡ octets.now }
        ensures whole { IsTrue result.is_whole }
    {
        OctetStringOctets {
            part: octets,
            given: 0,
            parts: OctetStringIter::of_piece(&[]),
        }
    }

    /// Returns the octets that are still to come, if they are known to be in one piece, that is, if
    /// no segment is after them.
    ///
    /// It returns `Some` for a string that came in one piece, and at the last segment of one that
    /// was cut.
    #[inline(always)]
    pub fn as_slice(&self) -> Option<&'a [u8]>
        ensures octets { IfSome result (λ octets. octets.now ≡ self.now.octets) }
        ensures whole { IsSome result ↔ IsTrue self.now.is_whole }
    {
        if !self.parts.segments.is_empty() || !self.parts.front.is_empty() {
            return None;
        }
        Some(&self.part[self.given..])
    }

    /// Returns what is left of a part, and the parts after it.
    pub(crate) fn into_parts(self) -> (&'a [u8], OctetStringIter<'a>)
        ensures { self.entry.octets ≡ result.0.now ++ concat result.1 }
    {
        (&self.part[self.given..], self.parts)
    }

    /// Creates an iterator over octets and the parts after them.
    pub(crate) fn from_parts(part: &'a [u8], parts: OctetStringIter<'a>) -> OctetStringOctets<'a>
        ensures { result.octets ≡ part.now ++ concat parts.entry }
    {
        OctetStringOctets {
            part,
            given: 0,
            parts,
        }
    }

    /// Takes the next octets that are in one piece, while there are any.
    pub(crate) fn next_piece(&mut self) -> Option<&'a [u8]>
        ensures { MatchOption result ((self.old.octets ≡ []) × (self.new.octets ≡ []))
            (λ piece. (self.old.octets ≡ piece.now ++ self.new.octets)
            × (0 < length piece.now)) }
    {
        loop {
            let part = &self.part[self.given..];
            if !part.is_empty() {
                self.given = self.part.len();
                return Some(part);
            }
            self.part = self.parts.next()?;
            self.given = 0;
        }
    }
}

/// The clone has the same octets to come, and allocates nothing.
impl Clone for OctetStringOctets<'_> {
    ghost is_clone = { λ o copy. copy ≡ o };

    ghost is_infallible = { λ _. ⊤ };

    fn clone(&self) -> Result<Self, AllocError> {
        Ok(OctetStringOctets {
            part: self.part,
            given: self.given,
            parts: self.parts.clone()?,
        })
    }
}

impl Iterator for OctetStringOctets<'_> {
    ghost use Rattle.std.specs.Iterator.{YieldsFirst, item_count};

    type Item = u8;

    ghost next_gives = { YieldsFirst (λ left. left.octets) };

    ghost remaining = { item_count (λ left. left.octets) };

    #[inline(always)]
    fn next(&mut self) -> Option<u8> {
        loop {
            if self.given < self.part.len() {
                let part = self.part;
                let octet = part[self.given];
                self.given += 1;
                return Some(octet);
            }
            self.part = self.parts.next()?;
            self.given = 0;
        }
    }
}
