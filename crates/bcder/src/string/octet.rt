//! Octet strings (X.690, 8.7).
ghost use Rattle.std.specs.Prelude.{◌≡◌, ◌↔◌, IsTrue, MatchOption, [], length};
ghost use Rattle.bcder.specs.calls.StringOctets.{whole, cut, IsCut, octets_of};
ghost use Rattle.bcder.specs.steps.SegmentTable.{segments_at, IsTable};

mod compare;
pub(crate) mod encode;
mod hash;
mod iter;
mod joined;
mod read;
mod segments;
mod slice;
mod source;
mod wrapped;
mod write;

use crate::captured::Captured;
use bytes::Bytes;
pub use encode::OctetStringEncoder;
pub use iter::{OctetStringIter, OctetStringOctets};
pub(crate) use read::{from_constructed, may_be_whole};
pub use slice::OctetSliceEncoder;
pub use source::OctetStringSource;
use std::alloc::AllocError;
use std::convert::AsRef;
use std::marker::Model;
pub use wrapped::WrappingOctetStringEncoder;

/// The place of a segment's contents octets among captured octets.
#[derive(Clone, Copy, Debug, Drop)]
struct Segment {
    start: usize,
    len: usize,
}

/// The octets of a string, in the form in which they came.
#[derive(Debug, Drop)]
enum Octets {
    /// In one piece.
    Whole(Bytes),

    /// In segments among captured octets. A table says where they are.
    Cut(Captured, Vec<Segment>),
}

/// An octet string (X.690, 8.7).
///
/// It is kept as it came: in one piece, or cut into segments (8.7.3). Two strings with the same
/// octets are equal, however they were cut.
#[derive(Debug, Drop)]
pub struct OctetString {
    octets: Octets,
}

impl Model for OctetString {
    ghost use Rattle.std.specs.Prelude.{⊤};
    ghost use Rattle.bcder.specs.declared.string.octet.Octets.TheVariants.{Whole, Cut};
    ghost use Rattle.bcder.specs.calls.StringOctets.{StringOctets, whole, cut};
    ghost use Rattle.bcder.specs.steps.SegmentTable.{segments_at, IsTable};

    ghost Value = { StringOctets };

    ghost view = { λ s. elim s.octets [
      | Whole w ↦ whole w
      | Cut c ss ↦ cut c (segments_at c.octets ss.items)
    ] };

    ghost invariant = { λ s. elim s.octets [
      | Whole w ↦ ⊤
      | Cut c ss ↦ IsTable c.mode c.octets ss.items
    ] };
}

impl OctetString {
    /// Creates a string with these octets, in one piece.
    pub fn new(octets: Bytes) -> OctetString
        ensures { result ≡ whole octets }
    {
        OctetString {
            octets: Octets::Whole(octets),
        }
    }

    /// Creates a string that was cut into segments, which are among captured octets.
    fn of_segments(captured: Captured, segments: Vec<Segment>) -> OctetString
        requires { IsTable captured.mode captured.octets segments.items }
        ensures { result ≡ cut captured (segments_at captured.octets segments.items) }
    {
        OctetString {
            octets: Octets::Cut(captured, segments),
        }
    }

    /// Returns the octets, if they came in one piece.
    pub fn as_slice(&self) -> Option<&[u8]>
        ensures { MatchOption result (IsCut self.now) (λ octets. self.now ≡ whole octets.now) }
    {
        match &self.octets {
            Octets::Whole(octets) => Some(octets.as_slice()),
            Octets::Cut(..) => None,
        }
    }

    /// Returns the number of octets, in all parts.
    pub fn len(&self) -> usize
        ensures { result ≡ length (octets_of self.now) }
    {
        match &self.octets {
            Octets::Whole(octets) => octets.len(),
            Octets::Cut(captured, _) => {
                // for the proof: the length of a slice fits a `usize`
                let _octets = captured.as_slice();
                let mut len = 0;
                for part in self {
                    len += part.len();
                }
                len
            }
        }
    }

    /// Returns whether there are no octets, in any part.
    pub fn is_empty(&self) -> bool
        ensures { IsTrue result ↔ (octets_of self.now ≡ []) }
    {
        self.iter().is_empty()
    }
}

/// The clone has the same octets, cut in the same way.
impl Clone for OctetString {
    ghost is_clone = { λ s copy. copy ≡ s };

    fn clone(&self) -> Result<OctetString, AllocError> {
        match &self.octets {
            Octets::Whole(octets) => Ok(OctetString::new(octets.clone()?)),
            Octets::Cut(captured, segments) => Ok(OctetString::of_segments(
                captured.clone()?,
                segments.clone()?,
            )),
        }
    }
}

/// Borrows the string itself.
impl AsRef<OctetString> for OctetString {
    fn as_ref(&self) -> &OctetString
        ensures { result.now ≡ self.now }
    {
        self
    }
}
