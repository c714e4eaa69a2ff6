//! Strings of the characters of registered sets (X.680, 41; X.690, 8.23).
ghost use Rattle.std.specs.Prelude.{◌≡◌, ◌⊎◌, MatchOption};
ghost use Rattle.std.specs.Str.{IsAscii, IsNotAscii};
ghost use Rattle.bcder.specs.calls.StringOctets.{octets_of, whole, IsCut};
ghost use Rattle.asn1.specs.CharacterSets.{teletex_string_tag, general_string_tag};
ghost use Rattle.asn1.specs.CharacterLaws.{teletex_string_tagged, general_string_tagged};

use crate::{Implicit, OctetStringRef, TagMarker};
use bcder::{OctetString, Tag};
use std::str;

/// The tag of a string of the characters of registered sets.
pub trait RegisteredTag: TagMarker {}

/// The tag of a TeletexString.
#[derive(Clone, Copy, Debug, PartialEq, Eq, Drop)]
pub struct TeletexTag;

impl TagMarker for TeletexTag {
    ghost TAG = { teletex_string_tag };

    #[inline(always)]
    fn tag() -> Tag {
        Tag::TELETEX_STRING
    }

    ghost tagged = { teletex_string_tagged };
}

impl RegisteredTag for TeletexTag {}

/// The tag of a GeneralString.
#[derive(Clone, Copy, Debug, PartialEq, Eq, Drop)]
pub struct GeneralTag;

impl TagMarker for GeneralTag {
    ghost TAG = { general_string_tag };

    #[inline(always)]
    fn tag() -> Tag {
        Tag::GENERAL_STRING
    }

    ghost tagged = { general_string_tagged };
}

impl RegisteredTag for GeneralTag {}

/// A TeletexString, also named T61String, as its octets. These are characters of several sets,
/// between which escape sequences switch (X.680, 41, table 8), so they are kept as they are.
///
/// It is encoded as an OCTET STRING with its tag (X.690, 8.23.3).
pub type TeletexString = Implicit<TeletexTag, OctetString>;

/// A GeneralString, as its octets, like a [`TeletexString`].
pub type GeneralString = Implicit<GeneralTag, OctetString>;

/// A TeletexString that is lent.
pub type TeletexStringRef<L> = Implicit<TeletexTag, OctetStringRef<L>>;

/// A GeneralString that is lent.
pub type GeneralStringRef<L> = Implicit<GeneralTag, OctetStringRef<L>>;

impl<M: RegisteredTag> Implicit<M, OctetString> {
    /// Returns the text, if all octets are ASCII and the string came in one piece.
    pub fn as_ascii(&self) -> Option<&str>
        ensures { MatchOption result (IsCut self.now ⊎ IsNotAscii (octets_of self.now))
            (λ text. (self.now ≡ whole text.now) × IsAscii text.now) }
    {
        match self.value.as_slice() {
            Some(octets) => ascii_of(octets),
            None => None,
        }
    }
}

/// Returns octets as a text, if they are ASCII.
fn ascii_of(octets: &[u8]) -> Option<&str>
    ensures { MatchOption result (IsNotAscii octets.now)
        (λ text. (text.now ≡ octets.now) × IsAscii octets.now) }
{
    if octets.is_ascii() {
        Some(unsafe { str::from_utf8_unchecked(octets) })
    } else {
        None
    }
}
