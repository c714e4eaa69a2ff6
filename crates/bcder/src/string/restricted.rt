//! Restricted character strings (X.690, 8.23).
ghost use Rattle.std.specs.Prelude.{◌≡◌, MatchResult};
ghost use Rattle.bcder.specs.calls.StringOctets.{parts, octets_of};
ghost use Rattle.bcder.specs.x690.CharSet.{IsOfSet};

mod ascii;
mod char_set;
mod chars;
mod compare;
mod encode;
mod read;
mod text;
mod utf8;

use crate::string::octet::{OctetString, OctetStringIter};
pub use ascii::{Ia5CharSet, NumericCharSet, PrintableCharSet};
pub use char_set::{CharSet, CharSetError, StringError, TextCharSet};
pub use chars::RestrictedStringChars;
use std::alloc::AllocError;
use std::convert::AsRef;
use std::marker::{Model, PhantomData};
use std::ops::Deref;
pub use utf8::Utf8CharSet;

/// A string of characters of a set (X.690, 8.23).
///
/// It is an octet string whose octets spell characters of the set. Two strings with the same octets
/// are equal, however they were cut.
#[derive(Debug, Drop)]
pub struct RestrictedString<L: CharSet> {
    octets: OctetString,
    set: PhantomData<L>,
}

/// The clauses see the octets, as they came.
impl<L: CharSet> Model for RestrictedString<L> {
    ghost use Rattle.bcder.specs.calls.StringOctets.{StringOctets, octets_of};
    ghost use Rattle.bcder.specs.x690.CharSet.{IsOfSet};

    ghost Value = { StringOctets };

    ghost view = { λ s. s.octets };

    ghost invariant = { λ s. IsOfSet L.step (octets_of s.octets) };
}

/// A string of Unicode characters, in UTF-8 (RFC 3629).
pub type Utf8String = RestrictedString<Utf8CharSet>;

/// A string of digits and spaces (X.680, 41.2).
pub type NumericString = RestrictedString<NumericCharSet>;

/// A string of letters, digits, spaces and eleven other characters (X.680, 41.4).
pub type PrintableString = RestrictedString<PrintableCharSet>;

/// A string of the 128 characters of the International Alphabet No. 5 (X.680, 41.1).
pub type Ia5String = RestrictedString<Ia5CharSet>;

impl<L: CharSet> RestrictedString<L> {
    /// Creates a string of the set with these octets, as they came.
    ///
    /// # Errors
    ///
    /// Returns an error if the octets spell no characters of the set. The octets are then dropped.
    pub fn new(octets: OctetString) -> Result<Self, CharSetError>
        ensures { MatchResult result
            (λ s. (s ≡ octets) × IsOfSet L.step (octets_of octets))
            (λ _. IsOfSet L.step (octets_of octets) → ⊥) }
    {
        L::check(octets.octets())?;
        Ok(RestrictedString {
            octets,
            set: PhantomData,
        })
    }

    /// Returns the octets, as they came.
    pub fn octet_string(&self) -> &OctetString
        ensures octets { result.now ≡ self.now }
        ensures accepted { IsOfSet L.step (octets_of self.now) }
    {
        &self.octets
    }
}

/// The clone has the same octets, cut in the same way.
impl<L: CharSet> Clone for RestrictedString<L> {
    ghost is_clone = { λ s copy. copy ≡ s };

    fn clone(&self) -> Result<Self, AllocError> {
        Ok(RestrictedString {
            octets: self.octets.clone()?,
            set: PhantomData,
        })
    }
}

/// Borrows the octets, as they came.
impl<L: CharSet> AsRef<OctetString> for RestrictedString<L> {
    fn as_ref(&self) -> &OctetString
        ensures { result.now ≡ self.now }
    {
        &self.octets
    }
}

/// Borrows the octets, as they came.
impl<L: CharSet> Deref for RestrictedString<L> {
    type Target = OctetString;

    ghost deref_gives = { λ s octets. octets ≡ s };

    fn deref(&self) -> &OctetString {
        &self.octets
    }
}

/// Iterates over the octets, in the parts of the octet string.
impl<'a, L: CharSet> IntoIterator for &'a RestrictedString<L> {
    type Item = &'a [u8];

    type IntoIter = OctetStringIter<'a>;

    ghost into_iter_gives = { λ s i. i ≡ parts s.now };

    fn into_iter(self) -> OctetStringIter<'a> {
        self.octets.iter()
    }
}
