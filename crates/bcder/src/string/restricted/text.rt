//! Restricted strings and texts.
ghost use Rattle.std.specs.Prelude.{◌≡◌, IfOk, OnErr, MatchOption, string_bytes};
ghost use Rattle.std.specs.Str.{chars};
ghost use Rattle.bcder.specs.calls.RestrictedString.{MakesText};
ghost use Rattle.bcder.specs.x690.CharSet.{IsOfSet, Spells};
ghost use Rattle.bcder.specs.calls.StringOctets.{whole, octets_of, IsCut};

use super::{CharSet, RestrictedString, StringError, TextCharSet};
use crate::NoMemory;
use crate::string::octet::OctetString;
use bytes::Bytes;
use std::alloc::Global;
use std::borrow::CowSlice;
use std::marker::PhantomData;

impl<L: CharSet> RestrictedString<L> {
    /// Creates a string of octets that the set accepts, in one piece.
    pub(super) fn of_bytes(octets: Bytes) -> Self
        requires { IsOfSet L.step octets }
        ensures { result ≡ whole octets }
    {
        RestrictedString {
            octets: OctetString::new(octets),
            set: PhantomData,
        }
    }

    /// Creates the string of a text, in one piece.
    ///
    /// If the set's octets of the text are the text's own, the string keeps those of the `String`,
    /// which aren't copied.
    ///
    /// # Errors
    ///
    /// Returns `CharSet` if the set doesn't have all characters of the text, and `NoMemory` if
    /// there is no memory for the octets. The text is then dropped.
    pub fn from_string(alloc: Global, text: String) -> Result<Self, StringError>
        ensures { MakesText L.step L.may_lack (string_bytes text) result }
    {
        match L::from_str(alloc, text.as_str())? {
            CowSlice::Owned(octets) => Ok(RestrictedString::of_bytes(Bytes::from_vec(octets)?)),
            CowSlice::Borrowed(octets) => {
                let octets = if octets == text.as_bytes() {
                    Bytes::from_string(text)?
                } else {
                    Bytes::copy_from_slice(alloc, octets)?
                };
                Ok(RestrictedString::of_bytes(octets))
            }
        }
    }

    /// Creates the string of a text, in one piece.
    ///
    /// # Errors
    ///
    /// Returns `CharSet` if the set doesn't have all characters of the text, and `NoMemory` if
    /// there is no memory for the octets.
    pub fn from_str(alloc: Global, text: &str) -> Result<Self, StringError>
        ensures { MakesText L.step L.may_lack text.now result }
    {
        match L::from_str(alloc, text)? {
            CowSlice::Borrowed(octets) => {
                let octets = Bytes::copy_from_slice(alloc, octets)?;
                Ok(RestrictedString::of_bytes(octets))
            }
            CowSlice::Owned(octets) => Ok(RestrictedString::of_bytes(Bytes::from_vec(octets)?)),
        }
    }

    /// Returns the octets in one piece. They are the string's own if they came in one piece, and
    /// otherwise copied once.
    ///
    /// # Errors
    ///
    /// Returns an error if the string was cut and there is no memory for a copy. The string is then
    /// dropped.
    pub fn into_bytes(self, alloc: Global) -> Result<Bytes, NoMemory>
        ensures octets { IfOk result (λ octets. octets ≡ octets_of self) }
        ensures memory { OnErr result (IsCut self) }
    {
        self.octets.into_bytes(alloc)
    }
}

impl<L: TextCharSet> RestrictedString<L> {
    /// Returns the characters as a text, if the string came in one piece. The text is its octets,
    /// which are neither copied nor checked again.
    pub fn as_str(&self) -> Option<&str>
        ensures { MatchOption result (IsCut self.now)
            (λ text. (self.now ≡ whole text.now) × Spells L.step text.now (chars text.now)) }
    {
        match self.octets.as_slice() {
            Some(octets) => Some(unsafe { std::str::from_utf8_unchecked(octets) }),
            None => None,
        }
    }
}
