//! Character sets.
ghost use Rattle.std.specs.Prelude.{◌≡◌, List, ℕ, IfSome, encode_utf8_all};
ghost use Rattle.std.specs.Str.{IsUtf8};
ghost use Rattle.bcder.specs.x690.Characters.{characters};
ghost use Rattle.bcder.specs.x690.Identifier.{Tag as TagValue};
ghost use Rattle.bcder.specs.x690.CharSet.{Step, IsStep, IsOfSet};
ghost use Rattle.bcder.specs.calls.RestrictedString.{NextChar, Checks, SpellsText};
ghost use Rattle.bcder.specs.x690.TextSets.{AreTexts};

use crate::memory::NoMemory;
use crate::string::octet::OctetStringOctets;
use crate::tag::Tag;
use std::alloc::{AllocError, AllocFailed, Global};
use std::borrow::CowSlice;
use std::error::Error;
use std::{fmt, str};

/// The error that octets spell no characters of a set.
#[derive(Clone, Copy, Debug, PartialEq, Eq)]
pub struct CharSetError;

impl fmt::Display for CharSetError {
    ghost use Rattle.std.specs.Prelude.{codes, Some};

    ghost output = { λ _. Some (codes "invalid character") };

    fn fmt<W: fmt::Write>(&self, f: &mut fmt::Formatter<W>) -> fmt::Result {
        write!(f, "invalid character")
    }
}

impl Error for CharSetError {}

/// The reason why a text has no octets in a set.
#[derive(Clone, Copy, Debug, PartialEq, Eq)]
pub enum StringError {
    /// The set doesn't have all characters of the text.
    CharSet,

    /// There is no memory for the octets.
    NoMemory,
}

impl fmt::Display for StringError {
    ghost use Rattle.std.specs.Prelude.{Some};
    ghost use Rattle.bcder.specs.calls.RestrictedString.{string_error_text};

    ghost output = { λ e. Some (string_error_text e) };

    fn fmt<W: fmt::Write>(&self, f: &mut fmt::Formatter<W>) -> fmt::Result {
        match self {
            StringError::CharSet => write!(f, "invalid character"),
            StringError::NoMemory => write!(f, "out of memory"),
        }
    }
}

impl Error for StringError {}

impl From<CharSetError> for StringError {
    ghost use Rattle.std.specs.Prelude.{◌≡◌};
    ghost use Rattle.bcder.specs.declared.string.restricted.char_set.StringError.TheVariants as why;

    ghost from_gives = { λ _ e. e ≡ why.CharSet };

    fn from(_error: CharSetError) -> StringError {
        StringError::CharSet
    }
}

impl From<NoMemory> for StringError {
    ghost use Rattle.std.specs.Prelude.{◌≡◌};
    ghost use Rattle.bcder.specs.declared.string.restricted.char_set.StringError.TheVariants as why;

    ghost from_gives = { λ _ e. e ≡ why.NoMemory };

    fn from(_error: NoMemory) -> StringError {
        StringError::NoMemory
    }
}

impl From<AllocError> for StringError {
    ghost use Rattle.std.specs.Prelude.{◌≡◌};
    ghost use Rattle.bcder.specs.declared.string.restricted.char_set.StringError.TheVariants as why;

    ghost from_gives = { λ _ e. e ≡ why.NoMemory };

    fn from(_error: AllocError) -> StringError {
        StringError::NoMemory
    }
}

impl<T: Drop> From<AllocFailed<T>> for StringError {
    ghost use Rattle.std.specs.Prelude.{◌≡◌};
    ghost use Rattle.bcder.specs.declared.string.restricted.char_set.StringError.TheVariants as why;

    ghost from_gives = { λ _ e. e ≡ why.NoMemory };

    fn from(_error: AllocFailed<T>) -> StringError {
        StringError::NoMemory
    }
}

/// A character set: says which characters the octets of a restricted character string spell (X.690,
/// 8.23).
///
/// To the clauses a set is a step: from octets to the character that they begin with, and the
/// octets after it. Octets are a string of the set if steps lead from them to their end.
pub trait CharSet {
    /// The tag of the strings of this set.
    const TAG: Tag;

    /// The tag of the strings of this set, for the clauses.
    ghost TAG: { TagValue };

    /// How a character is read from the beginning of octets, if there is one.
    ghost step: { Step };

    /// Whether memory may run out for the octets of a text. By default it may not.
    ghost may_lack: { Type 0 } = { ⊥ };

    /// Takes the next character, or returns `None` at the end.
    ///
    /// # Errors
    ///
    /// Returns an error if octets are left that begin with no character. Some of them may have been
    /// taken then.
    fn next_char(octets: &mut OctetStringOctets<'_>) -> Result<Option<char>, CharSetError>
        ensures { NextChar step octets.old.octets result octets.new.octets };

    /// Returns the octets that spell a text: the text's own if they are the same, or others.
    ///
    /// # Errors
    ///
    /// Returns `CharSet` if the set doesn't have all characters of the text, and `NoMemory` if
    /// there is no memory for octets that aren't the text's own.
    fn from_str(alloc: Global, text: &str) -> Result<CowSlice<'_, u8>, StringError>
        ensures { SpellsText step may_lack text.now result };

    /// Checks that octets spell characters of the set, up to their end.
    ///
    /// # Errors
    ///
    /// Returns an error if they don't.
    fn check(octets: OctetStringOctets<'_>) -> Result<(), CharSetError>
        ensures { Checks step octets.entry.octets result }
    {
        let mut octets = octets;
        while Self::next_char(&mut octets)?.is_some() {}
        Ok(())
    }

    /// Returns the text of the characters that octets spell, if it is at hand. A set whose strings
    /// are text as they are lends the octets, which are then displayed at once.
    #[doc(hidden)]
    fn as_text<'a>(_octets: &OctetStringOctets<'a>) -> Option<&'a str>
        requires { IsOfSet step _octets.now.octets }
        ensures { IfSome result (λ text.
            text.now ≡ encode_utf8_all (characters step _octets.now.octets)) }
    {
        None
    }

    /// A character takes at least one octet, and is a Unicode character.
    ghost lawful: { IsStep step };
}

/// A character set whose strings are text as they are: their octets are the UTF-8 (RFC 3629) of the
/// characters that they spell.
pub trait TextCharSet: CharSet {
    ghost texts: { AreTexts Self.step };
}

/// Returns the octets as a text, if they are known to be in one piece.
#[inline(always)]
pub(super) fn text_of<'a>(octets: &OctetStringOctets<'a>) -> Option<&'a str>
    requires { IsUtf8 octets.now.octets }
    ensures { IfSome result (λ text. text.now ≡ octets.now.octets) }
{
    match octets.as_slice() {
        Some(octets) => Some(unsafe { str::from_utf8_unchecked(octets) }),
        None => None,
    }
}
