//! Character sets whose characters are one octet each (X.680, 41).
ghost use Rattle.std.specs.Prelude.{◌≡◌, ◌↔◌, ◌<◌, ℕ, Bool, true, IsTrue, IfSome, encode_utf8_all};
ghost use Rattle.bcder.specs.x690.Characters.{characters};
ghost use Rattle.bcder.specs.x690.CharSet.{IsOfSet};
ghost use Rattle.bcder.specs.calls.RestrictedString.{NextChar, Checks, SpellsText};
ghost use Rattle.bcder.specs.x690.AsciiSets.{one_octet_step, is_numeric, is_printable, is_ia5};
ghost use Rattle.bcder.specs.x690.AsciiSets.{numeric_string_tag, printable_string_tag};
ghost use Rattle.bcder.specs.x690.AsciiSets.{ia5_string_tag};
ghost use Rattle.bcder.specs.laws.CharSets.{ascii_lawful, ascii_texts};
ghost use Rattle.bcder.specs.laws.CharSets.{numeric_ascii, printable_ascii, ia5_ascii};

use super::char_set::{CharSet, CharSetError, StringError, TextCharSet, text_of};
use crate::string::octet::OctetStringOctets;
use crate::tag::Tag;
use std::alloc::Global;
use std::borrow::CowSlice;

/// A set of ASCII characters.
trait AsciiSet {
    ghost test: { ℕ → Bool };

    /// Returns whether an octet is a character of the set.
    fn has(octet: u8) -> bool
        ensures { result ≡ test octet };

    /// Returns whether each octet is a character of the set. It looks at all octets, so that it can
    /// look at many at once.
    fn has_all(octets: &[u8]) -> bool
        ensures { IsTrue result ↔ IsOfSet (one_octet_step test) octets.now }
    {
        let mut all = true;
        for octet in octets {
            all &= Self::has(*octet);
        }
        all
    }

    ghost ascii: { (b : ℕ) → test b ≡ true → b < 128 };
}

/// Takes the next octet, which is the character with its number.
#[inline(always)]
fn next_char_of<S: AsciiSet>(
    octets: &mut OctetStringOctets<'_>,
) -> Result<Option<char>, CharSetError>
    ensures { NextChar (one_octet_step S.test) octets.old.octets result octets.new.octets }
{
    match octets.next() {
        Some(octet) => {
            if S::has(octet) {
                Ok(Some(octet as char))
            } else {
                Err(CharSetError)
            }
        }
        None => Ok(None),
    }
}

/// Checks the octets piece by piece, as they came.
fn check_of<S: AsciiSet>(octets: OctetStringOctets<'_>) -> Result<(), CharSetError>
    ensures { Checks (one_octet_step S.test) octets.entry.octets result }
{
    let mut octets = octets;
    while let Some(piece) = octets.next_piece() {
        if !S::has_all(piece) {
            return Err(CharSetError);
        }
    }
    Ok(())
}

/// Returns the octets of the text itself, if they are characters of the set.
fn from_str_of<S: AsciiSet>(text: &str) -> Result<CowSlice<'_, u8>, StringError>
    ensures { SpellsText (one_octet_step S.test) ⊥ text.now result }
{
    if S::has_all(text.as_bytes()) {
        Ok(CowSlice::Borrowed(text.as_bytes()))
    } else {
        Err(StringError::CharSet)
    }
}

/// Returns the text that the octets are, if they are in one piece.
fn as_text_of<'a, S: AsciiSet>(octets: &OctetStringOctets<'a>) -> Option<&'a str>
    requires { IsOfSet (one_octet_step S.test) octets.now.octets }
    ensures { IfSome result (λ text.
        text.now ≡ encode_utf8_all (characters (one_octet_step S.test) octets.now.octets)) }
{
    text_of(octets)
}

/// The characters of a NumericString: digits and space (X.680, 41).
#[derive(Clone, Copy, Debug)]
pub struct NumericCharSet;

impl AsciiSet for NumericCharSet {
    ghost test = { is_numeric };

    ghost ascii = { numeric_ascii };

    #[inline(always)]
    fn has(octet: u8) -> bool {
        matches!(octet, b'0'..=b'9' | b' ')
    }
}

impl CharSet for NumericCharSet {
    const TAG: Tag = Tag::NUMERIC_STRING;

    ghost TAG = { numeric_string_tag };

    ghost step = { one_octet_step is_numeric };

    ghost lawful = { ascii_lawful is_numeric numeric_ascii };

    #[inline(always)]
    fn next_char(octets: &mut OctetStringOctets<'_>) -> Result<Option<char>, CharSetError> {
        next_char_of::<NumericCharSet>(octets)
    }

    fn from_str(_alloc: Global, text: &str) -> Result<CowSlice<'_, u8>, StringError> {
        from_str_of::<NumericCharSet>(text)
    }

    fn check(octets: OctetStringOctets<'_>) -> Result<(), CharSetError> {
        check_of::<NumericCharSet>(octets)
    }

    fn as_text<'a>(octets: &OctetStringOctets<'a>) -> Option<&'a str> {
        as_text_of::<NumericCharSet>(octets)
    }
}

impl TextCharSet for NumericCharSet {
    ghost texts = { ascii_texts is_numeric numeric_ascii };
}

/// The octet is a character of the set.
const X: bool = true;

/// The octet is no character of the set.
const O: bool = false;

/// Which octets are characters of a PrintableString, 32 per line.
static PRINTABLE: [bool; 256] = [
    O, O, O, O, O, O, O, O, O, O, O, O, O, O, O, O, O, O, O, O, O, O, O, O, O, O, O, O, O, O, O, O,
    X, O, O, O, O, O, O, X, X, X, O, X, X, X, X, X, X, X, X, X, X, X, X, X, X, X, X, O, O, X, O, X,
    O, X, X, X, X, X, X, X, X, X, X, X, X, X, X, X, X, X, X, X, X, X, X, X, X, X, X, O, O, O, O, O,
    O, X, X, X, X, X, X, X, X, X, X, X, X, X, X, X, X, X, X, X, X, X, X, X, X, X, X, O, O, O, O, O,
    O, O, O, O, O, O, O, O, O, O, O, O, O, O, O, O, O, O, O, O, O, O, O, O, O, O, O, O, O, O, O, O,
    O, O, O, O, O, O, O, O, O, O, O, O, O, O, O, O, O, O, O, O, O, O, O, O, O, O, O, O, O, O, O, O,
    O, O, O, O, O, O, O, O, O, O, O, O, O, O, O, O, O, O, O, O, O, O, O, O, O, O, O, O, O, O, O, O,
    O, O, O, O, O, O, O, O, O, O, O, O, O, O, O, O, O, O, O, O, O, O, O, O, O, O, O, O, O, O, O, O,
];

/// The characters of a PrintableString: letters, digits, space and `' ( ) + , - . / : = ?` (X.680,
/// 41).
#[derive(Clone, Debug, Drop)]
pub struct PrintableCharSet;

impl AsciiSet for PrintableCharSet {
    ghost test = { is_printable };

    ghost ascii = { printable_ascii };

    #[inline(always)]
    fn has(octet: u8) -> bool {
        PRINTABLE[usize::from(octet)]
    }
}

impl CharSet for PrintableCharSet {
    const TAG: Tag = Tag::PRINTABLE_STRING;

    ghost TAG = { printable_string_tag };

    ghost step = { one_octet_step is_printable };

    ghost lawful = { ascii_lawful is_printable printable_ascii };

    #[inline(always)]
    fn next_char(octets: &mut OctetStringOctets<'_>) -> Result<Option<char>, CharSetError> {
        next_char_of::<PrintableCharSet>(octets)
    }

    fn from_str(_alloc: Global, text: &str) -> Result<CowSlice<'_, u8>, StringError> {
        from_str_of::<PrintableCharSet>(text)
    }

    fn check(octets: OctetStringOctets<'_>) -> Result<(), CharSetError> {
        check_of::<PrintableCharSet>(octets)
    }

    fn as_text<'a>(octets: &OctetStringOctets<'a>) -> Option<&'a str> {
        as_text_of::<PrintableCharSet>(octets)
    }
}

impl TextCharSet for PrintableCharSet {
    ghost texts = { ascii_texts is_printable printable_ascii };
}

/// The characters of an IA5String: those of ASCII, 00 to 7F (X.680, 41).
#[derive(Clone, Copy, Debug)]
pub struct Ia5CharSet;

impl AsciiSet for Ia5CharSet {
    ghost test = { is_ia5 };

    ghost ascii = { ia5_ascii };

    #[inline(always)]
    fn has(octet: u8) -> bool {
        octet.is_ascii()
    }

    fn has_all(octets: &[u8]) -> bool {
        octets.is_ascii()
    }
}

impl CharSet for Ia5CharSet {
    const TAG: Tag = Tag::IA5_STRING;

    ghost TAG = { ia5_string_tag };

    ghost step = { one_octet_step is_ia5 };

    ghost lawful = { ascii_lawful is_ia5 ia5_ascii };

    #[inline(always)]
    fn next_char(octets: &mut OctetStringOctets<'_>) -> Result<Option<char>, CharSetError> {
        next_char_of::<Ia5CharSet>(octets)
    }

    fn from_str(_alloc: Global, text: &str) -> Result<CowSlice<'_, u8>, StringError> {
        from_str_of::<Ia5CharSet>(text)
    }

    fn check(octets: OctetStringOctets<'_>) -> Result<(), CharSetError> {
        check_of::<Ia5CharSet>(octets)
    }

    fn as_text<'a>(octets: &OctetStringOctets<'a>) -> Option<&'a str> {
        as_text_of::<Ia5CharSet>(octets)
    }
}

impl TextCharSet for Ia5CharSet {
    ghost texts = { ascii_texts is_ia5 ia5_ascii };
}
