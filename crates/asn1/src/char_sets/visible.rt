//! The characters that print (X.680, 41; X.690, 8.23.5).
ghost use Rattle.std.specs.Prelude.{◌≡◌, ◌↔◌, IsTrue};
ghost use Rattle.bcder.specs.x690.AsciiSets.{one_octet_step};
ghost use Rattle.bcder.specs.x690.CharSet.{IsOfSet};
ghost use Rattle.bcder.specs.laws.CharSets.{ascii_lawful, ascii_texts};
ghost use Rattle.asn1.specs.CharacterSets.{visible_string_tag, is_visible};
ghost use Rattle.asn1.specs.CharacterLaws.{visible_ascii, visible_string_tagged};

use crate::TaggedCharSet;
use bcder::Tag;
use bcder::string::{CharSet, CharSetError, OctetStringOctets, StringError, TextCharSet};
use std::alloc::Global;
use std::borrow::CowSlice;

/// The characters of a VisibleString: those of ASCII that print, and space (X.680, 41).
#[derive(Clone, Copy, Debug)]
pub struct VisibleCharSet;

/// Returns whether an octet is a character of the set.
#[inline(always)]
fn is_visible(octet: u8) -> bool
    ensures { result ≡ is_visible octet }
{
    matches!(octet, 0x20..=0x7E)
}

/// Returns whether each octet is a character of the set.
fn are_visible(octets: &[u8]) -> bool
    ensures { IsTrue result ↔ IsOfSet (one_octet_step is_visible) octets.now }
{
    let mut all = true;
    for octet in octets {
        all &= is_visible(*octet);
    }
    all
}

impl CharSet for VisibleCharSet {
    const TAG: Tag = Tag::VISIBLE_STRING;

    ghost TAG = { visible_string_tag };

    ghost step = { one_octet_step is_visible };

    ghost lawful = { ascii_lawful is_visible visible_ascii };

    #[inline(always)]
    fn next_char(octets: &mut OctetStringOctets<'_>) -> Result<Option<char>, CharSetError> {
        match octets.next() {
            Some(octet) => {
                if is_visible(octet) {
                    Ok(Some(octet as char))
                } else {
                    Err(CharSetError)
                }
            }
            None => Ok(None),
        }
    }

    fn from_str(_alloc: Global, text: &str) -> Result<CowSlice<'_, u8>, StringError> {
        if are_visible(text.as_bytes()) {
            Ok(CowSlice::Borrowed(text.as_bytes()))
        } else {
            Err(StringError::CharSet)
        }
    }
}

impl TextCharSet for VisibleCharSet {
    ghost texts = { ascii_texts is_visible visible_ascii };
}

impl TaggedCharSet for VisibleCharSet {
    ghost tagged = { visible_string_tagged };
}
