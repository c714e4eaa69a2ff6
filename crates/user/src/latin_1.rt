//! Defines a character set outside the library: Latin-1, in which each octet is the number of its
//! character. Old certificates use it for a TeletexString.
#![tactic(auto)]

ghost use Rattle.std.specs.Prelude.{⊤};
ghost use Rattle.bcder.specs.x690.Identifier.{universal};
ghost use Rattle.bcder.specs.x690.AsciiSets.{one_octet_step};
ghost use Rattle.bcder.specs.laws.CharSets.{one_octet_lawful};
ghost use Rattle.user.specs.Latin1.{is_octet, octet_scalar};

use bcder::Tag;
use bcder::string::{CharSet, CharSetError, OctetStringOctets, StringError};
use std::alloc::Global;
use std::borrow::CowSlice;

/// The character set Latin-1.
#[derive(Clone, Copy)]
pub struct Latin1;

impl CharSet for Latin1 {
    const TAG: Tag = Tag::TELETEX_STRING;

    ghost TAG = { record { class = universal; number = 20 } };

    ghost step = { one_octet_step is_octet };

    ghost may_lack = { ⊤ };

    ghost lawful = { one_octet_lawful is_octet octet_scalar };

    fn next_char(octets: &mut OctetStringOctets<'_>) -> Result<Option<char>, CharSetError> {
        match octets.next() {
            Some(octet) => Ok(Some(octet as char)),
            None => Ok(None),
        }
    }

    fn from_str(alloc: Global, text: &str) -> Result<CowSlice<'_, u8>, StringError> {
        let mut octets = Vec::new(alloc);
        for character in text.chars() {
            if character > '\u{FF}' {
                return Err(StringError::CharSet);
            }
            match octets.push(character as u8) {
                Ok(()) => (),
                Err(_) => return Err(StringError::NoMemory),
            }
        }
        Ok(CowSlice::Owned(octets))
    }
}
