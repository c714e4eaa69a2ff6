//! The characters of the Basic Multilingual Plane (X.680, 41; X.690, 8.23.8).
ghost use Rattle.std.specs.Prelude.{◌≡◌, ◌<◌, ◌++◌, ◌*◌, ◌+◌, ⊤, OnOk, MatchOption, false, true};
ghost use Rattle.asn1.specs.CharacterSets.{bmp_string_tag, is_cell, cell_octets, cell_step};
ghost use Rattle.asn1.specs.CharacterLaws.{bmp_string_tagged, cells_lawful};

use crate::TaggedCharSet;
use bcder::string::{CharSet, CharSetError, OctetStringOctets, StringError};
use bcder::{NoMemory, Tag};
use std::alloc::Global;
use std::borrow::CowSlice;

/// The characters of a BMPString: those of Unicode below FFFE, which have two octets each (X.680,
/// 41). A surrogate is no character.
#[derive(Clone, Copy, Debug)]
pub struct BmpCharSet;

/// Returns the character with the number that two octets are, if there is one.
fn cell(high: u8, low: u8) -> Option<char>
    ensures { MatchOption result (is_cell (high * 0x100 + low) ≡ false)
        (λ c. (c ≡ high * 0x100 + low) × (is_cell (high * 0x100 + low) ≡ true)) }
{
    let number = u32::from(high) * 0x100 + u32::from(low);
    if number > 0xFFFD {
        return None;
    }
    char::from_u32(number)
}

/// Appends the octets of a number.
fn push_cell(octets: &mut Vec<u8>, number: u32) -> Result<(), NoMemory>
    requires { number < 0x1_0000 }
    ensures { OnOk result (octets.new.items ≡ octets.old.items ++ cell_octets number) }
{
    octets.push((number / 0x100) as u8)?;
    octets.push((number % 0x100) as u8)?;
    Ok(())
}

impl CharSet for BmpCharSet {
    const TAG: Tag = Tag::BMP_STRING;

    ghost TAG = { bmp_string_tag };

    ghost step = { cell_step };

    ghost may_lack = { ⊤ };

    ghost lawful = { cells_lawful };

    fn next_char(octets: &mut OctetStringOctets<'_>) -> Result<Option<char>, CharSetError> {
        let Some(high) = octets.next() else {
            return Ok(None);
        };
        let Some(low) = octets.next() else {
            return Err(CharSetError);
        };
        match cell(high, low) {
            Some(character) => Ok(Some(character)),
            None => Err(CharSetError),
        }
    }

    fn from_str(alloc: Global, text: &str) -> Result<CowSlice<'_, u8>, StringError> {
        let mut octets = Vec::new(alloc);
        for character in text.chars() {
            let number = u32::from(character);
            if number > 0xFFFD {
                return Err(StringError::CharSet);
            }
            match push_cell(&mut octets, number) {
                Ok(()) => {}
                Err(_) => return Err(StringError::NoMemory),
            }
        }
        Ok(CowSlice::Owned(octets))
    }
}

impl TaggedCharSet for BmpCharSet {
    ghost tagged = { bmp_string_tagged };
}
