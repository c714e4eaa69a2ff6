//! All characters of ISO/IEC 10646 (X.680, 41; X.690, 8.23.7).
ghost use Rattle.std.specs.Prelude.{◌≡◌, ◌<◌, ◌++◌, ⊤, OnOk, MatchOption, false, true};
ghost use Rattle.asn1.specs.CharacterSets.{universal_string_tag, is_code_point, number_of_four};
ghost use Rattle.asn1.specs.CharacterSets.{code_point_octets, code_point_step};
ghost use Rattle.asn1.specs.CharacterLaws.{universal_string_tagged, code_points_lawful};

use crate::TaggedCharSet;
use bcder::string::{CharSet, CharSetError, OctetStringOctets, StringError};
use bcder::{NoMemory, Tag};
use std::alloc::Global;
use std::borrow::CowSlice;

/// The characters of a UniversalString: those of Unicode, which have four octets each (X.680, 41).
/// A surrogate is no character.
#[derive(Clone, Copy, Debug)]
pub struct UniversalCharSet;

/// Returns the character with the number that four octets are, if there is one.
fn code_point(a: u8, b: u8, c: u8, d: u8) -> Option<char>
    ensures { MatchOption result (is_code_point (number_of_four a b c d) ≡ false)
        (λ x. (x ≡ number_of_four a b c d) × (is_code_point (number_of_four a b c d) ≡ true)) }
{
    let high = u32::from(a) * 0x100 + u32::from(b);
    let low = u32::from(c) * 0x100 + u32::from(d);
    char::from_u32(high * 0x1_0000 + low)
}

/// Appends the octets of a number.
fn push_code_point(octets: &mut Vec<u8>, number: u32) -> Result<(), NoMemory>
    requires { number < 0x100_0000 }
    ensures { OnOk result (octets.new.items ≡ octets.old.items ++ code_point_octets number) }
{
    octets.push(0x00)?;
    octets.push((number / 0x1_0000) as u8)?;
    octets.push((number / 0x100 % 0x100) as u8)?;
    octets.push((number % 0x100) as u8)?;
    Ok(())
}

impl CharSet for UniversalCharSet {
    const TAG: Tag = Tag::UNIVERSAL_STRING;

    ghost TAG = { universal_string_tag };

    ghost step = { code_point_step };

    ghost may_lack = { ⊤ };

    ghost lawful = { code_points_lawful };

    fn next_char(octets: &mut OctetStringOctets<'_>) -> Result<Option<char>, CharSetError> {
        let Some(a) = octets.next() else {
            return Ok(None);
        };
        let Some(b) = octets.next() else {
            return Err(CharSetError);
        };
        let Some(c) = octets.next() else {
            return Err(CharSetError);
        };
        let Some(d) = octets.next() else {
            return Err(CharSetError);
        };
        match code_point(a, b, c, d) {
            Some(character) => Ok(Some(character)),
            None => Err(CharSetError),
        }
    }

    fn from_str(alloc: Global, text: &str) -> Result<CowSlice<'_, u8>, StringError> {
        let mut octets = Vec::new(alloc);
        for character in text.chars() {
            match push_code_point(&mut octets, u32::from(character)) {
                Ok(()) => {}
                Err(_) => return Err(StringError::NoMemory),
            }
        }
        Ok(CowSlice::Owned(octets))
    }
}

impl TaggedCharSet for UniversalCharSet {
    ghost tagged = { universal_string_tagged };
}
