//! UTF-8 (RFC 3629).
ghost use Rattle.std.specs.Prelude.{◌≡◌, ◌+◌, ◌*◌, ◌<◌, ◌≤◌, ◌↔◌, IsTrue, None, Some, length};
ghost use Rattle.std.specs.Prelude.{take, IfOk, IfSome, MatchOption, MatchResult};
ghost use Rattle.std.specs.Str.{IsUtf8};
ghost use Rattle.bcder.specs.calls.RestrictedString.{Checks};
ghost use Rattle.bcder.specs.x690.Utf8.{utf8_string_tag, utf8_step, lead, read_behind};
ghost use Rattle.bcder.specs.steps.Utf8Leads.{of_lead};
ghost use Rattle.bcder.specs.laws.Utf8.{utf8_lawful, utf8_text};

use super::char_set::{CharSet, CharSetError, StringError, TextCharSet, text_of};
use crate::string::octet::OctetStringOctets;
use crate::tag::Tag;
use std::alloc::Global;
use std::borrow::CowSlice;
use std::str;

/// What the first of several octets says about a character.
#[derive(Clone, Copy, Debug)]
struct Lead {
    /// Its bits of the character.
    bits: u32,

    /// The range of the second octet.
    low: u8,
    high: u8,

    /// The number of tails after the second octet, 80 to BF each.
    tails: u8,
}

/// Returns what an octet says about a character, if it is the first of several (RFC 3629, 4).
#[inline(always)]
fn lead_of(octet: u8) -> Option<Lead>
    ensures told { MatchOption result (lead octet ≡ None) (λ l. lead octet
        ≡ Some (of_lead l)) }
    ensures few { IfSome result (λ l. (l.bits < 32) × (l.tails < 3)) }
    ensures behind { IfSome result (λ l. (0x80 ≤ l.low) × (l.high ≤ 0xBF)) }
{
    let (base, low, high, tails) = match octet {
        0xC2..=0xDF => (0xC0, 0x80, 0xBF, 0),
        0xE0 => (0xE0, 0xA0, 0xBF, 1),
        0xE1..=0xEC => (0xE0, 0x80, 0xBF, 1),
        0xED => (0xE0, 0x80, 0x9F, 1),
        0xEE..=0xEF => (0xE0, 0x80, 0xBF, 1),
        0xF0 => (0xF0, 0x90, 0xBF, 2),
        0xF1..=0xF3 => (0xF0, 0x80, 0xBF, 2),
        0xF4 => (0xF0, 0x80, 0x8F, 2),
        _ => return None,
    };
    Some(Lead {
        bits: u32::from(octet - base),
        low,
        high,
        tails,
    })
}

/// Takes an octet in a range, which has six more bits of a character.
#[inline(always)]
fn take_octet(
    octets: &mut OctetStringOctets<'_>,
    bits: u32,
    low: u8,
    high: u8,
) -> Result<u32, CharSetError>
    requires few { bits < 0x4_0000 }
    requires behind { (0x80 ≤ low) × (high ≤ 0xBF) }
    ensures took { MatchResult result
        (λ c. read_behind (record { bits = bits; low = low; high = high; tails = 0 })
        octets.old.octets ≡ Some (record { char = c; rest = octets.new.octets }))
        (λ _. read_behind (record { bits = bits; low = low; high = high; tails = 0 })
        octets.old.octets ≡ None) }
    ensures small { IfOk result (λ c. c < 64 * bits + 64) }
{
    match octets.next() {
        Some(octet) => {
            if low <= octet && octet <= high {
                Ok(bits * 64 + u32::from(octet - 0x80))
            } else {
                Err(CharSetError)
            }
        }
        None => Err(CharSetError),
    }
}

/// Takes the octets after the first of several.
#[inline(always)]
fn take_behind(octets: &mut OctetStringOctets<'_>, lead: Lead) -> Result<u32, CharSetError>
    requires few { (lead.bits < 32) × (lead.tails < 3) }
    requires behind { (0x80 ≤ lead.low) × (lead.high ≤ 0xBF) }
    ensures { MatchResult result
        (λ c. read_behind (of_lead lead) octets.old.octets
        ≡ Some (record { char = c; rest = octets.new.octets }))
        (λ _. read_behind (of_lead lead) octets.old.octets ≡ None) }
{
    let code = take_octet(octets, lead.bits, lead.low, lead.high)?;
    if lead.tails == 0 {
        return Ok(code);
    }
    let code = take_octet(octets, code, 0x80, 0xBF)?;
    if lead.tails == 1 {
        return Ok(code);
    }
    take_octet(octets, code, 0x80, 0xBF)
}

/// Returns the length of a prefix of the octets that is UTF-8: the whole characters at the
/// beginning.
fn utf8_len(octets: &[u8]) -> usize
    ensures { (result ≤ length octets.now) × IsUtf8 (take result octets.now) }
{
    match str::from_utf8(octets) {
        Ok(_) => octets.len(),
        Err(error) => error.valid_up_to(),
    }
}

/// Returns whether many octets are UTF-8. Unless all are ASCII, 64 of them are checked in a step.
#[tactic(auto, using(crate::proofs::Utf8::ascii_text))]
#[inline(never)]
fn is_long_text(octets: &[u8]) -> bool
    ensures { IsTrue result ↔ IsUtf8 octets.now }
{
    octets.is_ascii() || simdutf8::is_utf8(octets)
}

/// Returns whether octets are UTF-8.
#[inline(always)]
fn is_text(octets: &[u8]) -> bool
    ensures { IsTrue result ↔ IsUtf8 octets.now }
{
    if octets.len() < 64 {
        str::from_utf8(octets).is_ok()
    } else {
        is_long_text(octets)
    }
}

/// The characters of a UTF8String: those of Unicode (X.680, 41), in UTF-8 (RFC 3629).
#[derive(Clone, Copy, Debug)]
pub struct Utf8CharSet;

impl CharSet for Utf8CharSet {
    const TAG: Tag = Tag::UTF8_STRING;

    ghost TAG = { utf8_string_tag };

    ghost step = { utf8_step };

    ghost lawful = { utf8_lawful };

    #[inline(always)]
    fn next_char(octets: &mut OctetStringOctets<'_>) -> Result<Option<char>, CharSetError> {
        let Some(octet) = octets.next() else {
            return Ok(None);
        };
        if octet < 0x80 {
            return Ok(Some(octet as char));
        }
        let Some(lead) = lead_of(octet) else {
            return Err(CharSetError);
        };
        match char::from_u32(take_behind(octets, lead)?) {
            Some(character) => Ok(Some(character)),
            None => Err(CharSetError),
        }
    }

    fn from_str(_alloc: Global, text: &str) -> Result<CowSlice<'_, u8>, StringError> {
        Ok(CowSlice::Borrowed(text.as_bytes()))
    }

    #[inline(always)]
    fn check(octets: OctetStringOctets<'_>) -> Result<(), CharSetError> {
        match octets.as_slice() {
            Some(octets) => {
                if is_text(octets) {
                    Ok(())
                } else {
                    Err(CharSetError)
                }
            }
            None => check_parts(octets),
        }
    }

    fn as_text<'a>(octets: &OctetStringOctets<'a>) -> Option<&'a str> {
        text_of(octets)
    }
}

impl TextCharSet for Utf8CharSet {
    ghost texts = { utf8_text };
}

/// Checks the octets part by part. A character that isn't whole in one part is taken by itself.
#[inline(never)]
fn check_parts(octets: OctetStringOctets<'_>) -> Result<(), CharSetError>
    ensures { Checks utf8_step octets.entry.octets result }
{
    let (mut part, mut parts) = octets.into_parts();
    loop {
        let len = utf8_len(part);
        let mut rest = OctetStringOctets::from_parts(part.split_at(len).1, parts);
        if Utf8CharSet::next_char(&mut rest)?.is_none() {
            return Ok(());
        }
        (part, parts) = rest.into_parts();
    }
}
