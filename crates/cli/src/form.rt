//! The forms of input: octets, and texts that spell them.
ghost use Rattle.std.specs.Prelude.{◌≡◌, IfSome, IfNone, IfOk, IfErr};
ghost use Rattle.cli.specs.declared.form.Form.{Form as TheForm};
ghost use Rattle.cli.specs.Spelling.{
  IsName,
  is_blank,
  dense,
  SpellsHex,
  SpellsNoHex,
  SpellsBase64,
  SpellsNoBase64,
  IsMisspelled,
};

use base64::engine::general_purpose::{GeneralPurpose, GeneralPurposeConfig};
use base64::{DecodeAllocError, alphabet};
use hex::FromHexError;
use std::alloc::{AllocError, Global};

/// The form of an input.
#[derive(Clone, Copy, Debug, PartialEq, Eq)]
pub enum Form {
    /// The octets themselves.
    Octets,

    /// Hexadecimal digits.
    Hex,

    /// Base 64 (RFC 4648, 4).
    Base64,

    /// Blocks of text (RFC 7468).
    Pem,
}

impl Form {
    /// Returns the form of a name.
    pub fn named(name: &str) -> Option<Form>
        ensures some { IfSome result (λ form. IsName form name.now) }
        ensures none { IfNone result ((form : TheForm) → IsName form name.now → ⊥) }
    {
        if name == "der" {
            Some(Form::Octets)
        } else if name == "hex" {
            Some(Form::Hex)
        } else if name == "base64" {
            Some(Form::Base64)
        } else if name == "pem" {
            Some(Form::Pem)
        } else {
            None
        }
    }
}

/// The reason why a text spells no octets.
#[derive(Clone, Copy, Debug, PartialEq, Eq)]
pub enum Misspelled {
    /// It isn't in the form.
    Form,

    /// Memory ran out.
    NoMemory,
}

impl From<AllocError> for Misspelled {
    ghost use Rattle.cli.specs.declared.form.Misspelled.TheVariants.{NoMemory};

    ghost from_gives = { λ _ e. e ≡ NoMemory };

    fn from(_error: AllocError) -> Misspelled {
        Misspelled::NoMemory
    }
}

/// Returns whether an octet is a space, a tab or an end of a line.
fn is_blank(octet: u8) -> bool
    ensures { result ≡ is_blank octet }
{
    octet == b' ' || (0x09 <= octet && octet <= 0x0D)
}

/// Returns octets without spaces, tabs and ends of lines.
fn without_blanks(alloc: Global, octets: &[u8]) -> Result<Vec<u8>, AllocError>
    ensures { IfOk result (λ v. v.items ≡ dense octets.now) }
{
    let mut kept = Vec::new(alloc);
    for octet in octets {
        if !is_blank(*octet) {
            kept.push(*octet)?;
        }
    }
    Ok(kept)
}

/// Returns the octets that hexadecimal digits spell, between which there may be blanks.
pub fn from_hex(alloc: Global, text: &[u8]) -> Result<Vec<u8>, Misspelled>
    ensures spells { IfOk result (λ v. SpellsHex text.now v.items) }
    ensures misspelled { IfErr result (IsMisspelled (SpellsNoHex text.now)) }
{
    let digits = without_blanks(alloc, text)?;
    match hex::decode(alloc, digits.as_slice()) {
        Ok(octets) => Ok(octets),
        Err(FromHexError::OutOfMemory) => Err(Misspelled::NoMemory),
        Err(_) => Err(Misspelled::Form),
    }
}

/// Returns the octets that a text in base 64 spells, in which there may be blanks. The bits that
/// are left of its last octet need not be zero.
pub fn from_base64(alloc: Global, text: &[u8]) -> Result<Vec<u8>, Misspelled>
    ensures spells { IfOk result (λ v. SpellsBase64 text.now v.items) }
    ensures misspelled { IfErr result (IsMisspelled (SpellsNoBase64 text.now)) }
{
    let digits = without_blanks(alloc, text)?;
    let config = GeneralPurposeConfig::new().with_decode_allow_trailing_bits(true);
    let engine = GeneralPurpose::new(&alphabet::STANDARD, config);
    match engine.decode(alloc, digits.as_slice()) {
        Ok(octets) => Ok(octets),
        Err(DecodeAllocError::OutOfMemory) => Err(Misspelled::NoMemory),
        Err(DecodeAllocError::DecodeError(_)) => Err(Misspelled::Form),
    }
}
