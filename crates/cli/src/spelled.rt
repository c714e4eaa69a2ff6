//! The octets that texts spell, in hexadecimal or in base 64.
ghost use Rattle.std.specs.Prelude.{IfOk, IfErr, IfSome, IfNone};
ghost use Rattle.cli.specs.Spelling.{IsItself, IsMisspelled, SpellsEither, SpellsNeither};
ghost use Rattle.cli.specs.Spelling.{SpellsIn, SpellsNone};
ghost use Rattle.cli.specs.Spelled.{Misspells, Spells, SpellsNothing};

use crate::form::{Form, Misspelled, from_base64, from_hex};
use bcder::Mode;
use encodings::status::{DONE, NO_MEMORY};
use encodings::values::are_values;
use std::alloc::Global;

/// Returns the octets that a text spells in a form, or `None` if the form is that of the octets
/// themselves, or of blocks.
pub fn spelled_as(alloc: Global, form: Form, text: &[u8]) -> Result<Option<Vec<u8>>, Misspelled>
    ensures spells { IfOk result (λ o. IfSome o (λ v. SpellsIn form text.now v.items)) }
    ensures itself { IfOk result (λ o. IfNone o (IsItself form)) }
    ensures misspelled { IfErr result (IsMisspelled (SpellsNone form text.now)) }
{
    match form {
        Form::Octets | Form::Pem => Ok(None),
        Form::Hex => Ok(Some(from_hex(alloc, text)?)),
        Form::Base64 => Ok(Some(from_base64(alloc, text)?)),
    }
}

/// Returns the octets that a text spells in hexadecimal, or else in base 64, or `None` if it spells
/// none.
fn found_in(alloc: Global, text: &[u8]) -> Result<Option<Vec<u8>>, Misspelled>
    ensures spells { IfOk result (λ o. IfSome o (λ v. SpellsEither text.now v.items)) }
    ensures nothing { IfOk result (λ o. IfNone o (SpellsNeither text.now)) }
    ensures misspelled { IfErr result (IsMisspelled ⊥) }
{
    match from_hex(alloc, text) {
        Ok(octets) => return Ok(Some(octets)),
        Err(Misspelled::NoMemory) => return Err(Misspelled::NoMemory),
        Err(Misspelled::Form) => {}
    }
    match from_base64(alloc, text) {
        Ok(octets) => Ok(Some(octets)),
        Err(Misspelled::NoMemory) => Err(Misspelled::NoMemory),
        Err(Misspelled::Form) => Ok(None),
    }
}

/// Returns the octets that a text spells in the form that is asked for, or else, if it is in ASCII
/// and encodes no values, in hexadecimal or base 64. It is `None` if the text is to be read as it
/// is.
pub fn spelled_in(
    alloc: Global,
    mode: Mode,
    form: Option<Form>,
    text: &[u8],
) -> Result<Option<Vec<u8>>, Misspelled>
    ensures spells { IfOk result (λ o. IfSome o (λ v. Spells mode form text.now v.items)) }
    ensures nothing { IfOk result (λ o. IfNone o (SpellsNothing mode form text.now)) }
    ensures misspelled { IfErr result (IsMisspelled (Misspells form text.now)) }
{
    if let Some(form) = form {
        return spelled_as(alloc, form, text);
    }
    if !text.is_ascii() {
        return Ok(None);
    }
    match are_values(alloc, mode, text) {
        DONE => Ok(None),
        NO_MEMORY => Err(Misspelled::NoMemory),
        _ => found_in(alloc, text),
    }
}
