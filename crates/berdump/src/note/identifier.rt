//! Object identifiers.
ghost use Rattle.std.specs.Prelude.{◌≡◌, ◌⊎◌, ℕ, List, [], IfOk};
ghost use Rattle.encodings.specs.Identifiers.{HasText};

use crate::note::{Manner, add_fault, fault, hexadecimal, large};
use bcder::NoMemory;
use encodings::identifier::store_text;
use encodings::status::DONE;
use names::name_of;

/// The number of octets of the longest identifier whose large components are shown in decimal.
const LONGEST: usize = 1000;

/// Returns the octets of an identifier's number, such as `2.5.4.3`. There are none if a component
/// has more than 128 bits.
fn number_of(manner: Manner, octets: &[u8]) -> Result<Vec<u8>, NoMemory>
    ensures { IfOk result (λ number. HasText octets.now number.items
        ⊎ (number.items ≡ []) × ((t : List ℕ) → HasText octets.now t → ⊥)) }
{
    let mut number = Vec::new(manner.alloc);
    let mut size = 0;
    let _room = store_text(octets, &mut number, &mut size);
    number.resize(size, 0u8)?;
    if store_text(octets, &mut number, &mut size) != DONE {
        return Ok(Vec::new(manner.alloc));
    }
    Ok(number)
}

/// Appends a number, with its name if the tables have one for it.
fn add_number(text: &mut String, number: &str) -> Result<(), NoMemory> {
    write!(text, " :{number}")?;
    if let Some(name) = name_of(number) {
        write!(text, " ({name})")?;
    }
    Ok(())
}

/// Appends the number of an identifier with components of any size, or its octets if they are so
/// many that they would take long.
fn add_large(
    manner: Manner,
    text: &mut String,
    relative: bool,
    octets: &[u8],
) -> Result<(), NoMemory> {
    if octets.len() > LONGEST {
        return hexadecimal::add(manner, text, octets);
    }
    write!(text, " :")?;
    large::add_components(manner.alloc, text, relative, octets)
}

/// Appends octets that are none of an identifier, and why they aren't.
fn add_faulty(
    manner: Manner,
    text: &mut String,
    octets: &[u8],
    fault: &'static str,
) -> Result<(), NoMemory> {
    hexadecimal::add(manner, text, octets)?;
    add_fault(text, Some(fault))
}

/// Appends what contents octets of an OBJECT IDENTIFIER mean.
pub(crate) fn add(manner: Manner, text: &mut String, octets: &[u8]) -> Result<(), NoMemory> {
    if let Some(fault) = fault::identifier(octets) {
        return add_faulty(manner, text, octets, fault);
    }
    let number = number_of(manner, octets)?;
    match str::from_utf8(&number) {
        Ok(number) if !number.is_empty() => add_number(text, number),
        _ => add_large(manner, text, false, octets),
    }
}

/// Appends what contents octets of a RELATIVE-OID mean (8.20).
pub(crate) fn add_relative(
    manner: Manner,
    text: &mut String,
    octets: &[u8],
) -> Result<(), NoMemory> {
    match fault::identifier(octets) {
        Some(fault) => add_faulty(manner, text, octets, fault),
        None => add_large(manner, text, true, octets),
    }
}
