//! Integers.
#![tactic(auto, using(bcder::specs::laws::Moved::steps))]

ghost use Rattle.std.specs.Prelude.{◌≡◌, ◌⊎◌, [], IfOk};
ghost use Rattle.encodings.specs.Contents.{IsMagnitude};

use crate::note::{Manner, add_fault, fault, hexadecimal};
use bcder::decode::Primitive;
use bcder::{Mode, NoMemory};
use encodings::contents::sign_of;
use encodings::magnitude::store_magnitude;
use encodings::status::DONE;

/// Returns the octets of a number without its sign. There are none for 0, and if the contents
/// octets are no number.
fn magnitude_of(manner: Manner, octets: &[u8]) -> Result<Vec<u8>, NoMemory>
    ensures { IfOk result
        (λ digits. IsMagnitude octets.now digits.items ⊎ (digits.items ≡ [])) }
{
    let mut digits = Vec::new(manner.alloc);
    digits.resize(octets.len(), 0u8)?;
    let mut size = 0;
    if store_magnitude(octets, &mut digits, &mut size) != DONE {
        return Ok(Vec::new(manner.alloc));
    }
    digits.truncate(size);
    Ok(digits)
}

/// Appends the number without its sign in hexadecimal, with a sign.
fn add_magnitude(manner: Manner, text: &mut String, octets: &[u8]) -> Result<(), NoMemory> {
    let digits = magnitude_of(manner, octets)?;
    match sign_of(octets) {
        Some(true) => write!(text, " :-")?,
        _ => write!(text, " :")?,
    }
    hexadecimal::add_octets(manner, text, &digits)
}

/// Appends the number, in decimal if it has at most 128 bits.
fn add_number(manner: Manner, text: &mut String, octets: &[u8]) -> Result<(), NoMemory> {
    if let Ok(number) = Primitive::decode_slice(octets, Mode::Der, |octets| octets.to_i128()) {
        write!(text, " :{number}")?;
        return Ok(());
    }
    if let Ok(number) = Primitive::decode_slice(octets, Mode::Der, |octets| octets.to_u128()) {
        write!(text, " :{number}")?;
        return Ok(());
    }
    add_magnitude(manner, text, octets)
}

/// Appends what contents octets of an INTEGER or ENUMERATED mean.
pub(crate) fn add(manner: Manner, text: &mut String, octets: &[u8]) -> Result<(), NoMemory> {
    match fault::integer(octets) {
        None => add_number(manner, text, octets),
        Some(fault) => {
            hexadecimal::add(manner, text, octets)?;
            add_fault(text, Some(fault))
        }
    }
}
