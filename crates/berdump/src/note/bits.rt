//! Bit strings.
ghost use Rattle.std.specs.Prelude.{◌≡◌, ◌↔◌, ◌-◌, ◌*◌, ◌/◌, ◌%◌, ◌^◌, ◌<◌, ◌≤◌, length, IsTrue};
ghost use Rattle.std.specs.Prelude.{slice_index};

use crate::note::{Manner, add_fault, fault, hexadecimal};
use bcder::NoMemory;

/// The number of octets of a string whose bits are listed.
const FEW: usize = 2;

/// Returns whether the bit with a number is one. The first bit is bit 0 (X.690, 8.6.2.1).
fn is_one(octets: &[u8], number: usize) -> bool
    requires { number < 8 * length octets.now }
    ensures { IsTrue result
        ↔ (slice_index octets.now (number / 8) / 2 ^ (7 - number % 8) % 2 ≡ 1) }
{
    (octets[number / 8] >> (7 - number % 8)) % 2 == 1
}

/// Appends the numbers of the bits that are one, if there are any.
fn add_ones(text: &mut String, octets: &[u8], count: usize) -> Result<(), NoMemory>
    requires { count ≤ 8 * length octets.now }
{
    let mut listed = false;
    for number in 0..count {
        if is_one(octets, number) {
            if !listed {
                write!(text, ", bits")?;
            }
            write!(text, " {number}")?;
            listed = true;
        }
    }
    Ok(())
}

/// Appends what contents octets of a BIT STRING mean: the octets of its bits, how many bits are
/// unused, and which bits are one, if they are few and hold no encodings.
pub(crate) fn add(
    manner: Manner,
    text: &mut String,
    octets: &[u8],
    holds: bool,
) -> Result<(), NoMemory> {
    let fault = fault::bits(manner.mode, octets);
    match octets {
        [unused, bits @ ..] if *unused < 8 && (*unused == 0 || !bits.is_empty()) => {
            hexadecimal::add(manner, text, bits)?;
            if *unused > 0 {
                write!(text, ", {unused} unused")?;
            }
            if !holds && bits.len() <= FEW {
                add_ones(
                    text,
                    bits,
                    (8 * bits.len()).saturating_sub(usize::from(*unused)),
                )?;
            }
        }
        _ => hexadecimal::add(manner, text, octets)?,
    }
    add_fault(text, fault)
}
