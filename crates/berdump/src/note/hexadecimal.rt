//! Octets in hexadecimal.
use crate::note::Manner;
use bcder::NoMemory;

/// The number of octets that are shown, if not all are.
const WIDTH: usize = 32;

/// Appends octets, only the first of them if there are many and not all are asked for.
pub(crate) fn add_octets(manner: Manner, text: &mut String, octets: &[u8]) -> Result<(), NoMemory> {
    let width = if manner.whole {
        octets.len()
    } else {
        octets.len().min(WIDTH)
    };
    let digits = hex::encode(manner.alloc, octets.split_at(width).0)?;
    write!(text, "0x{}", digits.as_str())?;
    if width < octets.len() {
        write!(text, "...")?;
    }
    Ok(())
}

/// Appends the value of octets that mean no more.
pub(crate) fn add(manner: Manner, text: &mut String, octets: &[u8]) -> Result<(), NoMemory> {
    write!(text, " :")?;
    add_octets(manner, text, octets)
}
