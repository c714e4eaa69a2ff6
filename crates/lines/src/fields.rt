//! Reads the fields of lines of data.
use crate::malformed::Malformed;
use anyhow::Error;
use bcder::Mode;
use std::alloc::Global;
use std::str::Split;

/// Returns the next field.
pub fn next<'a>(fields: &mut Split<'a, char>) -> Result<&'a str, Malformed> {
    fields.next().ok_or(Malformed)
}

/// Returns what a word stands for in a table.
pub fn find<T: Copy>(table: &[(&str, T)], word: &str) -> Result<T, Malformed> {
    for entry in table {
        if entry.0 == word {
            return Ok(entry.1);
        }
    }
    Err(Malformed)
}

/// Reads a number.
pub fn number(field: &str) -> Result<usize, Error> {
    Ok(field.parse::<usize>()?)
}

/// The words for the modes.
const MODES: [(&str, Mode); 3] = [("ber", Mode::Ber), ("cer", Mode::Cer), ("der", Mode::Der)];

/// Reads a mode.
pub fn mode_of(word: &str) -> Result<Mode, Malformed> {
    find(&MODES, word)
}

/// Reads modes, which are separated by commas.
pub fn modes_of(alloc: Global, field: &str) -> Result<Vec<Mode>, Error> {
    let mut modes = Vec::new(alloc);
    for word in field.split(',') {
        modes.push(mode_of(word)?)?;
    }
    Ok(modes)
}

/// Reads octets in hexadecimal, or none from `-`.
pub fn octets_of(alloc: Global, field: &str) -> Result<Vec<u8>, Error> {
    match field {
        "-" => Ok(Vec::new(alloc)),
        digits => Ok(hex::decode(alloc, digits)?),
    }
}
