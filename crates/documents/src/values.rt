//! Compares random values: what is read of them, and what is written.
use crate::compared::{Compared, compare_kind};
use crate::shown::Show;
use crate::types::KINDS;
use anyhow::Error;
use asn1::{Decode, Encode, decode, encode};
use bcder::Mode;
use bcder::decode::BytesSource;
use bytes::Bytes;
use lines::fields::{find, next, octets_of};
use lines::tally::{Differing, Tally, differ_in};
use std::alloc::Global;

/// What was compared.
#[derive(Clone, Copy, Default)]
pub struct Tallies {
    /// Values that were read, or refused.
    pub read: Tally,

    /// Values that were written.
    pub written: Tally,
}

impl Differing for Tallies {
    fn differ(&self) -> u64 {
        differ_in(&[self.read, self.written])
    }
}

/// Reads all octets as a value, if they are one.
pub fn read<T: Decode<BytesSource>>(
    alloc: Global,
    mode: Mode,
    octets: &[u8],
) -> Result<Option<T>, Error> {
    let shared = Bytes::copy_from_slice(alloc, octets)?;
    Ok(decode::<T, Bytes>(alloc, mode, shared).ok())
}

/// Returns whether a value is written as these octets.
pub fn is_written<T: Encode>(alloc: Global, mode: Mode, value: &T, octets: &[u8]) -> bool {
    match encode(alloc, mode, value) {
        Ok(written) => written.as_slice() == octets,
        Err(_) => false,
    }
}

/// A value of the data.
#[derive(Drop)]
pub struct Row<'a> {
    /// What is read in BER, as a text.
    text: &'a str,

    /// What is read in CER and DER.
    sorted: &'a str,

    ber: Vec<u8>,
    cer: Vec<u8>,
    der: Vec<u8>,
}

/// Returns whether a value is shown as this text.
fn is_shown<T: Show>(alloc: Global, value: &T, wanted: &str) -> Result<bool, Error> {
    let mut text = String::new(alloc);
    value.show(alloc, &mut text)?;
    Ok(text.as_str() == wanted)
}

/// Returns whether what is written of a value in BER is read as a value that is shown as this text.
fn is_read_back<T: Decode<BytesSource> + Encode + Show>(
    alloc: Global,
    value: &T,
    wanted: &str,
) -> Result<bool, Error> {
    match encode(alloc, Mode::Ber, value) {
        Ok(written) => match read::<T>(alloc, Mode::Ber, written.as_slice())? {
            Some(value) => is_shown(alloc, &value, wanted),
            None => Ok(false),
        },
        Err(_) => Ok(false),
    }
}

/// Compares what is read in a mode with a text, and returns it.
fn compare_read<T: Decode<BytesSource> + Show>(
    alloc: Global,
    mode: Mode,
    octets: &[u8],
    wanted: &str,
    tallies: &mut Tallies,
) -> Result<Option<T>, Error> {
    let value = read::<T>(alloc, mode, octets)?;
    match &value {
        Some(value) => tallies.read.count(is_shown(alloc, value, wanted)?),
        None => tallies.read.count(wanted == "refused"),
    }
    Ok(value)
}

/// Compares what is written in each mode of a value that was read.
fn compare_written<T: Decode<BytesSource> + Encode + Show>(
    alloc: Global,
    value: Option<T>,
    wanted: &str,
    row: &Row<'_>,
    tallies: &mut Tallies,
) -> Result<(), Error> {
    if let Some(value) = value {
        let cer = is_written(alloc, Mode::Cer, &value, row.cer.as_slice());
        tallies.written.count(cer);
        let der = is_written(alloc, Mode::Der, &value, row.der.as_slice());
        tallies.written.count(der);
        tallies.written.count(is_read_back(alloc, &value, wanted)?);
    }
    Ok(())
}

/// Compares a value of a type.
pub fn compare<T: Decode<BytesSource> + Encode + Show>(
    alloc: Global,
    row: &Row<'_>,
    tallies: &mut Tallies,
) -> Result<(), Error> {
    let value = compare_read::<T>(alloc, Mode::Ber, &row.ber, row.text, tallies)?;
    compare_written(alloc, value, row.text, row, tallies)?;
    let value = compare_read::<T>(alloc, Mode::Cer, &row.cer, row.sorted, tallies)?;
    compare_written(alloc, value, row.sorted, row, tallies)?;
    let value = compare_read::<T>(alloc, Mode::Der, &row.der, row.sorted, tallies)?;
    compare_written(alloc, value, row.sorted, row, tallies)
}

/// Returns a field, or the one before in place of `=`.
fn or_before<'a>(field: &'a str, before: &'a str) -> &'a str {
    if field == "=" { before } else { field }
}

/// Compares the value of a line.
pub fn compare_line(alloc: Global, line: &str, tallies: &mut Tallies) -> Result<(), Error> {
    let mut fields = line.split('\t');
    let kind = find(&KINDS, next(&mut fields)?)?;
    let text = next(&mut fields)?;
    let sorted = or_before(next(&mut fields)?, text);
    let ber = next(&mut fields)?;
    let cer = or_before(next(&mut fields)?, ber);
    let der = or_before(next(&mut fields)?, cer);
    let row = Compared::Value(Row {
        text,
        sorted,
        ber: octets_of(alloc, ber)?,
        cer: octets_of(alloc, cer)?,
        der: octets_of(alloc, der)?,
    });
    compare_kind(alloc, kind, &row, tallies)
}
