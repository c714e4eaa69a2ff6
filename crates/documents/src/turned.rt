//! Compares values that are cut, or have an octet changed: whether they are read, and then what is
//! written of them.
use crate::compared::{Compared, compare_kind};
use crate::types::KINDS;
use crate::values::{Tallies, is_written, read};
use anyhow::Error;
use asn1::{Decode, Encode};
use bcder::Mode;
use bcder::decode::BytesSource;
use lines::fields::{find, next, octets_of};
use std::alloc::Global;

/// How an octet is changed.
#[derive(Clone, Copy, Debug, PartialEq, Eq)]
enum Turn {
    /// The octets end before it.
    Cut,
    /// With these bits.
    Xor(u8),
    /// To this.
    To(u8),
    /// One more.
    Next,
}

/// The changes, in the order of the columns.
const TURNS: [Turn; 9] = [
    Turn::Cut,
    Turn::Xor(0x01),
    Turn::Xor(0x02),
    Turn::Xor(0x20),
    Turn::Xor(0x40),
    Turn::Xor(0x80),
    Turn::To(0x00),
    Turn::To(0xFF),
    Turn::Next,
];

/// Returns the octets with a change of the one at an index.
fn with_turn(alloc: Global, octets: &[u8], index: usize, turn: Turn) -> Result<Vec<u8>, Error> {
    let mut all = octets.to_vec(alloc)?;
    if index < all.len() {
        match turn {
            Turn::Cut => all.truncate(index),
            Turn::Xor(bits) => all[index] ^= bits,
            Turn::To(octet) => all[index] = octet,
            Turn::Next => all[index] = all[index].wrapping_add(1),
        }
    }
    Ok(all)
}

/// Compares whether octets are read, and returns what is.
fn compare_read<T: Decode<BytesSource>>(
    alloc: Global,
    octets: &[u8],
    taken: bool,
    tallies: &mut Tallies,
) -> Result<Option<T>, Error> {
    let value = read::<T>(alloc, Mode::Der, octets)?;
    tallies.read.count(value.is_some() == taken);
    Ok(value)
}

/// A value of the data, with the columns of its line.
#[derive(Drop)]
pub struct Changes<'a> {
    octets: Vec<u8>,
    line: &'a str,
}

/// Compares a value of a type.
pub fn compare<T: Decode<BytesSource> + Encode>(
    alloc: Global,
    changes: &Changes<'_>,
    tallies: &mut Tallies,
) -> Result<(), Error> {
    // the columns behind the type and the octets
    let mut columns = changes.line.split('\t');
    next(&mut columns)?;
    next(&mut columns)?;
    for turn in TURNS {
        let mut index = 0usize;
        for answer in next(&mut columns)?.chars() {
            let changed = with_turn(alloc, changes.octets.as_slice(), index, turn)?;
            if let Some(value) = compare_read::<T>(alloc, &changed, answer != '-', tallies)? {
                let same = is_written(alloc, Mode::Der, &value, &changed);
                tallies.written.count(same);
            }
            index = index.saturating_add(1);
        }
    }
    Ok(())
}

/// Compares the value of a line.
pub fn compare_line(alloc: Global, line: &str, tallies: &mut Tallies) -> Result<(), Error> {
    let mut fields = line.split('\t');
    let kind = find(&KINDS, next(&mut fields)?)?;
    let octets = octets_of(alloc, next(&mut fields)?)?;
    let changes = Compared::Turned(Changes { octets, line });
    compare_kind(alloc, kind, &changes, tallies)
}
