//! Compares structures that the encoders write, and that are read back.
ghost use Rattle.bcder.specs.calls.Views.{Moved};

use crate::random::Random;
use crate::structures::{Kind, Part, octets_of, padded, structure, unsigned};
use crate::tally::Tally;
use anyhow::Error;
use bcder::captured::CapturedBuilder;
use bcder::decode::{Constructed, DecodeError, Source};
use bcder::encode::{self, PrimitiveContent, Values};
use bcder::string::Utf8String;
use bcder::{BitString, Captured, Mode, OctetString, Oid, Tag, Unsigned};
use bytes::Bytes;
use std::alloc::Global;
use std::convert::TryFrom;

/// Writes a number by the first of some types that holds it.
fn write_number(number: i128, target: &mut CapturedBuilder) -> Result<(), Error> {
    if let Ok(number) = u8::try_from(number) {
        return Ok(target.extend(number.encode())?);
    }
    if let Ok(number) = i32::try_from(number) {
        return Ok(target.extend(number.encode())?);
    }
    if let Ok(number) = u64::try_from(number) {
        return Ok(target.extend(number.encode())?);
    }
    Ok(target.extend(number.encode())?)
}

/// Returns the bit string of up to 1000 octets, with this number of unused bits.
fn bits_of(alloc: Global, unused: u8, octets: &[u8]) -> Result<BitString, Error> {
    if octets.is_empty() || octets.len() > 1000 || unused > 7 {
        return Ok(BitString::new(0, Bytes::new()));
    }
    Ok(BitString::new(unused, Bytes::copy_from_slice(alloc, octets)?))
}

/// Writes a string of octets, bits or characters.
fn write_string(alloc: Global, part: &Part, target: &mut CapturedBuilder) -> Result<(), Error> {
    match part {
        Part::Bits(unused, bits) => {
            let string = bits_of(alloc, *unused, bits)?;
            Ok(target.extend(string.encode_ref())?)
        }
        Part::Text(text) => {
            let octets = OctetString::new(Bytes::copy_from_slice(alloc, text)?);
            Ok(target.extend(Utf8String::new(octets)?.encode())?)
        }
        Part::Octets(octets) => {
            let string = OctetString::new(Bytes::copy_from_slice(alloc, octets)?);
            Ok(target.extend(string.encode())?)
        }
        _ => Ok(()),
    }
}

/// Writes a value without values inside.
fn write_value(alloc: Global, part: &Part, target: &mut CapturedBuilder) -> Result<(), Error> {
    match part {
        Part::Truth(truth) => Ok(target.extend(truth.encode())?),
        Part::Null => Ok(target.extend(().encode())?),
        Part::Number(number) => write_number(*number, target),
        Part::Unsigned(digits) => {
            let number = Unsigned::from_slice(alloc, digits)?;
            Ok(target.extend(number.encode())?)
        }
        Part::Identifier(contents) => Ok(target.extend(Oid(contents.as_slice()).encode())?),
        _ => write_string(alloc, part, target),
    }
}

/// Writes a structure, each constructed value by the encoder of its tag.
fn write(alloc: Global, mode: Mode, parts: &[Part]) -> Result<Captured, Error> {
    let mut target = Captured::builder(alloc, mode);
    let mut outer = Vec::new(alloc);
    for part in parts {
        match part {
            Part::Begin(kind) => {
                outer.push((*kind, target))?;
                target = Captured::builder(alloc, mode);
            }
            Part::End => {
                let inside = target.freeze()?;
                let Some((kind, before)) = outer.pop() else {
                    return Ok(inside);
                };
                target = before;
                match kind {
                    Kind::Sequence => target.extend(encode::sequence(inside))?,
                    Kind::Set => target.extend(encode::set(inside))?,
                    kind => target.extend(encode::Constructed::new(kind.tag(), inside))?,
                }
            }
            value => write_value(alloc, value, &mut target)?,
        }
    }
    Ok(target.freeze()?)
}

/// Takes a number or an object identifier, and returns whether it is that of a part.
fn takes_number<S: Source>(
    cons: &mut Constructed<'_, S>,
    alloc: Global,
    part: &Part,
) -> Result<bool, DecodeError<S::Error>>
    ensures { Moved S.stream cons }
{
    match part {
        Part::Number(number) => {
            let taken = cons.take_primitive_if(Tag::INTEGER, |octets| octets.to_i128())?;
            Ok(taken == *number)
        }
        Part::Unsigned(digits) => {
            let taken = Unsigned::take_from(alloc, cons)?;
            let wanted = unsigned(alloc, digits);
            Ok(wanted.is_ok_and(|wanted| taken.as_slice() == wanted.as_slice()))
        }
        Part::Identifier(contents) => {
            let taken = Oid::take_from(alloc, cons)?;
            Ok(taken.0.as_slice() == contents.as_slice())
        }
        _ => Ok(false),
    }
}

/// Takes a string, and returns whether it is that of a part.
fn takes_string<S: Source>(
    cons: &mut Constructed<'_, S>,
    alloc: Global,
    part: &Part,
) -> Result<bool, DecodeError<S::Error>>
    ensures { Moved S.stream cons }
{
    match part {
        Part::Bits(unused, bits) => {
            let mode = cons.mode();
            let taken = BitString::take_from(alloc, cons)?;
            let wanted = padded(alloc, mode, *unused, bits);
            Ok(
                taken.unused() == *unused
                    && wanted.is_ok_and(|wanted| taken.octet_slice() == Some(wanted.as_slice())),
            )
        }
        Part::Octets(octets) => Ok(OctetString::take_from(alloc, cons)?.eq_octets(octets)),
        Part::Text(text) => Ok(Utf8String::take_from(alloc, cons)?.eq_octets(text)),
        _ => Ok(false),
    }
}

/// Takes a value without values inside, and returns whether it is a part.
fn takes<S: Source>(
    cons: &mut Constructed<'_, S>,
    alloc: Global,
    part: &Part,
) -> Result<bool, DecodeError<S::Error>>
    ensures { Moved S.stream cons }
{
    match part {
        Part::Truth(truth) => {
            let taken = cons.take_bool()?;
            Ok(taken == *truth)
        }
        Part::Null => {
            cons.take_null()?;
            Ok(true)
        }
        Part::Number(_) | Part::Unsigned(_) | Part::Identifier(_) => {
            takes_number(cons, alloc, part)
        }
        _ => takes_string(cons, alloc, part),
    }
}

/// Takes a constructed value out of values, and returns what is inside.
#[tactic(auto, using(bcder::specs::laws::Moved::steps))]
fn open(alloc: Global, values: &mut Captured, kind: Kind) -> Option<Captured> {
    let taken = values.decode_partial(|cons| {
        cons.take_constructed_if(kind.tag(), |inside| inside.capture_all(alloc))
    });
    taken.ok()
}

/// Takes the next value, and returns whether it is a part.
#[tactic(auto, using(bcder::specs::laws::Moved::steps))]
fn is_next(alloc: Global, values: &mut Captured, part: &Part) -> bool {
    let taken = values.decode_partial(|cons| takes(cons, alloc, part));
    taken.is_ok_and(|same| same)
}

/// Returns whether values are those of a structure.
fn is_read(alloc: Global, values: Captured, parts: &[Part]) -> Result<bool, Error> {
    let mut values = values;
    let mut outer = Vec::new(alloc);
    for part in parts {
        match part {
            Part::Begin(kind) => {
                let Some(inside) = open(alloc, &mut values, *kind) else {
                    return Ok(false);
                };
                outer.push(values)?;
                values = inside;
            }
            Part::End => {
                let is_empty = values.as_slice().is_empty();
                let Some(before) = outer.pop() else {
                    return Ok(false);
                };
                if !is_empty {
                    return Ok(false);
                }
                values = before;
            }
            value => {
                if !is_next(alloc, &mut values, value) {
                    return Ok(false);
                }
            }
        }
    }
    Ok(values.as_slice().is_empty())
}

/// Compares what is written of a new structure with its octets, and what is read of them with the
/// structure. Returns the octets if anything differs.
pub fn compare(
    alloc: Global,
    mode: Mode,
    random: &mut Random,
    tally: &mut Tally,
) -> Result<Option<Vec<u8>>, Error> {
    let parts = structure(alloc, random)?;
    let octets = octets_of(alloc, mode, &parts)?;
    let written = write(alloc, mode, &parts)?;
    let mut again = Vec::new(alloc);
    written.write_encoded(mode, &mut again)?;
    let differ = tally.differ;
    tally.values = tally.values.saturating_add(1);
    tally.count(written.as_slice() == octets.as_slice());
    tally.count(again.as_slice() == octets.as_slice());
    tally.count(written.encoded_len(mode) == Ok(octets.len()));
    tally.count(is_read(alloc, written, &parts)?);
    Ok(if tally.differ == differ {
        None
    } else {
        Some(octets)
    })
}
