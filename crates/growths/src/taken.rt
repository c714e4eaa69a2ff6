//! What is taken of content, captured and skipped.
ghost use Rattle.bcder.specs.calls.Views.{Moved, MovedOctets};

use crate::end::{End, answered, read, refused, tell, tell_over};
use anyhow::Error;
use bcder::decode::{BytesSource, Constructed, DecodeError, Primitive, SliceSource, Source};
use bcder::{Integer, Mode, OctetString, Oid, Unsigned};
use bytes::Bytes;
use std::alloc::Global;
use std::convert::TryFrom;
use support::calls::{Answer, Call, Pass, ask};

/// A call that takes a value.
#[derive(Clone, Copy)]
enum Take {
    Octets,
    Integer,
    IntegerOf,
    Unsigned,
    UnsignedOf,
    Identifier,
    OptIdentifier,
    IdentifierOf,
    Skip(Pass),
    SkipSix(Pass),
    Collect,
}

const TAKES: [(&str, Take); 14] = [
    ("Primitive::take_all", Take::Octets),
    ("Integer::take_from", Take::Integer),
    ("Integer::from_primitive", Take::IntegerOf),
    ("Unsigned::take_from", Take::Unsigned),
    ("Unsigned::from_primitive", Take::UnsignedOf),
    ("Oid::take_from", Take::Identifier),
    ("Oid::take_opt_from", Take::OptIdentifier),
    ("Oid::from_primitive", Take::IdentifierOf),
    ("Constructed::skip_one", Take::Skip(Pass::SkipOne)),
    ("Constructed::skip_opt", Take::Skip(Pass::SkipOpt)),
    ("Constructed::skip", Take::Skip(Pass::Skip)),
    ("Constructed::skip_all", Take::Skip(Pass::SkipAll)),
    (
        "Constructed::skip_opt, six levels",
        Take::SkipSix(Pass::SkipOpt),
    ),
    ("Constructed::collect_some", Take::Collect),
];

/// Takes the octets of a primitive value, as the type in which they are kept.
fn of_octets<S: Source>(
    octets: &mut Primitive<'_, S>,
    alloc: Global,
    take: Take,
) -> Result<Bytes, DecodeError<S::Error>>
    ensures { MovedOctets S.stream octets }
{
    match take {
        Take::IntegerOf => Ok(Integer::from_primitive(alloc, octets)?.into_bytes()),
        Take::UnsignedOf => Ok(Unsigned::from_primitive(alloc, octets)?.into_bytes()),
        Take::IdentifierOf => Ok(Oid::from_primitive(alloc, octets)?.0),
        _ => octets.take_all(alloc),
    }
}

/// Takes octets, and returns whether they are these.
fn take_octets<S: Source>(
    cons: &mut Constructed<'_, S>,
    alloc: Global,
    take: Take,
    wanted: &[u8],
) -> Result<bool, DecodeError<S::Error>>
    ensures { Moved S.stream cons }
{
    let octets = match take {
        Take::Integer => Integer::take_from(alloc, cons)?.into_bytes(),
        Take::Unsigned => Unsigned::take_from(alloc, cons)?.into_bytes(),
        Take::Identifier => Oid::take_from(alloc, cons)?.0,
        Take::OptIdentifier => match Oid::take_opt_from(alloc, cons)? {
            Some(oid) => oid.0,
            None => return Ok(false),
        },
        _ => cons.take_primitive(|_tag, octets| of_octets(octets, alloc, take))?,
    };
    Ok(octets.as_slice() == wanted)
}

/// Skips values by a call, and returns whether there was one.
fn skip<S: Source>(
    cons: &mut Constructed<'_, S>,
    alloc: Global,
    pass: Pass,
) -> Result<bool, DecodeError<S::Error>>
    ensures { Moved S.stream cons }
{
    Ok(ask(cons, alloc, Call::Pass(pass))? == Answer::Passed)
}

/// The numbers that are collected, more than a vector has room for after two allocations.
const NUMBERS: [u8; 20] = [
    19, 18, 17, 16, 15, 14, 13, 12, 11, 10, 9, 8, 7, 6, 5, 4, 3, 2, 1, 0,
];

/// Collects numbers, and returns whether they are these.
fn collect<S: Source>(
    cons: &mut Constructed<'_, S>,
    alloc: Global,
) -> Result<bool, DecodeError<S::Error>>
    ensures { Moved S.stream cons }
{
    let numbers = cons.collect_some(alloc, |cons| cons.take_opt_u8())?;
    Ok(numbers.as_slice() == NUMBERS.as_slice())
}

/// Takes a value, and returns whether it is the one that is there.
fn take_value<S: Source>(
    cons: &mut Constructed<'_, S>,
    alloc: Global,
    take: Take,
    wanted: &[u8],
) -> Result<bool, DecodeError<S::Error>>
    ensures { Moved S.stream cons }
{
    match take {
        Take::Skip(pass) | Take::SkipSix(pass) => skip(cons, alloc, pass),
        Take::Collect => collect(cons, alloc),
        _ => take_octets(cons, alloc, take, wanted),
    }
}

/// A call that captures values.
#[derive(Clone, Copy)]
enum Kind {
    One,
    All,
    Closure,
}

const CAPTURES: [(&str, Kind); 3] = [
    ("Constructed::capture_one", Kind::One),
    ("Constructed::capture_all", Kind::All),
    ("Constructed::capture", Kind::Closure),
];

/// Captures values, and returns whether they are these octets.
fn capture<S: Source>(
    cons: &mut Constructed<'_, S>,
    alloc: Global,
    call: Kind,
    wanted: &[u8],
) -> Result<bool, DecodeError<S::Error>>
    ensures { Moved S.stream cons }
{
    let captured = match call {
        Kind::One => cons.capture_one(alloc)?,
        Kind::All => cons.capture_all(alloc)?,
        Kind::Closure => cons.capture(alloc, |inner| inner.skip_all(alloc))?,
    };
    Ok(captured.as_slice() == wanted)
}

/// Captures values. If memory runs out they are left, and are captured then.
fn capture_again<S: Source>(
    cons: &mut Constructed<'_, S>,
    alloc: Global,
    call: Kind,
    wanted: &[u8],
) -> Result<End, DecodeError<S::Error>>
    ensures { Moved S.stream cons }
{
    match capture(cons, alloc, call, wanted) {
        Ok(right) => Ok(answered(right)),
        Err(error) => {
            let left = capture(cons, alloc, call, wanted)?;
            Ok(refused(error.is_memory(), left))
        }
    }
}

/// Captures the only value, and returns whether it is these octets.
fn capture_opt<S: Source>(
    cons: &mut Constructed<'_, S>,
    alloc: Global,
    wanted: &[u8],
) -> Result<bool, DecodeError<S::Error>>
    ensures { Moved S.stream cons }
{
    match cons.capture_opt_one(alloc)? {
        Some(captured) => Ok(captured.as_slice() == wanted),
        None => Ok(false),
    }
}

/// Returns a value of three octets with a tag of X.680, 8.4.
fn short(alloc: Global, number: u8, octets: &[u8]) -> Result<Vec<u8>, Error> {
    let mut value = Vec::new(alloc);
    value.push(number)?;
    value.push(0x03)?;
    value.extend_from_slice(octets)?;
    Ok(value)
}

/// The number of nested SEQUENCEs, more than there are levels of calls.
const LEVELS: usize = 70;

/// Returns the octets of nested SEQUENCEs in DER, built from the last one on.
fn deep(alloc: Global, levels: usize) -> Result<Vec<u8>, Error> {
    let mut value = Vec::new(alloc);
    for _ in 0..levels {
        let len = u8::try_from(value.len())?;
        value.push(len)?;
        if len >= 0x80 {
            value.push(0x81)?;
        }
        value.push(0x30)?;
    }
    value.reverse();
    Ok(value)
}

/// Returns an INTEGER for each of the numbers.
fn integers(alloc: Global) -> Result<Vec<u8>, Error> {
    let mut values = Vec::new(alloc);
    for number in NUMBERS {
        values.extend_from_slice(&[0x02, 0x01, number])?;
    }
    Ok(values)
}

/// Contents octets of an integer and of an object identifier.
const CONTENTS: [u8; 3] = [0x55, 0x1D, 0x13];

/// Returns the value that is there for a call.
fn value_for(alloc: Global, take: Take) -> Result<Vec<u8>, Error> {
    match take {
        Take::Octets => short(alloc, 0x04, &CONTENTS),
        Take::Integer | Take::IntegerOf | Take::Unsigned | Take::UnsignedOf => {
            short(alloc, 0x02, &CONTENTS)
        }
        Take::Identifier | Take::OptIdentifier | Take::IdentifierOf => {
            short(alloc, 0x06, &CONTENTS)
        }
        Take::SkipSix(_) => deep(alloc, 6),
        Take::Collect => integers(alloc),
        _ => deep(alloc, LEVELS),
    }
}

/// Octet strings in BER, in one piece and in segments, and their octets.
const STRINGS: [(&str, &[u8], &[u8]); 3] = [
    (
        "OctetString::take_from, in one piece",
        &[0x04, 0x03, 0x61, 0x62, 0x63],
        b"abc",
    ),
    (
        "OctetString::take_from, in segments",
        &[
            0x24, 0x80, 0x04, 0x01, 0x61, 0x24, 0x04, 0x04, 0x02, 0x62, 0x63, 0x04, 0x00, 0x00,
            0x00,
        ],
        b"abc",
    ),
    (
        "OctetString::take_from, in segments of segments",
        &[
            0x24, 0x80, 0x24, 0x0F, 0x24, 0x0D, 0x24, 0x0B, 0x24, 0x09, 0x24, 0x07, 0x24, 0x05,
            0x24, 0x03, 0x04, 0x01, 0x61, 0x04, 0x01, 0x62, 0x00, 0x00,
        ],
        b"ab",
    ),
];

/// Takes an octet string, and returns whether it has these octets.
fn take_string<S: Source>(
    cons: &mut Constructed<'_, S>,
    alloc: Global,
    wanted: &[u8],
) -> Result<bool, DecodeError<S::Error>>
    ensures { Moved S.stream cons }
{
    Ok(OctetString::take_from(alloc, cons)?.eq_octets(wanted))
}

fn string_of<S: Source>(alloc: Global, source: &mut S, wanted: &[u8]) -> End {
    read(Mode::Ber.decode_lent(source, |cons| take_string(cons, alloc, wanted)))
}

/// A false length, larger than the number of octets. It is refused for that, before memory is asked
/// for.
const LYING: &[u8] = &[0x04, 0x84, 0xFF, 0xFF, 0xFF, 0xFF, 0x41];

fn lying_of<S: Source>(alloc: Global, source: &mut S) -> End {
    match Mode::Ber.decode_lent(source, |cons| take_string(cons, alloc, LYING)) {
        Ok(_) => End::Wrong,
        Err(error) => answered(error.content_error().is_some()),
    }
}

fn run_strings(rt: &HostRuntime) -> Result<(), Error> {
    let alloc = rt.alloc();
    for (name, value, wanted) in STRINGS {
        let end = string_of(alloc, &mut SliceSource::new(value), wanted);
        tell_over(rt, name, "copied", end)?;
        let mut shared = BytesSource::new(Bytes::copy_from_slice(alloc, value)?);
        tell_over(rt, name, "shared", string_of(alloc, &mut shared, wanted))?;
    }
    let end = lying_of(alloc, &mut SliceSource::new(LYING));
    tell(rt, "OctetString::take_from, of a length that lies", end)
}

fn end_of<S: Source>(alloc: Global, source: &mut S, take: Take) -> End {
    read(Mode::Der.decode_lent(source, |cons| take_value(cons, alloc, take, &CONTENTS)))
}

/// Captures values. If memory runs out a second time, the values that were to be captured aren't
/// left, which is wrong.
fn captured_of<S: Source>(alloc: Global, source: &mut S, call: Kind, wanted: &[u8]) -> End {
    match Mode::Der.decode_lent(source, |cons| capture_again(cons, alloc, call, wanted)) {
        Ok(end) => end,
        Err(_) => End::Wrong,
    }
}

fn captured_opt_of<S: Source>(alloc: Global, source: &mut S, wanted: &[u8]) -> End {
    read(Mode::Der.decode_lent(source, |cons| capture_opt(cons, alloc, wanted)))
}

fn run_captures(rt: &HostRuntime) -> Result<(), Error> {
    let alloc = rt.alloc();
    let list = deep(alloc, LEVELS)?;
    let value = list.as_slice();
    for (name, call) in CAPTURES {
        let end = captured_of(alloc, &mut SliceSource::new(value), call, value);
        tell_over(rt, name, "copied", end)?;
        let mut shared = BytesSource::new(Bytes::copy_from_slice(alloc, value)?);
        tell_over(
            rt,
            name,
            "shared",
            captured_of(alloc, &mut shared, call, value),
        )?;
    }
    let name = "Constructed::capture_opt_one";
    let end = captured_opt_of(alloc, &mut SliceSource::new(value), value);
    tell_over(rt, name, "copied", end)?;
    let mut shared = BytesSource::new(Bytes::copy_from_slice(alloc, value)?);
    tell_over(
        rt,
        name,
        "shared",
        captured_opt_of(alloc, &mut shared, value),
    )
}

pub fn run(rt: &HostRuntime) -> Result<(), Error> {
    let alloc = rt.alloc();
    for (name, take) in TAKES {
        let value = value_for(alloc, take)?;
        let end = end_of(alloc, &mut SliceSource::new(value.as_slice()), take);
        tell_over(rt, name, "copied", end)?;
        let mut shared = BytesSource::new(Bytes::copy_from_slice(alloc, value.as_slice())?);
        tell_over(rt, name, "shared", end_of(alloc, &mut shared, take))?;
    }
    run_strings(rt)?;
    run_captures(rt)
}
