//! Octet strings in one piece and cut into segments: read, cloned, joined, and as a source.
use crate::end::{End, answered, refused, tell_over};
use crate::read::{Reader, Reading};
use anyhow::Error;
use bcder::decode::{IntoSource, SliceSource, Source};
use bcder::{Mode, NoMemory, OctetString};
use std::alloc::{AllocError, Global};

/// The octets of each string.
const OCTETS: &[u8] = b"abcd";

/// A value with these octets in one piece, and one with them in three segments.
const WHOLE: &[u8] = &[0x04, 0x04, 0x61, 0x62, 0x63, 0x64];

const CUT: &[u8] = &[
    0x24, 0x0A, 0x04, 0x01, 0x61, 0x04, 0x01, 0x62, 0x04, 0x02, 0x63, 0x64,
];

/// Three segments in a value with the tag `[0]`.
const TAGGED: &[u8] = &[
    0xA0, 0x0A, 0x04, 0x01, 0x61, 0x04, 0x01, 0x62, 0x04, 0x02, 0x63, 0x64,
];

/// The readers of the string in segments.
const READERS: [(&str, Reading<'static>); 3] = [
    (
        "OctetString::take_opt_from, in segments",
        Reading {
            reader: Reader::OptOctets,
            mode: Mode::Ber,
            value: CUT,
            wanted: OCTETS,
        },
    ),
    (
        "OctetString::from_content, in segments",
        Reading {
            reader: Reader::OctetsOfContent,
            mode: Mode::Ber,
            value: CUT,
            wanted: OCTETS,
        },
    ),
    (
        "OctetString::take_opt_if, in segments",
        Reading {
            reader: Reader::OptTagged,
            mode: Mode::Ber,
            value: TAGGED,
            wanted: OCTETS,
        },
    ),
];

fn run_readers(rt: &HostRuntime) -> Result<(), Error> {
    let [first, second, third] = READERS;
    first.1.tell_copied(rt, first.0)?;
    second.1.tell_copied(rt, second.0)?;
    first.1.tell_shared(rt, first.0)?;
    second.1.tell_shared(rt, second.0)?;
    third.1.tell_copied(rt, third.0)?;
    third.1.tell_shared(rt, third.0)
}

/// Returns the string of a value.
fn string_of(alloc: Global, value: &[u8]) -> Result<OctetString, Error> {
    let mut octets = SliceSource::new(value);
    let string = Mode::Ber.decode_lent(&mut octets, |cons| OctetString::take_from(alloc, cons))?;
    Ok(string)
}

/// Returns whether a string has these octets in this number of parts.
fn is_it(string: &OctetString, parts: usize) -> bool {
    let mut count = 0usize;
    for _ in string {
        count = count.saturating_add(1);
    }
    count == parts && string.eq_octets(OCTETS)
}

/// Clones a string. The clone is cut in the same way.
fn clones(string: &OctetString, parts: usize) -> End {
    let clone: Result<OctetString, AllocError> = string.clone();
    match clone {
        Ok(clone) => answered(is_it(string, parts) && is_it(&clone, parts)),
        Err(AllocError) => refused(true, is_it(string, parts)),
    }
}

/// Joins the octets of a string in one piece, and leaves the string.
fn joins(alloc: Global, string: &OctetString, parts: usize) -> End {
    match string.to_bytes(alloc) {
        Ok(octets) => answered(octets.as_slice() == OCTETS && is_it(string, parts)),
        Err(NoMemory) => refused(true, is_it(string, parts)),
    }
}

/// Joins the octets of a string in one piece, and consumes the string.
fn gives_up(alloc: Global, string: OctetString) -> End {
    match string.into_bytes(alloc) {
        Ok(octets) => answered(octets.as_slice() == OCTETS),
        Err(NoMemory) => End::NoMemory,
    }
}

/// Returns whether a source gives these octets, one by one, and no others.
fn gives<S: Source>(source: &mut S) -> Result<bool, S::Error> {
    for octet in OCTETS {
        if source.request(1)? == 0 || source.slice().first() != Some(octet) {
            return Ok(false);
        }
        source.advance(1);
    }
    Ok(source.request(1)? == 0)
}

/// Requests more of a source than one segment holds. If memory runs out while they are joined, the
/// octets are given one by one.
fn requests<S: Source>(source: &mut S) -> Result<End, S::Error> {
    let outcome = source.request(3);
    let joined = source.slice() == OCTETS;
    let left = gives(source)?;
    Ok(match outcome {
        Ok(count) => answered(count == 4 && joined && left),
        Err(_) => refused(true, left),
    })
}

/// Shares the next octet of a source.
fn shares<S: Source>(alloc: Global, source: &mut S) -> Result<End, S::Error> {
    if source.request(1)? < 1 {
        return Ok(End::Wrong);
    }
    let octets = source.bytes(alloc, 0, 1);
    let left = gives(source)?;
    Ok(match octets {
        Ok(octets) => answered(left && octets.as_slice() == b"a".as_slice()),
        Err(NoMemory) => refused(true, left),
    })
}

fn run_of(rt: &HostRuntime, how: &str, value: &[u8], parts: usize) -> Result<(), Error> {
    let alloc = rt.alloc();
    let string = string_of(alloc, value)?;
    tell_over(rt, "OctetString::clone", how, clones(&string, parts))?;
    let end = joins(alloc, &string, parts);
    tell_over(rt, "OctetString::to_bytes", how, end)?;
    let end = gives_up(alloc, string);
    tell_over(rt, "OctetString::into_bytes", how, end)?;
    let end = requests(&mut string_of(alloc, value)?.into_source())?;
    tell_over(rt, "OctetStringSource::request", how, end)?;
    let end = shares(alloc, &mut string_of(alloc, value)?.into_source())?;
    tell_over(rt, "OctetStringSource::bytes", how, end)
}

pub fn run(rt: &HostRuntime) -> Result<(), Error> {
    run_readers(rt)?;
    run_of(rt, "whole", WHOLE, 1)?;
    run_of(rt, "cut", CUT, 3)
}
