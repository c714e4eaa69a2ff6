//! Tests that octets that mean nothing are refused for what they are, even if a reader would
//! allocate for octets that mean something.
#![tactic(auto, using(bcder::specs::laws::Moved::steps))]

use crate::asserts::done;
use crate::over::{check_all, check_over};
use crate::reading::{Line, Look, Wanted};
use bcder::decode::{Constructed, DecodeError, Source};
use bcder::string::Utf8String;
use bcder::{BitString, Integer, Mode, OctetString, Oid, Unsigned};
use std::alloc::Global;
use std::process::Abort;

/// A reader that allocates.
#[derive(Clone, Copy)]
enum Kind {
    Integer,
    Unsigned,
    Oid,
    Bits,
    Octets,
    Utf8,
    One,
    All,
}

/// Drops what a reader returned, if it isn't an error.
fn dropped<T: Drop, E>(found: Result<T, E>) -> Result<bool, E> {
    match found {
        Ok(_) => Ok(true),
        Err(error) => Err(error),
    }
}

/// Reads the next value, and drops what is read.
impl Look for Kind {
    fn look<S: Source>(
        &mut self,
        alloc: Global,
        cons: &mut Constructed<'_, S>,
    ) -> Result<bool, DecodeError<S::Error>> {
        match self {
            Kind::Integer => dropped(Integer::take_from(alloc, cons)),
            Kind::Unsigned => dropped(Unsigned::take_from(alloc, cons)),
            Kind::Oid => dropped(Oid::take_from(alloc, cons)),
            Kind::Bits => dropped(BitString::take_from(alloc, cons)),
            Kind::Octets => dropped(OctetString::take_from(alloc, cons)),
            Kind::Utf8 => dropped(Utf8String::take_from(alloc, cons)),
            Kind::One => dropped(cons.capture_one(alloc)),
            Kind::All => dropped(cons.capture_all(alloc)),
        }
    }
}

/// Octets, and a reader that refuses them for what they are.
const LINES: [Line<'_, Kind>; 15] = [
    // no number, identifier or bits
    Line(
        Mode::Ber,
        &[0x02, 0x02, 0x00, 0x05],
        Kind::Integer,
        Wanted::Refused,
    ),
    Line(
        Mode::Der,
        &[0x02, 0x01, 0x80],
        Kind::Unsigned,
        Wanted::Refused,
    ),
    Line(Mode::Der, &[0x06, 0x01, 0x80], Kind::Oid, Wanted::Refused),
    Line(
        Mode::Der,
        &[0x03, 0x02, 0x03, 0xFF],
        Kind::Bits,
        Wanted::Refused,
    ),
    // no string
    Line(
        Mode::Der,
        &[0x24, 0x03, 0x04, 0x01, 0x61],
        Kind::Octets,
        Wanted::Refused,
    ),
    Line(
        Mode::Ber,
        &[0x24, 0x03, 0x02, 0x01, 0x05],
        Kind::Octets,
        Wanted::Refused,
    ),
    Line(
        Mode::Cer,
        &[0x24, 0x80, 0x04, 0x01, 0x61, 0x00, 0x00],
        Kind::Octets,
        Wanted::Refused,
    ),
    Line(
        Mode::Der,
        &[0x02, 0x01, 0x05],
        Kind::Octets,
        Wanted::Refused,
    ),
    // no characters
    Line(
        Mode::Der,
        &[0x0C, 0x02, 0xC3, 0xE9],
        Kind::Utf8,
        Wanted::Refused,
    ),
    Line(
        Mode::Ber,
        &[0x2C, 0x04, 0x04, 0x02, 0xC3, 0xE9],
        Kind::Utf8,
        Wanted::Refused,
    ),
    Line(
        Mode::Der,
        &[0x2C, 0x03, 0x04, 0x01, 0x61],
        Kind::Utf8,
        Wanted::Refused,
    ),
    Line(Mode::Der, &[0x04, 0x01, 0x61], Kind::Utf8, Wanted::Refused),
    // not there
    Line(Mode::Der, &[], Kind::One, Wanted::Refused),
    Line(Mode::Der, &[0x04, 0x05, 0x01], Kind::One, Wanted::Refused),
    Line(
        Mode::Ber,
        &[0x02, 0x01, 0x05, 0x04, 0x05, 0x01],
        Kind::All,
        Wanted::Refused,
    ),
];

#[test]
fn octets_that_mean_nothing(rt: HostRuntime) {
    check_all(&rt, rt.alloc(), &LINES);
}

/// Returns a primitive value of 1001 contents octets, one more than a string in one piece has in
/// CER.
fn piece(rt: &impl Abort, alloc: Global, tag: u8) -> Vec<u8> {
    let mut octets = Vec::new(alloc);
    done(rt, octets.extend_from_slice(&[tag, 0x82, 0x03, 0xE9]));
    for _ in 0..1001 {
        done(rt, octets.push(0x61));
    }
    octets
}

#[test]
fn a_long_string_in_one_piece(rt: HostRuntime) {
    for (row, (tag, kind)) in [(0x04, Kind::Octets), (0x0C, Kind::Utf8)]
        .iter()
        .enumerate()
    {
        let octets = piece(&rt, rt.alloc(), *tag);
        let line = Line(Mode::Cer, octets.as_slice(), *kind, Wanted::Refused);
        check_over(&rt, rt.alloc(), row, &line);
    }
}
