//! Tests that read and write entries of a list of revoked certificates, basic constraints, and
//! single octets. The expected values are what openssl wrote, and what `openssl crl` shows of it.
#![tactic(auto, using(bcder::specs::laws::Moved::untouched_is_moved))]

ghost use Rattle.bcder.specs.calls.Views.{Moved};

use crate::asserts::{done, holds};
use bcder::decode::{Constructed, DecodeError, SliceSource, Source};
use bcder::encode::Values;
use bcder::{Captured, Mode, Oid, Unsigned};
use std::alloc::Global;
use std::process::Abort;
use user::{Time, decode_entries, lent_entries, take_octet, take_reason};
use writers::{Basic, Entry, gather_entries};

/// The revoked certificates of a list made with openssl, the first for the compromise of its key.
const ENTRIES: &str = "\
303b302102021000170d3236313132303130313131325a300c300a0603551d1504030a0101301602050deadbeef1170d\
3236313132313131313231335a";

/// The extensions of the first entry.
const REASON: &[u8] = &[
    0x30, 0x0C, 0x30, 0x0A, 0x06, 0x03, 0x55, 0x1D, 0x15, 0x04, 0x03, 0x0A, 0x01, 0x01,
];

/// The serial numbers and dates of the entries.
const FIRST: (&[u8], &str) = (&[0x10, 0x00], "261120101112Z");

const SECOND: (&[u8], &str) = (&[0x0D, 0xEA, 0xDB, 0xEE, 0xF1], "261121111213Z");

/// Takes what is inside an extension, and returns the number of its reason.
fn take_one<S: Source>(
    alloc: Global,
    cons: &mut Constructed<'_, S>,
) -> Result<u8, DecodeError<S::Error>>
    ensures { Moved S.stream cons }
{
    Oid::skip_in(cons)?;
    take_reason(alloc, cons)
}

/// Asserts that the extensions give this reason, and no more.
fn is_reason(rt: &impl Abort, alloc: Global, extensions: Captured, wanted: u8) {
    let found = extensions.decode(|cons| cons.take_sequence(|cons| take_one(alloc, cons)));
    holds(rt, done(rt, found) == wanted);
}

#[test]
fn entries_are_read(rt: HostRuntime) {
    let octets = done(&rt, hex::decode(rt.alloc(), ENTRIES));
    let mut entries = done(&rt, decode_entries(rt.alloc(), &octets));
    holds(&rt, entries.len() == 2);
    let second = entries.pop().expect(&rt, "two entries");
    let first = entries.pop().expect(&rt, "two entries");
    holds(&rt, first.serial.as_slice() == FIRST.0);
    holds(&rt, second.serial.as_slice() == SECOND.0);
    holds(&rt, matches!(first.date, Time::Utc(13)));
    holds(&rt, matches!(second.date, Time::Utc(13)));
    holds(&rt, second.extensions.is_none());
    let extensions = first.extensions.expect(&rt, "extensions");
    is_reason(&rt, rt.alloc(), extensions, 1);
}

#[test]
fn entries_are_lent(rt: HostRuntime) {
    let octets = done(&rt, hex::decode(rt.alloc(), ENTRIES));
    let mut entries = done(&rt, lent_entries(rt.alloc(), SliceSource::new(&octets)));
    holds(&rt, entries.len() == 2);
    let second = entries.pop().expect(&rt, "two entries");
    let first = entries.pop().expect(&rt, "two entries");
    holds(
        &rt,
        first.serial == FIRST.0 && first.date == FIRST.1.as_bytes(),
    );
    holds(
        &rt,
        second.serial == SECOND.0 && second.date == SECOND.1.as_bytes(),
    );
}

/// Creates an entry to be written.
fn entry(
    rt: &impl Abort,
    alloc: Global,
    parts: (&[u8], &str),
    extensions: Option<Captured>,
) -> Entry {
    Entry {
        serial: done(rt, Unsigned::from_slice(alloc, parts.0)),
        date: done(rt, String::from_str(alloc, parts.1)),
        extensions,
    }
}

/// Creates both entries.
fn both(rt: &impl Abort, alloc: Global) -> [Entry; 2] {
    let captured = Mode::Der.decode(REASON, |cons| cons.capture_one(alloc));
    let first = entry(rt, alloc, FIRST, Some(done(rt, captured)));
    [first, entry(rt, alloc, SECOND, None)]
}

#[test]
fn entries_are_put_together(rt: HostRuntime) {
    let wanted = done(&rt, hex::decode(rt.alloc(), ENTRIES));
    let entries = both(&rt, rt.alloc());
    let list = done(&rt, gather_entries(rt.alloc(), &entries, Mode::Der));
    holds(&rt, list.as_slice() == wanted.as_slice());
}

#[test]
fn entries_are_written(rt: HostRuntime) {
    let wanted = done(&rt, hex::decode(rt.alloc(), ENTRIES));
    let mut written = Vec::new(rt.alloc());
    done(&rt, written.extend_from_slice(&[0x30, 0x3B]));
    for entry in &both(&rt, rt.alloc()) {
        holds(&rt, entry.write(Mode::Der, &mut written).is_ok());
    }
    holds(&rt, written.as_slice() == wanted.as_slice());
}

/// Basic constraints, and what openssl wrote for them.
const BASICS: [(Basic, &[u8]); 2] = [
    (
        Basic {
            authority: true,
            path: Some(3),
        },
        &[0x30, 0x06, 0x01, 0x01, 0xFF, 0x02, 0x01, 0x03],
    ),
    (
        Basic {
            authority: true,
            path: None,
        },
        &[0x30, 0x03, 0x01, 0x01, 0xFF],
    ),
];

#[test]
fn basic_constraints_are_written(rt: HostRuntime) {
    for (basic, wanted) in BASICS {
        let mut written = Vec::new(rt.alloc());
        let outcome = basic.encode().write_encoded(Mode::Der, &mut written);
        holds(&rt, outcome.is_ok() && written.as_slice() == wanted);
    }
}

/// OCTET STRINGs of one octet, and values that are none.
const OCTETS: [(&[u8], Option<u8>); 4] = [
    (&[0x04, 0x01, 0x2A], Some(0x2A)),
    (&[0x04, 0x00], None),
    (&[0x04, 0x02, 0x2A, 0x2A], None),
    (&[0x02, 0x01, 0x2A], None),
];

#[test]
fn an_octet_is_taken_alone(rt: HostRuntime) {
    for (octets, wanted) in OCTETS {
        let found = Mode::Der.decode(octets, |cons| take_octet(cons));
        holds(&rt, found.ok() == wanted);
    }
}

/// The reasons `superseded` and `privilegeWithdrawn` of RFC 5280, section 5.3.1, and OCTET STRINGs
/// without an ENUMERATED of one octet.
const REASONS: [(&[u8], Option<u8>); 5] = [
    (&[0x04, 0x03, 0x0A, 0x01, 0x04], Some(4)),
    (&[0x04, 0x03, 0x0A, 0x01, 0x09], Some(9)),
    (&[0x04, 0x03, 0x02, 0x01, 0x04], None),
    (&[0x04, 0x04, 0x0A, 0x02, 0x01, 0x00], None),
    (&[0x04, 0x00], None),
];

#[test]
fn reasons_are_enumerated(rt: HostRuntime) {
    let alloc = rt.alloc();
    for (octets, wanted) in REASONS {
        let found = Mode::Der.decode(octets, |cons| take_reason(alloc, cons));
        holds(&rt, found.ok() == wanted);
    }
}
