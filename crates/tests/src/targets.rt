//! Tests of targets that fail, at each call in turn, under each encoder. They then hold a proper
//! prefix of the encoding.
#![tactic(auto)]

mod encoders;
mod lines;
mod lists;
mod long;
mod strings;
mod tuples;

use crate::asserts::{done, holds, same};
use bcder::encode::{PrimitiveContent, Values, WriteError};
use bcder::{Mode, Tag};
use encoders::{Encoder, write};
use lines::{CONTENTS, FRONTS, LISTS, Line, ONE_OF, PRIMITIVES, STRINGS};
use long::{LONG, Long, octets_of, spelled, write_long};
use std::alloc::Global;
use std::io;
use std::io::{Error, ErrorKind, Write};
use std::process::Abort;
use support::encoders::Zeros;

/// Writes values. The functions that make them know no more of that than that it is done.
fn put<V: Values, W: Write>(values: &V, mode: Mode, target: &mut W) -> Result<(), WriteError>
    requires { V.can_encode values.now }
{
    values.write_encoded(mode, target)
}

/// How a target fails.
#[derive(Clone, Copy)]
enum Failure {
    /// It returns that it took no octet.
    Nothing,

    /// It returns an error of this kind.
    Error(ErrorKind),
}

/// The ways to fail.
const FAILURES: [Failure; 3] = [
    Failure::Nothing,
    Failure::Error(ErrorKind::Interrupted),
    Failure::Error(ErrorKind::BrokenPipe),
];

/// A target that takes one octet a call, or all that it gets. The call with the number `failing`,
/// counted from 1, fails; if it is 0, none does.
#[derive(Drop)]
struct Target {
    taken: Vec<u8>,
    calls: usize,
    one_by_one: bool,
    failing: usize,
    failure: Failure,
}

impl Write for Target {
    fn write(&mut self, buf: &[u8]) -> io::Result<usize> {
        self.calls = self.calls.saturating_add(1);
        if self.calls == self.failing {
            return match self.failure {
                Failure::Nothing => Ok(0),
                Failure::Error(kind) => Err(Error::from(kind)),
            };
        }
        let len = if self.one_by_one {
            buf.len().min(1)
        } else {
            buf.len()
        };
        self.taken.extend_from_slice(&buf[..len])?;
        Ok(len)
    }

    fn flush(&mut self) -> io::Result<()> {
        Ok(())
    }
}

impl Target {
    /// Creates a target that has taken nothing.
    fn new(alloc: Global, one_by_one: bool, failing: usize, failure: Failure) -> Target {
        Target {
            taken: Vec::new(alloc),
            calls: 0,
            one_by_one,
            failing,
            failure,
        }
    }

    /// Checks that the target was called as often as these octets need, and holds all of them.
    fn check_whole(&self, rt: &impl Abort, outcome: &Result<(), WriteError>, wanted: &[u8]) {
        holds(rt, outcome.is_ok());
        holds(rt, self.taken.as_slice() == wanted);
        holds(rt, self.calls > 0 || wanted.is_empty());
        holds(rt, !self.one_by_one || self.calls == wanted.len());
    }

    /// Checks that the target failed, that the encoder reports this, that it didn't call the target
    /// again, and that the target holds a proper prefix of the octets.
    fn check_failed(&self, rt: &impl Abort, outcome: Result<(), WriteError>, wanted: &[u8]) {
        let kind = match outcome {
            Err(WriteError::Target(error)) => Some(error.kind()),
            _ => None,
        };
        match self.failure {
            Failure::Nothing => same(rt, kind, Some(ErrorKind::WriteZero)),
            Failure::Error(wanted) => same(rt, kind, Some(wanted)),
        }
        same(rt, self.calls, self.failing);
        holds(rt, self.taken.len() < wanted.len());
        holds(rt, wanted.starts_with(self.taken.as_slice()));
        let taken = self.failing.saturating_sub(1);
        holds(rt, !self.one_by_one || self.taken.len() == taken);
    }
}

/// An encoder whose octets are known.
#[derive(Clone, Copy)]
enum Writer<'a> {
    Short(Encoder),
    Long(Long, &'a [u8]),
}

impl Writer<'_> {
    fn write(
        &self,
        rt: &impl Abort,
        alloc: Global,
        mode: Mode,
        target: &mut Target,
    ) -> Result<(), WriteError> {
        match self {
            Writer::Short(encoder) => write(rt, alloc, *encoder, mode, target),
            Writer::Long(long, octets) => write_long(rt, alloc, *long, octets, mode, target),
        }
    }

    /// Lets each call of the target fail in turn, until there are no more: in this way, and with
    /// one octet a call or all.
    fn run(
        &self,
        rt: &impl Abort,
        alloc: Global,
        mode: Mode,
        wanted: &[u8],
        one_by_one: bool,
        failure: Failure,
    ) {
        let mut whole = Target::new(alloc, one_by_one, 0, failure);
        let outcome = self.write(rt, alloc, mode, &mut whole);
        whole.check_whole(rt, &outcome, wanted);
        for failing in 1..whole.calls.saturating_add(1) {
            let mut target = Target::new(alloc, one_by_one, failing, failure);
            let outcome = self.write(rt, alloc, mode, &mut target);
            target.check_failed(rt, outcome, wanted);
        }
    }

    /// Lets each call of the target fail in turn, in each way.
    fn run_all(&self, rt: &impl Abort, alloc: Global, mode: Mode, wanted: &[u8]) {
        for failure in FAILURES {
            self.run(rt, alloc, mode, wanted, false, failure);
            self.run(rt, alloc, mode, wanted, true, failure);
        }
    }
}

/// Lets each call of the target fail in turn, in each way, for the encoder of each line.
fn run_lines(rt: &impl Abort, alloc: Global, lines: &[Line]) {
    for (encoder, mode, wanted) in lines {
        Writer::Short(*encoder).run_all(rt, alloc, *mode, *wanted);
    }
}

#[test]
fn primitive_values(rt: HostRuntime) {
    run_lines(&rt, rt.alloc(), &PRIMITIVES);
}

#[test]
fn contents_alone(rt: HostRuntime) {
    run_lines(&rt, rt.alloc(), &CONTENTS);
}

#[test]
fn identifier_and_length_octets(rt: HostRuntime) {
    run_lines(&rt, rt.alloc(), &FRONTS);
}

#[test]
fn kinds_of_strings(rt: HostRuntime) {
    run_lines(&rt, rt.alloc(), &STRINGS);
}

#[test]
fn one_of_several(rt: HostRuntime) {
    run_lines(&rt, rt.alloc(), &ONE_OF);
}

#[test]
fn lists_of_values(rt: HostRuntime) {
    run_lines(&rt, rt.alloc(), &LISTS);
}

/// Checks that each primitive value of the lines, of up to 64 contents octets, is one call of the
/// target.
fn at_once(rt: &impl Abort, alloc: Global, lines: &[Line]) {
    for (encoder, mode, wanted) in lines {
        if wanted.first().copied().unwrap_or(0x20) & 0x20 == 0 {
            let mut target = Target::new(alloc, false, 0, Failure::Nothing);
            done(rt, write(rt, alloc, *encoder, *mode, &mut target));
            same(rt, target.calls, 1);
        }
    }
}

#[test]
fn small_values_at_once(rt: HostRuntime) {
    at_once(&rt, rt.alloc(), &PRIMITIVES);
    at_once(&rt, rt.alloc(), &STRINGS);
}

/// Checks that values under a tag of several octets, and those of a user's type, are one call of
/// the target too.
#[test]
fn small_values_of_other_kinds_at_once(rt: HostRuntime) {
    let mut target = Target::new(rt.alloc(), false, 0, Failure::Nothing);
    let outcome = 5u8
        .encode_as(Tag::ctx(31))
        .write_encoded(Mode::Der, &mut target);
    target.check_whole(&rt, &outcome, &[0x9F, 0x1F, 0x01, 0x05]);
    same(&rt, target.calls, 1);
    let outcome = Zeros(2).encode().write_encoded(Mode::Der, &mut target);
    target.check_whole(
        &rt,
        &outcome,
        &[0x9F, 0x1F, 0x01, 0x05, 0x04, 0x02, 0x00, 0x00],
    );
    same(&rt, target.calls, 2);
}

/// Checks strings of over 1000 octets in CER, which are written in segments.
#[test]
fn in_segments(rt: HostRuntime) {
    let alloc = rt.alloc();
    for (long, identifier) in LONG {
        let octets = octets_of(&rt, alloc, long);
        let wanted = spelled(&rt, alloc, identifier, octets.as_slice());
        let writer = Writer::Long(long, octets.as_slice());
        writer.run_all(&rt, alloc, Mode::Cer, wanted.as_slice());
    }
}
