//! Tests of decoding over an owned and over a borrowed source, with values from outside.
use crate::asserts::{Case, done, holds, is_failed, is_refused, same};
use crate::over::{Row, check_all, failing_sip};
use bcder::Mode;
use bcder::decode::{DecodeError, SliceSource, Source};
use bytes::Bytes;
use std::process::Abort;
use support::decoding::{drop_refusal, octet_behind, take_empty, two_empty, two_empty_of};

/// What is decoded.
#[derive(Clone, Copy)]
enum Way {
    /// Two empty values, after which the octet 2A is left, and no other.
    Behind,

    /// Two empty values of a source that is lent, and whether they are taken.
    Lent(bool),

    /// Two empty values of a source that is handed over, and whether they are there.
    Owned(bool),

    /// A value that isn't empty. Its header is skipped, and the error dropped.
    Dropped,
}

/// A mode, octets, and what is decoded.
#[derive(Clone, Copy)]
struct Line(Mode, &'static [u8], Way);

/// NULL and an empty SEQUENCE, and an octet after them, which `decode` leaves.
const TWO: &[u8] = &[0x05, 0x00, 0x30, 0x00, 0x2A];

/// An empty SEQUENCE of indefinite length, and NULL.
const INDEFINITE: &[u8] = &[0x30, 0x80, 0x00, 0x00, 0x05, 0x00];

/// CER has no definite length for a constructed value, and DER no indefinite one.
const LINES: [Line; 13] = [
    Line(Mode::Ber, TWO, Way::Behind),
    Line(Mode::Der, TWO, Way::Behind),
    Line(Mode::Ber, TWO, Way::Lent(true)),
    Line(Mode::Cer, TWO, Way::Lent(false)),
    Line(Mode::Der, TWO, Way::Lent(true)),
    Line(Mode::Ber, INDEFINITE, Way::Lent(true)),
    Line(Mode::Cer, INDEFINITE, Way::Lent(true)),
    Line(Mode::Der, INDEFINITE, Way::Lent(false)),
    Line(Mode::Ber, &[], Way::Owned(false)),
    Line(Mode::Cer, &[], Way::Owned(false)),
    Line(Mode::Der, &[], Way::Owned(false)),
    Line(Mode::Der, TWO, Way::Owned(true)),
    Line(Mode::Der, &[0x02, 0x01, 0x05], Way::Dropped),
];

fn check_behind<S: Source>(case: &Case<'_, impl Abort>, source: &mut S, mode: Mode) {
    case.same(case.done(octet_behind(source, mode)), 0x2A);
    case.same(case.done(source.take_opt_u8()), None);
}

fn check_dropped<S: Source>(case: &Case<'_, impl Abort>, source: &mut S, mode: Mode) {
    let refused = drop_refusal(source, mode);
    case.holds(is_refused(refused));
    case.same(case.done(source.take_u8()), 0x05);
}

impl Row for Line {
    fn octets(&self) -> &[u8] {
        self.1
    }

    fn check<S: Source + Drop, R: Abort>(&self, case: &Case<'_, R>, source: S) {
        let mut source = source;
        match self.2 {
            Way::Behind => check_behind(case, &mut source, self.0),
            Way::Lent(taken) => case.same(two_empty(&mut source, self.0).is_ok(), taken),
            Way::Owned(wanted) => case.same(case.done(two_empty_of(source, self.0)), wanted),
            Way::Dropped => check_dropped(case, &mut source, self.0),
        }
    }
}

#[test]
fn empty_values(rt: HostRuntime) {
    check_all(&rt, rt.alloc(), &LINES);
}

#[tactic(auto, using(bcder::specs::laws::Moved::untouched_is_moved))]
#[test]
fn owned_sources(rt: HostRuntime) {
    let octets = done(&rt, Bytes::copy_from_slice(rt.alloc(), TWO));
    let found = Mode::Der.decode(octets, |cons| take_empty(cons));
    holds(&rt, done(&rt, found));
    let found = Mode::Der.decode(TWO, |cons| take_empty(cons));
    holds(&rt, done(&rt, found));
}

#[test]
fn a_failed_source(rt: HostRuntime) {
    let mut source = failing_sip(&rt, rt.alloc(), TWO, 1);
    holds(&rt, is_failed(two_empty(&mut source, Mode::Der)));
    same(&rt, source.faults(), 1);
    holds(&rt, done(&rt, two_empty(&mut source, Mode::Der)));
}

#[tactic(auto, using(bcder::specs::laws::Moved::untouched_is_moved))]
#[test]
fn the_closure_refuses(rt: HostRuntime) {
    let mut source = SliceSource::new(TWO);
    let answer = Mode::Ber.decode_lent(&mut source, |cons| {
        take_empty(cons)?;
        Err(DecodeError::no_memory())
    });
    let answer: Result<(), _> = answer;
    let refused = answer.err().expect(&rt, "the error of the closure");
    holds(&rt, refused.is_memory());
    same(&rt, source.len(), 3);
}
