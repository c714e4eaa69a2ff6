//! Tests that take contents octets one by one: within a value, at its end and beyond, if there are
//! fewer than the length says, and from a source that fails.
#![tactic(auto, using(bcder::specs::laws::Moved::steps))]

ghost use Rattle.bcder.specs.calls.Views.{MovedOctets};

use crate::asserts::Case;
use crate::over::{Row, check_all, failing_sip, failing_whole};
use bcder::Mode;
use bcder::decode::{DecodeError, Primitive, Source};
use std::process::Abort;
use support::calls::Answer;
use support::sip::Sip;

/// A call that takes contents octets, or skips this number of them.
#[derive(Clone, Copy)]
enum Call {
    Octet,
    OptOctet,
    Skip(usize),
}

/// A call, what it returns, and how many octets are left by the length after it.
type Step = (Call, Answer, usize);

/// Octets, calls on the contents octets of the first value, and whether that ends as it should, so
/// that the next value is left.
#[derive(Clone, Copy)]
struct Line(&'static [u8], [Step; 4], bool);

const LINES: [Line; 6] = [
    Line(
        &[0x04, 0x03, 0x61, 0x62, 0x63, 0x05, 0x00],
        [
            (Call::Octet, Answer::Number(0x61), 2),
            (Call::OptOctet, Answer::Number(0x62), 1),
            (Call::Skip(0), Answer::Number(0), 1),
            (Call::Skip(1), Answer::Number(1), 0),
        ],
        true,
    ),
    Line(
        &[0x04, 0x03, 0x61, 0x62, 0x63, 0x05, 0x00],
        [
            (Call::Skip(3), Answer::Number(3), 0),
            (Call::OptOctet, Answer::Absent, 0),
            (Call::Skip(1), Answer::Number(0), 0),
            (Call::Octet, Answer::Refused, 0),
        ],
        true,
    ),
    Line(
        &[0x04, 0x03, 0x61, 0x62, 0x63, 0x05, 0x00],
        [
            (Call::OptOctet, Answer::Number(0x61), 2),
            (Call::Octet, Answer::Number(0x62), 1),
            (Call::Skip(usize::MAX), Answer::Number(1), 0),
            (Call::OptOctet, Answer::Absent, 0),
        ],
        true,
    ),
    Line(
        &[0x04, 0x00, 0x05, 0x00],
        [
            (Call::Octet, Answer::Refused, 0),
            (Call::OptOctet, Answer::Absent, 0),
            (Call::Skip(1), Answer::Number(0), 0),
            (Call::Octet, Answer::Refused, 0),
        ],
        true,
    ),
    Line(
        &[0x04, 0x03, 0x61],
        [
            (Call::Octet, Answer::Number(0x61), 2),
            (Call::Octet, Answer::Refused, 2),
            (Call::OptOctet, Answer::Absent, 2),
            (Call::Skip(2), Answer::Number(0), 2),
        ],
        false,
    ),
    Line(
        &[0x04, 0x03, 0x61, 0x62, 0x63],
        [
            (Call::Skip(0), Answer::Number(0), 3),
            (Call::Octet, Answer::Number(0x61), 2),
            (Call::Skip(0), Answer::Number(0), 2),
            (Call::Skip(1), Answer::Number(1), 1),
        ],
        false,
    ),
];

/// Makes a call, and returns its answer or the source's failure.
fn ask<S: Source>(octets: &mut Primitive<'_, S>, call: Call) -> Result<Answer, S::Error>
    ensures { MovedOctets S.stream octets }
{
    match call {
        Call::Octet => match octets.take_u8() {
            Ok(octet) => Ok(Answer::Number(usize::from(octet))),
            Err(DecodeError::Source(error)) => Err(error),
            Err(_) => Ok(Answer::Refused),
        },
        Call::OptOctet => match octets.take_opt_u8()? {
            Some(octet) => Ok(Answer::Number(usize::from(octet))),
            None => Ok(Answer::Absent),
        },
        Call::Skip(len) => Ok(Answer::Number(octets.skip(len)?)),
    }
}

/// Makes a call. If the source fails, no octet is taken, and the call gives its usual result when
/// it is made again.
fn take_step<S: Source>(
    case: &Case<'_, impl Abort>,
    octets: &mut Primitive<'_, S>,
    step: Step,
) -> Result<(), DecodeError<S::Error>>
    ensures { MovedOctets S.stream octets }
{
    let (call, wanted, owed) = step;
    let before = octets.remaining();
    let outcome = ask(octets, call);
    if let Err(error) = outcome {
        case.same(octets.remaining(), before);
        case.same(ask(octets, call).ok(), Some(wanted));
        return Err(DecodeError::Source(error));
    }
    case.same(outcome.ok(), Some(wanted));
    case.same(octets.remaining(), owed);
    Ok(())
}

/// Makes all calls of a line.
fn take_steps<S: Source>(
    case: &Case<'_, impl Abort>,
    octets: &mut Primitive<'_, S>,
    steps: [Step; 4],
) -> Result<(), DecodeError<S::Error>>
    ensures { MovedOctets S.stream octets }
{
    let [first, second, third, fourth] = steps;
    take_step(case, octets, first)?;
    take_step(case, octets, second)?;
    take_step(case, octets, third)?;
    take_step(case, octets, fourth)
}

/// Makes the calls of a line on the next value, and returns whether the source failed.
fn struck<S: Source>(case: &Case<'_, impl Abort>, source: &mut S, line: &Line) -> bool {
    let steps = line.1;
    let outcome = Mode::Ber.decode_lent(source, |cons| {
        cons.take_primitive(|_tag, octets| take_steps(case, octets, steps))
    });
    match outcome {
        Ok(()) => case.holds(line.2),
        Err(error) if error.is_source() => return true,
        Err(error) => case.holds(!line.2 && error.content_error().is_some()),
    }
    false
}

/// The source doesn't fail, and the next value is left.
impl Row for Line {
    fn octets(&self) -> &[u8] {
        self.0
    }

    fn check<S: Source + Drop, R: Abort>(&self, case: &Case<'_, R>, source: S) {
        let mut source = source;
        case.holds(!struck(case, &mut source, self));
        if self.2 {
            case.same(case.done(source.take_opt_u8()), Some(0x05));
        }
    }
}

#[test]
fn octets_are_taken_one_by_one(rt: HostRuntime) {
    check_all(&rt, rt.alloc(), &LINES);
}

/// The number of a request that none of the lines comes to.
const LAST: usize = 32;

/// Lets a request of the source fail, and checks that no other one does.
fn check_failing(case: &Case<'_, impl Abort>, line: &Line, source: Sip, failing: usize) {
    let mut source = source;
    let struck = struck(case, &mut source, line);
    case.same(source.faults(), usize::from(struck));
    case.holds(if struck { failing < LAST } else { failing > 1 });
}

/// Lets each request of the source fail once.
#[test]
fn failed_sources_leave_octets(rt: HostRuntime) {
    for (number, line) in LINES.iter().enumerate() {
        let case = Case::new(&rt, rt.alloc(), number);
        for failing in 1..=LAST {
            let source = failing_sip(&rt, rt.alloc(), line.0, failing);
            check_failing(&case, line, source, failing);
            let source = failing_whole(&rt, rt.alloc(), line.0, failing);
            check_failing(&case, line, source, failing);
        }
    }
}
