//! Compares captures: what is captured and in which mode, what is refused, and what is left then.
ghost use Rattle.bcder.specs.calls.Views.{Moved};

use crate::takes::has_left;
use anyhow::Error;
use bcder::decode::{
    BytesSource, Constructed, ContentError, DecodeError, IntoSource, SliceSource, Source, walk,
};
use bcder::{Captured, Mode, Tag};
use bytes::Bytes;
use lines::calls::{Answer, OWN, answer_of, error_kind};
use lines::fields::{find, mode_of, next, number, octets_of};
use lines::malformed::Malformed;
use lines::row::{Row, Step, row_of};
use lines::tally::{Differing, Tally, differ_in};
use std::alloc::{AllocError, Global};
use support::calls::{Answer as Found, Call as Skip, Pass, ask};
use support::sip::Sip;

/// A call on content, or on what `enter` entered.
#[derive(Clone, Copy)]
enum Call {
    One,
    All,

    /// `capture` with a closure that skips the next value.
    Walk,

    /// `capture` with a closure that skips nothing.
    Nothing,

    /// `capture` with a closure that sets BER and skips the next value.
    Ber,

    /// `capture` with a closure that sets BER, skips the next value and then refuses.
    BerRefuse,

    /// `capture` with a closure that skips the next value and then refuses.
    Refuse,

    /// `capture` with a closure that takes a value, refuses it, and drops that error.
    Drop,

    /// `capture` with a closure that captures the next value.
    Nested,

    /// `walk` and the calls that skip. They aren't captures.
    Pass,
    Skip,
    SkipOpt,
    SkipOne,
    SkipAll,

    /// `take_primitive_if` of an INTEGER. It isn't a capture.
    Integer,

    /// `take_sequence` with a closure that does the steps inside.
    Enter,
}

/// The words for the calls.
const CALLS: [(&str, Call); 16] = [
    ("capture_one", Call::One),
    ("capture_all", Call::All),
    ("capture_walk", Call::Walk),
    ("capture_nothing", Call::Nothing),
    ("capture_ber", Call::Ber),
    ("capture_ber_refuse", Call::BerRefuse),
    ("capture_refuse", Call::Refuse),
    ("capture_drop", Call::Drop),
    ("capture_nested", Call::Nested),
    ("walk", Call::Pass),
    ("skip", Call::Skip),
    ("skip_opt", Call::SkipOpt),
    ("skip_one", Call::SkipOne),
    ("skip_all", Call::SkipAll),
    ("integer", Call::Integer),
    ("enter", Call::Enter),
];

/// A call, and its answer: octets with their mode, if it isn't that of the row, and with the
/// position where they began, if the line has it.
#[derive(Drop)]
pub struct CaptureStep {
    call: Call,
    answer: Answer,
    octets: Vec<u8>,
    label: Option<Mode>,
    start: Option<usize>,
}

impl Step for CaptureStep {
    /// Reads a step: `CALL=ANSWER`, `CALL:OCTETS=ANSWER`, `CALL:OCTETS:MODE=ANSWER` or
    /// `CALL:OCTETS:MODE:START=ANSWER`.
    fn of(alloc: Global, word: &str) -> Result<CaptureStep, Error> {
        let (what, answer) = word.split_once('=').ok_or(Malformed)?;
        let mut words = what.split(':');
        let call = find(&CALLS, next(&mut words)?)?;
        let octets = octets_of(alloc, words.next().unwrap_or("-"))?;
        let label = match words.next() {
            Some(word) => Some(mode_of(word)?),
            None => None,
        };
        let start = match words.next() {
            Some(word) => Some(number(word)?),
            None => None,
        };
        let answer = answer_of(answer)?;
        Ok(CaptureStep {
            call,
            answer,
            octets,
            label,
            start,
        })
    }
}

/// Skips the next value, if there is one, in BER or not, and then refuses or not.
#[tactic(auto, using(bcder::specs::laws::Moved::steps))]
fn pass<S: Source>(cons: &mut Constructed<'_, S>, call: Call) -> Result<(), DecodeError<S::Error>>
    ensures { Moved S.stream cons }
{
    if matches!(call, Call::Ber | Call::BerRefuse) {
        cons.set_mode(Mode::Ber);
    }
    walk(cons)?;
    if matches!(call, Call::Refuse | Call::BerRefuse) {
        return Err(cons.content_err(ContentError::ExpectedInteger(OWN)));
    }
    Ok(())
}

/// Does what the closure of a capture does. Drops what it captures, and the error of a value whose
/// octets are left.
#[tactic(auto, using(bcder::specs::laws::Moved::steps))]
fn inside<S: Source>(
    cons: &mut Constructed<'_, S>,
    alloc: Global,
    call: Call,
) -> Result<(), DecodeError<S::Error>>
    ensures { Moved S.stream cons }
{
    match call {
        Call::Nothing => Ok(()),
        Call::Nested => {
            cons.capture_one(alloc)?;
            Ok(())
        }
        Call::Drop => {
            let _ = cons.take_value(|_tag, _content| Ok(()));
            Ok(())
        }
        _ => pass(cons, call),
    }
}

/// Makes a capture, and returns its result.
#[tactic(auto, using(bcder::specs::laws::Moved::steps))]
fn capture<S: Source>(
    cons: &mut Constructed<'_, S>,
    alloc: Global,
    call: Call,
) -> Result<Captured, DecodeError<S::Error>>
    ensures { Moved S.stream cons }
{
    match call {
        Call::One => cons.capture_one(alloc),
        Call::All => cons.capture_all(alloc),
        _ => cons.capture(alloc, |cons| inside(cons, alloc, call)),
    }
}

/// Returns the mode in which captured values are decoded.
#[tactic(auto, using(bcder::specs::laws::Moved::untouched_is_moved))]
pub fn label_of(captured: Captured) -> Option<Mode> {
    captured.decode(|cons| Ok(cons.mode())).ok()
}

/// Returns whether what was captured began at this position, if one is given.
fn begins_at(captured: &Captured, alloc: Global, start: Option<usize>) -> Result<bool, AllocError> {
    let Some(start) = start else {
        return Ok(true);
    };
    let position = captured.clone()?.into_source().pos();
    let shown = format!(in alloc; "{position}")?;
    let wanted = format!(in alloc; "{start}")?;
    Ok(shown.as_str() == wanted.as_str())
}

/// Returns whether a capture gives the answer of the step.
#[tactic(auto, using(bcder::specs::laws::Moved::steps))]
fn captures<S: Source>(
    cons: &mut Constructed<'_, S>,
    alloc: Global,
    step: &CaptureStep,
    mode: Mode,
) -> bool
    ensures { Moved S.stream cons }
{
    match capture(cons, alloc, step.call) {
        Ok(captured) => {
            step.answer == Answer::Taken
                && captured.as_slice() == step.octets.as_slice()
                && matches!(begins_at(&captured, alloc, step.start), Ok(true))
                && label_of(captured) == Some(step.label.unwrap_or(mode))
        }
        Err(error) => step.answer == error_kind(&error, Tag::END_OF_VALUE),
    }
}

/// Returns the call that skips values, if it is one.
fn pass_of(call: Call) -> Option<Pass> {
    match call {
        Call::Pass => Some(Pass::Walk),
        Call::Skip => Some(Pass::Skip),
        Call::SkipOpt => Some(Pass::SkipOpt),
        Call::SkipOne => Some(Pass::SkipOne),
        Call::SkipAll => Some(Pass::SkipAll),
        _ => None,
    }
}

/// Skips values by a call, or an INTEGER if there is none, and returns whether there was a value.
#[tactic(auto, using(bcder::specs::laws::Moved::steps))]
fn pass_by<S: Source>(
    cons: &mut Constructed<'_, S>,
    alloc: Global,
    pass: Option<Pass>,
) -> Result<bool, DecodeError<S::Error>>
    ensures { Moved S.stream cons }
{
    match pass {
        Some(pass) => Ok(ask(cons, alloc, Skip::Pass(pass))? == Found::Passed),
        None => {
            cons.take_primitive_if(Tag::INTEGER, |octets| octets.skip_all())?;
            Ok(true)
        }
    }
}

/// Returns whether a step that captures nothing gives its answer.
#[tactic(auto, using(bcder::specs::laws::Moved::steps))]
fn passes<S: Source>(cons: &mut Constructed<'_, S>, alloc: Global, step: &CaptureStep) -> bool
    ensures { Moved S.stream cons }
{
    let answer = match pass_by(cons, alloc, pass_of(step.call)) {
        Ok(true) => Answer::Taken,
        Ok(false) => Answer::Absent,
        Err(error) => error_kind(&error, Tag::INTEGER),
    };
    answer == step.answer
}

/// What was compared: captures, other steps, and what `decode` returns and leaves.
#[derive(Clone, Copy, Default)]
pub struct Tallies {
    pub captures: Tally,
    pub others: Tally,
    pub left: Tally,
}

impl Differing for Tallies {
    fn differ(&self) -> u64 {
        differ_in(&[self.captures, self.others, self.left])
    }
}

/// Does a step, and compares its answer. The content keeps its mode.
#[tactic(auto, using(bcder::specs::laws::Moved::steps))]
fn compare_step<S: Source>(
    cons: &mut Constructed<'_, S>,
    alloc: Global,
    step: &CaptureStep,
    mode: Mode,
    tallies: &mut Tallies,
)
    ensures { Moved S.stream cons }
{
    match step.call {
        Call::Integer | Call::Pass | Call::Skip | Call::SkipOpt | Call::SkipOne | Call::SkipAll =>
            tallies.others.count(passes(cons, alloc, step)),
        _ => tallies.captures.count(captures(cons, alloc, step, mode)),
    }
    tallies.others.count(cons.mode() == mode);
}

/// Does the steps, and compares their answers.
fn compare_steps<S: Source>(
    cons: &mut Constructed<'_, S>,
    alloc: Global,
    steps: &[CaptureStep],
    mode: Mode,
    tallies: &mut Tallies,
)
    ensures { Moved S.stream cons }
{
    for step in steps {
        compare_step(cons, alloc, step, mode, tallies);
    }
}

/// Enters a SEQUENCE, and does the steps there.
fn enter<S: Source>(
    cons: &mut Constructed<'_, S>,
    alloc: Global,
    row: &Row<CaptureStep>,
    mode: Mode,
    tallies: &mut Tallies,
) -> Answer
    ensures { Moved S.stream cons }
{
    let entered = cons.take_sequence(
        |inner|
            ensures { Moved S.stream inner }
        {
            compare_steps(inner, alloc, &row.inside, mode, tallies);
            Ok(())
        },
    );
    match entered {
        Ok(()) => Answer::Taken,
        Err(error) => error_kind(&error, Tag::SEQUENCE),
    }
}

/// Does the steps at top level, and compares their answers.
fn compare_outside<S: Source>(
    cons: &mut Constructed<'_, S>,
    alloc: Global,
    row: &Row<CaptureStep>,
    mode: Mode,
    tallies: &mut Tallies,
)
    ensures { Moved S.stream cons }
{
    for step in &row.outside {
        if matches!(step.call, Call::Enter) {
            let answer = enter(cons, alloc, row, mode, tallies);
            tallies.others.count(answer == step.answer);
        } else {
            compare_step(cons, alloc, step, mode, tallies);
        }
    }
}

/// Decodes the octets of a row from a source over them.
fn compare_over<S: Source>(
    source: &mut S,
    alloc: Global,
    row: &Row<CaptureStep>,
    mode: Mode,
    tallies: &mut Tallies,
) {
    let decoded = mode.decode_lent(source, |cons| {
        compare_outside(cons, alloc, row, mode, tallies);
        Ok(())
    });
    let same = match decoded {
        Ok(()) => match row.left {
            Ok(left) => has_left(source.request(row.octets.len()), left),
            Err(_) => false,
        },
        Err(error) => match row.left {
            Ok(_) => false,
            Err(answer) => answer == error_kind(&error, Tag::END_OF_VALUE),
        },
    };
    tallies.left.count(same);
}

/// Does the steps of a line in its modes, over three sources, and compares their answers.
pub fn compare_line(alloc: Global, line: &str, tallies: &mut Tallies) -> Result<(), Error> {
    let row: Row<CaptureStep> = row_of(alloc, line)?;
    for mode in &row.modes {
        compare_over(
            &mut SliceSource::new(&row.octets),
            alloc,
            &row,
            *mode,
            tallies,
        );
        let shared = Bytes::copy_from_slice(alloc, &row.octets)?;
        compare_over(&mut BytesSource::new(shared), alloc, &row, *mode, tallies);
        let sipped = row.octets.clone()?;
        compare_over(&mut Sip::new(sipped, 0), alloc, &row, *mode, tallies);
    }
    Ok(())
}
