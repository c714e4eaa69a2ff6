//! Compares taking values from content: which are taken, which are refused and how, and what is
//! left then.
ghost use Rattle.bcder.specs.calls.Views.{Moved, MovedOctets, MovedContent};

use anyhow::Error;
use bcder::decode::{
    BytesSource, Constructed, Content, ContentError, DecodeError, Primitive, SliceSource, Source,
    walk,
};
use bcder::{Mode, Tag};
use bytes::Bytes;
use lines::calls::{Answer, CALLS, Call, OWN, TakeStep, Use, error_kind};
use lines::row::{Row, row_of};
use lines::tally::{Differing, Tally};
use std::alloc::{AllocError, Global};
use support::calls::{Answer as Found, Inside, Take, Typed, ask_typed, take_by};
use support::sip::Sip;

/// Skips the values, two at most.
fn pass_values<S: Source>(cons: &mut Constructed<'_, S>) -> Result<(), DecodeError<S::Error>>
    ensures { Moved S.stream cons }
{
    if walk(cons)?.is_some() {
        walk(cons)?;
    }
    Ok(())
}

/// Does what the closure of a step does with values. If it got another tag than the expected one,
/// it refuses.
fn use_values<S: Source>(
    inner: &mut Constructed<'_, S>,
    told: bool,
    with: Use,
) -> Result<(), DecodeError<S::Error>>
    ensures { Moved S.stream inner }
{
    if !told {
        return Err(inner.content_err(ContentError::ExpectedInteger(0)));
    }
    match with {
        Use::Pass => pass_values(inner),
        Use::Refuse => {
            pass_values(inner)?;
            Err(inner.content_err(ContentError::ExpectedInteger(OWN)))
        }
        _ => Ok(()),
    }
}

/// Does what the closure of a step does with octets. If it got another tag than the expected one,
/// it refuses.
pub fn use_octets<S: Source>(
    inner: &mut Primitive<'_, S>,
    told: bool,
    with: Use,
) -> Result<(), DecodeError<S::Error>>
    ensures { MovedOctets S.stream inner }
{
    if !told {
        return Err(inner.content_err(ContentError::ExpectedInteger(0)));
    }
    match with {
        Use::Pass => inner.skip_all(),
        Use::Refuse => {
            inner.skip_all()?;
            Err(inner.content_err(ContentError::ExpectedInteger(OWN)))
        }
        _ => Ok(()),
    }
}

/// Asks for content of the other form.
fn ask<S: Source>(content: &mut Content<'_, S>) -> Result<(), DecodeError<S::Error>>
    ensures { MovedContent S.stream content }
{
    if content.is_primitive() {
        content.as_constructed(|_| Ok(()))
    } else {
        content.as_primitive(|_| Ok(()))
    }
}

/// Does what the closure of a step does with content of either form. If it got another tag than the
/// expected one, it refuses the content, unless it only asks for the other form.
pub fn use_content<S: Source>(
    content: &mut Content<'_, S>,
    told: bool,
    with: Use,
) -> Result<(), DecodeError<S::Error>>
    ensures { MovedContent S.stream content }
{
    if matches!(with, Use::Ask) {
        return ask(content);
    }
    match content {
        Content::Primitive(inner) => use_octets(inner, told, with),
        Content::Constructed(inner) => use_values(inner, told, with),
    }
}

fn of_result<E: Drop>(outcome: Result<(), DecodeError<E>>, tag: Tag) -> Answer {
    match outcome {
        Ok(()) => Answer::Taken,
        Err(error) => error_kind(&error, tag),
    }
}

fn of_option<T: Drop, E: Drop>(outcome: Result<Option<T>, DecodeError<E>>, tag: Tag) -> Answer {
    match outcome {
        Ok(Some(_)) => Answer::Taken,
        Ok(None) => Answer::Absent,
        Err(error) => error_kind(&error, tag),
    }
}

/// What the closure of a step does with the content that it gets.
#[derive(Clone, Copy)]
struct Used {
    /// The tag that the closure should get.
    tag: Tag,
    with: Use,
}

impl Inside for Used {
    fn of_content<S: Source>(
        &mut self,
        tag: Tag,
        content: &mut Content<'_, S>,
    ) -> Result<u8, DecodeError<S::Error>> {
        use_content(content, tag == self.tag, self.with)?;
        Ok(0)
    }

    fn of_octets<S: Source>(
        &mut self,
        tag: Tag,
        octets: &mut Primitive<'_, S>,
    ) -> Result<u8, DecodeError<S::Error>> {
        use_octets(octets, tag == self.tag, self.with)?;
        Ok(0)
    }

    fn of_values<S: Source>(
        &mut self,
        tag: Tag,
        values: &mut Constructed<'_, S>,
    ) -> Result<u8, DecodeError<S::Error>> {
        use_values(values, tag == self.tag, self.with)?;
        Ok(0)
    }
}

/// Returns the call that takes a boolean, a null or an integer, or skips this number, if it is one.
fn typed_of(call: Call, number: u8) -> Option<Typed> {
    match call {
        Call::Bool => Some(Typed::Bool),
        Call::OptBool => Some(Typed::OptBool),
        Call::Null => Some(Typed::Null),
        Call::OptNull => Some(Typed::OptNull),
        Call::SkipU8If => Some(Typed::SkipU8If(number)),
        Call::SkipOptU8If => Some(Typed::SkipOptU8If(number)),
        Call::U8 => Some(Typed::U8),
        Call::OptU8 => Some(Typed::OptU8),
        Call::U16 => Some(Typed::U16),
        Call::OptU16 => Some(Typed::OptU16),
        Call::U32 => Some(Typed::U32),
        Call::OptU32 => Some(Typed::OptU32),
        Call::U64 => Some(Typed::U64),
        Call::OptU64 => Some(Typed::OptU64),
        _ => None,
    }
}

/// Returns the answer of a call that took a value with this tag, or skipped this number.
fn of_known<E: Drop>(outcome: Result<Found, DecodeError<E>>, tag: Tag, number: u8) -> Answer {
    match outcome {
        Ok(Found::Truth(truth)) => Answer::Truth(truth),
        Ok(Found::Number(number)) => Answer::Number(number as u64),
        Ok(Found::Passed) => Answer::Taken,
        Ok(_) => Answer::Absent,
        Err(error) => match error.content_error() {
            Some(ContentError::ExpectedInteger(found)) if *found == u64::from(number) => {
                Answer::Another
            }
            _ => error_kind(&error, tag),
        },
    }
}

/// Returns the call that takes a value by a closure, if it is one.
fn take_of(call: Call) -> Option<Take> {
    match call {
        Call::Value => Some(Take::Value),
        Call::OptValue => Some(Take::OptValue),
        Call::ValueIf => Some(Take::ValueIf),
        Call::OptValueIf => Some(Take::OptValueIf),
        Call::Primitive => Some(Take::Primitive),
        Call::OptPrimitive => Some(Take::OptPrimitive),
        Call::PrimitiveIf => Some(Take::PrimitiveIf),
        Call::OptPrimitiveIf => Some(Take::OptPrimitiveIf),
        Call::Constructed => Some(Take::Constructed),
        Call::OptConstructed => Some(Take::OptConstructed),
        Call::ConstructedIf => Some(Take::ConstructedIf),
        Call::OptConstructedIf => Some(Take::OptConstructedIf),
        Call::Sequence => Some(Take::Sequence),
        Call::OptSequence => Some(Take::OptSequence),
        Call::Set => Some(Take::Set),
        Call::OptSet => Some(Take::OptSet),
        _ => None,
    }
}

/// Makes a call that takes a value by a closure, and returns its answer.
fn take<S: Source>(cons: &mut Constructed<'_, S>, take: Take, step: TakeStep) -> Answer
    ensures { Moved S.stream cons }
{
    let mut used = Used {
        tag: step.tag,
        with: step.with,
    };
    of_option(take_by(cons, take, step.tag, &mut used), step.tag)
}

/// Makes a call, and returns its answer.
#[tactic(auto, using(bcder::specs::laws::Moved::steps))]
pub fn perform<S: Source>(cons: &mut Constructed<'_, S>, step: TakeStep) -> Answer
    ensures { Moved S.stream cons }
{
    if let Some(call) = take_of(step.call) {
        return take(cons, call, step);
    }
    if let Some(typed) = typed_of(step.call, step.number) {
        return of_known(ask_typed(cons, typed), step.tag, step.number);
    }
    match step.call {
        Call::Walk => of_option(walk(cons), step.tag),
        _ => {
            cons.set_mode(Mode::Ber);
            Answer::Taken
        }
    }
}

/// How often each call was compared, and how often the mode of the content and what is left of the
/// source.
#[derive(Drop)]
pub struct Counts {
    calls: Vec<(Call, Tally)>,
    pub modes: Tally,
    pub left: Tally,
}

impl Counts {
    pub fn new(alloc: Global) -> Result<Counts, AllocError> {
        let mut calls = Vec::new(alloc);
        for entry in CALLS {
            calls.push((entry.1, Tally::default()))?;
        }
        Ok(Counts {
            calls,
            modes: Tally::default(),
            left: Tally::default(),
        })
    }

    /// Counts an answer of a call.
    fn count(&mut self, call: Call, same: bool) {
        for entry in self.calls.iter_mut() {
            if entry.0 == call {
                entry.1.count(same);
            }
        }
    }

    /// Returns what was counted of a call.
    pub fn of(&self, call: Call) -> Tally {
        for entry in &self.calls {
            if entry.0 == call {
                return entry.1;
            }
        }
        Tally::default()
    }
}

impl Differing for Counts {
    fn differ(&self) -> u64 {
        let mut all = self.modes;
        all.join(self.left);
        for entry in &self.calls {
            all.join(entry.1);
        }
        all.differ
    }
}

/// Does the steps, and compares their answers.
fn compare_steps<S: Source>(cons: &mut Constructed<'_, S>, steps: &[TakeStep], counts: &mut Counts)
    ensures { Moved S.stream cons }
{
    for step in steps {
        let answer = perform(cons, *step);
        counts.count(step.call, answer == step.answer);
    }
}

/// Enters a SEQUENCE, and does the steps there. The content has the mode of what is around it.
fn enter<S: Source>(
    cons: &mut Constructed<'_, S>,
    steps: &[TakeStep],
    mode: Mode,
    tag: Tag,
    counts: &mut Counts,
) -> Answer
    ensures { Moved S.stream cons }
{
    let entered = cons.take_sequence(
        |inner|
            ensures { Moved S.stream inner }
        {
            counts.modes.count(inner.mode() == mode);
            compare_steps(inner, steps, counts);
            Ok(())
        },
    );
    of_result(entered, tag)
}

/// Does the steps at top level, and compares their answers. The mode of the content stays.
fn compare_outside<S: Source>(
    cons: &mut Constructed<'_, S>,
    row: &Row<TakeStep>,
    mode: Mode,
    counts: &mut Counts,
)
    ensures { Moved S.stream cons }
{
    for step in &row.outside {
        let answer = if step.call == Call::Enter {
            enter(cons, &row.inside, mode, step.tag, counts)
        } else {
            perform(cons, *step)
        };
        counts.count(step.call, answer == step.answer);
    }
    counts.modes.count(cons.mode() == mode);
}

/// Returns whether a source has this number of octets left, by what it found of all.
pub fn has_left<E: Drop>(found: Result<usize, E>, left: usize) -> bool {
    match found {
        Ok(found) => found == left,
        Err(_) => false,
    }
}

/// Decodes the octets of a row from a source over them.
fn compare_over<S: Source>(source: &mut S, row: &Row<TakeStep>, mode: Mode, counts: &mut Counts) {
    let decoded = mode.decode_lent(source, |cons| {
        compare_outside(cons, row, mode, counts);
        Ok(())
    });
    let answer = of_result(decoded, Tag::END_OF_VALUE);
    match row.left {
        Ok(left) => {
            counts.count(Call::Decode, answer == Answer::Taken);
            let found = source.request(row.octets.len());
            counts.left.count(has_left(found, left));
        }
        Err(refusal) => {
            counts.count(Call::Decode, answer == refusal);
        }
    }
}

/// Does the steps of a line in its modes, over three sources, and compares their answers.
pub fn compare_line(alloc: Global, line: &str, counts: &mut Counts) -> Result<(), Error> {
    let row: Row<TakeStep> = row_of(alloc, line)?;
    for mode in &row.modes {
        compare_over(&mut SliceSource::new(&row.octets), &row, *mode, counts);
        let shared = Bytes::copy_from_slice(alloc, &row.octets)?;
        compare_over(&mut BytesSource::new(shared), &row, *mode, counts);
        let sipped = row.octets.clone()?;
        compare_over(&mut Sip::new(sipped, 0), &row, *mode, counts);
    }
    Ok(())
}
