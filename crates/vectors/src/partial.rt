//! Compares decoding captured values in part: what is taken, and what is left of them.
ghost use Rattle.bcder.specs.calls.Views.{Moved};

use crate::takes::perform;
use anyhow::Error;
use bcder::decode::{Constructed, ContentError, DecodeError, SliceSource, Source};
use bcder::{Captured, Mode};
use lines::calls::{Answer, TakeStep};
use lines::fields::{mode_of, next, octets_of};
use lines::row::Step;
use lines::tally::Tally;
use std::alloc::Global;

/// Returns whether an answer is a value, or that there is none.
fn is_taken(answer: Answer) -> bool {
    matches!(
        answer,
        Answer::Taken | Answer::Truth(_) | Answer::Number(_) | Answer::Absent
    )
}

/// Does a step, and returns an error if it is refused.
#[tactic(auto, using(bcder::specs::laws::Moved::steps))]
fn take<S: Source>(
    cons: &mut Constructed<'_, S>,
    step: TakeStep,
) -> Result<Answer, DecodeError<S::Error>>
    ensures { Moved S.stream cons }
{
    let answer = perform(cons, step);
    if is_taken(answer) {
        Ok(answer)
    } else {
        Err(cons.content_err(ContentError::from_static("refused")))
    }
}

/// Captures all values of octets, or returns `None` if they are refused.
fn captured(alloc: Global, mode: Mode, octets: &[u8]) -> Option<Captured> {
    let mut source = SliceSource::new(octets);
    match mode.decode_lent(&mut source, |cons| cons.capture_all(alloc)) {
        Ok(captured) => Some(captured),
        Err(_) => None,
    }
}

/// Compares what a step takes of captured values, and what it leaves of them.
pub fn compare_line(alloc: Global, line: &str, tally: &mut Tally) -> Result<(), Error> {
    let mut fields = line.split('\t');
    let mode = mode_of(next(&mut fields)?)?;
    let octets = octets_of(alloc, next(&mut fields)?)?;
    let step = TakeStep::of(alloc, next(&mut fields)?)?;
    let left = octets_of(alloc, next(&mut fields)?)?;
    let Some(mut captured) = captured(alloc, mode, &octets) else {
        tally.count(false);
        return Ok(());
    };
    let same = match captured.decode_partial(|cons| take(cons, step)) {
        Ok(answer) => answer == step.answer,
        Err(_) => !is_taken(step.answer),
    };
    tally.count(same);
    tally.count(captured.as_slice() == left.as_slice());
    Ok(())
}
