//! The calls that skip values, or capture them.
ghost use Rattle.bcder.specs.calls.Views.{Moved};

use super::answer::{Answer, passed};
use bcder::decode::{Constructed, DecodeError, Source, walk};
use std::alloc::Global;

/// A call that skips values.
#[derive(Clone, Copy)]
pub enum Pass {
    Walk,
    SkipOne,
    SkipOpt,
    Skip,
    CaptureOpt,
    SkipAll,
    WhileSome,
}

/// Skips the next value with a closure that refuses nothing.
fn skip_opt<S: Source>(
    cons: &mut Constructed<'_, S>,
    alloc: Global,
) -> Result<Option<()>, DecodeError<S::Error>>
    ensures { Moved S.stream cons }
{
    cons.skip_opt(alloc, &mut |_tag, _constructed, _depth| Ok(()))
}

/// Skips the next value, which has to be there, with a closure that refuses nothing.
fn skip<S: Source>(
    cons: &mut Constructed<'_, S>,
    alloc: Global,
) -> Result<Option<()>, DecodeError<S::Error>>
    ensures { Moved S.stream cons }
{
    cons.skip(alloc, &mut |_tag, _constructed, _depth| Ok(()))?;
    Ok(Some(()))
}

/// Captures the next value, if there is one, and drops what is captured.
fn capture_opt<S: Source>(
    cons: &mut Constructed<'_, S>,
    alloc: Global,
) -> Result<Option<()>, DecodeError<S::Error>>
    ensures { Moved S.stream cons }
{
    match cons.capture_opt_one(alloc)? {
        Some(_) => Ok(Some(())),
        None => Ok(None),
    }
}

/// Skips several values.
fn pass_all<S: Source>(
    cons: &mut Constructed<'_, S>,
    alloc: Global,
    pass: Pass,
) -> Result<Option<()>, DecodeError<S::Error>>
    ensures { Moved S.stream cons }
{
    match pass {
        Pass::SkipAll => cons.skip_all(alloc)?,
        _ => cons.while_some(|cons| cons.take_opt_sequence(|inner| inner.skip_all(alloc)))?,
    }
    Ok(Some(()))
}

/// Makes a call that skips values, and returns its answer.
pub fn ask<S: Source>(
    cons: &mut Constructed<'_, S>,
    alloc: Global,
    pass: Pass,
) -> Result<Answer, DecodeError<S::Error>>
    ensures { Moved S.stream cons }
{
    let found = match pass {
        Pass::Walk => walk(cons)?,
        Pass::SkipOne => cons.skip_one(alloc)?,
        Pass::SkipOpt => skip_opt(cons, alloc)?,
        Pass::Skip => skip(cons, alloc)?,
        Pass::CaptureOpt => capture_opt(cons, alloc)?,
        _ => pass_all(cons, alloc, pass)?,
    };
    Ok(passed(found))
}

/// A call that captures values.
#[derive(Clone, Copy)]
pub enum Capture {
    One,
    All,
    Sequence,
}

/// Skips a SEQUENCE.
fn pass_sequence<S: Source>(
    cons: &mut Constructed<'_, S>,
    alloc: Global,
) -> Result<(), DecodeError<S::Error>>
    ensures { Moved S.stream cons }
{
    cons.take_sequence(|inner| inner.skip_all(alloc))
}

/// Makes a call that captures values, and returns the number of octets that were captured.
pub fn ask_captured<S: Source>(
    cons: &mut Constructed<'_, S>,
    alloc: Global,
    capture: Capture,
) -> Result<Answer, DecodeError<S::Error>>
    ensures { Moved S.stream cons }
{
    let captured = match capture {
        Capture::One => cons.capture_one(alloc)?,
        Capture::All => cons.capture_all(alloc)?,
        Capture::Sequence => cons.capture(alloc, |inner| pass_sequence(inner, alloc))?,
    };
    Ok(Answer::Number(captured.len()))
}
