//! Calls on sources, and what each returns, as data: each call stands here once.
use crate::asserts::Case;
use crate::reading::{Refusal, why};
use bcder::decode::{ContentError, DecodeError, LimitedSource, Source};
use std::process::Abort;

/// A call that each source has. If the source fails, its result is `None`.
#[derive(Clone, Copy)]
pub enum Step {
    /// Requests octets, finds so many, and passes over the first of them.
    Request(usize, Option<usize>, usize),

    /// Requests octets, and finds so many or more.
    Least(usize),

    /// These octets are available.
    Slice(&'static [u8]),

    /// Requests as many octets as these are, and keeps these.
    Bytes(&'static [u8]),

    /// Skips octets, or as many as there are.
    Skip(usize, Option<usize>),

    /// Takes an octet, or returns why it doesn't.
    Octet(Result<u8, Refusal>),

    /// Takes an octet, if there is one.
    OptOctet(Option<Option<u8>>),

    /// The position is shown so.
    At(&'static str),
}

/// Returns what a call returned, or why it was refused.
fn refusal<T: Drop, E: Drop>(outcome: Result<T, DecodeError<E>>) -> Result<T, Refusal> {
    match outcome {
        Ok(value) => Ok(value),
        Err(error) => {
            let is_named = match error.content_error() {
                Some(ContentError::Static(_)) => false,
                found => found.is_some(),
            };
            Err(if is_named { Refusal::Named } else { why(error) })
        }
    }
}

/// Requests octets, passes over the first of them, and returns how many there were.
fn request<S: Source>(source: &mut S, len: usize, passed: usize) -> Option<usize> {
    let found = source.request(len).ok()?;
    if passed <= found {
        source.advance(passed);
    }
    Some(found)
}

/// Returns whether a source keeps these octets, which come next.
fn keeps<S: Source>(case: &Case<'_, impl Abort>, source: &mut S, octets: &[u8]) -> bool {
    match source.request(octets.len()) {
        Ok(found) if found >= octets.len() => {
            case.done(source.bytes(case.alloc, 0, octets.len()))
                .as_slice()
                == octets
        }
        _ => false,
    }
}

/// Makes a call, and returns whether its result is the wanted one.
fn is_as_wanted<S: Source>(case: &Case<'_, impl Abort>, source: &mut S, step: Step) -> bool {
    match step {
        Step::Request(len, found, passed) => request(source, len, passed) == found,
        Step::Least(len) => request(source, len, 0) >= Some(len),
        Step::Slice(octets) => source.slice() == octets,
        Step::Bytes(octets) => keeps(case, source, octets),
        Step::Skip(len, found) => source.skip(len).ok() == found,
        Step::Octet(octet) => refusal(source.take_u8()) == octet,
        Step::OptOctet(octet) => source.take_opt_u8().ok() == octet,
        Step::At(text) => {
            case.shows(&source.pos(), text);
            true
        }
    }
}

/// Makes calls on a source, and checks what each returns.
pub fn follow<S: Source>(case: &Case<'_, impl Abort>, source: &mut S, steps: &[Step]) {
    for (number, step) in steps.iter().enumerate() {
        case.at(number, is_as_wanted(case, source, *step));
    }
}

/// A call on a source with a limit.
#[derive(Clone, Copy)]
pub enum Limit {
    /// A call that each source has.
    Of(Step),

    /// This is the limit.
    Is(Option<usize>),

    /// Sets the limit.
    Set(Option<usize>),

    /// Skips all octets up to the limit, or returns why it doesn't.
    SkipAll(Result<(), Refusal>),

    /// Takes all octets up to the limit, or returns why it doesn't.
    TakeAll(Result<&'static [u8], Refusal>),

    /// No octet is left.
    Exhausted(Result<(), Refusal>),
}

/// Takes all octets up to the limit, and returns whether they are these.
fn takes_all<S: Source>(
    case: &Case<'_, impl Abort>,
    source: &mut LimitedSource<S>,
    wanted: Result<&[u8], Refusal>,
) -> bool {
    match source.limit() {
        Some(_) => match (refusal(source.take_all(case.alloc)), wanted) {
            (Ok(taken), Ok(octets)) => taken.as_slice() == octets,
            (taken, wanted) => taken.err() == wanted.err(),
        },
        None => false,
    }
}

/// Makes a call on a source with a limit, and returns whether its result is the wanted one.
fn is_as_wanted_of_limited<S: Source>(
    case: &Case<'_, impl Abort>,
    source: &mut LimitedSource<S>,
    step: Limit,
) -> bool {
    match step {
        Limit::Of(step) => is_as_wanted(case, source, step),
        Limit::Is(limit) => source.limit() == limit,
        Limit::Set(limit) => {
            source.set_limit(limit);
            true
        }
        Limit::SkipAll(wanted) => match source.limit() {
            Some(_) => refusal(source.skip_all()) == wanted,
            None => false,
        },
        Limit::TakeAll(wanted) => takes_all(case, source, wanted),
        Limit::Exhausted(wanted) => refusal(source.exhausted()) == wanted,
    }
}

/// Makes calls on a source with a limit, and checks what each returns.
pub fn follow_limit<S: Source>(
    case: &Case<'_, impl Abort>,
    source: &mut LimitedSource<S>,
    steps: &[Limit],
) {
    for (number, step) in steps.iter().enumerate() {
        case.at(number, is_as_wanted_of_limited(case, source, *step));
    }
}
