//! Rows of content, read at one place, so that what stands around a reader is proved once.
#![tactic(auto, using(bcder::specs::laws::Moved::steps))]

ghost use Rattle.bcder.specs.calls.Views.{Moved};

use crate::asserts::Case;
use crate::over::{Row, failing_sip};
use bcder::Mode;
use bcder::decode::{Constructed, DecodeError, Source};
use std::alloc::{AllocError, Global};
use std::fmt::Display;
use std::process::Abort;

/// Why nothing was read.
#[derive(Clone, Copy, Debug, PartialEq, Eq)]
pub enum Refusal {
    /// Content was refused.
    Content,

    /// Content was refused for a tag or a number that was expected, where that is told apart.
    Named,

    /// The source failed.
    Source,

    /// Memory ran out.
    Memory,
}

/// Returns why nothing was read.
pub fn why<E: Drop>(error: DecodeError<E>) -> Refusal {
    if error.is_source() {
        Refusal::Source
    } else if error.content_error().is_some() {
        Refusal::Content
    } else {
        Refusal::Memory
    }
}

/// Returns the text of an error.
fn text_of<E: Display>(alloc: Global, error: &DecodeError<E>) -> Result<String, AllocError> {
    format!(in alloc; "{error}")
}

// ---- rows

/// Reads content, and tells whether it is as it should be.
pub trait Look: Copy {
    /// Reads what the content holds next, and returns whether it is as it should be.
    fn look<S: Source>(
        &mut self,
        alloc: Global,
        cons: &mut Constructed<'_, S>,
    ) -> Result<bool, DecodeError<S::Error>>
        ensures { Moved S.stream cons };

    /// Returns whether what was noted is as it should be, also if content was refused.
    fn noted(&self) -> bool {
        true
    }
}

/// Looks at what stands at the start of a source.
fn look_at<L: Look, S: Source>(
    alloc: Global,
    mode: Mode,
    source: &mut S,
    looker: &mut L,
) -> Result<bool, DecodeError<S::Error>> {
    mode.decode_lent(source, |cons| looker.look(alloc, cons))
}

/// What reading has to come to.
#[derive(Clone, Copy)]
pub enum Wanted<'a> {
    /// What is read is as it should be.
    Right,

    /// What is read is as it should be, and so many octets are left.
    Left(usize),

    /// Content is refused.
    Refused,

    /// The failure of a source is dropped, and content is refused for it.
    Fails,

    /// Content is refused with this text.
    Says(&'a str),

    /// Content is refused with a text that begins so.
    Begins(&'a str),
}

/// A mode, octets, what looks at them, and what that has to come to.
#[derive(Clone, Copy)]
pub struct Line<'a, L>(pub Mode, pub &'a [u8], pub L, pub Wanted<'a>);

/// Checks why content was refused.
fn check_refusal<E: Display + Drop>(
    case: &Case<'_, impl Abort>,
    error: DecodeError<E>,
    wanted: Wanted<'_>,
) {
    let text = case.done(text_of(case.alloc, &error));
    case.holds(match wanted {
        Wanted::Refused => true,
        Wanted::Says(said) => text.as_str() == said,
        Wanted::Begins(said) => text.starts_with(said),
        _ => false,
    });
    case.same(why(error), Refusal::Content);
}

impl<L: Look> Row for Line<'_, L> {
    fn octets(&self) -> &[u8] {
        self.1
    }

    fn check<S: Source + Drop, R: Abort>(&self, case: &Case<'_, R>, source: S) {
        let mut source = source;
        let mut looker = self.2;
        match look_at(case.alloc, self.0, &mut source, &mut looker) {
            Err(error) => check_refusal(case, error, self.3),
            Ok(right) => match self.3 {
                Wanted::Right => case.holds(right),
                Wanted::Left(left) => {
                    case.holds(right);
                    case.same(case.done(source.request(self.1.len())), left);
                }
                _ => case.holds(false),
            },
        }
        case.holds(looker.noted());
    }
}

/// More requests than any of the lines that are read from failing sources needs.
const REQUESTS: usize = 64;

/// Reads a line from a source, each request of which fails once. Then the source's failure is
/// returned, else the line's own result.
pub fn check_failing<L: Look>(rt: &impl Abort, alloc: Global, row: usize, line: &Line<'_, L>) {
    for failing in 1..=REQUESTS {
        let case = Case::new(rt, alloc, row);
        let mut source = failing_sip(rt, alloc, line.1, failing);
        let mut looker = line.2;
        let found = look_at(alloc, line.0, &mut source, &mut looker);
        let failed = source.faults() == 1;
        let refused = matches!(line.3, Wanted::Refused);
        let fails = matches!(line.3, Wanted::Fails);
        case.holds(match found {
            Ok(right) => right && !failed && !refused,
            Err(error) => {
                let refusal = why(error);
                if fails || refusal == Refusal::Source {
                    failed
                } else {
                    refused && !failed && refusal == Refusal::Content
                }
            }
        });
        case.holds(looker.noted());
        case.holds(failing > 1 || source.faults() == 1);
        case.holds(failing < REQUESTS || source.faults() == 0);
    }
}
