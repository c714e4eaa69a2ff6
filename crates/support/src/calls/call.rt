//! The calls on content, in one list.
ghost use Rattle.bcder.specs.calls.Views.{Moved};

use super::answer::Answer;
use super::kept::{Kept, Text};
use super::octets::{Either, Reader};
use super::passes::{Capture, Pass};
use super::takes::Take;
use super::typed::Typed;
use super::{kept, octets, passes, takes, typed};
use bcder::decode::{Constructed, DecodeError, Source};
use std::alloc::Global;

/// A call on content.
#[derive(Clone, Copy)]
pub enum Call {
    Take(Take),
    Typed(Typed),
    Pass(Pass),
    Capture(Capture),
    Read(Reader),
    Content(Either),
    Kept(Kept),
    Text(Text),
}

impl Call {
    /// Returns whether a refusal of the call leaves the content as it was.
    pub fn captures(self) -> bool {
        matches!(self, Call::Capture(_))
    }
}

/// Makes the call, and returns its answer.
pub fn ask<S: Source>(
    cons: &mut Constructed<'_, S>,
    alloc: Global,
    call: Call,
) -> Result<Answer, DecodeError<S::Error>>
    ensures { Moved S.stream cons }
{
    match call {
        Call::Take(take) => takes::ask(cons, take),
        Call::Typed(typed) => typed::ask(cons, typed),
        Call::Pass(pass) => passes::ask(cons, alloc, pass),
        Call::Capture(capture) => passes::ask_captured(cons, alloc, capture),
        Call::Read(reader) => octets::ask(cons, alloc, reader),
        Call::Content(either) => octets::ask_content(cons, alloc, either),
        Call::Kept(kept) => kept::ask(cons, alloc, kept),
        Call::Text(text) => kept::ask_text(cons, alloc, text),
    }
}
