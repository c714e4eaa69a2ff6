//! Tests of values nested deeper than calls may be: skipping needs no level of calls for a level of
//! values.
#![tactic(auto, using(bcder::specs::laws::Moved::untouched_is_moved))]

ghost use Rattle.bcder.specs.calls.Views.{Moved};

use crate::asserts::done;
use crate::over::check_over;
use crate::reading::{Line, Look, Refusal, Wanted, why};
use bcder::decode::{Constructed, ContentError, DecodeError, Source};
use bcder::{Mode, Tag};
use std::alloc::Global;
use std::process::Abort;

/// The number of sequences that are opened.
const LEVELS: usize = 100_000;

/// What is done with nested sequences.
#[derive(Clone, Copy)]
enum Way<'a> {
    /// They are skipped, and the closure has to be told of so many. What it was told is noted.
    Skipped(usize, Told),

    /// They are captured as these octets.
    Captured(&'a [u8]),

    /// They are refused by a capture, so that all are left.
    Left,
}

/// What a closure was told: the number of headings, and whether they were those of nested
/// sequences.
#[derive(Clone, Copy)]
struct Told {
    calls: usize,
    nested: bool,
}

impl Told {
    /// Records the next heading, which should be that of a sequence, one level deeper than the one
    /// before it.
    fn hear(&mut self, tag: Tag, constructed: bool, depth: usize) {
        if tag != Tag::SEQUENCE || !constructed || depth != self.calls {
            self.nested = false;
        }
        self.calls = self.calls.saturating_add(1);
    }
}

/// Skips the next value, and records what the closure is told.
fn skip_told<S: Source>(
    cons: &mut Constructed<'_, S>,
    alloc: Global,
    told: &mut Told,
) -> Result<bool, DecodeError<S::Error>>
    ensures { Moved S.stream cons }
{
    let mut op = |tag: Tag, constructed: bool, depth: usize| -> Result<(), ContentError> {
        told.hear(tag, constructed, depth);
        Ok(())
    };
    cons.skip(alloc, &mut op)?;
    Ok(true)
}

/// Captures the next value, and returns whether it is these octets, or is refused if there are
/// none.
fn capture<S: Source>(cons: &mut Constructed<'_, S>, alloc: Global, wanted: Option<&[u8]>) -> bool
    ensures { Moved S.stream cons }
{
    match cons.capture_one(alloc) {
        Ok(values) => Some(values.as_slice()) == wanted,
        Err(error) => wanted.is_none() && why(error) == Refusal::Content,
    }
}

impl Look for Way<'_> {
    fn look<S: Source>(
        &mut self,
        alloc: Global,
        cons: &mut Constructed<'_, S>,
    ) -> Result<bool, DecodeError<S::Error>> {
        match self {
            Way::Skipped(_, told) => skip_told(cons, alloc, told),
            Way::Captured(octets) => Ok(capture(cons, alloc, Some(*octets))),
            Way::Left => Ok(capture(cons, alloc, None)),
        }
    }

    fn noted(&self) -> bool {
        match self {
            Way::Skipped(calls, told) => told.calls == *calls && told.nested,
            _ => true,
        }
    }
}

/// Returns sequences of indefinite length, each inside the one before it.
fn nested(rt: &impl Abort, alloc: Global) -> Vec<u8> {
    let mut octets = Vec::new(alloc);
    for _ in 0..LEVELS {
        done(rt, octets.extend_from_slice(&[0x30, 0x80]));
    }
    done(rt, octets.resize(4 * LEVELS, 0x00));
    octets
}

/// How many octets of the nested sequences are there, the mode, whether they are skipped up to the
/// end or refused, and after how many calls that ends, one for each level, at its depth. Each level
/// has two octets at its beginning and two at its end.
const LINES: [(usize, Mode, bool, usize); 5] = [
    (4 * LEVELS, Mode::Ber, true, LEVELS),
    (4 * LEVELS, Mode::Cer, true, LEVELS),
    (4 * LEVELS, Mode::Der, false, 0),
    (4 * LEVELS - 1, Mode::Ber, false, LEVELS),
    (2 * LEVELS, Mode::Ber, false, LEVELS),
];

/// Nothing was told yet.
const NONE: Told = Told {
    calls: 0,
    nested: true,
};

#[test]
fn nested_sequences(rt: HostRuntime) {
    let octets = nested(&rt, rt.alloc());
    for (row, (len, mode, taken, calls)) in LINES.iter().enumerate() {
        let front = &octets[..(*len).min(octets.len())];
        let (skipped, captured, left) = if *taken {
            (Wanted::Left(0), Way::Captured(front), 0)
        } else {
            (Wanted::Refused, Way::Left, front.len())
        };
        let line = Line(*mode, front, Way::Skipped(*calls, NONE), skipped);
        check_over(&rt, rt.alloc(), row, &line);
        let line = Line(*mode, front, captured, Wanted::Left(left));
        check_over(&rt, rt.alloc(), row, &line);
    }
}
