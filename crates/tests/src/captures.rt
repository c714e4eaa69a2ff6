//! Tests of captures, and of captured values, beside the typed readers.
#![tactic(auto, using(bcder::specs::laws::Moved::steps))]

ghost use Rattle.bcder.specs.calls.Views.{Moved};

use crate::asserts::Case;
use crate::captured::{Part, capture};
use crate::over::check_all;
use crate::reading::{Line, Look, Wanted};
use bcder::decode::{Constructed, DecodeError, Source};
use bcder::{Captured, Mode};
use std::alloc::Global;
use support::calls::{Answer, Typed, ask_typed};

/// Checks that what is decoded in part is gone, and that a refusal leaves what is there.
#[test]
fn captured_values_are_decoded_in_part(rt: HostRuntime) {
    let case = Case::new(&rt, rt.alloc(), 0);
    let octets = &[0x02, 0x01, 0x01, 0x02, 0x01, 0x02];
    let mut values = capture(&case, Mode::Der, octets, Part::All);
    for (typed, wanted) in [(Typed::U8, Some(Answer::Number(1))), (Typed::Bool, None)] {
        let taken = values.decode_partial(|cons| ask_typed(cons, typed));
        case.same(taken.ok(), wanted);
        case.same(values.as_slice(), &octets[3..]);
    }
    let taken = values.decode(|cons| cons.take_u8());
    case.same(case.done(taken), 2);
}

/// What is captured.
#[derive(Clone, Copy)]
enum Way {
    /// Each value up to the end of the content on its own: these.
    Each(&'static [&'static [u8]]),

    /// Each value in a SEQUENCE: these.
    Inside(&'static [&'static [u8]]),

    /// A value that is refused. The refusal is noted and dropped, and a number is taken then.
    Dropped(bool),
}

/// Refused are a value that is cut, also after another, values without the end-of-contents octets
/// that have to end them, and such octets where the length says that a value comes.
const LINES: [Line<'_, Way>; 10] = [
    Line(Mode::Der, &[0x30, 0x00], Way::Inside(&[]), Wanted::Right),
    Line(
        Mode::Der,
        &[0x30, 0x05, 0x02, 0x01, 0x05, 0x05, 0x00],
        Way::Inside(&[&[0x02, 0x01, 0x05], &[0x05, 0x00]]),
        Wanted::Right,
    ),
    Line(
        Mode::Cer,
        &[0x30, 0x80, 0x00, 0x00],
        Way::Inside(&[]),
        Wanted::Right,
    ),
    Line(
        Mode::Ber,
        &[
            0x30, 0x80, 0x30, 0x80, 0x02, 0x01, 0x05, 0x00, 0x00, 0x05, 0x00, 0x00, 0x00,
        ],
        Way::Inside(&[&[0x30, 0x80, 0x02, 0x01, 0x05, 0x00, 0x00], &[0x05, 0x00]]),
        Wanted::Right,
    ),
    Line(
        Mode::Der,
        &[0x30, 0x02, 0x05, 0x01],
        Way::Inside(&[]),
        Wanted::Refused,
    ),
    Line(
        Mode::Der,
        &[0x30, 0x05, 0x05, 0x00, 0x02, 0x02, 0x05],
        Way::Inside(&[]),
        Wanted::Refused,
    ),
    Line(
        Mode::Ber,
        &[0x30, 0x80, 0x05, 0x00],
        Way::Inside(&[]),
        Wanted::Refused,
    ),
    Line(
        Mode::Ber,
        &[0x30, 0x02, 0x00, 0x00],
        Way::Inside(&[]),
        Wanted::Refused,
    ),
    Line(
        Mode::Der,
        &[0x02, 0x01, 0x05, 0x30, 0x00],
        Way::Each(&[&[0x02, 0x01, 0x05], &[0x30, 0x00]]),
        Wanted::Right,
    ),
    // nothing is taken after a refused capture
    Line(
        Mode::Der,
        &[0x30, 0x03, 0x02, 0x05, 0x01],
        Way::Dropped(false),
        Wanted::Refused,
    ),
];

/// Returns whether these are the octets that were captured.
fn are_captured(found: &[Captured], wanted: &[&[u8]]) -> bool {
    found.len() == wanted.len()
        && found
            .iter()
            .zip(wanted.iter())
            .all(|(found, wanted)| found.as_slice() == *wanted)
}

/// Captures each value, and returns whether they are these.
fn capture_each<S: Source>(
    alloc: Global,
    cons: &mut Constructed<'_, S>,
    wanted: &[&[u8]],
) -> Result<bool, DecodeError<S::Error>>
    ensures { Moved S.stream cons }
{
    let found = cons.collect_some(alloc, |cons| cons.capture_opt_one(alloc))?;
    Ok(are_captured(found.as_slice(), wanted))
}

impl Look for Way {
    fn look<S: Source>(
        &mut self,
        alloc: Global,
        cons: &mut Constructed<'_, S>,
    ) -> Result<bool, DecodeError<S::Error>> {
        match self {
            Way::Each(wanted) => capture_each(alloc, cons, *wanted),
            Way::Inside(wanted) => cons.take_sequence(|inner| capture_each(alloc, inner, *wanted)),
            Way::Dropped(refused) => {
                *refused = cons.capture_opt_one(alloc).is_err();
                Ok(cons.take_u8()? == 0)
            }
        }
    }

    fn noted(&self) -> bool {
        match self {
            Way::Dropped(refused) => *refused,
            _ => true,
        }
    }
}

#[test]
fn each_value_is_captured(rt: HostRuntime) {
    check_all(&rt, rt.alloc(), &LINES);
}
