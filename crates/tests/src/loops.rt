//! Tests of loops that collect values.
#![tactic(auto, using(bcder::specs::laws::Moved::steps))]

ghost use Rattle.bcder.specs.calls.Views.{Moved};

use crate::over::check_all;
use crate::reading::{Line, Look, Wanted, check_failing};
use bcder::Mode;
use bcder::decode::{Constructed, ContentError, DecodeError, Source};
use std::alloc::Global;

/// What is collected.
#[derive(Clone, Copy)]
enum Way {
    /// The numbers of a SEQUENCE OF INTEGER in order.
    Inside(&'static [u8]),

    /// Numbers of content without a limit, up to a NULL, which is taken then.
    UpToNull(&'static [u8]),

    /// Numbers of a SEQUENCE beyond its end. It is refused at the call with the first number, which
    /// takes nothing; the other counts the calls.
    Beyond(u64, u64),
}

/// A SEQUENCE of three, one and two.
const THREE: &[u8] = &[
    0x30, 0x09, 0x02, 0x01, 0x03, 0x02, 0x01, 0x01, 0x02, 0x01, 0x02,
];

/// Refused are a negative number, alone or after another number, a value that isn't an INTEGER, a
/// value that is cut, and a nine.
const LINES: [Line<'_, Way>; 11] = [
    Line(Mode::Der, &[0x30, 0x00], Way::Inside(&[]), Wanted::Right),
    Line(Mode::Der, THREE, Way::Inside(&[3, 1, 2]), Wanted::Right),
    Line(
        Mode::Ber,
        &[0x30, 0x80, 0x02, 0x01, 0x03, 0x02, 0x01, 0x01, 0x00, 0x00],
        Way::Inside(&[3, 1]),
        Wanted::Right,
    ),
    Line(
        Mode::Der,
        &[0x30, 0x03, 0x02, 0x01, 0xFF],
        Way::Inside(&[]),
        Wanted::Refused,
    ),
    Line(
        Mode::Der,
        &[0x30, 0x06, 0x02, 0x01, 0x03, 0x02, 0x01, 0xFF],
        Way::Inside(&[]),
        Wanted::Refused,
    ),
    Line(
        Mode::Der,
        &[0x30, 0x05, 0x02, 0x01, 0x03, 0x05, 0x00],
        Way::Inside(&[]),
        Wanted::Refused,
    ),
    Line(
        Mode::Der,
        &[0x30, 0x06, 0x02, 0x01, 0x03, 0x02, 0x01],
        Way::Inside(&[]),
        Wanted::Refused,
    ),
    Line(
        Mode::Der,
        &[0x02, 0x01, 0x03, 0x02, 0x01, 0x01, 0x05, 0x00],
        Way::UpToNull(&[3, 1]),
        Wanted::Right,
    ),
    Line(Mode::Der, &[0x30, 0x00], Way::Beyond(1, 0), Wanted::Refused),
    Line(
        Mode::Der,
        &[0x30, 0x06, 0x02, 0x01, 0x05, 0x02, 0x01, 0x06],
        Way::Beyond(3, 0),
        Wanted::Refused,
    ),
    // the refusal is that of the closure
    Line(
        Mode::Der,
        &[0x02, 0x01, 0x03, 0x02, 0x01, 0x09],
        Way::UpToNull(&[]),
        Wanted::Begins("a nine (at position "),
    ),
];

/// Takes the next number, if there is one, and refuses nine.
fn take_but_nine<S: Source>(
    cons: &mut Constructed<'_, S>,
) -> Result<Option<u8>, DecodeError<S::Error>>
    ensures { Moved S.stream cons }
{
    match cons.take_opt_u8()? {
        Some(9) => Err(cons.content_err(ContentError::from_static("a nine"))),
        found => Ok(found),
    }
}

/// Collects numbers, of which none may be nine, and returns whether they are these.
fn collect<S: Source>(
    alloc: Global,
    cons: &mut Constructed<'_, S>,
    wanted: &[u8],
) -> Result<bool, DecodeError<S::Error>>
    ensures { Moved S.stream cons }
{
    let numbers = cons.collect_some(alloc, |cons| take_but_nine(cons))?;
    Ok(numbers.as_slice() == wanted)
}

/// Collects numbers up to the end of the content and beyond it, where a call takes nothing, and
/// counts the calls.
fn collect_beyond<S: Source>(
    alloc: Global,
    cons: &mut Constructed<'_, S>,
    calls: &mut u64,
) -> Result<bool, DecodeError<S::Error>>
    ensures { Moved S.stream cons }
{
    let numbers = cons.collect_some(alloc, |cons| {
        *calls = calls.saturating_add(1);
        Ok(Some(cons.take_opt_u8()?))
    })?;
    Ok(numbers.is_empty())
}

impl Look for Way {
    fn look<S: Source>(
        &mut self,
        alloc: Global,
        cons: &mut Constructed<'_, S>,
    ) -> Result<bool, DecodeError<S::Error>> {
        match self {
            Way::Inside(numbers) => cons.take_sequence(|inner| collect(alloc, inner, *numbers)),
            Way::UpToNull(numbers) => {
                let same = collect(alloc, cons, *numbers)?;
                cons.take_null()?;
                Ok(same)
            }
            Way::Beyond(_, calls) => cons.take_sequence(|inner| collect_beyond(
                alloc, inner, calls,
            )),
        }
    }

    fn noted(&self) -> bool {
        match self {
            Way::Beyond(wanted, calls) => calls == wanted,
            _ => true,
        }
    }
}

#[test]
fn numbers_are_collected(rt: HostRuntime) {
    check_all(&rt, rt.alloc(), &LINES);
}

#[test]
fn a_failed_source_ends_the_collecting(rt: HostRuntime) {
    check_failing(&rt, rt.alloc(), 1, &LINES[1]);
}
