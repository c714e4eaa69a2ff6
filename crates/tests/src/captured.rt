//! Tests of captured values: how they are written, in which modes they are refused, and how they
//! are built.
#![tactic(auto, using(bcder::specs::laws::Moved::steps))]

ghost use Rattle.bcder.specs.calls.Views.{Moved};

use crate::asserts::{Case, holds};
use crate::encodes::{Wanted, are_wanted};
use bcder::captured::CapturedBuilder;
use bcder::decode::{Constructed as Content, DecodeError, IntoSource, SliceSource, Source};
use bcder::encode::{Constructed, EncodeError, Nothing, PrimitiveContent, Values, sequence};
use bcder::{Captured, Mode, NoMemory, Tag};
use std::alloc::Global;
use std::process::Abort;

/// Skips a value in BER.
fn pass_in_ber<S: Source>(
    cons: &mut Content<'_, S>,
    alloc: Global,
) -> Result<(), DecodeError<S::Error>>
    ensures { Moved S.stream cons }
{
    cons.set_mode(Mode::Ber);
    cons.skip_one(alloc)?;
    Ok(())
}

/// What is captured.
#[derive(Clone, Copy)]
pub enum Part {
    All,

    /// What a SEQUENCE holds.
    Inside,

    /// What is skipped in BER.
    InBer,

    /// What follows a value.
    Second,
}

/// Captures a part of the content.
fn capture_part<S: Source>(
    cons: &mut Content<'_, S>,
    alloc: Global,
    part: Part,
) -> Result<Captured, DecodeError<S::Error>>
    ensures { Moved S.stream cons }
{
    match part {
        Part::All => cons.capture_all(alloc),
        Part::Inside => cons.take_sequence(|inner| inner.capture_all(alloc)),
        Part::InBer => cons.capture(alloc, |inner| pass_in_ber(inner, alloc)),
        Part::Second => {
            cons.skip_one(alloc)?;
            cons.capture_one(alloc)
        }
    }
}

/// How captured values are made.
#[derive(Clone, Copy)]
enum Made {
    /// All values of the octets, in a mode.
    All(Mode),

    /// None, in DER.
    Empty,

    /// What a SEQUENCE in BER holds.
    Inside,

    /// What is skipped in BER, inside DER.
    InBer,

    /// What follows an empty OCTET STRING, in DER; a copy of it; and what is built of it, with six
    /// behind it or nothing.
    Second,
    Copy,
    More,
    Again,

    /// What an encoder writes: in DER; in BER; in CER, where it is handed over; nothing, in DER.
    ToCaptured,
    FromValues,
    HandedOver,
    Nothing,

    /// Captured values in a row, inside a SEQUENCE in DER, and alone in BER.
    Listed,
    Several,

    /// What is built of several, or of none, in CER.
    Built,
    OfNone,

    /// What is built with room, and what is left of a builder that refused, in DER.
    WithRoom,
    Kept,
}

/// The modes in which values that were captured in BER, CER or DER are written.
const BER: [bool; 3] = [true, false, false];

const CER: [bool; 3] = [true, true, false];

const DER: [bool; 3] = [true, false, true];

/// Captured values, their octets, the modes in which they are written, and their position in their
/// source.
type Line = (Made, &'static [u8], [bool; 3], &'static str);

const FIVE: &[u8] = &[0x02, 0x01, 0x05];

const DEFINITE: &[u8] = &[0x02, 0x01, 0x05, 0x30, 0x03, 0x01, 0x01, 0xFF];

const INDEFINITE: &[u8] = &[0x02, 0x01, 0x05, 0x30, 0x80, 0x01, 0x01, 0xFF, 0x00, 0x00];

const LINES: [Line; 20] = [
    (
        Made::All(Mode::Ber),
        &[0x30, 0x80, 0x02, 0x01, 0x05, 0x00, 0x00],
        BER,
        "0",
    ),
    (
        Made::All(Mode::Cer),
        &[0x30, 0x80, 0x02, 0x01, 0x05, 0x00, 0x00],
        CER,
        "0",
    ),
    (
        Made::All(Mode::Der),
        &[0x30, 0x03, 0x02, 0x01, 0x05],
        DER,
        "0",
    ),
    (Made::Empty, &[], DER, "0"),
    (Made::Inside, FIVE, BER, "2"),
    (Made::InBer, &[0x30, 0x80, 0x00, 0x00], BER, "0"),
    (Made::Second, FIVE, DER, "2"),
    (Made::Copy, FIVE, DER, "2"),
    (Made::More, &[0x02, 0x01, 0x05, 0x02, 0x01, 0x06], DER, "0"),
    (Made::Again, FIVE, DER, "0"),
    (Made::ToCaptured, DEFINITE, DER, "0"),
    (Made::FromValues, DEFINITE, BER, "0"),
    (Made::HandedOver, INDEFINITE, CER, "0"),
    (Made::Nothing, &[], DER, "0"),
    (
        Made::Listed,
        &[0x30, 0x05, 0x02, 0x01, 0x05, 0x05, 0x00],
        DER,
        "0",
    ),
    (Made::Several, &[0x02, 0x01, 0x05, 0x05, 0x00], BER, "0"),
    (Made::Built, INDEFINITE, CER, "0"),
    (Made::OfNone, &[], CER, "0"),
    (
        Made::WithRoom,
        &[0x30, 0x03, 0x01, 0x01, 0xFF, 0x01, 0x01, 0x00],
        DER,
        "0",
    ),
    (Made::Kept, &[0x02, 0x01, 0x01], DER, "0"),
];

/// Captures a part of the octets in a mode.
pub fn capture(case: &Case<'_, impl Abort>, mode: Mode, octets: &[u8], part: Part) -> Captured {
    let mut source = SliceSource::new(octets);
    let alloc = case.alloc;
    case.done(mode.decode_lent(&mut source, |cons| capture_part(cons, alloc, part)))
}

/// A SEQUENCE of an INTEGER; an empty OCTET STRING and an INTEGER; and an empty SEQUENCE.
const HELD: &[u8] = &[0x30, 0x80, 0x02, 0x01, 0x05, 0x00, 0x00];

const BEHIND: &[u8] = &[0x04, 0x00, 0x02, 0x01, 0x05];

const OPEN: &[u8] = &[0x30, 0x80, 0x00, 0x00];

/// Copies captured values.
fn copy(case: &Case<'_, impl Abort>) -> Captured {
    case.done(capture(case, Mode::Der, BEHIND, Part::Second).clone())
}

/// Builds on captured values.
fn build_on(case: &Case<'_, impl Abort>, more: bool) -> Captured {
    let captured = capture(case, Mode::Der, BEHIND, Part::Second);
    let mut builder = case.done(captured.into_builder(case.alloc));
    if more {
        case.done(builder.extend(6u8.encode()));
    }
    case.done(builder.freeze())
}

/// Captures what an encoder writes.
fn encode(case: &Case<'_, impl Abort>, made: Made) -> Captured {
    let alloc = case.alloc;
    let values = (5u8.encode(), sequence(true.encode()));
    let found = match made {
        Made::ToCaptured => values.to_captured(alloc, Mode::Der),
        Made::FromValues => Captured::from_values(alloc, Mode::Ber, &values),
        Made::HandedOver => Captured::from_values(alloc, Mode::Cer, values),
        _ => Nothing.to_captured(alloc, Mode::Der),
    };
    case.done(found)
}

/// Captures an INTEGER, nothing, and NULL, and then all of them, inside a SEQUENCE or not.
fn gather(case: &Case<'_, impl Abort>, made: Made) -> Captured {
    let mut list = Vec::new(case.alloc);
    case.done(list.push(capture(case, Mode::Der, FIVE, Part::All)));
    case.done(list.push(Captured::empty(case.alloc, Mode::Der)));
    case.done(list.push(capture(case, Mode::Der, &[0x05, 0x00], Part::All)));
    let found = match made {
        Made::Listed => sequence(list.as_slice()).to_captured(case.alloc, Mode::Der),
        _ => list.to_captured(case.alloc, Mode::Ber),
    };
    case.done(found)
}

/// Builds of an INTEGER, a SEQUENCE and nothing.
fn build(case: &Case<'_, impl Abort>) -> Captured {
    let mut builder = Captured::builder(case.alloc, Mode::Cer);
    case.done(builder.extend(5u8.encode()));
    case.done(builder.extend(sequence(true.encode())));
    case.done(builder.extend(Nothing));
    case.done(builder.freeze())
}

/// Builds with less room than is needed.
fn build_with_room(case: &Case<'_, impl Abort>) -> Captured {
    let mut builder = case.done(CapturedBuilder::with_capacity(case.alloc, 5, Mode::Der));
    case.done(builder.extend(sequence(true.encode())));
    case.done(builder.extend(false.encode()));
    case.done(builder.freeze())
}

/// Builds of one value, where refused ones change nothing.
fn keep(case: &Case<'_, impl Abort>) -> Captured {
    let basic = capture(case, Mode::Ber, FIVE, Part::All);
    let mut builder = Captured::builder(case.alloc, Mode::Der);
    case.done(builder.extend(1u8.encode()));
    case.same(builder.extend(&basic), Err(EncodeError::CapturedMode));
    let behind = builder.extend((2u8.encode(), &basic));
    case.same(behind, Err(EncodeError::CapturedMode));
    let marker = builder.extend((2u8.encode(), true.encode_as(Tag::END_OF_VALUE)));
    case.same(marker, Err(EncodeError::EndOfValueTag));
    case.done(builder.freeze())
}

/// Makes the captured values of a line.
fn make(case: &Case<'_, impl Abort>, made: Made, octets: &[u8]) -> Captured {
    match made {
        Made::All(mode) => capture(case, mode, octets, Part::All),
        Made::Empty => Captured::empty(case.alloc, Mode::Der),
        Made::Inside => capture(case, Mode::Ber, HELD, Part::Inside),
        Made::InBer => capture(case, Mode::Der, OPEN, Part::InBer),
        Made::Second => capture(case, Mode::Der, BEHIND, Part::Second),
        Made::Copy => copy(case),
        Made::More => build_on(case, true),
        Made::Again => build_on(case, false),
        Made::Listed | Made::Several => gather(case, made),
        Made::Built => build(case),
        Made::OfNone => case.done(CapturedBuilder::new(case.alloc, Mode::Cer).freeze()),
        Made::WithRoom => build_with_room(case),
        Made::Kept => keep(case),
        _ => encode(case, made),
    }
}

/// What captured values do in modes in which they are written unchanged, or refused, since they
/// were captured in another.
fn wanted_of(octets: &[u8], written: [bool; 3]) -> [Wanted<'_>; 3] {
    let refused = Wanted::Refused(EncodeError::CapturedMode);
    let mut wanted = [refused; 3];
    for (mode, written) in written.iter().enumerate() {
        if mode < 3 && *written {
            wanted[mode] = Wanted::Octets(octets);
        }
    }
    wanted
}

/// Asserts what captured values do in BER, CER and DER, and what their position is.
fn check_captured(
    case: &Case<'_, impl Abort>,
    captured: Captured,
    wanted: [Wanted<'_>; 3],
    at: &str,
) {
    are_wanted(case, &captured, wanted);
    case.shows(&captured.into_source().pos(), at);
}

/// Checks that the values are captured again in a mode, from position 0 on, or that they are
/// refused.
fn check_again(case: &Case<'_, impl Abort>, captured: &Captured, mode: Mode, wanted: Wanted<'_>) {
    match (captured.to_captured(case.alloc, mode), wanted) {
        (Ok(again), Wanted::Octets(octets)) => {
            case.same(again.as_slice(), octets);
            let mut same = [Wanted::Any; 3];
            match mode {
                Mode::Ber => same[0] = wanted,
                Mode::Cer => same[1] = wanted,
                Mode::Der => same[2] = wanted,
            }
            check_captured(case, again, same, "0");
        }
        (Err(error), Wanted::Refused(refused)) => case.same(error, refused),
        _ => case.holds(false),
    }
}

/// Checks what a line says of captured values.
fn check(case: &Case<'_, impl Abort>, line: Line) {
    let (made, octets, written, at) = line;
    let captured = make(case, made, octets);
    case.same(captured.as_slice(), octets);
    let wanted = wanted_of(octets, written);
    for (mode, wanted) in [Mode::Ber, Mode::Cer, Mode::Der].iter().zip(wanted) {
        check_again(case, &captured, *mode, wanted);
    }
    check_captured(case, captured, wanted, at);
}

#[test]
fn captured_values(rt: HostRuntime) {
    for (row, line) in LINES.iter().enumerate() {
        check(&Case::new(&rt, rt.alloc(), row), *line);
    }
}

#[test]
fn no_memory_has_so_much_room(rt: HostRuntime) {
    let none = CapturedBuilder::with_capacity(rt.alloc(), usize::MAX, Mode::Der);
    holds(&rt, matches!(none, Err(NoMemory)));
}

/// Asserts that the values are refused in CER for this reason.
fn refused<V: Values>(case: &Case<'_, impl Abort>, values: &V, error: EncodeError)
    requires { V.can_encode values.now }
{
    are_wanted(
        case,
        values,
        [Wanted::Any, Wanted::Refused(error), Wanted::Any],
    );
}

/// Checks that captured values in DER, and the tag of end-of-contents octets around them, behind
/// them or before them, are refused in CER for the first of the two.
#[test]
fn the_first_refusal_is_answered(rt: HostRuntime) {
    let case = Case::new(&rt, rt.alloc(), 0);
    let none = Captured::empty(rt.alloc(), Mode::Der);
    let inside = Constructed::new(Tag::END_OF_VALUE, &none);
    refused(&case, &inside, EncodeError::EndOfValueTag);
    let first = sequence((&none, true.encode_as(Tag::END_OF_VALUE)));
    refused(&case, &first, EncodeError::CapturedMode);
    let second = sequence((true.encode_as(Tag::END_OF_VALUE), &none));
    refused(&case, &second, EncodeError::EndOfValueTag);
}
