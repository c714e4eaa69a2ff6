//! Decoding to the end of a source, and of contents octets, and octets that are lent, with values
//! from outside.
#![tactic(auto, using(bcder::specs::laws::Moved::steps))]

ghost use Rattle.bcder.specs.calls.Views.{Moved};

use crate::asserts::{Case, done, holds, same};
use crate::captured::{Part, capture};
use crate::over::{Row, check_all, failing_sip};
use bcder::decode::{
    CaptureSource, Constructed, DecodeError, LendingSource, LimitedSource, SliceSource, Source,
};
use bcder::{Mode, Tag};
use std::process::Abort;
use support::decoding::take_empty;

/// What is decoded, and has to be all of a source.
#[derive(Clone, Copy)]
enum Way {
    /// An empty value. It is true if there is one.
    Empty,

    /// A BOOLEAN in a SEQUENCE inside an OCTET STRING in a SEQUENCE. The octets are in this mode.
    Inside(Mode),
}

/// A BOOLEAN in a SEQUENCE, which the octets of an OCTET STRING are, in a mode.
fn take_octets<S: Source>(
    inner: Mode,
    cons: &mut Constructed<'_, S>,
) -> Result<bool, DecodeError<S::Error>>
    ensures { Moved S.stream cons }
{
    cons.take_primitive_if(
        Tag::OCTET_STRING,
        |octets| octets.decode_all(inner, |cons| cons.take_sequence(|cons| cons.take_bool())),
    )
}

/// Takes what is decoded.
fn take<S: Source>(cons: &mut Constructed<'_, S>, way: Way) -> Result<bool, DecodeError<S::Error>>
    ensures { Moved S.stream cons }
{
    match way {
        Way::Empty => take_empty(cons),
        Way::Inside(inner) => cons.take_sequence(|cons| take_octets(inner, cons)),
    }
}

/// Decodes all of a source in a mode.
fn decode_all<S: Source + Drop>(
    mode: Mode,
    source: S,
    way: Way,
) -> Result<bool, DecodeError<S::Error>> {
    mode.decode_all(source, |cons| take(cons, way))
}

#[test]
fn the_end_is_asked_for(rt: HostRuntime) {
    let mut failed = 0;
    for number in 1..9 {
        let source = failing_sip(&rt, rt.alloc(), &[0x05, 0x00], number);
        match decode_all(Mode::Der, source, Way::Empty) {
            Ok(found) => holds(&rt, found),
            Err(error) => {
                holds(&rt, error.is_source());
                failed = number;
            }
        }
    }
    // the header is asked for at least once, and the end once more
    holds(&rt, failed >= 2);
}

#[test]
fn all_captured_values(rt: HostRuntime) {
    let case = Case::new(&rt, rt.alloc(), 0);
    let two: &[u8] = &[0x05, 0x00, 0x30, 0x00];
    for (octets, wanted) in [(&two[..2], true), (two, false)] {
        let captured = capture(&case, Mode::Der, octets, Part::All);
        let found = captured.decode_all(|cons| take_empty(cons));
        case.same(found.is_ok(), wanted);
    }
}

/// A mode, octets, what is decoded, and the text of what is found or of the error. Without a text,
/// content is refused.
#[derive(Clone, Copy)]
struct Line(Mode, &'static [u8], Way, Option<&'static str>);

/// FF is true in each mode; 2A in BER alone, whatever the mode around it; and an octet that is left
/// behind the SEQUENCE inside.
const TRUE: &[u8] = &[0x30, 0x07, 0x04, 0x05, 0x30, 0x03, 0x01, 0x01, 0xFF];

const OTHER: &[u8] = &[0x30, 0x07, 0x04, 0x05, 0x30, 0x03, 0x01, 0x01, 0x2A];

const LEFT: &[u8] = &[0x30, 0x08, 0x04, 0x06, 0x30, 0x03, 0x01, 0x01, 0xFF, 0x00];

/// Behind NULL are an empty SEQUENCE, one octet, and octets that are no header; they are refused at
/// the first of them. In the last row the SEQUENCE inside is longer than the OCTET STRING.
const LINES: [Line; 11] = [
    Line(Mode::Der, &[0x05, 0x00], Way::Empty, Some("true")),
    Line(Mode::Der, &[], Way::Empty, Some("false")),
    Line(
        Mode::Der,
        &[0x05, 0x00, 0x30, 0x00],
        Way::Empty,
        Some("trailing data (at position 2)"),
    ),
    Line(
        Mode::Der,
        &[0x05, 0x00, 0x00],
        Way::Empty,
        Some("trailing data (at position 2)"),
    ),
    Line(
        Mode::Der,
        &[0x05, 0x00, 0xFF, 0xFF, 0xFF, 0xFF],
        Way::Empty,
        Some("trailing data (at position 2)"),
    ),
    Line(Mode::Der, TRUE, Way::Inside(Mode::Der), Some("true")),
    Line(Mode::Der, OTHER, Way::Inside(Mode::Ber), Some("true")),
    Line(
        Mode::Der,
        OTHER,
        Way::Inside(Mode::Der),
        Some("no boolean (at position 8)"),
    ),
    Line(
        Mode::Ber,
        OTHER,
        Way::Inside(Mode::Der),
        Some("no boolean (at position 8)"),
    ),
    Line(
        Mode::Der,
        LEFT,
        Way::Inside(Mode::Der),
        Some("trailing data (at position 9)"),
    ),
    Line(
        Mode::Der,
        &[
            0x30, 0x09, 0x04, 0x05, 0x30, 0x05, 0x01, 0x01, 0xFF, 0x05, 0x00,
        ],
        Way::Inside(Mode::Der),
        None,
    ),
];

impl Row for Line {
    fn octets(&self) -> &[u8] {
        self.1
    }

    fn check<S: Source + Drop, R: Abort>(&self, case: &Case<'_, R>, source: S) {
        match (decode_all(self.0, source, self.2), self.3) {
            (Ok(found), Some(text)) => case.shows(&found, text),
            (Err(error), Some(text)) => case.shows(&error, text),
            (Err(error), None) => case.holds(error.content_error().is_some()),
            _ => case.holds(false),
        }
    }
}

#[test]
fn all_of_a_source(rt: HostRuntime) {
    check_all(&rt, rt.alloc(), &LINES);
}

/// The octets of an OCTET STRING, lent.
fn take_lent<S: LendingSource>(
    cons: &mut Constructed<'_, S>,
) -> Result<S::Lent, DecodeError<S::Error>>
    ensures { Moved S.stream cons }
{
    cons.take_primitive_if(Tag::OCTET_STRING, |octets| octets.take_lent())
}

/// Decodes an OCTET STRING, which has to be all of a source, and returns its octets, lent.
fn lent_of<S: LendingSource + Drop>(source: S) -> Result<S::Lent, DecodeError<S::Error>> {
    Mode::Der.decode_all(source, |cons| take_lent(cons))
}

#[test]
fn octets_are_lent(rt: HostRuntime) {
    let octets: &[u8] = &[0x04, 0x03, 0x61, 0x62, 0x63];
    let lent = lent_of(SliceSource::new(octets));
    same(&rt, done(&rt, lent), b"abc".as_slice());
    // one octet fewer comes than the length promises
    holds(&rt, lent_of(SliceSource::new(&octets[..4])).is_err());
}

#[test]
fn sources_lend(rt: HostRuntime) {
    let octets: &[u8] = &[1, 2, 3, 4, 5];
    let mut source = SliceSource::new(octets);
    same(&rt, source.skip(1).ok(), Some(1));
    same(&rt, source.lent(1, 3), &octets[2..4]);
    let mut limited = LimitedSource::new(&mut source);
    limited.set_limit(Some(3));
    same(&rt, limited.lent(0, 3), &octets[1..4]);
    let mut capturing = CaptureSource::new(&mut limited);
    same(&rt, Source::skip(&mut capturing, 2).ok(), Some(2));
    match capturing.request(1) {
        Ok(found) if found >= 1 => same(&rt, capturing.lent(0, 1), &octets[3..4]),
        _ => holds(&rt, false),
    }
    same(&rt, capturing.lent(0, 0), &octets[..0]);
}
