//! Tests of sources and errors, with values from outside. The digits are ASCII octets.
use crate::asserts::{Case, done, holds, same, shows};
use crate::over::{Row, check_all, failing_sip, shared, sip};
use crate::reading::Refusal;
use crate::steps::{Limit, Step, follow, follow_limit};
use bcder::decode::{
    BytesSource, CaptureSource, ContentError, DecodeError, IntoSource, LimitedSource, Message, Pos,
    SliceSource, Source,
};
use bcder::encode::{EncodeError, WriteError};
use bcder::{NoMemory, Tag};
use bytes::Bytes;
use std::alloc::{AllocFailed, Global};
use std::convert::Infallible;
use std::process::Abort;
use support::borrows::{
    TakeError, capture_passed, capture_two, has_two, pass_two, pass_two_within, skip_two,
    take_exactly, without_two,
};
use support::sip::SipError;

/// Checks a limit over a capturing source over a limit.
fn check_nested<S: Source>(case: &Case<'_, impl Abort>, inner: &mut LimitedSource<S>) {
    inner.set_limit(Some(4));
    let mut view = LimitedSource::new(CaptureSource::new(inner));
    view.set_limit(Some(5));
    case.same(case.done(view.request(9)), 4);
    case.holds(view.take_all(case.alloc).is_err());
    case.same(view.limit(), Some(5));
    case.same(case.done(view.request(9)), 4);
    view.set_limit(Some(4));
    case.same(
        case.done(view.take_all(case.alloc)).as_slice(),
        b"1234".as_slice(),
    );
    case.same(view.limit(), Some(0));
    let mut capture = view.unwrap();
    case.done(capture.request(0));
    case.same(
        case.done(capture.into_bytes(case.alloc)).as_slice(),
        b"1234".as_slice(),
    );
}

fn check_capture<S: Source>(case: &Case<'_, impl Abort>, source: &mut S) {
    let mut capture = CaptureSource::new(source);
    let found = case.done(capture.request(4));
    case.at_least(found, 4);
    capture.advance(4);
    let taken = case.done(capture.into_bytes(case.alloc));
    case.same(taken.as_slice(), b"1234".as_slice());
}

fn check_later_capture<S: Source>(case: &Case<'_, impl Abort>, source: &mut S) {
    let mut capture = CaptureSource::new(source);
    let found = case.done(capture.request(5));
    case.at_least(found, 5);
    capture.advance(5);
    let found = case.done(capture.request(usize::MAX));
    case.are(found, 1);
    let taken = case.done(capture.bytes(case.alloc, 0, 1));
    case.same(taken.as_slice(), b"0".as_slice());
}

fn check_taken<S: Source>(case: &Case<'_, impl Abort>, source: &mut S) {
    let alloc = case.alloc;
    let taken = case.done(take_exactly(source, alloc, 3));
    case.same(taken.as_slice(), b"123".as_slice());
    let refused = take_exactly(source, alloc, 12);
    case.holds(matches!(refused, Err(TakeError::Short)));
    let taken = case.done(capture_two(source, alloc));
    case.same(taken.as_slice(), b"45".as_slice());
    let taken = case.done(capture_passed(source, alloc));
    case.same(taken.as_slice(), b"67".as_slice());
}

fn check_passed<S: Source + Drop>(case: &Case<'_, impl Abort>, mut source: S) {
    case.holds(case.done(pass_two(&mut source)));
    case.holds(!case.done(pass_two_within(&mut source, 1)));
    case.holds(case.done(pass_two_within(&mut source, 3)));
    case.holds(case.done(has_two(&mut source)));
    case.holds(case.done(skip_two(&mut source)));
    match case.done(without_two(source)) {
        Some(mut left) => follow(case, &mut left, &[Step::OptOctet(Some(None))]),
        None => case.holds(false),
    }
}

/// What is done with a source.
#[derive(Clone, Copy)]
enum Way {
    /// Calls are made.
    Steps(&'static [Step]),

    /// A limit is set, if there is one, and calls are made, and then others on what is behind the
    /// limit.
    Limited(Option<usize>, &'static [Limit], &'static [Step]),

    Nested,
    Captures,
    Taken,
    Passed,
}

/// Octets, and what is done with a source of them.
#[derive(Clone, Copy)]
struct Line(&'static [u8], Way);

const LINES: [Line; 9] = [
    Line(b"12345678", Way::Nested),
    Line(
        b"12345678",
        Way::Limited(
            Some(4),
            &[
                Limit::Exhausted(Err(Refusal::Content)),
                Limit::Of(Step::Request(6, Some(4), 2)),
                Limit::Exhausted(Err(Refusal::Content)),
                Limit::Of(Step::Request(6, Some(2), 2)),
                Limit::Exhausted(Ok(())),
                Limit::Of(Step::Request(6, Some(0), 0)),
                Limit::Is(Some(0)),
                Limit::Set(Some(4)),
                Limit::SkipAll(Ok(())),
                Limit::Set(None),
                Limit::Exhausted(Ok(())),
            ],
            &[],
        ),
    ),
    // the calls refuse with fixed texts
    Line(
        b"12",
        Way::Limited(
            None,
            &[
                Limit::Set(Some(3)),
                Limit::SkipAll(Err(Refusal::Content)),
                Limit::TakeAll(Err(Refusal::Content)),
                Limit::Exhausted(Err(Refusal::Content)),
                Limit::Set(None),
                Limit::Exhausted(Err(Refusal::Content)),
            ],
            &[Step::Skip(2, Some(2)), Step::Octet(Err(Refusal::Content))],
        ),
    ),
    Line(
        b"12345678",
        Way::Limited(
            None,
            &[Limit::Set(Some(4)), Limit::TakeAll(Ok(b"1234"))],
            &[
                Step::Request(4, Some(4), 0),
                Step::Slice(b"5678"),
                Step::OptOctet(Some(Some(b'5'))),
            ],
        ),
    ),
    Line(
        b"123",
        Way::Steps(&[
            Step::Octet(Ok(b'1')),
            Step::Octet(Ok(b'2')),
            Step::Octet(Ok(b'3')),
            Step::Octet(Err(Refusal::Content)),
        ]),
    ),
    Line(
        b"123",
        Way::Steps(&[
            Step::OptOctet(Some(Some(b'1'))),
            Step::OptOctet(Some(Some(b'2'))),
            Step::OptOctet(Some(Some(b'3'))),
            Step::OptOctet(Some(None)),
        ]),
    ),
    Line(b"1234567890", Way::Captures),
    Line(b"12345678", Way::Taken),
    Line(b"12345678", Way::Passed),
];

/// What is left behind the capture.
const CAPTURED: [Step; 3] = [
    Step::Request(6, Some(6), 0),
    Step::Slice(b"567890"),
    Step::OptOctet(Some(Some(b'5'))),
];

/// What is left behind the nested limits.
const BEHIND_NESTED: [Step; 2] = [Step::Request(4, Some(4), 0), Step::Slice(b"5678")];

/// Checks calls up to a limit, and behind it.
fn check_limited<S: Source + Drop>(case: &Case<'_, impl Abort>, source: S, way: Way) {
    let mut limited = LimitedSource::new(source);
    match way {
        Way::Limited(limit, steps, behind) => {
            if limit.is_some() {
                case.same(limited.limit_further(limit), None);
            }
            follow_limit(case, &mut limited, steps);
            follow(case, &mut limited.unwrap(), behind);
        }
        _ => {
            check_nested(case, &mut limited);
            case.same(limited.limit(), Some(0));
            follow(case, &mut limited.unwrap(), &BEHIND_NESTED);
        }
    }
}

impl Row for Line {
    fn octets(&self) -> &[u8] {
        self.0
    }

    fn check<S: Source + Drop, R: Abort>(&self, case: &Case<'_, R>, source: S) {
        let mut source = source;
        match self.1 {
            Way::Steps(steps) => follow(case, &mut source, steps),
            Way::Limited(_, _, _) | Way::Nested => check_limited(case, source, self.1),
            Way::Captures => {
                check_capture(case, &mut source);
                check_later_capture(case, &mut source);
                follow(case, &mut source, &CAPTURED);
            }
            Way::Taken => check_taken(case, &mut source),
            Way::Passed => check_passed(case, source),
        }
    }
}

#[test]
fn sources_and_views(rt: HostRuntime) {
    check_all(&rt, rt.alloc(), &LINES);
}

/// Octets, the request that fails, if one does, calls, and how often the source failed then. A call
/// that fails takes nothing.
const SIPS: [(&[u8], usize, &[Step], usize); 3] = [
    (
        b"12345678",
        0,
        &[
            Step::Request(3, Some(3), 0),
            Step::Slice(b"123"),
            Step::Request(1, Some(1), 0),
            Step::Slice(b"1"),
            Step::Request(9, Some(8), 0),
        ],
        0,
    ),
    (
        b"1234",
        2,
        &[
            Step::Skip(1, Some(1)),
            Step::Skip(2, None),
            Step::Octet(Ok(b'2')),
        ],
        1,
    ),
    (
        b"1234",
        1,
        &[
            Step::Octet(Err(Refusal::Source)),
            Step::OptOctet(Some(Some(b'1'))),
        ],
        1,
    ),
];

#[test]
fn sips(rt: HostRuntime) {
    for (row, (octets, failing, steps, faults)) in SIPS.iter().enumerate() {
        let case = Case::new(&rt, rt.alloc(), row);
        let mut source = failing_sip(&rt, rt.alloc(), *octets, *failing);
        follow(&case, &mut source, *steps);
        case.same(source.faults(), *faults);
    }
}

/// A failed call leaves the limit, and what is behind it.
const FAILED: Way = Way::Limited(
    None,
    &[
        Limit::Set(Some(2)),
        Limit::SkipAll(Err(Refusal::Source)),
        Limit::Is(Some(2)),
        Limit::TakeAll(Ok(b"12")),
    ],
    &[],
);

#[test]
fn failed_limited(rt: HostRuntime) {
    let case = Case::new(&rt, rt.alloc(), 0);
    check_limited(&case, failing_sip(&rt, rt.alloc(), b"1234", 1), FAILED);
}

#[test]
fn failed_capture(rt: HostRuntime) {
    let mut source = failing_sip(&rt, rt.alloc(), b"1234", 1);
    holds(
        &rt,
        matches!(
            capture_two(&mut source, rt.alloc()),
            Err(TakeError::Source(SipError))
        ),
    );
    same(
        &rt,
        done(&rt, capture_two(&mut source, rt.alloc())).as_slice(),
        b"12".as_slice(),
    );
}

#[test]
fn positions(rt: HostRuntime) {
    let last = Pos::from(usize::MAX) + Pos::from(1);
    shows(&rt, rt.alloc(), &last, "18446744073709551615");
    shows(&rt, rt.alloc(), &(Pos::default() + Pos::from(7)), "7");
    same(&rt, usize::from(last), usize::MAX);
    same(&rt, usize::from(Pos::from(3) + Pos::from(4)), 7);
}

/// Checks the positions of a slice of eight digits, of which five are passed over, and that of an
/// error behind them.
fn check_slice(
    case: &Case<'_, impl Abort>,
    start: Option<Pos>,
    at: [&'static str; 3],
    error: &str,
) {
    let mut slice = match start {
        None => SliceSource::new(b"12345678"),
        Some(start) => SliceSource::with_offset(b"12345678", start),
    };
    let [begin, middle, end] = at;
    let front = [
        Step::At(begin),
        Step::Request(3, Some(8), 3),
        Step::At(middle),
    ];
    follow(case, &mut slice, &front);
    case.are(slice.len(), 5);
    case.same(slice.split_to(2), b"45".as_slice());
    follow(case, &mut slice, &[Step::At(end), Step::Slice(b"678")]);
    case.holds(slice.len() == 3 && !slice.is_empty());
    case.shows(&slice.content_err(ContentError::from_static("no")), error);
}

#[test]
fn slices(rt: HostRuntime) {
    let case = Case::new(&rt, rt.alloc(), 0);
    check_slice(&case, None, ["0", "3", "5"], "no (at position 5)");
    let at = ["100", "103", "105"];
    check_slice(&case, Some(Pos::from(100)), at, "no (at position 105)");
    let last = SliceSource::with_offset(b"1", Pos::from(usize::MAX));
    case.shows(&last.pos(), "18446744073709551615");
}

#[test]
fn shared_octets(rt: HostRuntime) {
    let case = Case::new(&rt, rt.alloc(), 0);
    let octets = case.done(Bytes::copy_from_slice(rt.alloc(), b"12345678"));
    case.same(octets.len(), 8);
    let mut bytes = BytesSource::with_offset(octets, Pos::from(100));
    let front = [
        Step::At("100"),
        Step::Request(1, Some(8), 1),
        Step::At("101"),
    ];
    follow(&case, &mut bytes, &front);
    case.are(bytes.len(), 7);
    let split = case.done(bytes.split_to(2));
    case.same(split.as_slice(), b"23".as_slice());
    case.shows(&bytes.pos(), "103");
    case.holds(bytes.len() == 5 && !bytes.is_empty());
    case.same(bytes.into_bytes().as_slice(), b"45678".as_slice());
}

#[test]
fn wrappers(rt: HostRuntime) {
    let case = Case::new(&rt, rt.alloc(), 0);
    let octets = case.done(Bytes::copy_from_slice(rt.alloc(), b"12345678"));
    let mut bytes = BytesSource::with_offset(octets, Pos::from(100));
    let mut limited = LimitedSource::new(CaptureSource::new(&mut bytes));
    follow(
        &case,
        &mut limited,
        &[Step::Skip(2, Some(2)), Step::At("102")],
    );
    follow(&case, &mut bytes, &[Step::At("100"), Step::Octet(Ok(b'1'))]);
    let error = bytes.content_err(ContentError::from_static("no"));
    case.shows(&error, "no (at position 101)");
}

/// All of three digits.
const DIGITS: [Step; 3] = [
    Step::Request(3, Some(3), 0),
    Step::Slice(b"123"),
    Step::OptOctet(Some(Some(b'1'))),
];

#[test]
fn made_of(rt: HostRuntime) {
    let octets = b"123".as_slice();
    let case = Case::new(&rt, rt.alloc(), 0);
    let shared = case.done(Bytes::copy_from_slice(rt.alloc(), octets));
    follow(&case, &mut octets.into_source(), &DIGITS);
    follow(&case, &mut shared.into_source(), &DIGITS);
    follow(
        &case,
        &mut sip(&rt, rt.alloc(), octets).into_source(),
        &DIGITS,
    );
}

/// Up to the limit, which is a clone's too.
const CLONED: [Limit; 5] = [
    Limit::Is(Some(4)),
    Limit::Of(Step::Request(4, Some(4), 0)),
    Limit::Of(Step::Slice(b"3456")),
    Limit::Of(Step::OptOctet(Some(Some(b'3')))),
    Limit::Of(Step::At("3")),
];

#[test]
fn clones(rt: HostRuntime) {
    let case = Case::new(&rt, rt.alloc(), 0);
    let mut limited = LimitedSource::new(shared(&rt, rt.alloc(), b"12345678"));
    let front = [Limit::Of(Step::Skip(2, Some(2))), Limit::Set(Some(4))];
    follow_limit(&case, &mut limited, &front);
    let mut twin = case.done(limited.clone());
    follow_limit(&case, &mut twin, &CLONED);
    follow_limit(&case, &mut limited, &CLONED);
}

#[test]
fn copies(rt: HostRuntime) {
    let slice = SliceSource::new(b"12");
    let copied = slice;
    same(&rt, copied.len(), 2);
    let shown = done(&rt, format!(in rt.alloc(); "{copied:?}"));
    holds(&rt, shown.contains("SliceSource"));
}

#[derive(Drop)]
struct Note;

impl Message for Note {
    ghost use Rattle.std.specs.Prelude.{codes};

    ghost shown = { λ _. codes "a note" };

    fn text(&self) -> &str {
        "a note"
    }
}

/// How an error of content is made.
#[derive(Clone, Copy)]
enum Why {
    Static,
    Copied,
    Owned,
    Tag,
    Integer,
    Boxed,
}

/// Errors of content, and their texts.
const WHYS: [(Why, &str); 6] = [
    (Why::Static, "out of place"),
    (Why::Copied, "in the way"),
    (Why::Owned, "2 of 3"),
    (Why::Tag, "expected tag [1]"),
    (Why::Integer, "expected integer value 200"),
    (Why::Boxed, "a note"),
];

fn content_error(case: &Case<'_, impl Abort>, why: Why) -> ContentError {
    match why {
        Why::Static => ContentError::from_static("out of place"),
        Why::Copied => ContentError::from("in the way"),
        Why::Owned => { ContentError::from(case.done(format!(in case.alloc; "{} of {}", 2, 3))) }
        Why::Tag => ContentError::ExpectedTag(Tag::CTX_1),
        Why::Integer => ContentError::ExpectedInteger(200),
        Why::Boxed => {
            let note = case.done(Box::new(case.alloc, Note));
            case.done(ContentError::from_boxed(case.alloc, note))
        }
    }
}

#[test]
fn texts_of_content_errors(rt: HostRuntime) {
    for (row, (why, text)) in WHYS.iter().enumerate() {
        let case = Case::new(&rt, rt.alloc(), row);
        case.shows(&content_error(&case, *why), *text);
    }
}

/// How the error of a call is made.
#[derive(Clone, Copy)]
enum Made {
    Content,
    Source,
    NoMemory,

    /// The error of a source that can't fail becomes that of another.
    Memory,
    OfContent,

    /// The error of a source that runs out of memory becomes that of another.
    Failed,
    Lacked,
    Refused,

    /// The error of a refused allocation.
    Alloc,
    Elsewhere,
}

/// Errors, whether they are for want of memory, of the source, and of content, and their texts.
const ERRORS: [(Made, [bool; 3], &str); 10] = [
    (Made::Content, [false, false, true], "bad (at position 12)"),
    (Made::Source, [false, true, false], "the sip failed"),
    (Made::NoMemory, [true, false, false], "out of memory"),
    (Made::Memory, [true, false, false], "out of memory"),
    (Made::OfContent, [false, false, true], "bad (at position 3)"),
    (Made::Failed, [true, false, false], "out of memory"),
    (Made::Lacked, [true, false, false], "out of memory"),
    (Made::Refused, [false, false, true], "bad (at position 3)"),
    (Made::Alloc, [true, false, false], "out of memory"),
    (Made::Elsewhere, [true, false, false], "out of memory"),
];

/// Returns the error of a refused allocation: no memory has room for so many octets.
fn refused_alloc(case: &Case<'_, impl Abort>) -> DecodeError<SipError> {
    match Vec::<u8>::with_capacity(case.alloc, usize::MAX) {
        Ok(_) => DecodeError::from(SipError),
        Err(refused) => DecodeError::from_alloc(refused),
    }
}

fn decode_error(case: &Case<'_, impl Abort>, made: Made) -> DecodeError<SipError> {
    let bad = ContentError::from("bad");
    match made {
        Made::Content => DecodeError::content(bad, Pos::from(12)),
        Made::Source => DecodeError::from(SipError),
        Made::NoMemory => DecodeError::no_memory(),
        Made::Memory => DecodeError::<Infallible>::no_memory().convert(),
        Made::OfContent => DecodeError::<Infallible>::content(bad, Pos::from(3)).convert(),
        Made::Failed => DecodeError::from(NoMemory).convert(),
        Made::Lacked => DecodeError::<NoMemory>::no_memory().convert(),
        Made::Refused => DecodeError::<NoMemory>::content(bad, Pos::from(3)).convert(),
        Made::Alloc => refused_alloc(case),
        Made::Elsewhere => DecodeError::from_alloc(NoMemory),
    }
}

#[test]
fn texts_of_errors(rt: HostRuntime) {
    for (row, (made, kind, text)) in ERRORS.iter().enumerate() {
        let case = Case::new(&rt, rt.alloc(), row);
        let error = decode_error(&case, *made);
        let content = error.content_error().is_some();
        case.same([error.is_memory(), error.is_source(), content], *kind);
        case.shows(&error, *text);
    }
}

#[test]
fn errors_are_debugged(rt: HostRuntime) {
    let error = DecodeError::<SipError>::content(ContentError::from("bad"), Pos::from(12));
    let shown = done(&rt, format!(in rt.alloc(); "{error:?}"));
    holds(&rt, shown.contains("bad"));
}

#[test]
fn content_is_handed_out(rt: HostRuntime) {
    let error = DecodeError::<Infallible>::content(ContentError::from("bad"), Pos::from(3));
    match error.into_content() {
        Ok(ContentError::Static(text)) => same(&rt, text.as_str(), "bad"),
        _ => panic!(rt; "another error"),
    }
    holds(
        &rt,
        matches!(DecodeError::no_memory().into_content(), Err(NoMemory)),
    );
}

/// So many octets that no memory has room for them, in a function that encodes and one that writes.
fn encodes(alloc: Global) -> Result<Vec<u8>, EncodeError> {
    Ok(Vec::with_capacity(alloc, usize::MAX)?)
}

fn writes(alloc: Global) -> Result<Vec<u8>, WriteError> {
    Ok(Vec::with_capacity(alloc, usize::MAX)?)
}

/// A refused allocation, a refused push, and one that was refused elsewhere.
#[test]
fn want_of_memory_in_writers(rt: HostRuntime) {
    let out = EncodeError::NoMemory;
    same(&rt, encodes(rt.alloc()).err(), Some(out));
    same(&rt, EncodeError::from(AllocFailed { value: 7u8 }), out);
    same(&rt, EncodeError::from(NoMemory), out);
    holds(
        &rt,
        matches!(
            writes(rt.alloc()),
            Err(WriteError::Refused(EncodeError::NoMemory))
        ),
    );
    let pushed = WriteError::from(AllocFailed { value: 7u8 });
    shows(&rt, rt.alloc(), &pushed, "out of memory");
    let elsewhere = WriteError::from(NoMemory);
    shows(&rt, rt.alloc(), &elsewhere, "out of memory");
}
