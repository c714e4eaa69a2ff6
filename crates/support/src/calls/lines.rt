//! What is tried: a mode, octets, calls, what they return, and how many octets they leave.
use super::answer::Answer;
use super::call::Call;
use super::kept::{Kept, Text};
use super::octets::{Either, Reader, Width};
use super::passes::{Capture, Pass};
use super::takes::Take;
use super::typed::Typed;
use bcder::Mode;

/// Calls that return the same for the same octets.
pub type Line = (Mode, &'static [u8], &'static [Call], Answer, usize);

// ---- takes

/// Calls that take an INTEGER.
const INTEGERS: &[Call] = &[
    Call::Take(Take::Value),
    Call::Take(Take::OptValue),
    Call::Take(Take::ValueIf),
    Call::Take(Take::OptValueIf),
    Call::Take(Take::Primitive),
    Call::Take(Take::OptPrimitive),
    Call::Take(Take::PrimitiveIf),
    Call::Take(Take::OptPrimitiveIf),
];

/// Calls that take a primitive value with any tag.
const OF_OCTETS: &[Call] = &[
    Call::Take(Take::Value),
    Call::Take(Take::OptValue),
    Call::Take(Take::Primitive),
    Call::Take(Take::OptPrimitive),
];

/// Calls that take a SEQUENCE.
const SEQUENCES: &[Call] = &[
    Call::Take(Take::Value),
    Call::Take(Take::OptValue),
    Call::Take(Take::Constructed),
    Call::Take(Take::OptConstructed),
    Call::Take(Take::ConstructedIf),
    Call::Take(Take::OptConstructedIf),
    Call::Take(Take::Sequence),
    Call::Take(Take::OptSequence),
];

/// Calls that take a SET.
const SETS: &[Call] = &[
    Call::Take(Take::Value),
    Call::Take(Take::OptValue),
    Call::Take(Take::Constructed),
    Call::Take(Take::OptConstructed),
    Call::Take(Take::Set),
    Call::Take(Take::OptSet),
];

/// Calls that look for a tag, and take nothing if it isn't there.
const OPTIONAL_BY_TAG: &[Call] = &[
    Call::Take(Take::OptValueIf),
    Call::Take(Take::OptPrimitiveIf),
    Call::Take(Take::OptConstructedIf),
    Call::Take(Take::OptSequence),
    Call::Take(Take::OptSet),
];

/// Calls that look for a tag, which has to be there.
const NEEDED_BY_TAG: &[Call] = &[
    Call::Take(Take::ValueIf),
    Call::Take(Take::PrimitiveIf),
    Call::Take(Take::ConstructedIf),
    Call::Take(Take::Sequence),
    Call::Take(Take::Set),
];

/// The other calls that take nothing at the end.
const OPTIONAL: &[Call] = &[
    Call::Take(Take::OptValue),
    Call::Take(Take::OptPrimitive),
    Call::Take(Take::OptConstructed),
];

/// The other calls that refuse the end.
const NEEDED: &[Call] = &[
    Call::Take(Take::Value),
    Call::Take(Take::Primitive),
    Call::Take(Take::Constructed),
];

/// Takes by a closure, which reads an INTEGER.
pub const TAKES: [Line; 18] = [
    (
        Mode::Der,
        &[0x02, 0x01, 0x05, 0x05, 0x00],
        INTEGERS,
        Answer::Number(5),
        2,
    ),
    (
        Mode::Ber,
        &[0x02, 0x81, 0x01, 0x05, 0x05, 0x00],
        INTEGERS,
        Answer::Number(5),
        2,
    ),
    (
        Mode::Der,
        &[0x9F, 0x81, 0x01, 0x01, 0x05, 0x05, 0x00],
        OF_OCTETS,
        Answer::Number(5),
        2,
    ),
    (
        Mode::Ber,
        &[0x30, 0x80, 0x02, 0x01, 0x05, 0x00, 0x00, 0x05, 0x00],
        SEQUENCES,
        Answer::Number(5),
        2,
    ),
    (
        Mode::Ber,
        &[0x30, 0x80, 0x02, 0x01, 0x05, 0x00, 0x81, 0x00, 0x05, 0x00],
        SEQUENCES,
        Answer::Number(5),
        2,
    ),
    (
        Mode::Der,
        &[0x30, 0x03, 0x02, 0x01, 0x05, 0x05, 0x00],
        SEQUENCES,
        Answer::Number(5),
        2,
    ),
    (
        Mode::Cer,
        &[0x31, 0x80, 0x02, 0x01, 0x05, 0x00, 0x00, 0x05, 0x00],
        SETS,
        Answer::Number(5),
        2,
    ),
    (
        Mode::Der,
        &[0x31, 0x03, 0x02, 0x01, 0x05, 0x05, 0x00],
        SETS,
        Answer::Number(5),
        2,
    ),
    (Mode::Der, &[0x05, 0x00], OPTIONAL_BY_TAG, Answer::Absent, 2),
    (Mode::Der, &[0x05, 0x00], NEEDED_BY_TAG, Answer::Lacking, 2),
    (Mode::Der, &[], OPTIONAL_BY_TAG, Answer::Absent, 0),
    (Mode::Der, &[], NEEDED_BY_TAG, Answer::Lacking, 0),
    (Mode::Cer, &[], OPTIONAL, Answer::Absent, 0),
    (Mode::Cer, &[], NEEDED, Answer::Lacking, 0),
    (Mode::Der, &[0x02, 0x02, 0x05], INTEGERS, Answer::Refused, 0),
    (
        Mode::Der,
        &[0x30, 0x03, 0x02, 0x02, 0x05],
        SEQUENCES,
        Answer::Refused,
        0,
    ),
    (
        Mode::Der,
        &[0x30, 0x05, 0x02, 0x01, 0x05, 0x05, 0x00],
        SEQUENCES,
        Answer::Refused,
        0,
    ),
    (
        Mode::Cer,
        &[0x30, 0x80, 0x02, 0x01, 0x05, 0x05, 0x00, 0x00, 0x00],
        SEQUENCES,
        Answer::Refused,
        0,
    ),
];

// ---- typed

const BOOLEANS: &[Call] = &[Call::Typed(Typed::Bool), Call::Typed(Typed::OptBool)];

const NULLS: &[Call] = &[Call::Typed(Typed::Null), Call::Typed(Typed::OptNull)];

const NUMBERS: &[Call] = &[
    Call::Typed(Typed::U8),
    Call::Typed(Typed::OptU8),
    Call::Typed(Typed::U16),
    Call::Typed(Typed::OptU16),
    Call::Typed(Typed::U32),
    Call::Typed(Typed::OptU32),
    Call::Typed(Typed::U64),
    Call::Typed(Typed::OptU64),
];

const LARGER: &[Call] = &[
    Call::Typed(Typed::U16),
    Call::Typed(Typed::OptU16),
    Call::Typed(Typed::U32),
    Call::Typed(Typed::OptU32),
    Call::Typed(Typed::U64),
    Call::Typed(Typed::OptU64),
];

const SMALLER: &[Call] = &[
    Call::Typed(Typed::U8),
    Call::Typed(Typed::OptU8),
    Call::Typed(Typed::SkipU8If(5)),
    Call::Typed(Typed::SkipOptU8If(5)),
];

const SKIPS_IF: &[Call] = &[
    Call::Typed(Typed::SkipU8If(5)),
    Call::Typed(Typed::SkipOptU8If(5)),
];

const TYPED_OPTIONAL: &[Call] = &[
    Call::Typed(Typed::OptBool),
    Call::Typed(Typed::OptU8),
    Call::Typed(Typed::OptU16),
    Call::Typed(Typed::OptU32),
    Call::Typed(Typed::OptU64),
];

/// Calls that don't say whether a value was there.
const TYPED_UNTOLD: &[Call] = &[
    Call::Typed(Typed::OptNull),
    Call::Typed(Typed::SkipOptU8If(5)),
];

const TYPED_NEEDED: &[Call] = &[
    Call::Typed(Typed::Bool),
    Call::Typed(Typed::Null),
    Call::Typed(Typed::U8),
    Call::Typed(Typed::U16),
    Call::Typed(Typed::U32),
    Call::Typed(Typed::U64),
    Call::Typed(Typed::SkipU8If(5)),
];

/// Booleans, nulls and integers. For integers the answer says whether they are 5.
pub const TYPED: [Line; 18] = [
    (
        Mode::Der,
        &[0x01, 0x01, 0xFF, 0x05, 0x00],
        BOOLEANS,
        Answer::Truth(true),
        2,
    ),
    (
        Mode::Ber,
        &[0x01, 0x81, 0x01, 0x2A, 0x05, 0x00],
        BOOLEANS,
        Answer::Truth(true),
        2,
    ),
    (
        Mode::Cer,
        &[0x05, 0x00, 0x02, 0x01, 0x07],
        NULLS,
        Answer::Passed,
        3,
    ),
    (
        Mode::Der,
        &[0x02, 0x01, 0x05, 0x05, 0x00],
        NUMBERS,
        Answer::Number(5),
        2,
    ),
    (
        Mode::Der,
        &[0x02, 0x01, 0x05, 0x05, 0x00],
        SKIPS_IF,
        Answer::Passed,
        2,
    ),
    (
        Mode::Ber,
        &[0x02, 0x82, 0x00, 0x01, 0x05, 0x05, 0x00],
        NUMBERS,
        Answer::Number(5),
        2,
    ),
    (
        Mode::Der,
        &[0x02, 0x02, 0x01, 0x00, 0x05, 0x00],
        LARGER,
        Answer::Number(256),
        2,
    ),
    (
        Mode::Der,
        &[0x02, 0x02, 0x01, 0x00, 0x05, 0x00],
        SMALLER,
        Answer::Refused,
        0,
    ),
    (Mode::Der, &[0x02, 0x01, 0x07], SKIPS_IF, Answer::Refused, 0),
    (Mode::Der, &[0x04, 0x00], TYPED_OPTIONAL, Answer::Absent, 2),
    (Mode::Der, &[0x04, 0x00], TYPED_UNTOLD, Answer::Passed, 2),
    (Mode::Der, &[0x04, 0x00], TYPED_NEEDED, Answer::Lacking, 2),
    (Mode::Der, &[], TYPED_OPTIONAL, Answer::Absent, 0),
    (Mode::Der, &[], TYPED_UNTOLD, Answer::Passed, 0),
    (Mode::Der, &[], TYPED_NEEDED, Answer::Lacking, 0),
    (Mode::Der, &[0x05, 0x01, 0x00], NULLS, Answer::Refused, 0),
    (Mode::Der, &[0x01, 0x01, 0x2A], BOOLEANS, Answer::Refused, 0),
    (Mode::Der, &[0x02, 0x02, 0x05], NUMBERS, Answer::Refused, 0),
];

// ---- passes

const ONE: &[Call] = &[
    Call::Pass(Pass::Walk),
    Call::Pass(Pass::SkipOne),
    Call::Pass(Pass::SkipOpt),
    Call::Pass(Pass::Skip),
    Call::Pass(Pass::CaptureOpt),
];

const ONE_OPTIONAL: &[Call] = &[
    Call::Pass(Pass::Walk),
    Call::Pass(Pass::SkipOne),
    Call::Pass(Pass::SkipOpt),
    Call::Pass(Pass::CaptureOpt),
];

const SEVERAL: &[Call] = &[Call::Pass(Pass::SkipAll), Call::Pass(Pass::WhileSome)];

/// Values that are skipped.
pub const PASSES: [Line; 13] = [
    (
        Mode::Der,
        &[0x30, 0x06, 0x02, 0x01, 0x05, 0x04, 0x01, 0x41, 0x05, 0x00],
        ONE,
        Answer::Passed,
        2,
    ),
    (
        Mode::Der,
        &[0x30, 0x06, 0x02, 0x01, 0x05, 0x04, 0x01, 0x41, 0x05, 0x00],
        &[Call::Pass(Pass::SkipAll)],
        Answer::Passed,
        0,
    ),
    (
        Mode::Der,
        &[0x30, 0x06, 0x02, 0x01, 0x05, 0x04, 0x01, 0x41, 0x05, 0x00],
        &[Call::Pass(Pass::WhileSome)],
        Answer::Passed,
        2,
    ),
    (
        Mode::Ber,
        &[0x30, 0x80, 0x02, 0x01, 0x05, 0x00, 0x00, 0x05, 0x00],
        ONE,
        Answer::Passed,
        2,
    ),
    (
        Mode::Ber,
        &[0x30, 0x80, 0x02, 0x01, 0x05, 0x00, 0x00, 0x05, 0x00],
        &[Call::Pass(Pass::SkipAll)],
        Answer::Passed,
        0,
    ),
    (
        Mode::Ber,
        &[0x30, 0x80, 0x00, 0x00, 0x30, 0x00, 0x05, 0x00],
        &[Call::Pass(Pass::WhileSome)],
        Answer::Passed,
        2,
    ),
    (
        Mode::Ber,
        &[
            0x30, 0x0A, 0x30, 0x08, 0x30, 0x06, 0x30, 0x04, 0x30, 0x02, 0x30, 0x00,
        ],
        ONE,
        Answer::Passed,
        0,
    ),
    (Mode::Der, &[], ONE_OPTIONAL, Answer::Absent, 0),
    (
        Mode::Der,
        &[],
        &[Call::Pass(Pass::Skip)],
        Answer::Lacking,
        0,
    ),
    (Mode::Der, &[], SEVERAL, Answer::Passed, 0),
    (
        Mode::Cer,
        &[0x30, 0x80, 0x02, 0x01, 0x05, 0x04, 0x02, 0x41],
        ONE,
        Answer::Refused,
        0,
    ),
    (
        Mode::Cer,
        &[0x30, 0x80, 0x02, 0x01, 0x05, 0x04, 0x02, 0x41],
        SEVERAL,
        Answer::Refused,
        0,
    ),
    (
        Mode::Der,
        &[0x30, 0x02, 0x05, 0x01],
        ONE,
        Answer::Refused,
        0,
    ),
];

// ---- captures

/// Values that are captured, and how many octets they have.
pub const CAPTURES: [Line; 9] = [
    (
        Mode::Der,
        &[0x30, 0x06, 0x02, 0x01, 0x05, 0x04, 0x01, 0x41, 0x05, 0x00],
        &[
            Call::Capture(Capture::One),
            Call::Capture(Capture::Sequence),
        ],
        Answer::Number(8),
        2,
    ),
    (
        Mode::Der,
        &[0x30, 0x06, 0x02, 0x01, 0x05, 0x04, 0x01, 0x41, 0x05, 0x00],
        &[Call::Capture(Capture::All)],
        Answer::Number(10),
        0,
    ),
    (
        Mode::Ber,
        &[0x30, 0x80, 0x02, 0x01, 0x05, 0x00, 0x00, 0x05, 0x00],
        &[
            Call::Capture(Capture::One),
            Call::Capture(Capture::Sequence),
        ],
        Answer::Number(7),
        2,
    ),
    (
        Mode::Ber,
        &[0x30, 0x80, 0x02, 0x01, 0x05, 0x00, 0x00, 0x05, 0x00],
        &[Call::Capture(Capture::All)],
        Answer::Number(9),
        0,
    ),
    (
        Mode::Ber,
        &[
            0x30, 0x0A, 0x30, 0x08, 0x30, 0x06, 0x30, 0x04, 0x30, 0x02, 0x30, 0x00,
        ],
        &[
            Call::Capture(Capture::One),
            Call::Capture(Capture::All),
            Call::Capture(Capture::Sequence),
        ],
        Answer::Number(12),
        0,
    ),
    (
        Mode::Der,
        &[],
        &[Call::Capture(Capture::All)],
        Answer::Number(0),
        0,
    ),
    (
        Mode::Der,
        &[],
        &[
            Call::Capture(Capture::One),
            Call::Capture(Capture::Sequence),
        ],
        Answer::Lacking,
        0,
    ),
    (
        Mode::Der,
        &[0x02, 0x01, 0x05],
        &[Call::Capture(Capture::Sequence)],
        Answer::Lacking,
        3,
    ),
    (
        Mode::Cer,
        &[0x30, 0x80, 0x02, 0x01, 0x05, 0x04, 0x02, 0x41],
        &[
            Call::Capture(Capture::One),
            Call::Capture(Capture::All),
            Call::Capture(Capture::Sequence),
        ],
        Answer::Refused,
        8,
    ),
];

// ---- octets

const READ_NUMBERS: &[Call] = &[
    Call::Read(Reader::Signed(Width::W8)),
    Call::Read(Reader::Signed(Width::W16)),
    Call::Read(Reader::Signed(Width::W32)),
    Call::Read(Reader::Signed(Width::W64)),
    Call::Read(Reader::Signed(Width::W128)),
    Call::Read(Reader::Unsigned(Width::W8)),
    Call::Read(Reader::Unsigned(Width::W16)),
    Call::Read(Reader::Unsigned(Width::W32)),
    Call::Read(Reader::Unsigned(Width::W64)),
    Call::Read(Reader::Unsigned(Width::W128)),
    Call::Read(Reader::SignedFrom(Width::W8)),
    Call::Read(Reader::SignedFrom(Width::W16)),
    Call::Read(Reader::SignedFrom(Width::W32)),
    Call::Read(Reader::SignedFrom(Width::W64)),
    Call::Read(Reader::SignedFrom(Width::W128)),
    Call::Read(Reader::UnsignedFrom(Width::W8)),
    Call::Read(Reader::UnsignedFrom(Width::W16)),
    Call::Read(Reader::UnsignedFrom(Width::W32)),
    Call::Read(Reader::UnsignedFrom(Width::W64)),
    Call::Read(Reader::UnsignedFrom(Width::W128)),
];

const READ_SMALL: &[Call] = &[
    Call::Read(Reader::Signed(Width::W8)),
    Call::Read(Reader::Signed(Width::W16)),
    Call::Read(Reader::Unsigned(Width::W8)),
    Call::Read(Reader::Unsigned(Width::W16)),
    Call::Read(Reader::SignedFrom(Width::W8)),
    Call::Read(Reader::SignedFrom(Width::W16)),
    Call::Read(Reader::UnsignedFrom(Width::W8)),
    Call::Read(Reader::UnsignedFrom(Width::W16)),
];

const READ_LARGE: &[Call] = &[
    Call::Read(Reader::Signed(Width::W32)),
    Call::Read(Reader::Signed(Width::W64)),
    Call::Read(Reader::Signed(Width::W128)),
    Call::Read(Reader::Unsigned(Width::W32)),
    Call::Read(Reader::Unsigned(Width::W64)),
    Call::Read(Reader::Unsigned(Width::W128)),
    Call::Read(Reader::SignedFrom(Width::W32)),
    Call::Read(Reader::SignedFrom(Width::W64)),
    Call::Read(Reader::SignedFrom(Width::W128)),
    Call::Read(Reader::UnsignedFrom(Width::W32)),
    Call::Read(Reader::UnsignedFrom(Width::W64)),
    Call::Read(Reader::UnsignedFrom(Width::W128)),
];

const READ_ALL: &[Call] = &[
    Call::Read(Reader::TakeAll),
    Call::Read(Reader::SliceAll),
    Call::Read(Reader::WithSliceAll),
    Call::Read(Reader::Integer),
    Call::Read(Reader::UnsignedInteger),
    Call::Read(Reader::Identifier),
];

const PASS_ALL: &[Call] = &[
    Call::Read(Reader::SkipAll),
    Call::Read(Reader::SkipIdentifier),
];

/// Octets of a primitive value. For numbers the answer says whether they are 5.
pub const OCTETS: [Line; 12] = [
    (
        Mode::Der,
        &[0x02, 0x01, 0x05, 0x05, 0x00],
        READ_NUMBERS,
        Answer::Truth(true),
        2,
    ),
    (
        Mode::Der,
        &[0x02, 0x01, 0x05, 0x05, 0x00],
        READ_ALL,
        Answer::Number(1),
        2,
    ),
    (
        Mode::Der,
        &[0x02, 0x01, 0x05, 0x05, 0x00],
        PASS_ALL,
        Answer::Passed,
        2,
    ),
    (
        Mode::Der,
        &[0x02, 0x01, 0x05, 0x05, 0x00],
        &[Call::Read(Reader::Bool), Call::Read(Reader::Null)],
        Answer::Refused,
        0,
    ),
    (
        Mode::Ber,
        &[0x04, 0x03, 0x01, 0x02, 0x03, 0x05, 0x00],
        READ_LARGE,
        Answer::Truth(false),
        2,
    ),
    (
        Mode::Ber,
        &[0x04, 0x03, 0x01, 0x02, 0x03, 0x05, 0x00],
        READ_SMALL,
        Answer::Refused,
        0,
    ),
    (
        Mode::Ber,
        &[0x04, 0x03, 0x01, 0x02, 0x03, 0x05, 0x00],
        READ_ALL,
        Answer::Number(3),
        2,
    ),
    (
        Mode::Der,
        &[0x01, 0x01, 0xFF, 0x05, 0x00],
        &[Call::Read(Reader::Bool)],
        Answer::Truth(true),
        2,
    ),
    (
        Mode::Der,
        &[0x05, 0x00, 0x05, 0x00],
        &[Call::Read(Reader::Null), Call::Read(Reader::SkipAll)],
        Answer::Passed,
        2,
    ),
    (
        Mode::Der,
        &[0x02, 0x03, 0x05],
        READ_NUMBERS,
        Answer::Refused,
        0,
    ),
    (Mode::Der, &[0x02, 0x03, 0x05], READ_ALL, Answer::Refused, 0),
    (Mode::Der, &[0x02, 0x03, 0x05], PASS_ALL, Answer::Refused, 0),
];

// ---- contents

const CONTENT_NUMBERS: &[Call] = &[
    Call::Content(Either::U8),
    Call::Content(Either::U16),
    Call::Content(Either::U32),
    Call::Content(Either::U64),
];

/// Content of either form.
pub const CONTENTS: [Line; 7] = [
    (
        Mode::Der,
        &[0x02, 0x01, 0x05, 0x05, 0x00],
        CONTENT_NUMBERS,
        Answer::Truth(true),
        2,
    ),
    (
        Mode::Der,
        &[0x02, 0x01, 0x05, 0x05, 0x00],
        &[
            Call::Content(Either::SkipU8If),
            Call::Content(Either::AsPrimitive),
        ],
        Answer::Passed,
        2,
    ),
    (
        Mode::Der,
        &[0x02, 0x01, 0x05, 0x05, 0x00],
        &[
            Call::Content(Either::Null),
            Call::Content(Either::AsConstructed),
        ],
        Answer::Refused,
        0,
    ),
    (
        Mode::Der,
        &[0x05, 0x00, 0x05, 0x00],
        &[Call::Content(Either::Null)],
        Answer::Passed,
        2,
    ),
    (
        Mode::Ber,
        &[0x30, 0x80, 0x05, 0x00, 0x00, 0x00, 0x05, 0x00],
        &[Call::Content(Either::AsConstructed)],
        Answer::Passed,
        2,
    ),
    (
        Mode::Ber,
        &[0x30, 0x80, 0x05, 0x00, 0x00, 0x00, 0x05, 0x00],
        CONTENT_NUMBERS,
        Answer::Refused,
        0,
    ),
    (
        Mode::Ber,
        &[0x30, 0x80, 0x05, 0x00, 0x00, 0x00, 0x05, 0x00],
        &[
            Call::Content(Either::AsPrimitive),
            Call::Content(Either::SkipU8If),
            Call::Content(Either::Null),
        ],
        Answer::Refused,
        0,
    ),
];

// ---- kept

const KEPT_NUMBERS: &[Call] = &[Call::Kept(Kept::Integer), Call::Kept(Kept::Unsigned)];

const IDENTIFIERS: &[Call] = &[
    Call::Kept(Kept::Identifier),
    Call::Kept(Kept::OptIdentifier),
];

const SKIP_IDENTIFIERS: &[Call] = &[
    Call::Kept(Kept::SkipIdentifier),
    Call::Kept(Kept::SkipOptIdentifier),
    Call::Kept(Kept::SkipIdentifierIf),
];

const KEPT_NEEDED: &[Call] = &[
    Call::Kept(Kept::Integer),
    Call::Kept(Kept::Unsigned),
    Call::Kept(Kept::Identifier),
    Call::Kept(Kept::SkipIdentifier),
    Call::Kept(Kept::SkipIdentifierIf),
];

const KEPT_OPTIONAL: &[Call] = &[
    Call::Kept(Kept::OptIdentifier),
    Call::Kept(Kept::SkipOptIdentifier),
];

/// Integers and object identifiers, and how many octets they have.
pub const KEPT: [Line; 13] = [
    (
        Mode::Der,
        &[0x02, 0x03, 0x01, 0x00, 0x00, 0x05, 0x00],
        KEPT_NUMBERS,
        Answer::Number(3),
        2,
    ),
    (
        Mode::Der,
        &[0x02, 0x02, 0xFF, 0x7F, 0x05, 0x00],
        &[Call::Kept(Kept::Integer)],
        Answer::Number(2),
        2,
    ),
    (
        Mode::Der,
        &[0x02, 0x02, 0xFF, 0x7F, 0x05, 0x00],
        &[Call::Kept(Kept::Unsigned)],
        Answer::Refused,
        0,
    ),
    (
        Mode::Der,
        &[0x02, 0x02, 0x00, 0x05],
        KEPT_NUMBERS,
        Answer::Refused,
        0,
    ),
    (
        Mode::Der,
        &[0x06, 0x03, 0x55, 0x1D, 0x13, 0x05, 0x00],
        IDENTIFIERS,
        Answer::Number(3),
        2,
    ),
    (
        Mode::Der,
        &[0x06, 0x03, 0x55, 0x1D, 0x13, 0x05, 0x00],
        SKIP_IDENTIFIERS,
        Answer::Passed,
        2,
    ),
    (
        Mode::Der,
        &[0x06, 0x03, 0x55, 0x1D, 0x0F],
        &[Call::Kept(Kept::SkipIdentifierIf)],
        Answer::Refused,
        0,
    ),
    (
        Mode::Der,
        &[0x06, 0x03, 0x55, 0x1D, 0x93],
        IDENTIFIERS,
        Answer::Refused,
        0,
    ),
    (
        Mode::Der,
        &[0x06, 0x03, 0x55, 0x1D, 0x93],
        SKIP_IDENTIFIERS,
        Answer::Refused,
        0,
    ),
    (Mode::Der, &[0x05, 0x00], KEPT_OPTIONAL, Answer::Absent, 2),
    (Mode::Der, &[0x05, 0x00], KEPT_NEEDED, Answer::Lacking, 2),
    (Mode::Der, &[], KEPT_OPTIONAL, Answer::Absent, 0),
    (Mode::Der, &[], KEPT_NEEDED, Answer::Lacking, 0),
];

// ---- strings

const BITS: &[Call] = &[Call::Text(Text::Bits), Call::Text(Text::BitsOfContent)];

const SKIP_BITS: &[Call] = &[
    Call::Text(Text::SkipBits),
    Call::Text(Text::SkipBitsOfContent),
];

const OCTET_STRINGS: &[Call] = &[
    Call::Text(Text::Octets),
    Call::Text(Text::OptOctets),
    Call::Text(Text::OctetsOfContent),
];

const CHARACTERS: &[Call] = &[
    Call::Text(Text::Characters),
    Call::Text(Text::OptCharacters),
    Call::Text(Text::CharactersOfContent),
];

const STRINGS_NEEDED: &[Call] = &[
    Call::Text(Text::Bits),
    Call::Text(Text::BitsOfContent),
    Call::Text(Text::SkipBits),
    Call::Text(Text::SkipBitsOfContent),
    Call::Text(Text::Octets),
    Call::Text(Text::OctetsOfContent),
    Call::Text(Text::Characters),
    Call::Text(Text::CharactersOfContent),
];

const STRINGS_OPTIONAL: &[Call] = &[Call::Text(Text::OptOctets), Call::Text(Text::OptCharacters)];

/// Strings, and how many bits or octets they have.
pub const STRINGS: [Line; 18] = [
    (
        Mode::Der,
        &[0x03, 0x03, 0x04, 0x0A, 0xF0, 0x05, 0x00],
        BITS,
        Answer::Number(12),
        2,
    ),
    (
        Mode::Der,
        &[0x03, 0x03, 0x04, 0x0A, 0xF0, 0x05, 0x00],
        SKIP_BITS,
        Answer::Passed,
        2,
    ),
    (
        Mode::Cer,
        &[0x03, 0x03, 0x04, 0x0A, 0xFF],
        BITS,
        Answer::Refused,
        0,
    ),
    (
        Mode::Cer,
        &[0x03, 0x03, 0x04, 0x0A, 0xFF],
        SKIP_BITS,
        Answer::Refused,
        0,
    ),
    (
        Mode::Der,
        &[0x04, 0x03, 0x61, 0x62, 0x63, 0x05, 0x00],
        OCTET_STRINGS,
        Answer::Number(3),
        2,
    ),
    (
        Mode::Ber,
        &[
            0x24, 0x80, 0x04, 0x01, 0x61, 0x24, 0x04, 0x04, 0x02, 0x62, 0x63, 0x04, 0x00, 0x00,
            0x00, 0x05, 0x00,
        ],
        OCTET_STRINGS,
        Answer::Number(3),
        2,
    ),
    (
        Mode::Ber,
        &[
            0x24, 0x80, 0x24, 0x0F, 0x24, 0x0D, 0x24, 0x0B, 0x24, 0x09, 0x24, 0x07, 0x24, 0x05,
            0x24, 0x03, 0x04, 0x01, 0x61, 0x04, 0x01, 0x62, 0x00, 0x00, 0x05, 0x00,
        ],
        OCTET_STRINGS,
        Answer::Number(2),
        2,
    ),
    (
        Mode::Ber,
        &[0x24, 0x02, 0x05, 0x00],
        OCTET_STRINGS,
        Answer::Refused,
        0,
    ),
    (
        Mode::Cer,
        &[0x24, 0x80, 0x00, 0x00],
        OCTET_STRINGS,
        Answer::Refused,
        0,
    ),
    (
        Mode::Der,
        &[0x24, 0x03, 0x04, 0x01, 0x61],
        OCTET_STRINGS,
        Answer::Refused,
        0,
    ),
    (
        Mode::Der,
        &[0x0C, 0x03, 0x61, 0xC3, 0xA9, 0x05, 0x00],
        CHARACTERS,
        Answer::Number(3),
        2,
    ),
    (
        Mode::Ber,
        &[
            0x2C, 0x07, 0x04, 0x02, 0x61, 0xC3, 0x04, 0x01, 0xA9, 0x05, 0x00,
        ],
        CHARACTERS,
        Answer::Number(3),
        2,
    ),
    (
        Mode::Ber,
        &[0x2C, 0x03, 0x04, 0x01, 0xC3],
        CHARACTERS,
        Answer::Refused,
        0,
    ),
    (
        Mode::Der,
        &[0x0C, 0x01, 0xC3],
        CHARACTERS,
        Answer::Refused,
        0,
    ),
    (
        Mode::Der,
        &[0x05, 0x00],
        STRINGS_OPTIONAL,
        Answer::Absent,
        2,
    ),
    (Mode::Der, &[0x05, 0x00], STRINGS_NEEDED, Answer::Lacking, 2),
    (Mode::Der, &[], STRINGS_OPTIONAL, Answer::Absent, 0),
    (Mode::Der, &[], STRINGS_NEEDED, Answer::Lacking, 0),
];
