//! Calls on content, by the words of the data.
use crate::fields::{find, next};
use crate::malformed::Malformed;
use crate::row::Step;
use anyhow::Error;
use bcder::Tag;
use bcder::decode::{ContentError, DecodeError};
use std::alloc::Global;

/// A call on content, or on what `enter` entered.
#[derive(Clone, Copy, PartialEq, Eq)]
pub enum Call {
    Value,
    OptValue,
    ValueIf,
    OptValueIf,
    Primitive,
    OptPrimitive,
    PrimitiveIf,
    OptPrimitiveIf,
    Constructed,
    OptConstructed,
    ConstructedIf,
    OptConstructedIf,
    Sequence,
    OptSequence,
    Set,
    OptSet,

    Bool,
    OptBool,
    Null,
    OptNull,
    U8,
    OptU8,
    U16,
    OptU16,
    U32,
    OptU32,
    U64,
    OptU64,

    /// `skip_u8_if` and its optional form, with the number of the step.
    SkipU8If,
    SkipOptU8If,

    /// `walk`, which isn't a method of content but skips its next value.
    Walk,

    /// `set_mode` to BER.
    SetBer,

    /// `take_sequence` with a closure that does the steps inside and drops their errors.
    Enter,

    /// `decode` with a closure that does all other steps and drops their errors.
    Decode,
}

/// The words for the calls.
pub const CALLS: [(&str, Call); 34] = [
    ("take_value", Call::Value),
    ("take_opt_value", Call::OptValue),
    ("take_value_if", Call::ValueIf),
    ("take_opt_value_if", Call::OptValueIf),
    ("take_primitive", Call::Primitive),
    ("take_opt_primitive", Call::OptPrimitive),
    ("take_primitive_if", Call::PrimitiveIf),
    ("take_opt_primitive_if", Call::OptPrimitiveIf),
    ("take_constructed", Call::Constructed),
    ("take_opt_constructed", Call::OptConstructed),
    ("take_constructed_if", Call::ConstructedIf),
    ("take_opt_constructed_if", Call::OptConstructedIf),
    ("take_sequence", Call::Sequence),
    ("take_opt_sequence", Call::OptSequence),
    ("take_set", Call::Set),
    ("take_opt_set", Call::OptSet),
    ("take_bool", Call::Bool),
    ("take_opt_bool", Call::OptBool),
    ("take_null", Call::Null),
    ("take_opt_null", Call::OptNull),
    ("take_u8", Call::U8),
    ("take_opt_u8", Call::OptU8),
    ("take_u16", Call::U16),
    ("take_opt_u16", Call::OptU16),
    ("take_u32", Call::U32),
    ("take_opt_u32", Call::OptU32),
    ("take_u64", Call::U64),
    ("take_opt_u64", Call::OptU64),
    ("skip_u8_if", Call::SkipU8If),
    ("skip_opt_u8_if", Call::SkipOptU8If),
    ("walk", Call::Walk),
    ("set_mode", Call::SetBer),
    ("enter", Call::Enter),
    ("decode", Call::Decode),
];

/// The number by which a closure refuses. No call returns it by itself.
pub const OWN: u64 = 200;

/// The words for the tags.
const TAGS: [(&str, Tag); 8] = [
    ("INTEGER", Tag::INTEGER),
    ("BOOLEAN", Tag::BOOLEAN),
    ("NULL", Tag::NULL),
    ("OCTET_STRING", Tag::OCTET_STRING),
    ("SEQUENCE", Tag::SEQUENCE),
    ("SET", Tag::SET),
    ("DATE", Tag::DATE),
    ("END_OF_VALUE", Tag::END_OF_VALUE),
];

/// What a closure does with the content that it gets.
#[derive(Clone, Copy)]
pub enum Use {
    /// It skips two values, or all octets.
    Pass,

    /// It leaves the content as it is.
    Leave,

    /// It skips the content, and refuses.
    Refuse,

    /// It asks for content of the other form.
    Ask,
}

/// The words for what a closure does.
const USES: [(&str, Use); 4] = [
    ("pass", Use::Pass),
    ("leave", Use::Leave),
    ("refuse", Use::Refuse),
    ("ask", Use::Ask),
];

/// What a call returned.
#[derive(Clone, Copy, PartialEq, Eq)]
pub enum Answer {
    /// A value, or success.
    Taken,

    /// A boolean.
    Truth(bool),

    /// A number.
    Number(u64),

    /// There is no such value.
    Absent,

    /// A refusal with a fixed text.
    Static,

    /// A refusal that names the tag of the step.
    Expected,

    /// A refusal that names the number of the step.
    Another,

    /// The closure's own refusal.
    Own,

    /// Any other error.
    Other,
}

/// The words for the answers.
const ANSWERS: [(&str, Answer); 8] = [
    ("taken", Answer::Taken),
    ("true", Answer::Truth(true)),
    ("false", Answer::Truth(false)),
    ("absent", Answer::Absent),
    ("static", Answer::Static),
    ("expected", Answer::Expected),
    ("another", Answer::Another),
    ("own", Answer::Own),
];

/// A call, the tag or the number of its value, what its closure does, and the answer.
#[derive(Clone, Copy)]
pub struct TakeStep {
    pub call: Call,
    pub tag: Tag,
    pub number: u8,
    pub with: Use,
    pub answer: Answer,
}

/// Returns the tag that a word names.
pub fn tag_of(word: &str) -> Result<Tag, Malformed> {
    find(&TAGS, word)
}

/// Returns the answer that a word names.
pub fn answer_of(word: &str) -> Result<Answer, Malformed> {
    find(&ANSWERS, word)
}

/// Returns what kind of error it is, of a call for this tag.
pub fn error_kind<E>(error: &DecodeError<E>, tag: Tag) -> Answer {
    match error.content_error() {
        Some(ContentError::Static(_)) => Answer::Static,
        Some(ContentError::ExpectedTag(expected)) => {
            if *expected == tag {
                Answer::Expected
            } else {
                Answer::Other
            }
        }
        Some(ContentError::ExpectedInteger(OWN)) => Answer::Own,
        _ => Answer::Other,
    }
}

impl Step for TakeStep {
    /// Reads a step: `CALL=ANSWER`, `CALL:TAG=ANSWER` or `CALL:TAG:USE=ANSWER`, where TAG may be a
    /// number, and ANSWER may be `=` and a number.
    fn of(_alloc: Global, word: &str) -> Result<TakeStep, Error> {
        let (what, answer) = word.split_once('=').ok_or(Malformed)?;
        let mut words = what.split(':');
        let call = find(&CALLS, next(&mut words)?)?;
        let value = words.next().unwrap_or("END_OF_VALUE");
        let with = find(&USES, words.next().unwrap_or("pass"))?;
        let (tag, number) = match value.parse::<u8>() {
            Ok(number) => (Tag::INTEGER, number),
            Err(_) => (tag_of(value)?, 0),
        };
        let answer = match answer.strip_prefix('=') {
            Some(number) => Answer::Number(number.parse::<u64>()?),
            None => answer_of(answer)?,
        };
        Ok(TakeStep {
            call,
            tag,
            number,
            with,
            answer,
        })
    }
}
