//! Errors that say in which part of a value something was refused.
//!
//! Positions are counted by hand. A header is refused where it begins; one of the wrong form, and a
//! value behind the last field, behind the header; contents octets at the first of them. A value
//! that is out of order, or a default, is refused where it begins, and a missing one where it is
//! missing.
ghost use Rattle.std.specs.Prelude.{false};
ghost use Rattle.asn1.specs.declared.choice.Choice2.TheVariants.{One, Two};

use crate::rows::{Read, explains, is_explained};
use asn1::{
    Any, Choice2, Choice3, Context, Decode, DecodeDefinition, DecodeParts, DefaultValue,
    Definition, Explicit, ExtensionAdditions, Implicit, OrDefault, Parts, Sequence, SequenceOf,
    SequenceTag, Set, SetOf, Trace, Type, TypeError, Utf8StringRef, decode_octets,
};
use bcder::decode::{Constructed, DecodeError, Source};
use bcder::{Mode, NoMemory, Tag};
use std::alloc::Global;

/// `Range ::= SEQUENCE { from INTEGER (0..255), until INTEGER (0..255) OPTIONAL }`.
#[derive(Drop)]
struct Range {
    from: u8,
    until: Option<u8>,
}

/// What defines [`Range`].
type RangeParts = Sequence<(u8, Option<u8>)>;

impl Parts for Range {
    type As = RangeParts;

    type Tags = SequenceTag;

    const NAME: &'static str = "Range";

    const PARTS: &'static [&'static str] = &["from", "until"];

    ghost parts = { λ x. (x.from, x.until) };

    ghost typed = { ⟦<RangeParts as Type>⟧ };

    fn from_parts(value: RangeParts) -> Range {
        let Sequence((from, until)) = value;
        Range { from, until }
    }

    fn parts_are_one() {
        <RangeParts>::values_are_one();
    }
}

impl<S: Source> DecodeParts<S> for Range {
    fn trace_parts<P: Trace>(
        alloc: Global,
        cons: &mut Constructed<'_, S>,
        tag: Tag,
        path: &mut P,
    ) -> Result<Option<RangeParts>, DecodeError<S::Error>> {
        <RangeParts>::trace_opt_if(alloc, cons, tag, path)
    }
}

/// `Answer ::= CHOICE { yes BOOLEAN, many Range }`.
#[derive(Drop)]
enum Answer {
    Yes(bool),
    Many(Range),
}

ghost use Rattle.types.specs.declared.errors.Answer.TheVariants.{Yes, Many};

impl Definition for Answer {
    type As = Choice2<bool, Range>;

    const NAME: &'static str = "Answer";

    const PARTS: &'static [&'static str] = &["yes", "many"];

    ghost parts = { elim [ Yes b ↦ One b | Many r ↦ Two r ] };

    fn from_parts(value: Choice2<bool, Range>) -> Answer {
        match value {
            Choice2::One(yes) => Answer::Yes(yes),
            Choice2::Two(many) => Answer::Many(many),
        }
    }
}

impl<S: Source> DecodeDefinition<S> for Answer {}

/// `FALSE`.
struct No;

impl DefaultValue<bool> for No {
    ghost default = { false };

    fn is_default(value: &bool) -> bool {
        !*value
    }

    fn make(_alloc: Global) -> Result<bool, NoMemory> {
        Ok(false)
    }
}

/// What defines [`Report`].
type ReportParts = Sequence<
    (
        Range,
        OrDefault<bool, No>,
        SequenceOf<Range>,
        Explicit<Context<0>, Answer>,
        Option<Implicit<Context<1>, Range>>,
    ),
>;

/// `Report ::= SEQUENCE { range Range, exact BOOLEAN DEFAULT FALSE, others SEQUENCE OF Range,
/// answer [0] EXPLICIT Answer, last [1] IMPLICIT Range OPTIONAL }`.
#[derive(Drop)]
struct Report {
    range: Range,
    exact: OrDefault<bool, No>,
    others: SequenceOf<Range>,
    answer: Explicit<Context<0>, Answer>,
    last: Option<Implicit<Context<1>, Range>>,
}

impl Parts for Report {
    type As = ReportParts;

    type Tags = SequenceTag;

    const NAME: &'static str = "Report";

    const PARTS: &'static [&'static str] = &["range", "exact", "others", "answer", "last"];

    ghost parts = { λ x. (x.range, x.exact, x.others, x.answer, x.last) };

    ghost typed = { ⟦<ReportParts as Type>⟧ };

    fn from_parts(value: ReportParts) -> Report {
        let Sequence((range, exact, others, answer, last)) = value;
        Report {
            range,
            exact,
            others,
            answer,
            last,
        }
    }

    fn parts_are_one() {
        <ReportParts>::values_are_one();
    }
}

impl<S: Source> DecodeParts<S> for Report {
    fn trace_parts<P: Trace>(
        alloc: Global,
        cons: &mut Constructed<'_, S>,
        tag: Tag,
        path: &mut P,
    ) -> Result<Option<ReportParts>, DecodeError<S::Error>> {
        <ReportParts>::trace_opt_if(alloc, cons, tag, path)
    }
}

/// `Unnamed ::= SEQUENCE { range Range, flag BOOLEAN }`, without names.
#[derive(Drop)]
struct Unnamed {
    range: Range,
    flag: bool,
}

impl Definition for Unnamed {
    type As = Sequence<(Range, bool)>;

    ghost parts = { λ x. (x.range, x.flag) };

    fn from_parts(value: Sequence<(Range, bool)>) -> Unnamed {
        let Sequence((range, flag)) = value;
        Unnamed { range, flag }
    }
}

impl<S: Source> DecodeDefinition<S> for Unnamed {}

/// Rows for `Range`.
const RANGES: [Read<'static>; 14] = [
    // no value, and one of another type
    (Mode::Der, &[], "Range at octet 0: expected SEQUENCE"),
    (
        Mode::Der,
        &[0x31, 0x00],
        "Range at octet 0: expected SEQUENCE",
    ),
    // no field, a field of another type, and one that is constructed
    (
        Mode::Der,
        &[0x30, 0x00],
        "Range.from at octet 2: expected INTEGER",
    ),
    (
        Mode::Der,
        &[0x30, 0x03, 0x01, 0x01, 0xFF],
        "Range.from at octet 2: expected INTEGER",
    ),
    (
        Mode::Der,
        &[0x30, 0x02, 0x22, 0x00],
        "Range.from at octet 4: expected a primitive value",
    ),
    // 256, and -1 in the second field
    (
        Mode::Der,
        &[0x30, 0x04, 0x02, 0x02, 0x01, 0x00],
        "Range.from at octet 4: no integer of this type",
    ),
    (
        Mode::Der,
        &[0x30, 0x06, 0x02, 0x01, 0x01, 0x02, 0x01, 0xFF],
        "Range.until at octet 7: no integer of this type",
    ),
    // a header in the place of the second field, with a length not in the fewest octets
    (
        Mode::Der,
        &[0x30, 0x07, 0x02, 0x01, 0x01, 0x02, 0x81, 0x01, 0x02],
        "Range.until at octet 5: length not in the fewest octets",
    ),
    // a third value
    (
        Mode::Der,
        &[
            0x30, 0x09, 0x02, 0x01, 0x01, 0x02, 0x01, 0x02, 0x02, 0x01, 0x03,
        ],
        "Range at octet 10: values left in a constructed value",
    ),
    // octets behind the value
    (
        Mode::Der,
        &[0x30, 0x03, 0x02, 0x01, 0x01, 0x00],
        "Range at octet 5: trailing data",
    ),
    // octets that end inside the first field
    (
        Mode::Der,
        &[0x30, 0x03, 0x02, 0x01],
        "Range.from at octet 4: unexpected end of data",
    ),
    // an indefinite length, which BER allows
    (
        Mode::Der,
        &[0x30, 0x80, 0x02, 0x01, 0x01, 0x00, 0x00],
        "Range at octet 0: indefinite length in DER",
    ),
    (
        Mode::Ber,
        &[0x30, 0x80, 0x02, 0x01, 0x01, 0x00, 0x00],
        "read",
    ),
    (
        Mode::Ber,
        &[0x30, 0x80, 0x01, 0x01, 0xFF, 0x00, 0x00],
        "Range.from at octet 2: expected INTEGER",
    ),
];

/// Returns why octets are no `Range`.
fn range_error(alloc: Global, mode: Mode, octets: &[u8]) -> Option<TypeError> {
    decode_octets::<Range>(alloc, mode, octets).err()
}

#[test]
fn fields_are_named(rt: HostRuntime) {
    for (mode, octets, wanted) in &RANGES {
        let error = range_error(rt.alloc(), *mode, octets);
        is_explained(&rt, rt.alloc(), *mode, octets, error, wanted);
    }
}

/// Rows for `Report`.
const REPORTS: [Read<'static>; 13] = [
    (
        Mode::Der,
        &[
            0x30, 0x14, 0x30, 0x03, 0x02, 0x01, 0x01, 0x01, 0x01, 0xFF, 0x30, 0x00, 0xA0, 0x03,
            0x01, 0x01, 0xFF, 0xA1, 0x03, 0x02, 0x01, 0x09,
        ],
        "read",
    ),
    // a value behind the last field
    (
        Mode::Der,
        &[
            0x30, 0x0E, 0x30, 0x03, 0x02, 0x01, 0x01, 0x30, 0x00, 0xA0, 0x03, 0x01, 0x01, 0xFF,
            0x05, 0x00,
        ],
        "Report at octet 16: values left in a constructed value",
    ),
    // a field of a field
    (
        Mode::Der,
        &[0x30, 0x02, 0x30, 0x00],
        "Report.range.from at octet 4: expected INTEGER",
    ),
    // a default value, which BER allows; then the list is missing
    (
        Mode::Der,
        &[0x30, 0x08, 0x30, 0x03, 0x02, 0x01, 0x01, 0x01, 0x01, 0x00],
        "Report.exact at octet 7: a default value is encoded",
    ),
    (
        Mode::Ber,
        &[0x30, 0x08, 0x30, 0x03, 0x02, 0x01, 0x01, 0x01, 0x01, 0x00],
        "Report.others at octet 10: expected SEQUENCE",
    ),
    // 02 is no BOOLEAN of DER
    (
        Mode::Der,
        &[0x30, 0x08, 0x30, 0x03, 0x02, 0x01, 0x01, 0x01, 0x01, 0x02],
        "Report.exact at octet 9: no boolean",
    ),
    // the third value of the list has no field; the second one is a BOOLEAN
    (
        Mode::Der,
        &[
            0x30, 0x13, 0x30, 0x03, 0x02, 0x01, 0x01, 0x30, 0x0C, 0x30, 0x03, 0x02, 0x01, 0x02,
            0x30, 0x03, 0x02, 0x01, 0x03, 0x30, 0x00,
        ],
        "Report.others[2].from at octet 21: expected INTEGER",
    ),
    (
        Mode::Der,
        &[
            0x30, 0x0F, 0x30, 0x03, 0x02, 0x01, 0x01, 0x30, 0x08, 0x30, 0x03, 0x02, 0x01, 0x02,
            0x01, 0x01, 0xFF,
        ],
        "Report.others at octet 16: values left in a constructed value",
    ),
    // no explicit tag; nothing inside it; a NULL inside it
    (
        Mode::Der,
        &[0x30, 0x07, 0x30, 0x03, 0x02, 0x01, 0x01, 0x30, 0x00],
        "Report.answer at octet 9: expected [0]",
    ),
    (
        Mode::Der,
        &[
            0x30, 0x09, 0x30, 0x03, 0x02, 0x01, 0x01, 0x30, 0x00, 0xA0, 0x00,
        ],
        "Report.answer at octet 11: expected BOOLEAN or SEQUENCE",
    ),
    (
        Mode::Der,
        &[
            0x30, 0x0B, 0x30, 0x03, 0x02, 0x01, 0x01, 0x30, 0x00, 0xA0, 0x02, 0x05, 0x00,
        ],
        "Report.answer at octet 11: expected BOOLEAN or SEQUENCE",
    ),
    // a field of the second alternative
    (
        Mode::Der,
        &[
            0x30, 0x0B, 0x30, 0x03, 0x02, 0x01, 0x01, 0x30, 0x00, 0xA0, 0x02, 0x30, 0x00,
        ],
        "Report.answer.many.from at octet 13: expected INTEGER",
    ),
    // a field of the last field, which is optional and has an implicit tag
    (
        Mode::Der,
        &[
            0x30, 0x0E, 0x30, 0x03, 0x02, 0x01, 0x01, 0x30, 0x00, 0xA0, 0x03, 0x01, 0x01, 0xFF,
            0xA1, 0x00,
        ],
        "Report.last.from at octet 16: expected INTEGER",
    ),
];

#[test]
fn parts_of_parts_are_named(rt: HostRuntime) {
    explains::<Report>(&rt, rt.alloc(), &REPORTS);
}

/// Rows for `Answer`.
const ANSWERS: [Read<'static>; 2] = [
    (
        Mode::Der,
        &[0x01, 0x00],
        "Answer.yes at octet 2: no boolean",
    ),
    (
        Mode::Der,
        &[0x05, 0x00],
        "Answer at octet 0: expected BOOLEAN or SEQUENCE",
    ),
];

/// Rows for `Unnamed`.
const UNNAMED: [Read<'static>; 2] = [
    (
        Mode::Der,
        &[0x30, 0x05, 0x30, 0x03, 0x02, 0x01, 0x01],
        ".1 at octet 7: expected BOOLEAN",
    ),
    (
        Mode::Der,
        &[0x30, 0x02, 0x30, 0x00],
        ".0.from at octet 4: expected INTEGER",
    ),
];

#[test]
fn names_may_be_left_out(rt: HostRuntime) {
    explains::<Answer>(&rt, rt.alloc(), &ANSWERS);
    explains::<Unnamed>(&rt, rt.alloc(), &UNNAMED);
}

/// A CHOICE of three, with no names.
type Third = Choice3<bool, (), Sequence<(u8, Utf8StringRef<&'static [u8]>)>>;

/// Rows for `Third`.
const THIRDS: [Read<'static>; 3] = [
    (
        Mode::Der,
        &[0x05, 0x01, 0x00],
        "at octet 2: octets in a null",
    ),
    (
        Mode::Der,
        &[0x02, 0x00],
        "at octet 0: expected BOOLEAN, NULL or SEQUENCE",
    ),
    (
        Mode::Der,
        &[0x30, 0x06, 0x02, 0x01, 0x01, 0x0C, 0x01, 0xFF],
        ".1 at octet 7: invalid character",
    ),
];

/// Rows for `SET OF SEQUENCE { BOOLEAN, ANY, .. }`.
const SETS: [Read<'static>; 4] = [
    (
        Mode::Der,
        &[0x31, 0x04, 0x30, 0x02, 0x05, 0x00],
        "[0].0 at octet 4: expected BOOLEAN",
    ),
    (
        Mode::Der,
        &[0x31, 0x05, 0x30, 0x03, 0x01, 0x01, 0xFF],
        "[0].1 at octet 7: expected a value",
    ),
    // two values, the second of which comes before the first
    (
        Mode::Der,
        &[
            0x31, 0x0E, 0x30, 0x05, 0x01, 0x01, 0xFF, 0x05, 0x00, 0x30, 0x05, 0x01, 0x01, 0x00,
            0x05, 0x00,
        ],
        "[1] at octet 9: values of a set are out of order",
    ),
    (Mode::Der, &[0x30, 0x00], "at octet 0: expected SET"),
];

/// Rows for a list of pairs, the second of which is boxed.
const PAIRS: [Read<'static>; 2] = [
    (
        Mode::Der,
        &[0x30, 0x05, 0x30, 0x03, 0x02, 0x01, 0x01],
        "[0].1 at octet 7: expected BOOLEAN",
    ),
    (
        Mode::Der,
        &[
            0x30, 0x08, 0x30, 0x06, 0x02, 0x01, 0x01, 0x01, 0x01, 0xFF, 0x05,
        ],
        "at octet 10: trailing data",
    ),
];

/// Rows for fields within fields, which are counted through.
const FIVE: [Read<'static>; 4] = [
    (
        Mode::Der,
        &[
            0x30, 0x0F, 0x02, 0x01, 0x01, 0x01, 0x01, 0xFF, 0x02, 0x01, 0x01, 0x01, 0x01, 0xFF,
            0x02, 0x01, 0x01,
        ],
        "read",
    ),
    (
        Mode::Der,
        &[0x30, 0x03, 0x02, 0x01, 0x01],
        ".1 at octet 5: expected BOOLEAN",
    ),
    (
        Mode::Der,
        &[
            0x30, 0x09, 0x02, 0x01, 0x01, 0x01, 0x01, 0xFF, 0x02, 0x01, 0x01,
        ],
        ".3 at octet 11: expected BOOLEAN",
    ),
    (
        Mode::Der,
        &[
            0x30, 0x0C, 0x02, 0x01, 0x01, 0x01, 0x01, 0xFF, 0x02, 0x01, 0x01, 0x01, 0x01, 0xFF,
        ],
        ".4 at octet 14: expected INTEGER",
    ),
];

/// Rows for a list of lists, each in an explicit tag.
const LISTS: [Read<'static>; 2] = [
    // nothing in the second tag; then 256 is the first value of its list
    (
        Mode::Der,
        &[0x30, 0x06, 0xA0, 0x02, 0x30, 0x00, 0xA0, 0x00],
        "[1] at octet 8: expected SEQUENCE",
    ),
    (
        Mode::Der,
        &[
            0x30, 0x0C, 0xA0, 0x02, 0x30, 0x00, 0xA0, 0x06, 0x30, 0x04, 0x02, 0x02, 0x01, 0x00,
        ],
        "[1][0] at octet 12: no integer of this type",
    ),
];

/// Rows for `SET { BOOLEAN, INTEGER (0..255) }`. Positions in fields count from the first value, in
/// order.
const MEMBERS: [Read<'static>; 4] = [
    (
        Mode::Der,
        &[0x31, 0x03, 0x01, 0x01, 0xFF],
        ".1 at octet 3: expected INTEGER",
    ),
    (
        Mode::Ber,
        &[0x31, 0x07, 0x02, 0x02, 0x01, 0x00, 0x01, 0x01, 0xFF],
        ".1 at octet 5: no integer of this type",
    ),
    // out of order, and the same tag twice
    (
        Mode::Der,
        &[0x31, 0x06, 0x02, 0x01, 0x01, 0x01, 0x01, 0xFF],
        "at octet 5: values of a set are out of order",
    ),
    (
        Mode::Ber,
        &[0x31, 0x06, 0x01, 0x01, 0xFF, 0x01, 0x01, 0x00],
        "at octet 5: values of a set are out of order",
    ),
];

#[test]
fn fields_within_fields_are_counted(rt: HostRuntime) {
    let alloc = rt.alloc();
    explains::<Sequence<((u8, bool), (u8, bool), u8)>>(&rt, alloc, &FIVE);
    explains::<SequenceOf<Explicit<Context<0>, SequenceOf<u8>>>>(&rt, alloc, &LISTS);
    explains::<Set<(bool, u8)>>(&rt, alloc, &MEMBERS);
}

#[test]
fn types_need_no_names(rt: HostRuntime) {
    let alloc = rt.alloc();
    explains::<Third>(&rt, alloc, &THIRDS);
    explains::<SetOf<Sequence<(bool, Any, ExtensionAdditions)>>>(&rt, alloc, &SETS);
    explains::<SequenceOf<Sequence<(u8, Box<bool>)>>>(&rt, alloc, &PAIRS);
}

/// Returns the position of an error, if it has one.
fn position(error: &TypeError) -> Option<usize> {
    match error.position() {
        Some(position) => Some(usize::from(position)),
        None => None,
    }
}

#[test]
fn an_error_has_a_position(rt: HostRuntime) {
    let octets: &[u8] = &[0x30, 0x04, 0x02, 0x02, 0x01, 0x00];
    match range_error(rt.alloc(), Mode::Der, octets) {
        None => panic!(rt; "read"),
        Some(error) => {
            assert_eq!(rt; position(&error), Some(4));
            assert!(rt; error.error.content_error().is_some());
        }
    }
}
