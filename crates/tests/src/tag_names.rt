//! Tests of the constants of tags and of modes. How tags are shown and read is in `vectors`.
use crate::asserts::{done, holds, same};
use bcder::{Mode, Tag};
use std::process::Abort;

/// The universal tags of X.680, 8.4, table 1.
const UNIVERSAL: [(u32, Tag); 36] = [
    (0, Tag::END_OF_VALUE),
    (1, Tag::BOOLEAN),
    (2, Tag::INTEGER),
    (3, Tag::BIT_STRING),
    (4, Tag::OCTET_STRING),
    (5, Tag::NULL),
    (6, Tag::OID),
    (7, Tag::OBJECT_DESCRIPTOR),
    (8, Tag::EXTERNAL),
    (9, Tag::REAL),
    (10, Tag::ENUMERATED),
    (11, Tag::EMBEDDED_PDV),
    (12, Tag::UTF8_STRING),
    (13, Tag::RELATIVE_OID),
    (14, Tag::TIME),
    (16, Tag::SEQUENCE),
    (17, Tag::SET),
    (18, Tag::NUMERIC_STRING),
    (19, Tag::PRINTABLE_STRING),
    (20, Tag::TELETEX_STRING),
    (21, Tag::VIDEOTEX_STRING),
    (22, Tag::IA5_STRING),
    (23, Tag::UTC_TIME),
    (24, Tag::GENERALIZED_TIME),
    (25, Tag::GRAPHIC_STRING),
    (26, Tag::VISIBLE_STRING),
    (27, Tag::GENERAL_STRING),
    (28, Tag::UNIVERSAL_STRING),
    (29, Tag::CHARACTER_STRING),
    (30, Tag::BMP_STRING),
    (31, Tag::DATE),
    (32, Tag::TIME_OF_DAY),
    (33, Tag::DATE_TIME),
    (34, Tag::DURATION),
    (35, Tag::OID_IRI),
    (36, Tag::RELATIVE_OID_IRI),
];

/// The context-specific tags.
const CONTEXT: [(u32, Tag); 7] = [
    (0, Tag::CTX_0),
    (1, Tag::CTX_1),
    (2, Tag::CTX_2),
    (3, Tag::CTX_3),
    (4, Tag::CTX_4),
    (5, Tag::CTX_5),
    (6, Tag::CTX_6),
];

#[test]
fn universal_constants_have_their_numbers(rt: HostRuntime) {
    for (number, tag) in &UNIVERSAL {
        assert!(rt; *number <= 36 && *tag == Tag::universal(*number), "{tag}");
        assert!(rt; tag.is_universal() && tag.number() == *number, "{tag}");
    }
}

#[test]
fn context_constants_have_their_numbers(rt: HostRuntime) {
    for (number, tag) in &CONTEXT {
        assert!(rt; *number <= 6 && *tag == Tag::ctx(*number), "{tag}");
        assert!(rt;
            tag.is_context_specific() && tag.number() == *number,
            "{tag}"
        );
    }
}

#[test]
fn tags_are_a_class_and_a_number(rt: HostRuntime) {
    holds(&rt, Tag::private(5) != Tag::application(5));
    holds(&rt, Tag::private(5) != Tag::private(4));
    holds(&rt, Tag::universal(0) == Tag::END_OF_VALUE);
    holds(&rt, Tag::ctx(0) != Tag::END_OF_VALUE);
    holds(&rt, Tag::universal(2) == Tag::INTEGER);
    holds(&rt, Tag::ctx(1) == Tag::CTX_1);
}

#[test]
fn tags_are_debugged_by_their_fields(rt: HostRuntime) {
    let text = done(&rt, format!(in rt.alloc(); "{:?}", Tag::CTX_1));
    assert_eq!(rt; text.as_str(), "Tag { class: ContextSpecific, number: 1 }");
}

/// Compares what a mode says of itself with what is wanted for BER, CER and DER.
fn check_mode(rt: &impl Abort, mode: Mode, wanted: [bool; 3]) {
    same(rt, [mode.is_ber(), mode.is_cer(), mode.is_der()], wanted);
    same(
        rt,
        [mode == Mode::Ber, mode == Mode::Cer, mode == Mode::Der],
        wanted,
    );
}

#[test]
fn modes_are_told_apart(rt: HostRuntime) {
    same(&rt, Mode::default(), Mode::Ber);
    check_mode(&rt, Mode::Ber, [true, false, false]);
    check_mode(&rt, Mode::Cer, [false, true, false]);
    check_mode(&rt, Mode::Der, [false, false, true]);
}

#[test]
fn modes_are_debugged_by_their_names(rt: HostRuntime) {
    for (mode, name) in [(Mode::Ber, "Ber"), (Mode::Cer, "Cer"), (Mode::Der, "Der")] {
        let text = done(&rt, format!(in rt.alloc(); "{mode:?}"));
        assert_eq!(rt; text.as_str(), name);
    }
}
