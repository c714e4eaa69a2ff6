//! Tests of restricted character strings: which values are read as one, and their characters
//! (X.690, 8.23).
use super::sets::{Set, What, check, read};
use crate::asserts::Case;
use crate::over::check_all;
use crate::reading::{Line, Look, Wanted};
use bcder::decode::{Constructed, DecodeError, SliceSource, Source};
use bcder::encode::Values;
use bcder::string::{
    CharSet, Ia5CharSet, NumericCharSet, PrintableCharSet, RestrictedString, TextCharSet,
    Utf8CharSet, Utf8String,
};
use bcder::{Mode, Tag};
use std::alloc::Global;
use std::process::Abort;

/// A string that was cut, with the tag of octet strings in its segments.
const CUT: &[u8] = &[0x2C, 0x06, 0x04, 0x01, 0xC3, 0x04, 0x01, 0xA9];

/// Octets that are read, octets that make a string, and texts that make one.
const LINES: [(Set, What<'_>); 34] = [
    (Set::Utf8, What::Read(Mode::Ber, CUT, Some("é"))),
    (Set::Utf8, What::Read(Mode::Der, CUT, None)),
    (
        Set::Utf8,
        What::Read(
            Mode::Ber,
            &[0x2C, 0x06, 0x0C, 0x01, 0xC3, 0x0C, 0x01, 0xA9],
            None,
        ),
    ),
    (
        Set::Utf8,
        What::Read(Mode::Ber, &[0x2C, 0x03, 0x04, 0x01, 0xC3], None),
    ),
    (
        Set::Utf8,
        What::Read(Mode::Der, &[0x0C, 0x02, 0xC3, 0xA9], Some("é")),
    ),
    (
        Set::Utf8,
        What::Read(Mode::Der, &[0x0C, 0x02, 0xC3, 0xE9], None),
    ),
    (Set::Utf8, What::Read(Mode::Cer, &[0x0C, 0x00], Some(""))),
    (Set::Utf8, What::Read(Mode::Der, &[0x13, 0x01, 0x61], None)),
    (
        Set::Numeric,
        What::Read(Mode::Der, &[0x12, 0x03, 0x31, 0x20, 0x32], Some("1 2")),
    ),
    (
        Set::Numeric,
        What::Read(Mode::Der, &[0x12, 0x01, 0x2D], None),
    ),
    (
        Set::Printable,
        What::Read(Mode::Der, &[0x13, 0x01, 0x3F], Some("?")),
    ),
    (
        Set::Printable,
        What::Read(Mode::Der, &[0x13, 0x01, 0x40], None),
    ),
    (
        Set::Ia5,
        What::Read(Mode::Der, &[0x16, 0x01, 0x7F], Some("\u{7F}")),
    ),
    (Set::Ia5, What::Read(Mode::Der, &[0x16, 0x01, 0x80], None)),
    (
        Set::Latin1,
        What::Read(Mode::Der, &[0x14, 0x02, 0x61, 0xE9], Some("aé")),
    ),
    (Set::Printable, What::Make(b"This is okay", true)),
    (Set::Printable, What::Make(b"This is wrong!", false)),
    (Set::Printable, What::Make(b"*", false)),
    (Set::Printable, What::Make(b"&", false)),
    (Set::Utf8, What::Make(&[0xC3, 0xA9], true)),
    (Set::Utf8, What::Make(&[0xC3, 0xC3], false)),
    (Set::Utf8, What::Make(&[0xC0, 0x80], false)),
    (Set::Utf8, What::Make(&[0xED, 0xA0, 0x80], false)),
    (Set::Utf8, What::Make(&[0xED, 0xBF, 0xBF], false)),
    (Set::Utf8, What::Make(&[0xF4, 0x90, 0x80, 0x80], false)),
    (
        Set::Utf8,
        What::Text(
            "aé€😀",
            Some(&[0x61, 0xC3, 0xA9, 0xE2, 0x82, 0xAC, 0xF0, 0x9F, 0x98, 0x80]),
        ),
    ),
    (Set::Numeric, What::Text("1 2", Some(b"1 2"))),
    (Set::Printable, What::Text("A+b", Some(b"A+b"))),
    (Set::Ia5, What::Text("a@b", Some(b"a@b"))),
    (Set::Latin1, What::Text("é", Some(&[0xE9]))),
    (Set::Latin1, What::Text("", Some(b""))),
    (Set::Printable, What::Text("*", None)),
    (Set::Printable, What::Text("é", None)),
    (Set::Latin1, What::Text("Ā", None)),
];

#[test]
fn strings_in_their_sets(rt: HostRuntime) {
    for (row, (set, what)) in LINES.iter().enumerate() {
        check(&Case::new(&rt, rt.alloc(), row), *set, *what);
    }
}

/// Takes a string after a NULL.
#[derive(Clone, Copy)]
struct AfterNull;

impl Look for AfterNull {
    #[tactic(auto, using(bcder::specs::laws::Moved::steps))]
    fn look<S: Source>(
        &mut self,
        alloc: Global,
        cons: &mut Constructed<'_, S>,
    ) -> Result<bool, DecodeError<S::Error>> {
        cons.take_null()?;
        Ok(Utf8String::take_from(alloc, cons)?.is_empty())
    }
}

/// Why strings after a NULL are refused.
const AT_FOUR: Wanted<'_> = Wanted::Says("invalid character (at position 4)");

/// Characters are refused at the position where the content begins that they are in.
const BEHIND: [Line<'_, AfterNull>; 3] = [
    Line(
        Mode::Ber,
        &[0x05, 0x00, 0x0C, 0x02, 0xC3, 0x28],
        AfterNull,
        AT_FOUR,
    ),
    Line(
        Mode::Ber,
        &[0x05, 0x00, 0x2C, 0x04, 0x04, 0x02, 0xC3, 0x28],
        AfterNull,
        AT_FOUR,
    ),
    Line(
        Mode::Ber,
        &[0x05, 0x00, 0x2C, 0x80, 0x04, 0x02, 0xC3, 0x28, 0x00, 0x00],
        AfterNull,
        AT_FOUR,
    ),
];

#[test]
fn where_a_string_is_refused(rt: HostRuntime) {
    check_all(&rt, rt.alloc(), &BEHIND);
}

/// Checks that the text is borrowed if the string came in one piece.
fn check_lent<L: TextCharSet>(case: &Case<'_, impl Abort>, octets: &[u8], text: Option<&str>) {
    let string = read::<L, _>(case.alloc, Mode::Ber, &mut SliceSource::new(octets));
    match &string {
        Some(string) => case.same(string.as_str(), text),
        None => case.holds(false),
    }
}

/// Strings in BER, and their texts, which are lent if they came in one piece.
const LENT: [(Set, &[u8], Option<&str>); 5] = [
    (Set::Utf8, &[0x0C, 0x02, 0xC3, 0xA9], Some("é")),
    (Set::Printable, &[0x13, 0x01, 0x61], Some("a")),
    (Set::Numeric, &[0x12, 0x00], Some("")),
    (Set::Ia5, &[0x16, 0x01, 0x40], Some("@")),
    (Set::Utf8, CUT, None),
];

#[test]
fn texts_that_are_lent(rt: HostRuntime) {
    for (row, (set, octets, text)) in LENT.iter().enumerate() {
        let case = Case::new(&rt, rt.alloc(), row);
        match set {
            Set::Utf8 => check_lent::<Utf8CharSet>(&case, *octets, *text),
            Set::Numeric => check_lent::<NumericCharSet>(&case, *octets, *text),
            Set::Printable => check_lent::<PrintableCharSet>(&case, *octets, *text),
            Set::Ia5 => check_lent::<Ia5CharSet>(&case, *octets, *text),
            Set::Latin1 => case.holds(false),
        }
    }
}

/// Checks that a string is written as these octets, and read from them as an equal string.
fn check_written<L: CharSet>(
    case: &Case<'_, impl Abort>,
    mode: Mode,
    string: &RestrictedString<L>,
    octets: &[u8],
) {
    let written = case.done(string.encode_ref().to_captured(case.alloc, mode));
    case.same(written.as_slice(), octets);
    match read::<L, _>(case.alloc, mode, &mut SliceSource::new(octets)) {
        Some(read) => case.holds(read == *string),
        None => case.holds(false),
    }
}

#[test]
fn strings_are_written(rt: HostRuntime) {
    let case = Case::new(&rt, rt.alloc(), 0);
    let string = RestrictedString::<PrintableCharSet>::from_str(rt.alloc(), "This is okay");
    let string = case.done(string);
    check_written(&case, Mode::Der, &string, b"\x13\x0CThis is okay");
    let under = string.encode_ref_as(Tag::CTX_0);
    let under = case.done(under.to_captured(rt.alloc(), Mode::Der));
    case.same(under.as_slice(), b"\x80\x0CThis is okay");
    let owned = case.done(string.encode().to_captured(rt.alloc(), Mode::Cer));
    case.same(owned.as_slice(), b"\x13\x0CThis is okay");
}

/// Checks 1001 letters, which are two segments in CER (9.2).
#[test]
fn a_long_string_is_written(rt: HostRuntime) {
    let case = Case::new(&rt, rt.alloc(), 0);
    let mut octets = Vec::new(rt.alloc());
    case.done(octets.extend_from_slice(&[0x2C, 0x80, 0x04, 0x82, 0x03, 0xE8]));
    case.done(octets.extend_from_slice(&[0x61; 1000]));
    case.done(octets.extend_from_slice(&[0x04, 0x01, 0x61, 0x00, 0x00]));
    case.same(octets.len(), 1011);
    let mut text = String::new(rt.alloc());
    for _ in 0..1001 {
        case.done(text.push('a'));
    }
    let string = RestrictedString::<Utf8CharSet>::from_string(rt.alloc(), text);
    check_written(&case, Mode::Cer, &case.done(string), &octets);
}
