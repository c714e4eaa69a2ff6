//! Tests of character sets: which octets are strings, and which characters these spell (X.680, 41;
//! RFC 3629).
use super::sets::{Set, What, check, spelled};
use super::string_octets::read;
use crate::asserts::Case;
use bcder::string::{CharSet, Utf8CharSet};
use std::process::Abort;
use std::str;

// ---- UTF-8

/// The first and the last character of each length, and those beside the surrogates, with their
/// neighbours.
const BOUNDARIES: [(&[u8], Option<&str>); 24] = [
    (&[], Some("")),
    (&[0x00], Some("\u{0}")),
    (&[0x7F], Some("\u{7F}")),
    (&[0x80], None),
    (&[0xC1, 0xBF], None),
    (&[0xC2, 0x80], Some("\u{80}")),
    (&[0xDF, 0xBF], Some("\u{7FF}")),
    (&[0xE0, 0x9F, 0xBF], None),
    (&[0xE0, 0xA0, 0x80], Some("\u{800}")),
    (&[0xED, 0x9F, 0xBF], Some("\u{D7FF}")),
    (&[0xED, 0xA0, 0x80], None),
    (&[0xED, 0xBF, 0xBF], None),
    (&[0xEE, 0x80, 0x80], Some("\u{E000}")),
    (&[0xEF, 0xBF, 0xBF], Some("\u{FFFF}")),
    (&[0xF0, 0x8F, 0xBF, 0xBF], None),
    (&[0xF0, 0x90, 0x80, 0x80], Some("\u{10000}")),
    (&[0xF4, 0x8F, 0xBF, 0xBF], Some("\u{10FFFF}")),
    (&[0xF4, 0x90, 0x80, 0x80], None),
    (&[0xF5, 0x80, 0x80, 0x80], None),
    (&[0xC3], None),
    (&[0xE2, 0x82], None),
    (&[0xF0, 0x9F, 0x98], None),
    (&[0x61, 0xC3, 0xA9, 0x62, 0xE2, 0x82, 0xAC], Some("aéb€")),
    (&[0xF0, 0x9F, 0x98, 0x80, 0x0A], Some("😀\n")),
];

#[test]
fn utf8_at_its_boundaries(rt: HostRuntime) {
    for (row, (octets, text)) in BOUNDARIES.iter().enumerate() {
        check(
            &Case::new(&rt, rt.alloc(), row),
            Set::Utf8,
            What::Spell(*octets, *text),
        );
    }
}

/// Checks each first octet with each second octet, and up to two tails after them, against std.
#[test]
fn utf8_as_std_has_it(rt: HostRuntime) {
    for first in 0..=255u8 {
        let case = Case::new(&rt, rt.alloc(), usize::from(first));
        for second in 0..=255u8 {
            let octets = [first, second, 0xBF, 0x80];
            for len in 1..=4 {
                let octets = &octets[..len];
                let text = str::from_utf8(octets).ok();
                check(&case, Set::Utf8, What::Spell(octets, text));
            }
        }
    }
}

/// Strings that were cut, as encodings in BER, and what they spell.
const CUTS: [(&[u8], Option<&str>); 9] = [
    (&[0x24, 0x06, 0x04, 0x01, 0xC3, 0x04, 0x01, 0xA9], Some("é")),
    (&[0x24, 0x06, 0x04, 0x01, 0xC3, 0x04, 0x01, 0x61], None),
    (&[0x24, 0x03, 0x04, 0x01, 0xC3], None),
    (&[0x24, 0x06, 0x04, 0x01, 0x61, 0x04, 0x01, 0x80], None),
    (&[0x24, 0x00], Some("")),
    (&[0x24, 0x04, 0x04, 0x00, 0x04, 0x00], Some("")),
    (
        &[0x24, 0x08, 0x04, 0x01, 0xE2, 0x04, 0x00, 0x04, 0x01, 0x82],
        None,
    ),
    (
        &[
            0x24, 0x0B, 0x04, 0x01, 0xE2, 0x04, 0x00, 0x04, 0x01, 0x82, 0x04, 0x01, 0xAC,
        ],
        Some("€"),
    ),
    (
        &[
            0x24, 0x0A, 0x04, 0x02, 0x61, 0xF0, 0x04, 0x04, 0x9F, 0x98, 0x80, 0x62,
        ],
        Some("a😀b"),
    ),
];

#[test]
fn utf8_across_segments(rt: HostRuntime) {
    for (row, (octets, text)) in CUTS.iter().enumerate() {
        let case = Case::new(&rt, rt.alloc(), row);
        let string = read(&case, *octets);
        let found = spelled::<Utf8CharSet>(&case, string.octets(), octets.len());
        case.same(found.as_deref(), *text);
        let checked = Utf8CharSet::check(string.octets()).is_ok();
        case.same(checked, text.is_some());
        case.holds(string.octets().as_slice().is_none() || octets.len() == 2);
    }
}

// ---- sets of single octets

/// All characters of NumericString and of PrintableString (X.680, 41).
const NUMERIC: &[u8] = b"0123456789 ";

const PRINTABLE: &[u8] =
    b"ABCDEFGHIJKLMNOPQRSTUVWXYZabcdefghijklmnopqrstuvwxyz0123456789 '()+,-./:=?";

/// Checks that one octet is the character with its number, if the set has that.
fn has(case: &Case<'_, impl Abort>, set: Set, octet: u8, wanted: bool) {
    let mut text = String::new(case.alloc);
    case.done(text.push(octet as char));
    let wanted = if wanted { Some(text.as_str()) } else { None };
    check(case, set, What::Spell(&[octet], wanted));
}

#[test]
fn each_octet_is_a_character_or_none(rt: HostRuntime) {
    for octet in 0..=255u8 {
        let case = Case::new(&rt, rt.alloc(), usize::from(octet));
        has(&case, Set::Numeric, octet, NUMERIC.contains(&octet));
        has(&case, Set::Printable, octet, PRINTABLE.contains(&octet));
        has(&case, Set::Ia5, octet, octet < 0x80);
        has(&case, Set::Latin1, octet, true);
    }
}

/// Octets of a set, and what they spell, if they are one of its strings. The first octet counts,
/// and so do those after it. Then texts, and the octets that they have in a set, if it has all of
/// their characters.
const LINES: [(Set, What<'_>); 14] = [
    (Set::Numeric, What::Spell(b"12 34", Some("12 34"))),
    (Set::Numeric, What::Spell(b"12a", None)),
    (Set::Printable, What::Spell(b"*ab", None)),
    (Set::Printable, What::Spell(b"a@b", None)),
    (Set::Ia5, What::Spell(b"a@\x80", None)),
    (
        Set::Utf8,
        What::Give("é€", Some(&[0xC3, 0xA9, 0xE2, 0x82, 0xAC])),
    ),
    (Set::Numeric, What::Give("1 2", Some(b"1 2"))),
    (Set::Printable, What::Give("A+b", Some(b"A+b"))),
    (Set::Ia5, What::Give("a@b", Some(b"a@b"))),
    (Set::Latin1, What::Give("aÿ", Some(&[0x61, 0xFF]))),
    (Set::Numeric, What::Give("12-3", None)),
    (Set::Printable, What::Give("a@b", None)),
    (Set::Ia5, What::Give("é", None)),
    (Set::Latin1, What::Give("aĀ", None)),
];

#[test]
fn octets_and_texts(rt: HostRuntime) {
    for (row, (set, what)) in LINES.iter().enumerate() {
        check(&Case::new(&rt, rt.alloc(), row), *set, *what);
    }
}
