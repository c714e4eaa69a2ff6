//! VisibleString, BMPString, UniversalString, TeletexString and GeneralString (X.680, 41; X.690,
//! 8.23).
use crate::rows::{Again, Read, Written, lends, reads_and_come_back, reads_and_rewrites, value};
use asn1::{BmpString, BmpStringRef, GeneralString, TeletexString, UniversalString, VisibleString};
use bcder::Mode;
use bcder::string::StringError;

/// A VisibleString, and the same cut into segments.
const AB: &[u8] = &[0x1A, 0x02, b'a', b'~'];

const CUT: &[u8] = &[0x3A, 0x06, 0x04, 0x01, b'a', 0x04, 0x01, b'~'];

const VISIBLE: [Read; 6] = [
    (
        Mode::Der,
        AB,
        "RestrictedString { octets: OctetString { octets: Whole(b\"a~\") }, set: PhantomData<_> }",
    ),
    // a control character, DELETE, and an octet that isn't ASCII
    (Mode::Ber, &[0x1A, 0x01, 0x1F], "refused"),
    (Mode::Ber, &[0x1A, 0x01, 0x7F], "refused"),
    (Mode::Ber, &[0x1A, 0x02, 0x41, 0xE9], "refused"),
    // cut; of another type
    (Mode::Der, CUT, "refused"),
    (Mode::Ber, &[0x16, 0x01, 0x41], "refused"),
];

const VISIBLE_WRITTEN: [Written; 3] = [
    (CUT, Mode::Ber, CUT),
    (CUT, Mode::Der, AB),
    (CUT, Mode::Cer, AB),
];

#[test]
fn characters_that_print_are_read_and_written(rt: HostRuntime) {
    reads_and_rewrites::<VisibleString>(&rt, rt.alloc(), &VISIBLE, &VISIBLE_WRITTEN);
}

const BMP: [Read; 8] = [
    // "A", U+20AC, U+FFFD
    (
        Mode::Der,
        &[0x1E, 0x06, 0x00, 0x41, 0x20, 0xAC, 0xFF, 0xFD],
        "RestrictedString { octets: OctetString { octets: \
         Whole(b\"\\0A \\xac\\xff\\xfd\") }, set: PhantomData<_> }",
    ),
    (
        Mode::Ber,
        &[0x1E, 0x00],
        "RestrictedString { octets: OctetString { octets: Whole(b\"\") }, set: PhantomData<_> }",
    ),
    // surrogates: D800, DFFF; the last two cells
    (Mode::Ber, &[0x1E, 0x02, 0xD8, 0x00], "refused"),
    (Mode::Ber, &[0x1E, 0x02, 0xDF, 0xFF], "refused"),
    (Mode::Ber, &[0x1E, 0x02, 0xFF, 0xFE], "refused"),
    (Mode::Ber, &[0x1E, 0x02, 0xFF, 0xFF], "refused"),
    // half a character
    (Mode::Ber, &[0x1E, 0x03, 0x00, 0x41, 0x00], "refused"),
    (Mode::Ber, &[0x1C, 0x02, 0x00, 0x41], "refused"),
];

/// U+20AC between two segments, and in one piece.
const HALVES: &[u8] = &[0x3E, 0x06, 0x04, 0x01, 0x20, 0x04, 0x01, 0xAC];

const EURO: &[u8] = &[0x1E, 0x02, 0x20, 0xAC];

const BMP_WRITTEN: [Written; 3] = [
    (HALVES, Mode::Ber, HALVES),
    (HALVES, Mode::Der, EURO),
    (HALVES, Mode::Cer, EURO),
];

#[test]
fn two_octets_each_are_read_and_written(rt: HostRuntime) {
    reads_and_rewrites::<BmpString>(&rt, rt.alloc(), &BMP, &BMP_WRITTEN);
}

const UNIVERSAL: [Read; 6] = [
    // U+1F600, U+10FFFF
    (
        Mode::Der,
        &[0x1C, 0x08, 0x00, 0x01, 0xF6, 0x00, 0x00, 0x10, 0xFF, 0xFF],
        "RestrictedString { octets: OctetString { octets: \
         Whole(b\"\\0\\x01\\xf6\\0\\0\\x10\\xff\\xff\") }, set: PhantomData<_> }",
    ),
    // beyond 10FFFF, a surrogate, and three octets
    (Mode::Ber, &[0x1C, 0x04, 0x00, 0x11, 0x00, 0x00], "refused"),
    (Mode::Ber, &[0x1C, 0x04, 0x01, 0x00, 0x00, 0x00], "refused"),
    (Mode::Ber, &[0x1C, 0x04, 0x00, 0x00, 0xD8, 0x00], "refused"),
    (Mode::Ber, &[0x1C, 0x03, 0x00, 0x00, 0x41], "refused"),
    (Mode::Ber, &[0x1E, 0x04, 0x00, 0x00, 0x00, 0x41], "refused"),
];

const UNIVERSAL_AGAIN: [Again; 2] = [
    (
        Mode::Ber,
        &[0x1C, 0x04, 0x00, 0x00, 0x20, 0xAC],
        Mode::Der,
        &[0x1C, 0x04, 0x00, 0x00, 0x20, 0xAC],
    ),
    (
        Mode::Der,
        &[0x1C, 0x04, 0x00, 0x01, 0xF6, 0x00],
        Mode::Cer,
        &[0x1C, 0x04, 0x00, 0x01, 0xF6, 0x00],
    ),
];

#[test]
fn four_octets_each_are_read_and_come_back(rt: HostRuntime) {
    reads_and_come_back::<UniversalString>(&rt, rt.alloc(), &UNIVERSAL, &[], &UNIVERSAL_AGAIN);
}

const TELETEX: [Read; 4] = [
    // "a", and octets that are no ASCII
    (
        Mode::Der,
        &[0x14, 0x03, 0x61, 0xC8, 0x75],
        "Implicit { value: OctetString { octets: Whole(b\"a\\xc8u\") } }",
    ),
    (
        Mode::Ber,
        &[0x14, 0x00],
        "Implicit { value: OctetString { octets: Whole(b\"\") } }",
    ),
    // of other types
    (Mode::Ber, &[0x04, 0x01, 0x61], "refused"),
    (Mode::Ber, &[0x1B, 0x01, 0x61], "refused"),
];

const TELETEX_WRITTEN: [Written; 2] = [
    (
        &[0x34, 0x06, 0x04, 0x01, 0x61, 0x04, 0x01, 0xC8],
        Mode::Ber,
        &[0x34, 0x06, 0x04, 0x01, 0x61, 0x04, 0x01, 0xC8],
    ),
    (
        &[0x34, 0x06, 0x04, 0x01, 0x61, 0x04, 0x01, 0xC8],
        Mode::Der,
        &[0x14, 0x02, 0x61, 0xC8],
    ),
];

/// GeneralStrings, and their characters, if all are ASCII.
const GENERAL: [(&[u8], Option<&str>); 2] = [
    (&[0x1B, 0x02, 0x61, 0x62], Some("ab")),
    (&[0x1B, 0x02, 0xC3, 0xA9], None),
];

#[test]
fn octets_of_registered_sets_are_kept(rt: HostRuntime) {
    reads_and_rewrites::<TeletexString>(&rt, rt.alloc(), &TELETEX, &TELETEX_WRITTEN);
    for (octets, wanted) in &GENERAL {
        let general = value::<GeneralString>(&rt, rt.alloc(), Mode::Der, octets);
        assert_eq!(rt; general.as_ascii(), *wanted);
    }
}

#[test]
fn texts_are_made_and_shown(rt: HostRuntime) {
    let bmp = BmpString::from_str(rt.alloc(), "A\u{20AC}").expect(&rt, "refused");
    assert!(rt; bmp.octet_string().as_slice() == Some([0x00, 0x41, 0x20, 0xAC].as_slice()));
    let shown = format!(in rt.alloc(); "{bmp}").expect(&rt, "refused");
    assert_eq!(rt; shown.as_str(), "A\u{20AC}");
    let large = BmpString::from_str(rt.alloc(), "\u{1F600}");
    assert!(rt; matches!(large, Err(StringError::CharSet)));
}

#[test]
fn large_texts_are_made_and_shown(rt: HostRuntime) {
    let universal = UniversalString::from_str(rt.alloc(), "\u{1F600}").expect(&rt, "refused");
    assert!(rt; universal.octet_string().as_slice() == Some([0x00, 0x01, 0xF6, 0x00].as_slice()));
    let shown = format!(in rt.alloc(); "{universal}").expect(&rt, "refused");
    assert_eq!(rt; shown.as_str(), "\u{1F600}");
    let visible = VisibleString::from_str(rt.alloc(), "a b").expect(&rt, "refused");
    assert_eq!(rt; visible.as_str(), Some("a b"));
    assert!(rt; VisibleString::from_str(rt.alloc(), "a\n").is_err());
}

const LENT: [Read; 2] = [
    (
        Mode::Der,
        EURO,
        "RestrictedStringRef { octets: [32, 172], set: PhantomData<_> }",
    ),
    (Mode::Ber, HALVES, "refused"),
];

#[test]
fn two_octets_each_are_lent(rt: HostRuntime) {
    lends::<BmpStringRef<&[u8]>>(&rt, rt.alloc(), &LENT);
}
