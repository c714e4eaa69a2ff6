//! One value of whatever type. Expected values are worked by hand from X.690, 8.1.
use crate::rows::{Read, Written, is_shown, reads, reads_and_rewrites, shown, takes};
use asn1::{Any, Choice2, Context, Decode, Explicit, Sequence, decode, encode};
use bcder::decode::BytesSource;
use bcder::encode::EncodeError;
use bcder::{Captured, Mode, Oid};
use bytes::Bytes;
use std::alloc::Global;
use std::fmt::Debug;
use std::process::Abort;

/// `SEQUENCE { algorithm OBJECT IDENTIFIER, parameters ANY DEFINED BY algorithm OPTIONAL }`.
type AlgorithmIdentifier = Sequence<(Oid<Bytes>, Option<Any>)>;

const WITH_NULL: &str = "Sequence((Oid(b\"*\\x03\"), Some([ 05 00 ])))";

const WITH_NONE: &str = "Sequence((Oid(b\"*\\x03\"), None))";

const PARAMETERS: [Read; 14] = [
    (
        Mode::Der,
        &[0x30, 0x06, 0x06, 0x02, 0x2A, 0x03, 0x05, 0x00],
        WITH_NULL,
    ),
    (Mode::Der, &[0x30, 0x04, 0x06, 0x02, 0x2A, 0x03], WITH_NONE),
    // CER has indefinite lengths
    (Mode::Cer, &[0x30, 0x04, 0x06, 0x02, 0x2A, 0x03], "refused"),
    // cut, an end without a beginning, and two
    (
        Mode::Der,
        &[0x30, 0x06, 0x06, 0x02, 0x2A, 0x03, 0x05, 0x01],
        "refused",
    ),
    (
        Mode::Ber,
        &[0x30, 0x06, 0x06, 0x02, 0x2A, 0x03, 0x00, 0x00],
        "refused",
    ),
    (
        Mode::Der,
        &[0x30, 0x08, 0x06, 0x02, 0x2A, 0x03, 0x05, 0x00, 0x05, 0x00],
        "refused",
    ),
    // a length in two octets where one does
    (
        Mode::Der,
        &[0x30, 0x07, 0x06, 0x02, 0x2A, 0x03, 0x05, 0x81, 0x00],
        "refused",
    ),
    // indefinite lengths
    (
        Mode::Ber,
        &[0x30, 0x80, 0x06, 0x02, 0x2A, 0x03, 0x05, 0x00, 0x00, 0x00],
        WITH_NULL,
    ),
    (
        Mode::Cer,
        &[0x30, 0x80, 0x06, 0x02, 0x2A, 0x03, 0x05, 0x00, 0x00, 0x00],
        WITH_NULL,
    ),
    (
        Mode::Ber,
        &[0x30, 0x80, 0x06, 0x02, 0x2A, 0x03, 0x00, 0x00],
        WITH_NONE,
    ),
    (
        Mode::Cer,
        &[0x30, 0x80, 0x06, 0x02, 0x2A, 0x03, 0x00, 0x00],
        WITH_NONE,
    ),
    // its own end is part of it
    (
        Mode::Ber,
        &[
            0x30, 0x80, 0x06, 0x02, 0x2A, 0x03, 0x30, 0x80, 0x02, 0x01, 0x05, 0x00, 0x00, 0x00,
            0x00,
        ],
        "Sequence((Oid(b\"*\\x03\"), Some([ 30 80 02 01  05 00 00 ])))",
    ),
    // without an end, and with one end for two
    (Mode::Ber, &[0x30, 0x80, 0x06, 0x02, 0x2A, 0x03], "refused"),
    (
        Mode::Ber,
        &[
            0x30, 0x80, 0x06, 0x02, 0x2A, 0x03, 0x30, 0x80, 0x02, 0x01, 0x05, 0x00, 0x00,
        ],
        "refused",
    ),
];

const WRITTEN: [Written; 3] = [
    (
        &[0x30, 0x80, 0x06, 0x02, 0x2A, 0x03, 0x05, 0x00, 0x00, 0x00],
        Mode::Ber,
        &[0x30, 0x06, 0x06, 0x02, 0x2A, 0x03, 0x05, 0x00],
    ),
    (
        &[0x30, 0x04, 0x06, 0x02, 0x2A, 0x03],
        Mode::Der,
        &[0x30, 0x04, 0x06, 0x02, 0x2A, 0x03],
    ),
    // what is kept is written as it was
    (
        &[
            0x30, 0x80, 0x06, 0x02, 0x2A, 0x03, 0x30, 0x80, 0x02, 0x01, 0x05, 0x00, 0x00, 0x00,
            0x00,
        ],
        Mode::Ber,
        &[
            0x30, 0x0B, 0x06, 0x02, 0x2A, 0x03, 0x30, 0x80, 0x02, 0x01, 0x05, 0x00, 0x00,
        ],
    ),
];

#[test]
fn parameters_are_kept_or_left_out(rt: HostRuntime) {
    reads_and_rewrites::<AlgorithmIdentifier>(&rt, rt.alloc(), &PARAMETERS, &WRITTEN);
}

const NEXT: [Read; 5] = [
    (Mode::Der, &[], "none"),
    (Mode::Der, &[0x05, 0x00], "[ 05 00 ]"),
    (
        Mode::Der,
        &[0xDF, 0x81, 0x02, 0x01, 0xFF, 0x05],
        "[ df 81 02 01  ff ]",
    ),
    (Mode::Ber, &[0x00, 0x00], "refused"),
    (Mode::Ber, &[0x05], "refused"),
];

const LIST: [Read; 3] = [
    (
        Mode::Ber,
        &[0x30, 0x80, 0x05, 0x00, 0x02, 0x01, 0x07, 0x00, 0x00],
        "Sequence([[ 05 00 ], [ 02 01 07 ]])",
    ),
    (Mode::Ber, &[0x30, 0x80, 0x00, 0x00], "Sequence([])"),
    (Mode::Der, &[0x30, 0x00], "Sequence([])"),
];

const BEFORE_ANOTHER: [Read; 3] = [
    // the end has been taken when the number is looked for
    (
        Mode::Ber,
        &[0x30, 0x80, 0x00, 0x00],
        "Sequence((None, None))",
    ),
    (Mode::Der, &[0x30, 0x00], "Sequence((None, None))"),
    (
        Mode::Ber,
        &[0x30, 0x80, 0x05, 0x00, 0x02, 0x01, 0x07, 0x00, 0x00],
        "Sequence((Some([ 05 00 ]), Some(7)))",
    ),
];

const TAGGED: [Read; 4] = [
    (
        Mode::Der,
        &[0xA0, 0x02, 0x05, 0x00],
        "Explicit { value: [ 05 00 ] }",
    ),
    (
        Mode::Ber,
        &[0xA0, 0x80, 0x05, 0x00, 0x00, 0x00],
        "Explicit { value: [ 05 00 ] }",
    ),
    (Mode::Ber, &[0xA0, 0x80, 0x00, 0x00], "refused"),
    (Mode::Ber, &[0xA0, 0x00], "refused"),
];

const CHOICE: [Read; 3] = [
    (Mode::Der, &[0x02, 0x01, 0x05], "One(5)"),
    (Mode::Der, &[0x05, 0x00], "Two([ 05 00 ])"),
    (Mode::Der, &[], "none"),
];

#[test]
fn any_value_stands_wherever_a_type_can(rt: HostRuntime) {
    takes::<Any>(&rt, rt.alloc(), &NEXT);
    reads::<Sequence<Vec<Any>>>(&rt, rt.alloc(), &LIST);
    reads::<Sequence<(Option<Any>, Option<u32>)>>(&rt, rt.alloc(), &BEFORE_ANOTHER);
    reads::<Explicit<Context<0>, Any>>(&rt, rt.alloc(), &TAGGED);
    takes::<Choice2<u32, Any>>(&rt, rt.alloc(), &CHOICE);
}

/// The mode in which a value is kept, another mode, and what becomes of it in that.
const MODES: [(Mode, Mode, &str); 9] = [
    (Mode::Ber, Mode::Ber, "kept"),
    (Mode::Ber, Mode::Cer, "refused"),
    (Mode::Ber, Mode::Der, "refused"),
    (Mode::Cer, Mode::Ber, "kept"),
    (Mode::Cer, Mode::Cer, "kept"),
    (Mode::Cer, Mode::Der, "refused"),
    (Mode::Der, Mode::Ber, "kept"),
    (Mode::Der, Mode::Cer, "refused"),
    (Mode::Der, Mode::Der, "kept"),
];

/// `NULL`, which has the same encoding in each mode.
const NULL: [u8; 2] = [0x05, 0x00];

/// Returns what becomes of a value that is kept in one mode when it is written in another.
fn written(rt: &impl Abort, alloc: Global, first: Mode, mode: Mode) -> &'static str {
    match encode(alloc, mode, &kept(rt, alloc, first, &NULL)) {
        Ok(octets) if octets.as_slice() == NULL.as_slice() => "kept",
        Ok(_) => "changed",
        Err(EncodeError::CapturedMode) => "refused",
        Err(_) => "failed",
    }
}

#[test]
fn it_is_written_in_its_own_mode(rt: HostRuntime) {
    for (first, mode, wanted) in &MODES {
        let found = written(&rt, rt.alloc(), *first, *mode);
        assert_eq!(rt; found, *wanted, "{first:?} in {mode:?}");
    }
}

/// Keeps a value.
fn kept(rt: &impl Abort, alloc: Global, mode: Mode, octets: &[u8]) -> Any {
    decode::<Any, &[u8]>(alloc, mode, octets).expect(rt, "refused")
}

/// Asserts how what is kept is shown once it is decoded as a value of a type.
fn decodes<T: Decode<BytesSource> + Debug>(rt: &impl Abort, alloc: Global, rows: &[Read<'_>]) {
    for (mode, octets, wanted) in rows {
        let value = kept(rt, alloc, *mode, octets).decode_as::<T>(alloc).ok();
        let found = shown(rt, alloc, value, "refused");
        is_shown(rt, *mode, octets, found.as_str(), wanted);
    }
}

/// Encodes a number, and keeps that.
fn captured(rt: &impl Abort, alloc: Global) -> Any {
    let octets = encode(alloc, Mode::Der, &5_u32).expect(rt, "refused");
    decode::<Any, Captured>(alloc, Mode::Der, octets).expect(rt, "refused")
}

#[test]
fn a_value_is_encoded_and_kept(rt: HostRuntime) {
    let value = captured(&rt, rt.alloc());
    assert_eq!(rt; value.as_slice(), [0x02, 0x01, 0x05].as_slice());
    assert!(rt; value.mode() == Mode::Der);
}

const NUMBERS: [Read; 3] = [
    (Mode::Der, &[0x02, 0x01, 0x05], "5"),
    (Mode::Der, &[0x05, 0x00], "refused"),
    (Mode::Ber, &[0x22, 0x03, 0x02, 0x01, 0x05], "refused"),
];

const BOOLEANS: [Read; 3] = [
    (Mode::Ber, &[0x01, 0x01, 0x01], "true"),
    // its contents octets are looked at only now
    (Mode::Der, &[0x01, 0x01, 0x01], "refused"),
    (Mode::Der, &[0x01, 0x01, 0xFF], "true"),
];

const LISTS: [Read; 2] = [
    (
        Mode::Ber,
        &[0x30, 0x80, 0x02, 0x01, 0x05, 0x00, 0x00],
        "Sequence([5])",
    ),
    (Mode::Der, &[0x30, 0x03, 0x02, 0x01, 0x05], "Sequence([5])"),
];

#[test]
fn it_is_decoded_as_a_value_of_a_type(rt: HostRuntime) {
    decodes::<u32>(&rt, rt.alloc(), &NUMBERS);
    decodes::<bool>(&rt, rt.alloc(), &BOOLEANS);
    decodes::<Sequence<Vec<u32>>>(&rt, rt.alloc(), &LISTS);
}
