//! Sources that fail. A value is read over one that fails at each of its octets in turn, and behind
//! the last: the error is that of the source. Over one that fails later the value is read, as
//! worked by hand from X.690.
use crate::cut::Cut;
use crate::rows::{Read, fails};
use asn1::{
    Any, Choice2, Context, Explicit, ExtensionAdditions, Implicit, ObjectIdentifier, Sequence,
    SequenceOf, Set, SetOf,
};
use bcder::string::Utf8String;
use bcder::{BitString, Integer, Mode, OctetString};

const NUMBERS: [Read; 2] = [
    (Mode::Der, &[0x02, 0x03, 0x01, 0x00, 0x01], "65537"),
    (Mode::Ber, &[0x02, 0x81, 0x02, 0x01, 0x00], "256"),
];

const LARGE: [Read; 1] = [(
    Mode::Der,
    &[0x02, 0x02, 0x80, 0x01],
    "Integer { octets: b\"\\x80\\x01\" }",
)];

const TRUTHS: [Read; 1] = [(Mode::Cer, &[0x01, 0x01, 0xFF], "true")];

const NULLS: [Read; 2] = [
    (Mode::Der, &[0x05, 0x00], "()"),
    (Mode::Ber, &[0x05, 0x82, 0x00, 0x00], "()"),
];

#[test]
fn plain_types(rt: HostRuntime) {
    let alloc = rt.alloc();
    fails::<u32>(&rt, alloc, &NUMBERS);
    fails::<Integer>(&rt, alloc, &LARGE);
    fails::<bool>(&rt, alloc, &TRUTHS);
    fails::<()>(&rt, alloc, &NULLS);
}

const IDENTIFIERS: [Read; 1] = [(
    Mode::Der,
    &[0x06, 0x02, 0x2A, 0x03],
    "ObjectIdentifier(Oid(b\"*\\x03\"))",
)];

const OCTETS: [Read; 1] = [(
    Mode::Der,
    &[0x04, 0x02, 0x61, 0x62],
    "OctetString { octets: Whole(b\"ab\") }",
)];

const BITS: [Read; 1] = [(
    Mode::Der,
    &[0x03, 0x02, 0x04, 0xB0],
    "BitString { unused: 4, octets: b\"\\xb0\" }",
)];

const TEXTS: [Read; 1] = [(
    Mode::Der,
    &[0x0C, 0x02, 0xC3, 0xA9],
    "RestrictedString { octets: OctetString { octets: Whole(b\"\\xc3\\xa9\") }, \
    set: PhantomData<_> }",
)];

#[test]
fn identifiers_and_strings(rt: HostRuntime) {
    let alloc = rt.alloc();
    fails::<ObjectIdentifier>(&rt, alloc, &IDENTIFIERS);
    fails::<OctetString>(&rt, alloc, &OCTETS);
    fails::<BitString>(&rt, alloc, &BITS);
    fails::<Utf8String>(&rt, alloc, &TEXTS);
}

const FIELDS: [Read; 4] = [
    (
        Mode::Der,
        &[0x30, 0x06, 0x02, 0x01, 0x05, 0x01, 0x01, 0xFF],
        "Sequence((5, Some(true)))",
    ),
    (
        Mode::Der,
        &[0x30, 0x03, 0x02, 0x01, 0x05],
        "Sequence((5, None))",
    ),
    (
        Mode::Cer,
        &[0x30, 0x80, 0x02, 0x01, 0x05, 0x00, 0x00],
        "Sequence((5, None))",
    ),
    (
        Mode::Ber,
        &[0x30, 0x80, 0x02, 0x01, 0x05, 0x01, 0x01, 0x07, 0x00, 0x00],
        "Sequence((5, Some(true)))",
    ),
];

const LISTS: [Read; 2] = [
    (
        Mode::Der,
        &[0x30, 0x06, 0x02, 0x01, 0x05, 0x02, 0x01, 0x07],
        "SequenceOf([5, 7])",
    ),
    (
        Mode::Cer,
        &[0x30, 0x80, 0x02, 0x01, 0x05, 0x00, 0x00],
        "SequenceOf([5])",
    ),
];

const SETS_OF: [Read; 2] = [
    (
        Mode::Der,
        &[0x31, 0x06, 0x02, 0x01, 0x05, 0x02, 0x01, 0x07],
        "SetOf([5, 7])",
    ),
    (
        Mode::Cer,
        &[0x31, 0x80, 0x02, 0x01, 0x05, 0x00, 0x00],
        "SetOf([5])",
    ),
];

const SETS: [Read; 2] = [
    (
        Mode::Der,
        &[0x31, 0x06, 0x01, 0x01, 0xFF, 0x02, 0x01, 0x05],
        "Set((true, 5))",
    ),
    (
        Mode::Ber,
        &[0x31, 0x80, 0x02, 0x01, 0x05, 0x01, 0x01, 0xFF, 0x00, 0x00],
        "Set((true, 5))",
    ),
];

#[test]
fn fields_and_lists(rt: HostRuntime) {
    let alloc = rt.alloc();
    fails::<Sequence<(u32, Option<bool>)>>(&rt, alloc, &FIELDS);
    fails::<SequenceOf<u32>>(&rt, alloc, &LISTS);
    fails::<SetOf<u32>>(&rt, alloc, &SETS_OF);
    fails::<Set<(bool, u32)>>(&rt, alloc, &SETS);
}

const CHOICES: [Read; 2] = [
    (Mode::Der, &[0x01, 0x01, 0x00], "One(false)"),
    (Mode::Der, &[0x02, 0x01, 0x05], "Two(5)"),
];

const TAGGED: [Read; 2] = [
    (
        Mode::Der,
        &[0xA0, 0x03, 0x81, 0x01, 0x05],
        "Explicit { value: Implicit { value: 5 } }",
    ),
    (
        Mode::Cer,
        &[0xA0, 0x80, 0x81, 0x01, 0x05, 0x00, 0x00],
        "Explicit { value: Implicit { value: 5 } }",
    ),
];

const ANY: [Read; 2] = [
    (
        Mode::Der,
        &[0x30, 0x03, 0x02, 0x01, 0x05],
        "[ 30 03 02 01  05 ]",
    ),
    (
        Mode::Ber,
        &[0x30, 0x80, 0x05, 0x00, 0x00, 0x00],
        "[ 30 80 05 00  00 00 ]",
    ),
];

// a value that a later version added
const ADDED: [Read; 1] = [(
    Mode::Der,
    &[0x30, 0x06, 0x02, 0x01, 0x05, 0x04, 0x01, 0x07],
    "Sequence((5, ExtensionAdditions))",
)];

const BOXED: [Read; 2] = [
    (
        Mode::Der,
        &[0x30, 0x03, 0x02, 0x01, 0x05],
        "SequenceOf([5])",
    ),
    (
        Mode::Cer,
        &[0x30, 0x80, 0x02, 0x01, 0x05, 0x00, 0x00],
        "SequenceOf([5])",
    ),
];

#[test]
fn other_types(rt: HostRuntime) {
    let alloc = rt.alloc();
    fails::<Choice2<bool, u32>>(&rt, alloc, &CHOICES);
    fails::<Explicit<Context<0>, Implicit<Context<1>, u32>>>(&rt, alloc, &TAGGED);
    fails::<Any>(&rt, alloc, &ANY);
    fails::<Sequence<(u32, ExtensionAdditions)>>(&rt, alloc, &ADDED);
    fails::<Box<SequenceOf<Box<u32>>>>(&rt, alloc, &BOXED);
}
