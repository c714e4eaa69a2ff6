//! SET. Expected values are worked by hand from X.680, 8.6, and X.690, 8.11, 9.3 and 10.3.
use crate::rows::{Read, Written, takes, takes_and_rewrites};
use asn1::{
    Application, Choice2, Context, DefaultValue, Explicit, Implicit, OrDefault, Private, Sequence,
    Set,
};
use bcder::{Mode, NoMemory};
use std::alloc::Global;

// `SET { a BOOLEAN, b INTEGER, c [0] IMPLICIT INTEGER OPTIONAL }`
type Members = Set<(bool, u32, Option<Implicit<Context<0>, u32>>)>;

const MEMBERS: [Read; 17] = [
    // the tags are 1, 2 and [0]
    (
        Mode::Der,
        &[
            0x31, 0x09, 0x01, 0x01, 0xFF, 0x02, 0x01, 0x05, 0x80, 0x01, 0x07,
        ],
        "Set((true, 5, Some(Implicit { value: 7 })))",
    ),
    (
        Mode::Cer,
        &[
            0x31, 0x80, 0x01, 0x01, 0xFF, 0x02, 0x01, 0x05, 0x80, 0x01, 0x07, 0x00, 0x00,
        ],
        "Set((true, 5, Some(Implicit { value: 7 })))",
    ),
    (
        Mode::Der,
        &[0x31, 0x06, 0x01, 0x01, 0xFF, 0x02, 0x01, 0x05],
        "Set((true, 5, None))",
    ),
    // in other orders
    (
        Mode::Ber,
        &[
            0x31, 0x09, 0x80, 0x01, 0x07, 0x02, 0x01, 0x05, 0x01, 0x01, 0xFF,
        ],
        "Set((true, 5, Some(Implicit { value: 7 })))",
    ),
    (
        Mode::Ber,
        &[
            0x31, 0x80, 0x02, 0x01, 0x05, 0x80, 0x01, 0x07, 0x01, 0x01, 0xFF, 0x00, 0x00,
        ],
        "Set((true, 5, Some(Implicit { value: 7 })))",
    ),
    (
        Mode::Ber,
        &[0x31, 0x06, 0x02, 0x01, 0x05, 0x01, 0x01, 0xFF],
        "Set((true, 5, None))",
    ),
    (
        Mode::Der,
        &[0x31, 0x06, 0x02, 0x01, 0x05, 0x01, 0x01, 0xFF],
        "refused",
    ),
    (
        Mode::Cer,
        &[0x31, 0x80, 0x02, 0x01, 0x05, 0x01, 0x01, 0xFF, 0x00, 0x00],
        "refused",
    ),
    // the same tag twice
    (
        Mode::Ber,
        &[
            0x31, 0x09, 0x02, 0x01, 0x05, 0x01, 0x01, 0xFF, 0x02, 0x01, 0x05,
        ],
        "refused",
    ),
    (
        Mode::Der,
        &[
            0x31, 0x09, 0x01, 0x01, 0xFF, 0x02, 0x01, 0x05, 0x02, 0x01, 0x05,
        ],
        "refused",
    ),
    // a value is missing, or has no field
    (Mode::Ber, &[0x31, 0x03, 0x02, 0x01, 0x05], "refused"),
    (
        Mode::Ber,
        &[0x31, 0x08, 0x05, 0x00, 0x02, 0x01, 0x05, 0x01, 0x01, 0xFF],
        "refused",
    ),
    // another tag, primitive, and cut
    (Mode::Ber, &[0x30, 0x00], "none"),
    (Mode::Ber, &[0x11, 0x03, 0x02, 0x01, 0x05], "refused"),
    (Mode::Ber, &[0x31, 0x06, 0x02, 0x01, 0x05], "refused"),
    // a BOOLEAN that DER hasn't (11.1)
    (
        Mode::Der,
        &[0x31, 0x06, 0x01, 0x01, 0x01, 0x02, 0x01, 0x05],
        "refused",
    ),
    (
        Mode::Ber,
        &[0x31, 0x06, 0x02, 0x01, 0x05, 0x01, 0x01, 0x01],
        "Set((true, 5, None))",
    ),
];

// all classes, with numbers in one, two and three octets
type Classes = Set<
    (
        u8,
        Implicit<Application<31>, u8>,
        Implicit<Context<0>, u8>,
        Implicit<Context<200>, u8>,
        Implicit<Private<1>, u8>,
    ),
>;

const CLASSES: [Read; 4] = [
    (
        Mode::Der,
        &[
            0x31, 0x12, 0x02, 0x01, 0x01, 0x5F, 0x1F, 0x01, 0x02, 0x80, 0x01, 0x03, 0x9F, 0x81,
            0x48, 0x01, 0x04, 0xC1, 0x01, 0x05,
        ],
        "Set((1, Implicit { value: 2 }, Implicit { value: 3 }, Implicit { value: 4 }, \
         Implicit { value: 5 }))",
    ),
    // [200] in front of [0], and APPLICATION 31 behind it
    (
        Mode::Der,
        &[
            0x31, 0x12, 0x02, 0x01, 0x01, 0x5F, 0x1F, 0x01, 0x02, 0x9F, 0x81, 0x48, 0x01, 0x04,
            0x80, 0x01, 0x03, 0xC1, 0x01, 0x05,
        ],
        "refused",
    ),
    (
        Mode::Der,
        &[
            0x31, 0x12, 0x02, 0x01, 0x01, 0x80, 0x01, 0x03, 0x5F, 0x1F, 0x01, 0x02, 0x9F, 0x81,
            0x48, 0x01, 0x04, 0xC1, 0x01, 0x05,
        ],
        "refused",
    ),
    (
        Mode::Ber,
        &[
            0x31, 0x12, 0xC1, 0x01, 0x05, 0x9F, 0x81, 0x48, 0x01, 0x04, 0x80, 0x01, 0x03, 0x5F,
            0x1F, 0x01, 0x02, 0x02, 0x01, 0x01,
        ],
        "Set((1, Implicit { value: 2 }, Implicit { value: 3 }, Implicit { value: 4 }, \
         Implicit { value: 5 }))",
    ),
];

#[test]
fn classes_have_an_order(rt: HostRuntime) {
    takes::<Classes>(&rt, rt.alloc(), &CLASSES);
}

// the order is that of numbers, and not of identifier octets
const LARGE: [Read; 2] = [
    (
        Mode::Der,
        &[
            0x31, 0x0B, 0x9F, 0xFF, 0x7F, 0x01, 0x01, 0x9F, 0x81, 0x80, 0x00, 0x01, 0x02,
        ],
        "Set((Implicit { value: 1 }, Implicit { value: 2 }))",
    ),
    (
        Mode::Der,
        &[
            0x31, 0x0B, 0x9F, 0x81, 0x80, 0x00, 0x01, 0x02, 0x9F, 0xFF, 0x7F, 0x01, 0x01,
        ],
        "refused",
    ),
];

#[test]
fn numbers_are_compared(rt: HostRuntime) {
    takes::<Set<(Implicit<Context<16383>, u8>, Implicit<Context<16384>, u8>)>>(
        &rt,
        rt.alloc(),
        &LARGE,
    );
}

// a constructed value stands by its tag alone
const FORMS: [Read; 3] = [
    (
        Mode::Der,
        &[0x31, 0x08, 0xA0, 0x03, 0x02, 0x01, 0x05, 0x81, 0x01, 0x06],
        "Set((Explicit { value: 5 }, Implicit { value: 6 }))",
    ),
    (
        Mode::Der,
        &[0x31, 0x08, 0x81, 0x01, 0x06, 0xA0, 0x03, 0x02, 0x01, 0x05],
        "refused",
    ),
    (
        Mode::Ber,
        &[
            0x31, 0x0A, 0x81, 0x01, 0x06, 0xA0, 0x80, 0x02, 0x01, 0x05, 0x00, 0x00,
        ],
        "Set((Explicit { value: 5 }, Implicit { value: 6 }))",
    ),
];

#[test]
fn the_form_has_no_order(rt: HostRuntime) {
    takes::<Set<(Explicit<Context<0>, u8>, Implicit<Context<1>, u8>)>>(&rt, rt.alloc(), &FORMS);
}

// `SET { a CHOICE { x BOOLEAN, y INTEGER }, b [0] IMPLICIT INTEGER }`
type Alternatives = Set<(Choice2<bool, u8>, Implicit<Context<0>, u8>)>;

const ALTERNATIVES: [Read; 4] = [
    (
        Mode::Der,
        &[0x31, 0x06, 0x01, 0x01, 0xFF, 0x80, 0x01, 0x07],
        "Set((One(true), Implicit { value: 7 }))",
    ),
    (
        Mode::Cer,
        &[0x31, 0x80, 0x02, 0x01, 0x05, 0x80, 0x01, 0x07, 0x00, 0x00],
        "Set((Two(5), Implicit { value: 7 }))",
    ),
    (
        Mode::Ber,
        &[0x31, 0x06, 0x80, 0x01, 0x07, 0x02, 0x01, 0x05],
        "Set((Two(5), Implicit { value: 7 }))",
    ),
    // both alternatives
    (
        Mode::Ber,
        &[
            0x31, 0x09, 0x80, 0x01, 0x07, 0x02, 0x01, 0x05, 0x01, 0x01, 0xFF,
        ],
        "refused",
    ),
];

#[test]
fn a_choice_stands_by_its_alternative(rt: HostRuntime) {
    takes::<Alternatives>(&rt, rt.alloc(), &ALTERNATIVES);
}

// `SET { a CHOICE { x BOOLEAN, y [3] IMPLICIT INTEGER } OPTIONAL,
// b CHOICE { x [0] IMPLICIT INTEGER, y [2] IMPLICIT INTEGER }, c [1] IMPLICIT INTEGER }`:
// the tags of `b` lie on both sides of that of `c`, and those of `a` on both sides of all others
type Mixed = Set<
    (
        Option<Choice2<bool, Implicit<Context<3>, u8>>>,
        Choice2<Implicit<Context<0>, u8>, Implicit<Context<2>, u8>>,
        Implicit<Context<1>, u8>,
    ),
>;

const MIXED: [Read; 14] = [
    // in DER by the tags that stand there: [1], [2], [3]
    (
        Mode::Der,
        &[
            0x31, 0x09, 0x81, 0x01, 0x07, 0x82, 0x01, 0x05, 0x83, 0x01, 0x09,
        ],
        "Set((Some(Two(Implicit { value: 9 })), Two(Implicit { value: 5 }), \
         Implicit { value: 7 }))",
    ),
    // in CER by the smallest tags of the fields: BOOLEAN, [0], [1]
    (
        Mode::Cer,
        &[
            0x31, 0x80, 0x83, 0x01, 0x09, 0x82, 0x01, 0x05, 0x81, 0x01, 0x07, 0x00, 0x00,
        ],
        "Set((Some(Two(Implicit { value: 9 })), Two(Implicit { value: 5 }), \
         Implicit { value: 7 }))",
    ),
    // in BER in any order
    (
        Mode::Ber,
        &[
            0x31, 0x09, 0x82, 0x01, 0x05, 0x83, 0x01, 0x09, 0x81, 0x01, 0x07,
        ],
        "Set((Some(Two(Implicit { value: 9 })), Two(Implicit { value: 5 }), \
         Implicit { value: 7 }))",
    ),
    // the order of CER in DER, and that of DER in CER
    (
        Mode::Der,
        &[
            0x31, 0x09, 0x83, 0x01, 0x09, 0x82, 0x01, 0x05, 0x81, 0x01, 0x07,
        ],
        "refused",
    ),
    (
        Mode::Cer,
        &[
            0x31, 0x80, 0x81, 0x01, 0x07, 0x82, 0x01, 0x05, 0x83, 0x01, 0x09, 0x00, 0x00,
        ],
        "refused",
    ),
    // the smallest tags stand there, so both orders are the same
    (
        Mode::Der,
        &[
            0x31, 0x09, 0x01, 0x01, 0xFF, 0x80, 0x01, 0x05, 0x81, 0x01, 0x07,
        ],
        "Set((Some(One(true)), One(Implicit { value: 5 }), Implicit { value: 7 }))",
    ),
    (
        Mode::Cer,
        &[
            0x31, 0x80, 0x01, 0x01, 0xFF, 0x80, 0x01, 0x05, 0x81, 0x01, 0x07, 0x00, 0x00,
        ],
        "Set((Some(One(true)), One(Implicit { value: 5 }), Implicit { value: 7 }))",
    ),
    // without the first field
    (
        Mode::Der,
        &[0x31, 0x06, 0x81, 0x01, 0x07, 0x82, 0x01, 0x05],
        "Set((None, Two(Implicit { value: 5 }), Implicit { value: 7 }))",
    ),
    (
        Mode::Cer,
        &[0x31, 0x80, 0x82, 0x01, 0x05, 0x81, 0x01, 0x07, 0x00, 0x00],
        "Set((None, Two(Implicit { value: 5 }), Implicit { value: 7 }))",
    ),
    (
        Mode::Cer,
        &[0x31, 0x80, 0x81, 0x01, 0x07, 0x82, 0x01, 0x05, 0x00, 0x00],
        "refused",
    ),
    // both alternatives of a field
    (
        Mode::Ber,
        &[
            0x31, 0x09, 0x80, 0x01, 0x05, 0x81, 0x01, 0x07, 0x82, 0x01, 0x05,
        ],
        "refused",
    ),
    (
        Mode::Der,
        &[
            0x31, 0x09, 0x80, 0x01, 0x05, 0x81, 0x01, 0x07, 0x82, 0x01, 0x05,
        ],
        "refused",
    ),
    // a value is missing, or has no field
    (
        Mode::Ber,
        &[0x31, 0x06, 0x83, 0x01, 0x09, 0x81, 0x01, 0x07],
        "refused",
    ),
    (
        Mode::Ber,
        &[
            0x31, 0x0C, 0x82, 0x01, 0x05, 0x81, 0x01, 0x07, 0x84, 0x01, 0x01, 0x83, 0x01, 0x09,
        ],
        "refused",
    ),
];

// in BER and CER the fields are written in their order, as in DER if their tags ascend
const MIXED_WRITTEN: [Written; 3] = [
    (
        &[
            0x31, 0x09, 0x82, 0x01, 0x05, 0x81, 0x01, 0x07, 0x83, 0x01, 0x09,
        ],
        Mode::Cer,
        &[
            0x31, 0x80, 0x83, 0x01, 0x09, 0x82, 0x01, 0x05, 0x81, 0x01, 0x07, 0x00, 0x00,
        ],
    ),
    (
        &[
            0x31, 0x09, 0x81, 0x01, 0x07, 0x82, 0x01, 0x05, 0x83, 0x01, 0x09,
        ],
        Mode::Ber,
        &[
            0x31, 0x09, 0x83, 0x01, 0x09, 0x82, 0x01, 0x05, 0x81, 0x01, 0x07,
        ],
    ),
    (
        &[
            0x31, 0x09, 0x81, 0x01, 0x07, 0x80, 0x01, 0x05, 0x01, 0x01, 0x01,
        ],
        Mode::Der,
        &[
            0x31, 0x09, 0x01, 0x01, 0xFF, 0x80, 0x01, 0x05, 0x81, 0x01, 0x07,
        ],
    ),
];

#[test]
fn a_choice_stands_on_both_sides(rt: HostRuntime) {
    takes_and_rewrites::<Mixed>(&rt, rt.alloc(), &MIXED, &MIXED_WRITTEN);
}

// the example of X.690, 9.3, with implicit tags, in the order `e`, `b`, `a`:
// `SET { a [3] INTEGER, b [1] CHOICE { c [2] INTEGER, d [4] INTEGER }, e CHOICE { f CHOICE { g [5]
// INTEGER, h [6] INTEGER }, i CHOICE { j [0] INTEGER } } }`
type Example = Set<
    (
        Choice2<
            Choice2<Implicit<Context<5>, u8>, Implicit<Context<6>, u8>>,
            Implicit<Context<0>, u8>,
        >,
        Explicit<Context<1>, Choice2<Implicit<Context<2>, u8>, Implicit<Context<4>, u8>>>,
        Implicit<Context<3>, u8>,
    ),
>;

const EXAMPLE: [Read; 5] = [
    // in CER always in this order
    (
        Mode::Cer,
        &[
            0x31, 0x80, 0x85, 0x01, 0x01, 0xA1, 0x80, 0x82, 0x01, 0x02, 0x00, 0x00, 0x83, 0x01,
            0x03, 0x00, 0x00,
        ],
        "Set((One(One(Implicit { value: 1 })), Explicit { value: One(Implicit { value: 2 }) }, \
         Implicit { value: 3 }))",
    ),
    (
        Mode::Cer,
        &[
            0x31, 0x80, 0x86, 0x01, 0x01, 0xA1, 0x80, 0x84, 0x01, 0x04, 0x00, 0x00, 0x83, 0x01,
            0x03, 0x00, 0x00,
        ],
        "Set((One(Two(Implicit { value: 1 })), Explicit { value: Two(Implicit { value: 4 }) }, \
         Implicit { value: 3 }))",
    ),
    (
        Mode::Cer,
        &[
            0x31, 0x80, 0xA1, 0x80, 0x82, 0x01, 0x02, 0x00, 0x00, 0x83, 0x01, 0x03, 0x85, 0x01,
            0x01, 0x00, 0x00,
        ],
        "refused",
    ),
    // in DER by the tag of the alternative (10.3)
    (
        Mode::Der,
        &[
            0x31, 0x0B, 0xA1, 0x03, 0x82, 0x01, 0x02, 0x83, 0x01, 0x03, 0x85, 0x01, 0x01,
        ],
        "Set((One(One(Implicit { value: 1 })), Explicit { value: One(Implicit { value: 2 }) }, \
         Implicit { value: 3 }))",
    ),
    (
        Mode::Der,
        &[
            0x31, 0x0B, 0x80, 0x01, 0x01, 0xA1, 0x03, 0x82, 0x01, 0x02, 0x83, 0x01, 0x03,
        ],
        "Set((Two(Implicit { value: 1 }), Explicit { value: One(Implicit { value: 2 }) }, \
         Implicit { value: 3 }))",
    ),
];

#[test]
fn the_smallest_tag_of_a_choice_counts(rt: HostRuntime) {
    takes::<Example>(&rt, rt.alloc(), &EXAMPLE);
}

/// 1.
#[derive(Debug)]
struct One;

impl DefaultValue<u8> for One {
    ghost default = { 1 };

    fn is_default(value: &u8) -> bool {
        *value == 1
    }

    fn make(_alloc: Global) -> Result<u8, NoMemory> {
        Ok(1)
    }
}

// `SEQUENCE { a [1] IMPLICIT SET { x BOOLEAN, y INTEGER DEFAULT 1 }, b INTEGER }`
type Nested = Sequence<(Implicit<Context<1>, Set<(bool, OrDefault<u8, One>)>>, u8)>;

const NESTED: [Read; 4] = [
    (
        Mode::Der,
        &[0x30, 0x08, 0xA1, 0x03, 0x01, 0x01, 0x00, 0x02, 0x01, 0x09],
        "Sequence((Implicit { value: Set((false, OrDefault { value: 1 })) }, 9))",
    ),
    (
        Mode::Ber,
        &[
            0x30, 0x0B, 0xA1, 0x06, 0x02, 0x01, 0x01, 0x01, 0x01, 0x00, 0x02, 0x01, 0x09,
        ],
        "Sequence((Implicit { value: Set((false, OrDefault { value: 1 })) }, 9))",
    ),
    // a default that is written (11.5)
    (
        Mode::Der,
        &[
            0x30, 0x0B, 0xA1, 0x06, 0x01, 0x01, 0x00, 0x02, 0x01, 0x01, 0x02, 0x01, 0x09,
        ],
        "refused",
    ),
    (
        Mode::Der,
        &[
            0x30, 0x0B, 0xA1, 0x06, 0x01, 0x01, 0x00, 0x02, 0x01, 0x02, 0x02, 0x01, 0x09,
        ],
        "Sequence((Implicit { value: Set((false, OrDefault { value: 2 })) }, 9))",
    ),
];

#[test]
fn a_field_may_be_a_set(rt: HostRuntime) {
    takes::<Nested>(&rt, rt.alloc(), &NESTED);
}

// read in any order, and written in that of the fields
const REWRITTEN: [Written; 3] = [
    (
        &[
            0x31, 0x09, 0x80, 0x01, 0x07, 0x02, 0x01, 0x05, 0x01, 0x01, 0x01,
        ],
        Mode::Der,
        &[
            0x31, 0x09, 0x01, 0x01, 0xFF, 0x02, 0x01, 0x05, 0x80, 0x01, 0x07,
        ],
    ),
    (
        &[0x31, 0x06, 0x02, 0x01, 0x05, 0x01, 0x01, 0x00],
        Mode::Cer,
        &[0x31, 0x80, 0x01, 0x01, 0x00, 0x02, 0x01, 0x05, 0x00, 0x00],
    ),
    (
        &[0x31, 0x80, 0x02, 0x01, 0x05, 0x01, 0x01, 0x00, 0x00, 0x00],
        Mode::Ber,
        &[0x31, 0x06, 0x01, 0x01, 0x00, 0x02, 0x01, 0x05],
    ),
];

#[test]
fn members_are_read_and_written(rt: HostRuntime) {
    takes_and_rewrites::<Members>(&rt, rt.alloc(), &MEMBERS, &REWRITTEN);
}
