//! The types of the data.
ghost use Rattle.std.specs.Prelude.{◌≡◌, pos};

use asn1::{
    Application, Choice2, Choice3, Context, DefaultValue, Explicit, Implicit, ObjectIdentifier,
    OrDefault, Sequence, SequenceOf, SetOf,
};
use bcder::string::Utf8String;
use bcder::{NoMemory, OctetString};
use std::alloc::Global;

/// The 7 of `INTEGER DEFAULT 7`.
#[derive(Clone, Copy, Debug)]
pub struct Seven;

impl DefaultValue<i32> for Seven {
    ghost default = { pos 7 };

    fn is_default(value: &i32) -> bool {
        *value == 7
    }

    fn make(_alloc: Global) -> Result<i32, NoMemory> {
        Ok(7)
    }
}

/// `SEQUENCE { INTEGER, BOOLEAN OPTIONAL, INTEGER DEFAULT 7, OCTET STRING OPTIONAL }`.
pub type Record = Sequence<
    (
        u32,
        Option<bool>,
        OrDefault<i32, Seven>,
        Option<OctetString>,
    ),
>;

/// `CHOICE { BOOLEAN, INTEGER, UTF8String }`.
pub type Choice = Choice3<bool, i32, Utf8String>;

/// `CHOICE { INTEGER, OCTET STRING }`.
pub type Either = Choice2<i32, OctetString>;

/// `[3] EXPLICIT INTEGER`.
pub type Wrapped = Explicit<Context<3>, u32>;

/// `[APPLICATION 40] IMPLICIT OCTET STRING`.
pub type Marked = Implicit<Application<40>, OctetString>;

/// `SEQUENCE { [0] IMPLICIT INTEGER, [1] EXPLICIT CHOICE OPTIONAL, [2] IMPLICIT SEQUENCE OF
/// BOOLEAN OPTIONAL }`.
pub type Tagged = Sequence<
    (
        Implicit<Context<0>, i32>,
        Option<Explicit<Context<1>, Either>>,
        Option<Implicit<Context<2>, SequenceOf<bool>>>,
    ),
>;

/// `SEQUENCE OF SEQUENCE { OBJECT IDENTIFIER, SET OF CHOICE }`.
pub type Nested = SequenceOf<Sequence<(ObjectIdentifier, SetOf<Either>)>>;

/// The type that a word of the data names.
#[derive(Clone, Copy, Debug, PartialEq, Eq)]
pub enum Kind {
    I8,
    U16,
    I32,
    U64,
    I128,
    U128,
    Integer,
    Boolean,
    Null,
    Identifier,
    Octets,
    Bits,
    Utf8,
    Record,
    List,
    Set,
    Sets,
    Choice,
    Explicit,
    Implicit,
    Tagged,
    Nested,
    Utc,
    General,
    Any,
    Algorithm,
}

/// The words for the types.
pub const KINDS: [(&str, Kind); 26] = [
    ("i8", Kind::I8),
    ("u16", Kind::U16),
    ("i32", Kind::I32),
    ("u64", Kind::U64),
    ("i128", Kind::I128),
    ("u128", Kind::U128),
    ("integer", Kind::Integer),
    ("boolean", Kind::Boolean),
    ("null", Kind::Null),
    ("identifier", Kind::Identifier),
    ("octets", Kind::Octets),
    ("bits", Kind::Bits),
    ("utf8", Kind::Utf8),
    ("record", Kind::Record),
    ("list", Kind::List),
    ("set", Kind::Set),
    ("sets", Kind::Sets),
    ("choice", Kind::Choice),
    ("explicit", Kind::Explicit),
    ("implicit", Kind::Implicit),
    ("tagged", Kind::Tagged),
    ("nested", Kind::Nested),
    ("utc", Kind::Utc),
    ("general", Kind::General),
    ("any", Kind::Any),
    ("algorithm", Kind::Algorithm),
];
