//! Compares values of each type of the data.
use crate::shown::Show;
use crate::turned::{self, Changes};
use crate::types::{Choice, Kind, Marked, Nested, Record, Tagged, Wrapped};
use crate::values::{self, Row, Tallies};
use anyhow::Error;
use asn1::{Any, Decode, Encode, ObjectIdentifier, SequenceOf, SetOf};
use bcder::decode::BytesSource;
use bcder::string::Utf8String;
use bcder::{BitString, Integer, OctetString};
use lines::malformed::Malformed;
use pkix::{AlgorithmIdentifier, GeneralizedTime, UtcTime};
use std::alloc::Global;

/// What is compared of a value.
#[derive(Drop)]
pub enum Compared<'a> {
    /// What is read and written in each mode.
    Value(Row<'a>),
    /// What becomes of it if it is cut or changed.
    Turned(Changes<'a>),
}

/// Compares a value of a type.
fn compare<T: Decode<BytesSource> + Encode + Show>(
    alloc: Global,
    what: &Compared<'_>,
    tallies: &mut Tallies,
) -> Result<(), Error> {
    match what {
        Compared::Value(row) => values::compare::<T>(alloc, row, tallies),
        Compared::Turned(changes) => turned::compare::<T>(alloc, changes, tallies),
    }
}

/// Compares a value of a type that isn't shown.
fn compare_turned<T: Decode<BytesSource> + Encode>(
    alloc: Global,
    what: &Compared<'_>,
    tallies: &mut Tallies,
) -> Result<(), Error> {
    match what {
        Compared::Value(_) => Err(Error::from(Malformed)),
        Compared::Turned(changes) => turned::compare::<T>(alloc, changes, tallies),
    }
}

/// Compares a value of the type that a word names.
pub fn compare_kind(
    alloc: Global,
    kind: Kind,
    what: &Compared<'_>,
    tallies: &mut Tallies,
) -> Result<(), Error> {
    match kind {
        Kind::I8 => compare::<i8>(alloc, what, tallies),
        Kind::U16 => compare::<u16>(alloc, what, tallies),
        Kind::I32 => compare::<i32>(alloc, what, tallies),
        Kind::U64 => compare::<u64>(alloc, what, tallies),
        Kind::I128 => compare::<i128>(alloc, what, tallies),
        Kind::U128 => compare::<u128>(alloc, what, tallies),
        Kind::Integer => compare::<Integer>(alloc, what, tallies),
        Kind::Boolean => compare::<bool>(alloc, what, tallies),
        Kind::Null => compare::<()>(alloc, what, tallies),
        Kind::Identifier => compare::<ObjectIdentifier>(alloc, what, tallies),
        Kind::Octets => compare::<OctetString>(alloc, what, tallies),
        Kind::Bits => compare::<BitString>(alloc, what, tallies),
        Kind::Utf8 => compare::<Utf8String>(alloc, what, tallies),
        Kind::Record => compare::<Record>(alloc, what, tallies),
        Kind::List => compare::<SequenceOf<i32>>(alloc, what, tallies),
        Kind::Set => compare::<SetOf<i32>>(alloc, what, tallies),
        Kind::Sets => compare::<SetOf<OctetString>>(alloc, what, tallies),
        Kind::Choice => compare::<Choice>(alloc, what, tallies),
        Kind::Explicit => compare::<Wrapped>(alloc, what, tallies),
        Kind::Implicit => compare::<Marked>(alloc, what, tallies),
        Kind::Tagged => compare::<Tagged>(alloc, what, tallies),
        Kind::Nested => compare::<Nested>(alloc, what, tallies),
        Kind::Utc => compare_turned::<UtcTime>(alloc, what, tallies),
        Kind::General => compare_turned::<GeneralizedTime>(alloc, what, tallies),
        Kind::Any => compare_turned::<Any>(alloc, what, tallies),
        Kind::Algorithm => compare_turned::<AlgorithmIdentifier>(alloc, what, tallies),
    }
}
