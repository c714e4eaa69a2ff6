//! Tests of integers: worked values. What octets are as integers of any kind, and as booleans, is
//! compared in `vectors`.
#![tactic(auto, using(bcder::specs::laws::Moved::steps))]

ghost use Rattle.bcder.specs.calls.Views.{MovedOctets};

use crate::asserts::{Case, done, holds, same, shows};
use crate::over::check_over;
use crate::reading::{self, Look, Wanted};
use bcder::decode::{Constructed, ContentError, DecodeError, Primitive, Source};
use bcder::int::{IntegerError, InvalidInteger, OverflowError};
use bcder::{Integer, Mode, Tag, Unsigned};
use std::alloc::Global;
use std::convert::TryFrom;
use std::hash::{DefaultHasher, Hash, Hasher};
use std::process::Abort;

// ---- reading octets

/// How the contents octets of an INTEGER are read.
#[derive(Clone, Copy)]
enum Way {
    /// A reader refuses them, and the next one reads 256.
    Twice,

    /// They are left, which is refused with a fixed text.
    Left,

    /// All of them are taken, or borrowed.
    All,
    Borrowed,

    /// A reader refuses them, they are looked at, and then taken.
    Looked,
}

/// Octets that are read.
const SHORT: &[u8] = &[0x01, 0x00];

const LONG: &[u8] = &[0x01, 0x02, 0x03];

const READ: [(&[u8], Way); 5] = [
    (SHORT, Way::Twice),
    (SHORT, Way::Left),
    (LONG, Way::All),
    (LONG, Way::Borrowed),
    (LONG, Way::Looked),
];

/// Returns whether a reader that refuses leaves the octets to the next one.
fn read_twice<S: Source>(octets: &mut Primitive<'_, S>) -> Result<bool, DecodeError<S::Error>>
    ensures { MovedOctets S.stream octets }
{
    let refused = octets.to_u8().is_err();
    let left = octets.remaining() == 2;
    Ok(refused & left & (octets.to_u16()? == 256))
}

/// Looks at octets that a reader refused. Returns whether they stay until they are taken.
fn look_and_take<S: Source>(
    alloc: Global,
    octets: &mut Primitive<'_, S>,
) -> Result<bool, DecodeError<S::Error>>
    ensures { MovedOctets S.stream octets }
{
    let refused = octets.to_u16().is_err();
    let before = octets.remaining() == 3;
    let looked = octets.slice_all(|octets| octets == LONG)?;
    let left = octets.remaining() == 3;
    Ok(refused & before & looked & left & (octets.take_all(alloc)?.as_slice() == LONG))
}

impl Way {
    /// Reads octets, and returns whether they are as they should be.
    fn read<S: Source>(
        self,
        alloc: Global,
        octets: &mut Primitive<'_, S>,
    ) -> Result<bool, DecodeError<S::Error>>
        ensures { MovedOctets S.stream octets }
    {
        match self {
            Way::Twice => read_twice(octets),
            Way::Left => Ok(octets.remaining() == 2),
            Way::All => Ok(octets.take_all(alloc)?.as_slice() == LONG),
            Way::Borrowed => octets.with_slice_all(|octets| Ok(octets == LONG)),
            Way::Looked => look_and_take(alloc, octets),
        }
    }
}

/// Reads octets alone.
#[test]
fn octets_as_they_are(rt: HostRuntime) {
    let alloc = rt.alloc();
    for (row, (octets, way)) in READ.iter().enumerate() {
        let case = Case::new(&rt, alloc, row);
        let is_left = matches!(way, Way::Left);
        match Primitive::decode_slice(*octets, Mode::Der, |p| way.read(alloc, p)) {
            Ok(right) => case.holds(right && !is_left),
            Err(error) => {
                case.holds(is_left);
                case.holds(matches!(error.content_error(), Some(ContentError::Static(_))));
            }
        }
    }
}

/// Reads an INTEGER.
impl Look for Way {
    fn look<S: Source>(
        &mut self,
        alloc: Global,
        cons: &mut Constructed<'_, S>,
    ) -> Result<bool, DecodeError<S::Error>> {
        let way = *self;
        cons.take_primitive_if(Tag::INTEGER, |octets| way.read(alloc, octets))
    }
}

#[test]
fn octets_that_are_looked_at(rt: HostRuntime) {
    let octets = &[0x02, 0x03, 0x01, 0x02, 0x03];
    let line = reading::Line(Mode::Der, octets, Way::Looked, Wanted::Left(0));
    check_over(&rt, rt.alloc(), 0, &line);
}

// ---- integers

/// A number, and its contents octets.
type Line = (i128, &'static [u8]);

/// Numbers in ascending order.
const ORDERED: [Line; 13] = [
    (
        i128::MIN,
        &[0x80, 0, 0, 0, 0, 0, 0, 0, 0, 0, 0, 0, 0, 0, 0, 0],
    ),
    (-32769, &[0xFF, 0x7F, 0xFF]),
    (-32768, &[0x80, 0x00]),
    (-129, &[0xFF, 0x7F]),
    (-128, &[0x80]),
    (-2, &[0xFE]),
    (-1, &[0xFF]),
    (0, &[0x00]),
    (127, &[0x7F]),
    (128, &[0x00, 0x80]),
    (32768, &[0x00, 0x80, 0x00]),
    (65536, &[0x01, 0x00, 0x00]),
    (
        i128::MAX,
        &[
            0x7F, 0xFF, 0xFF, 0xFF, 0xFF, 0xFF, 0xFF, 0xFF, 0xFF, 0xFF, 0xFF, 0xFF, 0xFF, 0xFF,
            0xFF, 0xFF,
        ],
    ),
];

/// Checks the octets and the sign of a number, and that it is read back.
fn check_number(case: &Case<'_, impl Abort>, line: Line) {
    let (number, octets) = line;
    let integer = case.done(Integer::from_i128(case.alloc, number));
    case.same(integer.as_slice(), octets);
    case.same(integer.is_zero(), number == 0);
    case.same(integer.is_positive(), number > 0);
    case.same(integer.is_negative(), number < 0);
    case.holds(case.done(integer.clone()) == integer);
    case.same(i128::try_from(integer), Ok(number));
}

fn hash_of(integer: &Integer) -> u64 {
    let mut hasher = DefaultHasher::new();
    integer.hash(&mut hasher);
    hasher.finish()
}

/// Checks that two of them are compared as their numbers are.
fn check_pair(case: &Case<'_, impl Abort>, one: i128, other: i128) {
    let x = case.done(Integer::from_i128(case.alloc, one));
    let y = case.done(Integer::from_i128(case.alloc, other));
    case.same(x.cmp(&y), one.cmp(&other));
    case.same(x == y, one == other);
    case.same(hash_of(&x) == hash_of(&y), one == other);
}

#[test]
fn integers_in_their_order(rt: HostRuntime) {
    for (row, one) in ORDERED.iter().enumerate() {
        let case = Case::new(&rt, rt.alloc(), row);
        check_number(&case, *one);
        for other in ORDERED {
            check_pair(&case, one.0, other.0);
        }
    }
}

#[test]
fn a_number_that_is_too_large(rt: HostRuntime) {
    let most = done(&rt, Integer::from_u128(rt.alloc(), u128::MAX));
    same(&rt, i128::try_from(most), Err(OverflowError));
}

#[test]
fn an_integer_beside_an_unsigned_one(rt: HostRuntime) {
    let unsigned = done(&rt, Unsigned::from_slice(rt.alloc(), &[0x80]));
    let positive = done(&rt, Integer::from_u8(rt.alloc(), 128));
    holds(&rt, positive.eq_unsigned(&unsigned));
    let negative = done(&rt, Integer::from_i8(rt.alloc(), -128));
    holds(&rt, !negative.eq_unsigned(&unsigned));
}

#[test]
fn errors_are_shown(rt: HostRuntime) {
    shows(&rt, rt.alloc(), &InvalidInteger, "invalid integer");
    shows(&rt, rt.alloc(), &OverflowError, "integer out of range");
    shows(&rt, rt.alloc(), &IntegerError::NoMemory, "out of memory");
}
