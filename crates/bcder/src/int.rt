//! Integers of any size (X.690, 8.3).
ghost use Rattle.std.specs.Prelude.{◌≡◌, ◌≢◌, ◌↔◌, ◌<ℤ◌, ◌≤ℤ◌, ◌≤◌, ◌<◌, ◌^◌, ℤ, ℕ, pos, IsTrue};
ghost use Rattle.std.specs.Prelude.{IfOk, MatchResult, length};
ghost use Rattle.std.specs.Int.{w8, w16, w32, w64, w128};
ghost use Rattle.bcder.specs.x690.Identifier.{AreOctets, integer_tag};
ghost use Rattle.bcder.specs.x690.Integer.{AreInteger, IsSmallest, integer_octets, is_negative};
ghost use Rattle.bcder.specs.x690.Integer.{integer_order, same_sign_order};
ghost use Rattle.bcder.specs.x690.Number.{ConvertsTo};
ghost use Rattle.bcder.specs.calls.Readers.{ReadBy, ReadOctets, IsSigned, MeanNothing, NoInteger};
ghost use Rattle.bcder.specs.calls.Valued.{TakesOneBy};
ghost use Rattle.bcder.specs.calls.Views.{Moved, MovedOctets, of_constructed};

mod compare;
mod convert;
mod error;
pub(crate) mod number;
pub(crate) mod octets;
mod unsigned;

use crate::decode::{Constructed, DecodeError, Primitive, Source};
use crate::int::number::{Number, number_at};
use crate::tag::Tag;
use bytes::Bytes;
pub use error::{IntegerError, InvalidInteger, OverflowError};
use std::alloc::{AllocError, Global};
use std::cmp::Ordering;
use std::convert::{AsRef, AsSlice};
use std::marker::Model;
pub use unsigned::Unsigned;

/// An integer of any size, kept as its contents octets, which are as few as possible (8.3.2).
#[derive(Debug, Drop)]
pub struct Integer {
    octets: Bytes,
}

/// The clauses see the number.
impl Model for Integer {
    ghost use Rattle.std.specs.Prelude.{ℤ};
    ghost use Rattle.bcder.specs.x690.Identifier.{AreOctets};
    ghost use Rattle.bcder.specs.x690.Integer.{number, IsSmallest};

    ghost Value = { ℤ };

    ghost view = { λ a. number a.octets };

    ghost invariant = { λ a. AreOctets a.octets × IsSmallest a.octets };
}

/// Returns whether contents octets are those of a negative number.
fn is_negative_at(octets: &[u8]) -> bool
    ensures { result ≡ is_negative octets.now }
{
    match octets {
        [] => false,
        [first, ..] => *first >= 0x80,
    }
}

/// Compares contents octets of integers with the same sign, in the order of the integers.
fn same_sign_order(negative: bool, one: &[u8], other: &[u8]) -> Ordering
    ensures { result ≡ same_sign_order negative one.now other.now }
{
    if negative {
        other.len().cmp(&one.len()).then(one.cmp(other))
    } else {
        one.len().cmp(&other.len()).then(one.cmp(other))
    }
}

/// Compares contents octets in the order of the integers that they are.
fn integer_order(one: &[u8], other: &[u8]) -> Ordering
    ensures { result ≡ integer_order one.now other.now }
{
    match (is_negative_at(one), is_negative_at(other)) {
        (false, false) => same_sign_order(false, one, other),
        (false, true) => Ordering::Greater,
        (true, false) => Ordering::Less,
        (true, true) => same_sign_order(true, one, other),
    }
}

impl Integer {
    /// Creates the integer with these contents octets.
    fn of(octets: Bytes) -> Integer
        requires { IsSmallest octets }
        ensures { AreInteger result octets }
    {
        // for the proof: the items of a slice that is read are octets
        let slice = octets.as_slice();
        let _slice = slice;
        Integer { octets }
    }

    /// Takes the next value, which has to be an INTEGER.
    ///
    /// # Errors
    ///
    /// Returns the errors of [`Constructed::take_primitive_if`], and an error if the contents
    /// octets are not those of an integer, or if there is no memory for them.
    #[tactic(auto, using(crate::specs::laws::Moved::untouched_is_moved))]
    #[inline(always)]
    pub fn take_from<S: Source>(
        alloc: Global,
        cons: &mut Constructed<'_, S>,
    ) -> Result<Integer, DecodeError<S::Error>>
        ensures moves { Moved S.stream cons }
        ensures took { TakesOneBy integer_tag (λ w z. AreInteger z w) NoInteger
            (of_constructed S.stream cons.old) result (of_constructed S.stream cons.new) }
    {
        cons.take_primitive_if(
            Tag::INTEGER,
            |octets| Integer::from_primitive(alloc, octets),
        )
    }

    /// Takes all contents octets as an integer.
    ///
    /// # Errors
    ///
    /// Returns an error, and takes no octet, if the contents octets are not those of an integer, if
    /// there are fewer than the length promises, if the source fails, or if there is no memory for
    /// them.
    #[inline(always)]
    pub fn from_primitive<S: Source>(
        alloc: Global,
        octets: &mut Primitive<'_, S>,
    ) -> Result<Integer, DecodeError<S::Error>>
        ensures moves { MovedOctets S.stream octets }
        ensures read { ReadBy S.stream octets (λ w z. AreInteger z w) NoInteger result }
    {
        match octets.take_integer(alloc) {
            Ok(octets) => Ok(Integer::of(octets)),
            Err(error) => Err(error),
        }
    }

    /// Returns the contents octets (8.3).
    pub fn into_bytes(self) -> Bytes
        ensures integer { AreInteger self result }
        ensures octets { AreOctets result }
    {
        self.octets
    }

    /// Returns the contents octets (8.3).
    pub fn as_slice(&self) -> &[u8]
        ensures integer { AreInteger self.now result.now }
        ensures octets { AreOctets result.now }
    {
        self.octets.as_slice()
    }

    /// Returns whether the number is 0.
    pub fn is_zero(&self) -> bool
        ensures { IsTrue result ↔ (self.now ≡ pos 0) }
    {
        match self.as_slice() {
            [0x00] => true,
            _ => false,
        }
    }

    /// Returns whether the number is greater than 0.
    pub fn is_positive(&self) -> bool
        ensures { IsTrue result ↔ (pos 0 <ℤ self.now) }
    {
        !self.is_negative() && !self.is_zero()
    }

    /// Returns whether the number is less than 0.
    pub fn is_negative(&self) -> bool
        ensures { IsTrue result ↔ (self.now <ℤ pos 0) }
    {
        is_negative_at(self.as_slice())
    }

    /// Converts the number to a value of a type, if the type can hold it.
    pub(super) fn number<N: Number>(&self) -> Result<N, OverflowError>
        ensures { ConvertsTo N.value N.in_range self.now result }
    {
        match number_at(self.as_slice()) {
            Some(number) => Ok(number),
            None => Err(OverflowError),
        }
    }

    /// Reads all contents octets as an integer that an `i8` can hold, like `Primitive::to_i8`.
    ///
    /// # Errors
    ///
    /// Returns the errors of `Primitive::to_i8`.
    pub fn i8_from_primitive<S: Source>(
        octets: &mut Primitive<'_, S>,
    ) -> Result<i8, DecodeError<S::Error>>
        ensures moves { MovedOctets S.stream octets }
        ensures read { ReadOctets S.stream octets (IsSigned w8) result }
    {
        octets.to_i8()
    }

    /// Reads all contents octets as an integer that an `i16` can hold, like `Primitive::to_i16`.
    ///
    /// # Errors
    ///
    /// Returns the errors of `Primitive::to_i16`.
    pub fn i16_from_primitive<S: Source>(
        octets: &mut Primitive<'_, S>,
    ) -> Result<i16, DecodeError<S::Error>>
        ensures moves { MovedOctets S.stream octets }
        ensures read { ReadOctets S.stream octets (IsSigned w16) result }
    {
        octets.to_i16()
    }

    /// Reads all contents octets as an integer that an `i32` can hold, like `Primitive::to_i32`.
    ///
    /// # Errors
    ///
    /// Returns the errors of `Primitive::to_i32`.
    pub fn i32_from_primitive<S: Source>(
        octets: &mut Primitive<'_, S>,
    ) -> Result<i32, DecodeError<S::Error>>
        ensures moves { MovedOctets S.stream octets }
        ensures read { ReadOctets S.stream octets (IsSigned w32) result }
    {
        octets.to_i32()
    }

    /// Reads all contents octets as an integer that an `i64` can hold, like `Primitive::to_i64`.
    ///
    /// # Errors
    ///
    /// Returns the errors of `Primitive::to_i64`.
    pub fn i64_from_primitive<S: Source>(
        octets: &mut Primitive<'_, S>,
    ) -> Result<i64, DecodeError<S::Error>>
        ensures moves { MovedOctets S.stream octets }
        ensures read { ReadOctets S.stream octets (IsSigned w64) result }
    {
        octets.to_i64()
    }

    /// Reads all contents octets as an integer that an `i128` can hold, like `Primitive::to_i128`.
    ///
    /// # Errors
    ///
    /// Returns the errors of `Primitive::to_i128`.
    pub fn i128_from_primitive<S: Source>(
        octets: &mut Primitive<'_, S>,
    ) -> Result<i128, DecodeError<S::Error>>
        ensures moves { MovedOctets S.stream octets }
        ensures read { ReadOctets S.stream octets (IsSigned w128) result }
    {
        octets.to_i128()
    }
}

/// The clone has the same number.
impl Clone for Integer {
    ghost is_clone = { λ x y. y ≡ x };

    fn clone(&self) -> Result<Integer, AllocError> {
        Ok(Integer {
            octets: self.octets.clone()?,
        })
    }
}

impl AsSlice<u8> for Integer {
    ghost items = { integer_octets };

    fn as_slice(&self) -> &[u8] {
        Integer::as_slice(self)
    }
}

impl AsRef<Bytes> for Integer {
    fn as_ref(&self) -> &Bytes
        ensures { AreInteger self.now result.now }
    {
        &self.octets
    }
}
