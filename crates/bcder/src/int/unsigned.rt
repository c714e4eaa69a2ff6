//! Integers of any size that aren't negative.
ghost use Rattle.std.specs.Prelude.{◌≡◌, ◌≢◌, ◌↔◌, ℤ, ℕ, pos, [], false, IsTrue};
ghost use Rattle.std.specs.Prelude.{IfOk, IfErr, unsigned_abs};
ghost use Rattle.bcder.specs.x690.Identifier.{AreOctets, integer_tag};
ghost use Rattle.bcder.specs.x690.Integer.{AreInteger, IsSmallest, Leads, integer_octets};
ghost use Rattle.bcder.specs.x690.Length.{big_endian};
ghost use Rattle.bcder.specs.x690.Number.{ConvertsTo};
ghost use Rattle.bcder.specs.calls.Readers.{ReadBy, ReadOctets, IsUnsigned, NoUnsigned};
ghost use Rattle.bcder.specs.calls.Valued.{TakesOneBy};
ghost use Rattle.bcder.specs.steps.Zeros.{BeginsWithZeros};
ghost use Rattle.bcder.specs.calls.Cause.{MatchIntegerError};
ghost use Rattle.bcder.specs.calls.Views.{Moved, MovedOctets, of_constructed};

use super::{Integer, IntegerError, InvalidInteger, OverflowError};
use crate::decode::{Constructed, DecodeError, Primitive, Source};
use crate::int::number::Number;
use crate::tag::Tag;
use bytes::Bytes;
use std::alloc::{AllocError, Global};
use std::convert::{AsRef, AsSlice};
use std::marker::Model;

/// An integer of any size that isn't negative, kept as its contents octets, which are as few as
/// possible (X.690, 8.3.2).
#[derive(Debug, Drop)]
pub struct Unsigned {
    integer: Integer,
}

/// The clauses see the number.
impl Model for Unsigned {
    ghost use Rattle.std.specs.Prelude.{◌≡◌, ℕ, pos, unsigned_abs};

    ghost Value = { ℕ };

    ghost view = { λ a. unsigned_abs a.integer };

    ghost invariant = { λ a. a.integer ≡ pos (unsigned_abs a.integer) };
}

/// Returns the number of leading octets of 0.
fn leading_zeros(octets: &[u8]) -> usize
    ensures { BeginsWithZeros octets.now result }
{
    let mut count = 0;
    for octet in octets {
        if *octet != 0 {
            return count;
        }
        count += 1;
    }
    count
}

/// Returns whether octets begin like those of a number that isn't negative.
fn is_signed(octets: &[u8]) -> bool
    ensures { IsTrue result ↔ Leads false octets.now }
{
    match octets {
        [] => false,
        [first, ..] => *first < 0x80,
    }
}

impl Unsigned {
    /// Creates the unsigned integer from an integer that isn't negative.
    pub(super) fn new(integer: Integer) -> Unsigned
        requires { integer ≡ pos (unsigned_abs integer) }
        ensures { integer ≡ pos result }
    {
        Unsigned { integer }
    }

    /// Creates the integer with these contents octets.
    fn of(octets: Bytes) -> Unsigned
        requires smallest { IsSmallest octets }
        requires sign { Leads false octets }
        ensures integer { AreInteger (pos result) octets }
        ensures number { result ≡ big_endian octets }
    {
        Unsigned::new(Integer::of(octets))
    }

    /// Creates the integer that octets are, the most significant first. Leading octets of 0 are
    /// ignored.
    ///
    /// # Errors
    ///
    /// Returns `Invalid` if there are no octets, and `NoMemory` if memory runs out.
    pub fn from_slice(alloc: Global, octets: &[u8]) -> Result<Unsigned, IntegerError>
        ensures ok { IfOk result (λ x. x ≡ big_endian octets.now) }
        ensures err { IfErr result (λ e.
            MatchIntegerError e (octets.now ≡ []) (octets.now ≢ [])) }
    {
        if octets.is_empty() {
            return Err(IntegerError::Invalid(InvalidInteger));
        }
        let digits = octets.split_at(leading_zeros(octets)).1;
        if is_signed(digits) {
            Unsigned::copied(alloc, digits)
        } else {
            Unsigned::padded(alloc, digits)
        }
    }

    /// Creates the integer with a copy of these contents octets.
    fn copied(alloc: Global, digits: &[u8]) -> Result<Unsigned, IntegerError>
        requires smallest { IsSmallest digits.now }
        requires sign { Leads false digits.now }
        ensures ok { IfOk result (λ x. x ≡ big_endian digits.now) }
        ensures err { IfErr result (λ e. e ≡ IntegerError.NoMemory) }
    {
        match Bytes::copy_from_slice(alloc, digits) {
            Ok(octets) => Ok(Unsigned::of(octets)),
            Err(_) => Err(IntegerError::NoMemory),
        }
    }

    /// Creates the integer with a copy of these octets after an octet of 0.
    fn padded(alloc: Global, digits: &[u8]) -> Result<Unsigned, IntegerError>
        requires { Leads false digits.now → ⊥ }
        ensures ok { IfOk result (λ x. x ≡ big_endian digits.now) }
        ensures err { IfErr result (λ e. e ≡ IntegerError.NoMemory) }
    {
        let mut all = Vec::new(alloc);
        if all.push(0).is_err() {
            return Err(IntegerError::NoMemory);
        }
        if all.extend_from_slice(digits).is_err() {
            return Err(IntegerError::NoMemory);
        }
        match Bytes::from_vec(all) {
            Ok(octets) => Ok(Unsigned::of(octets)),
            Err(_) => Err(IntegerError::NoMemory),
        }
    }

    /// Creates the integer that octets are, the most significant first. Leading octets of 0 are
    /// ignored. The octets are shared unless an octet of 0 has to be added before them.
    ///
    /// # Errors
    ///
    /// Returns the errors of [`from_slice`](Self::from_slice).
    pub fn from_bytes(alloc: Global, octets: Bytes) -> Result<Unsigned, IntegerError>
        ensures ok { IfOk result (λ x. x ≡ big_endian octets) }
        ensures err { IfErr result (λ e. MatchIntegerError e (octets ≡ []) (octets ≢ [])) }
    {
        let mut kept = octets;
        if kept.is_empty() {
            return Err(IntegerError::Invalid(InvalidInteger));
        }
        let zeros = leading_zeros(kept.as_slice());
        if is_signed(kept.as_slice().split_at(zeros).1) {
            kept.advance(zeros);
            return Ok(Unsigned::of(kept));
        }
        if zeros > 0 {
            kept.advance(zeros - 1);
            return Ok(Unsigned::of(kept));
        }
        Unsigned::padded(alloc, kept.as_slice())
    }

    /// Takes the next value, which has to be an INTEGER that isn't negative.
    ///
    /// # Errors
    ///
    /// Returns the errors of [`Constructed::take_primitive_if`], and an error if the contents
    /// octets are not those of such an integer, or if there is no memory for them.
    #[tactic(auto, using(crate::specs::laws::Moved::untouched_is_moved))]
    #[inline(always)]
    pub fn take_from<S: Source>(
        alloc: Global,
        cons: &mut Constructed<'_, S>,
    ) -> Result<Unsigned, DecodeError<S::Error>>
        ensures moves { Moved S.stream cons }
        ensures took { TakesOneBy integer_tag (λ w n. AreInteger (pos n) w) NoUnsigned
            (of_constructed S.stream cons.old) result (of_constructed S.stream cons.new) }
    {
        cons.take_primitive_if(
            Tag::INTEGER,
            |octets| Unsigned::from_primitive(alloc, octets),
        )
    }

    /// Takes all contents octets as an integer that isn't negative.
    ///
    /// # Errors
    ///
    /// Returns an error, and takes no octet, if the contents octets are not those of such an
    /// integer, if there are fewer than the length promises, if the source fails, or if there is no
    /// memory for them.
    #[inline(always)]
    pub fn from_primitive<S: Source>(
        alloc: Global,
        octets: &mut Primitive<'_, S>,
    ) -> Result<Unsigned, DecodeError<S::Error>>
        ensures moves { MovedOctets S.stream octets }
        ensures read { ReadBy S.stream octets (λ w n. AreInteger (pos n) w) NoUnsigned result }
    {
        match octets.take_unsigned(alloc) {
            Ok(octets) => Ok(Unsigned::of(octets)),
            Err(error) => Err(error),
        }
    }

    /// Returns the contents octets (X.690, 8.3).
    pub fn into_bytes(self) -> Bytes
        ensures integer { AreInteger (pos self) result }
        ensures octets { AreOctets result }
    {
        self.integer.into_bytes()
    }

    /// Returns the contents octets (X.690, 8.3).
    pub fn as_slice(&self) -> &[u8]
        ensures integer { AreInteger (pos self.now) result.now }
        ensures octets { AreOctets result.now }
    {
        self.integer.as_slice()
    }

    /// Returns whether the number is 0.
    pub fn is_zero(&self) -> bool
        ensures { IsTrue result ↔ (self.now ≡ 0) }
    {
        self.integer.is_zero()
    }

    /// Returns the number as an [`Integer`].
    pub(super) fn integer(&self) -> &Integer
        ensures { result.now ≡ pos self.now }
    {
        &self.integer
    }

    /// Converts the number to a value of a type, if the type can hold it.
    pub(super) fn number<N: Number>(&self) -> Result<N, OverflowError>
        ensures { ConvertsTo N.value N.in_range (pos self.now) result }
    {
        self.integer.number()
    }

    /// Reads all contents octets as an integer that a `u8` can hold, like `Primitive::to_u8`.
    ///
    /// # Errors
    ///
    /// Returns the errors of `Primitive::to_u8`.
    pub fn u8_from_primitive<S: Source>(
        octets: &mut Primitive<'_, S>,
    ) -> Result<u8, DecodeError<S::Error>>
        ensures moves { MovedOctets S.stream octets }
        ensures read { ReadOctets S.stream octets (IsUnsigned 8) result }
    {
        octets.to_u8()
    }

    /// Reads all contents octets as an integer that a `u16` can hold, like `Primitive::to_u16`.
    ///
    /// # Errors
    ///
    /// Returns the errors of `Primitive::to_u16`.
    pub fn u16_from_primitive<S: Source>(
        octets: &mut Primitive<'_, S>,
    ) -> Result<u16, DecodeError<S::Error>>
        ensures moves { MovedOctets S.stream octets }
        ensures read { ReadOctets S.stream octets (IsUnsigned 16) result }
    {
        octets.to_u16()
    }

    /// Reads all contents octets as an integer that a `u32` can hold, like `Primitive::to_u32`.
    ///
    /// # Errors
    ///
    /// Returns the errors of `Primitive::to_u32`.
    pub fn u32_from_primitive<S: Source>(
        octets: &mut Primitive<'_, S>,
    ) -> Result<u32, DecodeError<S::Error>>
        ensures moves { MovedOctets S.stream octets }
        ensures read { ReadOctets S.stream octets (IsUnsigned 32) result }
    {
        octets.to_u32()
    }

    /// Reads all contents octets as an integer that a `u64` can hold, like `Primitive::to_u64`.
    ///
    /// # Errors
    ///
    /// Returns the errors of `Primitive::to_u64`.
    pub fn u64_from_primitive<S: Source>(
        octets: &mut Primitive<'_, S>,
    ) -> Result<u64, DecodeError<S::Error>>
        ensures moves { MovedOctets S.stream octets }
        ensures read { ReadOctets S.stream octets (IsUnsigned 64) result }
    {
        octets.to_u64()
    }

    /// Reads all contents octets as an integer that a `u128` can hold, like `Primitive::to_u128`.
    ///
    /// # Errors
    ///
    /// Returns the errors of `Primitive::to_u128`.
    pub fn u128_from_primitive<S: Source>(
        octets: &mut Primitive<'_, S>,
    ) -> Result<u128, DecodeError<S::Error>>
        ensures moves { MovedOctets S.stream octets }
        ensures read { ReadOctets S.stream octets (IsUnsigned 128) result }
    {
        octets.to_u128()
    }
}

/// The clone has the same number.
impl Clone for Unsigned {
    ghost is_clone = { λ x y. y ≡ x };

    fn clone(&self) -> Result<Unsigned, AllocError> {
        Ok(Unsigned {
            integer: self.integer.clone()?,
        })
    }
}

impl AsSlice<u8> for Unsigned {
    ghost items = { λ n. integer_octets (pos n) };

    fn as_slice(&self) -> &[u8] {
        AsSlice::as_slice(&self.integer)
    }
}

impl AsRef<Integer> for Unsigned {
    fn as_ref(&self) -> &Integer
        ensures { result.now ≡ pos self.now }
    {
        &self.integer
    }
}

impl AsRef<Bytes> for Unsigned {
    fn as_ref(&self) -> &Bytes
        ensures { AreInteger (pos self.now) result.now }
    {
        AsRef::as_ref(&self.integer)
    }
}

impl Integer {
    /// Returns whether `other` is the same number.
    pub fn eq_unsigned(&self, other: &Unsigned) -> bool
        ensures { IsTrue result ↔ (self.now ≡ pos other.now) }
    {
        self.as_slice() == other.as_slice()
    }
}
