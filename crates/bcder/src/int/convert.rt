//! Conversions between these integers and Rust's.
ghost use Rattle.std.specs.Prelude.{◌≡◌, ℤ, pos, IfOk};
ghost use Rattle.std.specs.Int.{w8, w16, w32, w64, w128, complement_if, FitsUnsignedBits};
ghost use Rattle.std.specs.Int.RustNames.{FitsSigned};
ghost use Rattle.bcder.specs.x690.Number.{ConvertsTo};

use super::octets::Octets;
use super::{Integer, OverflowError, Unsigned};
use crate::NoMemory;
use bytes::Bytes;
use std::alloc::Global;
use std::convert::TryFrom;

impl Integer {
    /// Creates the integer from a `u8`.
    pub fn from_u8(alloc: Global, x: u8) -> Result<Integer, NoMemory>
        ensures { IfOk result (λ z. z ≡ pos x) }
    {
        Integer::from_u128(alloc, u128::from(x))
    }

    /// Creates the integer from a `u16`.
    pub fn from_u16(alloc: Global, x: u16) -> Result<Integer, NoMemory>
        ensures { IfOk result (λ z. z ≡ pos x) }
    {
        Integer::from_u128(alloc, u128::from(x))
    }

    /// Creates the integer from a `u32`.
    pub fn from_u32(alloc: Global, x: u32) -> Result<Integer, NoMemory>
        ensures { IfOk result (λ z. z ≡ pos x) }
    {
        Integer::from_u128(alloc, u128::from(x))
    }

    /// Creates the integer from a `u64`.
    pub fn from_u64(alloc: Global, x: u64) -> Result<Integer, NoMemory>
        ensures { IfOk result (λ z. z ≡ pos x) }
    {
        Integer::from_u128(alloc, u128::from(x))
    }

    /// Creates the integer from a `u128`.
    pub fn from_u128(alloc: Global, x: u128) -> Result<Integer, NoMemory>
        ensures { IfOk result (λ z. z ≡ pos x) }
    {
        Ok(Integer::of(Bytes::copy_from_slice(alloc, Octets::of(false, x).as_slice())?))
    }

    /// Creates the integer from an `i8`.
    pub fn from_i8(alloc: Global, x: i8) -> Result<Integer, NoMemory>
        ensures { IfOk result (λ z. z ≡ x) }
    {
        Integer::from_i128(alloc, i128::from(x))
    }

    /// Creates the integer from an `i16`.
    pub fn from_i16(alloc: Global, x: i16) -> Result<Integer, NoMemory>
        ensures { IfOk result (λ z. z ≡ x) }
    {
        Integer::from_i128(alloc, i128::from(x))
    }

    /// Creates the integer from an `i32`.
    pub fn from_i32(alloc: Global, x: i32) -> Result<Integer, NoMemory>
        ensures { IfOk result (λ z. z ≡ x) }
    {
        Integer::from_i128(alloc, i128::from(x))
    }

    /// Creates the integer from an `i64`.
    pub fn from_i64(alloc: Global, x: i64) -> Result<Integer, NoMemory>
        ensures { IfOk result (λ z. z ≡ x) }
    {
        Integer::from_i128(alloc, i128::from(x))
    }

    /// Creates the integer from an `i128`.
    pub fn from_i128(alloc: Global, x: i128) -> Result<Integer, NoMemory>
        ensures { IfOk result (λ z. z ≡ x) }
    {
        Ok(Integer::of(Bytes::copy_from_slice(alloc, Octets::of_signed(x).as_slice())?))
    }
}

impl Unsigned {
    /// Creates the integer from a `u8`.
    pub fn from_u8(alloc: Global, x: u8) -> Result<Unsigned, NoMemory>
        ensures { IfOk result (λ n. n ≡ x) }
    {
        Ok(Unsigned::new(Integer::from_u8(alloc, x)?))
    }

    /// Creates the integer from a `u16`.
    pub fn from_u16(alloc: Global, x: u16) -> Result<Unsigned, NoMemory>
        ensures { IfOk result (λ n. n ≡ x) }
    {
        Ok(Unsigned::new(Integer::from_u16(alloc, x)?))
    }

    /// Creates the integer from a `u32`.
    pub fn from_u32(alloc: Global, x: u32) -> Result<Unsigned, NoMemory>
        ensures { IfOk result (λ n. n ≡ x) }
    {
        Ok(Unsigned::new(Integer::from_u32(alloc, x)?))
    }

    /// Creates the integer from a `u64`.
    pub fn from_u64(alloc: Global, x: u64) -> Result<Unsigned, NoMemory>
        ensures { IfOk result (λ n. n ≡ x) }
    {
        Ok(Unsigned::new(Integer::from_u64(alloc, x)?))
    }

    /// Creates the integer from a `u128`.
    pub fn from_u128(alloc: Global, x: u128) -> Result<Unsigned, NoMemory>
        ensures { IfOk result (λ n. n ≡ x) }
    {
        Ok(Unsigned::new(Integer::from_u128(alloc, x)?))
    }
}

impl TryFrom<Integer> for i8 {
    type Error = OverflowError;

    ghost try_from_gives = { λ z r. ConvertsTo (λ x. x) (FitsSigned w8) z r };

    fn try_from(value: Integer) -> Result<i8, OverflowError> {
        value.number()
    }
}

impl TryFrom<&Integer> for i8 {
    type Error = OverflowError;

    ghost try_from_gives = { λ z r. ConvertsTo (λ x. x) (FitsSigned w8) z.now r };

    fn try_from(value: &Integer) -> Result<i8, OverflowError> {
        value.number()
    }
}

impl TryFrom<Integer> for i16 {
    type Error = OverflowError;

    ghost try_from_gives = { λ z r. ConvertsTo (λ x. x) (FitsSigned w16) z r };

    fn try_from(value: Integer) -> Result<i16, OverflowError> {
        value.number()
    }
}

impl TryFrom<&Integer> for i16 {
    type Error = OverflowError;

    ghost try_from_gives = { λ z r. ConvertsTo (λ x. x) (FitsSigned w16) z.now r };

    fn try_from(value: &Integer) -> Result<i16, OverflowError> {
        value.number()
    }
}

impl TryFrom<Integer> for i32 {
    type Error = OverflowError;

    ghost try_from_gives = { λ z r. ConvertsTo (λ x. x) (FitsSigned w32) z r };

    fn try_from(value: Integer) -> Result<i32, OverflowError> {
        value.number()
    }
}

impl TryFrom<&Integer> for i32 {
    type Error = OverflowError;

    ghost try_from_gives = { λ z r. ConvertsTo (λ x. x) (FitsSigned w32) z.now r };

    fn try_from(value: &Integer) -> Result<i32, OverflowError> {
        value.number()
    }
}

impl TryFrom<Integer> for i64 {
    type Error = OverflowError;

    ghost try_from_gives = { λ z r. ConvertsTo (λ x. x) (FitsSigned w64) z r };

    fn try_from(value: Integer) -> Result<i64, OverflowError> {
        value.number()
    }
}

impl TryFrom<&Integer> for i64 {
    type Error = OverflowError;

    ghost try_from_gives = { λ z r. ConvertsTo (λ x. x) (FitsSigned w64) z.now r };

    fn try_from(value: &Integer) -> Result<i64, OverflowError> {
        value.number()
    }
}

impl TryFrom<Integer> for i128 {
    type Error = OverflowError;

    ghost try_from_gives = { λ z r. ConvertsTo (λ x. x) (FitsSigned w128) z r };

    fn try_from(value: Integer) -> Result<i128, OverflowError> {
        value.number()
    }
}

impl TryFrom<&Integer> for i128 {
    type Error = OverflowError;

    ghost try_from_gives = { λ z r. ConvertsTo (λ x. x) (FitsSigned w128) z.now r };

    fn try_from(value: &Integer) -> Result<i128, OverflowError> {
        value.number()
    }
}

impl TryFrom<Integer> for u8 {
    type Error = OverflowError;

    ghost try_from_gives = { λ z r. ConvertsTo pos (FitsUnsignedBits 8) z r };

    fn try_from(value: Integer) -> Result<u8, OverflowError> {
        value.number()
    }
}

impl TryFrom<&Integer> for u8 {
    type Error = OverflowError;

    ghost try_from_gives = { λ z r. ConvertsTo pos (FitsUnsignedBits 8) z.now r };

    fn try_from(value: &Integer) -> Result<u8, OverflowError> {
        value.number()
    }
}

impl TryFrom<Integer> for u16 {
    type Error = OverflowError;

    ghost try_from_gives = { λ z r. ConvertsTo pos (FitsUnsignedBits 16) z r };

    fn try_from(value: Integer) -> Result<u16, OverflowError> {
        value.number()
    }
}

impl TryFrom<&Integer> for u16 {
    type Error = OverflowError;

    ghost try_from_gives = { λ z r. ConvertsTo pos (FitsUnsignedBits 16) z.now r };

    fn try_from(value: &Integer) -> Result<u16, OverflowError> {
        value.number()
    }
}

impl TryFrom<Integer> for u32 {
    type Error = OverflowError;

    ghost try_from_gives = { λ z r. ConvertsTo pos (FitsUnsignedBits 32) z r };

    fn try_from(value: Integer) -> Result<u32, OverflowError> {
        value.number()
    }
}

impl TryFrom<&Integer> for u32 {
    type Error = OverflowError;

    ghost try_from_gives = { λ z r. ConvertsTo pos (FitsUnsignedBits 32) z.now r };

    fn try_from(value: &Integer) -> Result<u32, OverflowError> {
        value.number()
    }
}

impl TryFrom<Integer> for u64 {
    type Error = OverflowError;

    ghost try_from_gives = { λ z r. ConvertsTo pos (FitsUnsignedBits 64) z r };

    fn try_from(value: Integer) -> Result<u64, OverflowError> {
        value.number()
    }
}

impl TryFrom<&Integer> for u64 {
    type Error = OverflowError;

    ghost try_from_gives = { λ z r. ConvertsTo pos (FitsUnsignedBits 64) z.now r };

    fn try_from(value: &Integer) -> Result<u64, OverflowError> {
        value.number()
    }
}

impl TryFrom<Integer> for u128 {
    type Error = OverflowError;

    ghost try_from_gives = { λ z r. ConvertsTo pos (FitsUnsignedBits 128) z r };

    fn try_from(value: Integer) -> Result<u128, OverflowError> {
        value.number()
    }
}

impl TryFrom<&Integer> for u128 {
    type Error = OverflowError;

    ghost try_from_gives = { λ z r. ConvertsTo pos (FitsUnsignedBits 128) z.now r };

    fn try_from(value: &Integer) -> Result<u128, OverflowError> {
        value.number()
    }
}

impl TryFrom<Unsigned> for i8 {
    type Error = OverflowError;

    ghost try_from_gives = { λ n r. ConvertsTo (λ x. x) (FitsSigned w8) (pos n) r };

    fn try_from(value: Unsigned) -> Result<i8, OverflowError> {
        value.number()
    }
}

impl TryFrom<&Unsigned> for i8 {
    type Error = OverflowError;

    ghost try_from_gives = { λ n r. ConvertsTo (λ x. x) (FitsSigned w8) (pos n.now) r };

    fn try_from(value: &Unsigned) -> Result<i8, OverflowError> {
        value.number()
    }
}

impl TryFrom<Unsigned> for i16 {
    type Error = OverflowError;

    ghost try_from_gives = { λ n r. ConvertsTo (λ x. x) (FitsSigned w16) (pos n) r };

    fn try_from(value: Unsigned) -> Result<i16, OverflowError> {
        value.number()
    }
}

impl TryFrom<&Unsigned> for i16 {
    type Error = OverflowError;

    ghost try_from_gives = { λ n r. ConvertsTo (λ x. x) (FitsSigned w16) (pos n.now) r };

    fn try_from(value: &Unsigned) -> Result<i16, OverflowError> {
        value.number()
    }
}

impl TryFrom<Unsigned> for i32 {
    type Error = OverflowError;

    ghost try_from_gives = { λ n r. ConvertsTo (λ x. x) (FitsSigned w32) (pos n) r };

    fn try_from(value: Unsigned) -> Result<i32, OverflowError> {
        value.number()
    }
}

impl TryFrom<&Unsigned> for i32 {
    type Error = OverflowError;

    ghost try_from_gives = { λ n r. ConvertsTo (λ x. x) (FitsSigned w32) (pos n.now) r };

    fn try_from(value: &Unsigned) -> Result<i32, OverflowError> {
        value.number()
    }
}

impl TryFrom<Unsigned> for i64 {
    type Error = OverflowError;

    ghost try_from_gives = { λ n r. ConvertsTo (λ x. x) (FitsSigned w64) (pos n) r };

    fn try_from(value: Unsigned) -> Result<i64, OverflowError> {
        value.number()
    }
}

impl TryFrom<&Unsigned> for i64 {
    type Error = OverflowError;

    ghost try_from_gives = { λ n r. ConvertsTo (λ x. x) (FitsSigned w64) (pos n.now) r };

    fn try_from(value: &Unsigned) -> Result<i64, OverflowError> {
        value.number()
    }
}

impl TryFrom<Unsigned> for i128 {
    type Error = OverflowError;

    ghost try_from_gives = { λ n r. ConvertsTo (λ x. x) (FitsSigned w128) (pos n) r };

    fn try_from(value: Unsigned) -> Result<i128, OverflowError> {
        value.number()
    }
}

impl TryFrom<&Unsigned> for i128 {
    type Error = OverflowError;

    ghost try_from_gives = { λ n r. ConvertsTo (λ x. x) (FitsSigned w128) (pos n.now) r };

    fn try_from(value: &Unsigned) -> Result<i128, OverflowError> {
        value.number()
    }
}

impl TryFrom<Unsigned> for u8 {
    type Error = OverflowError;

    ghost try_from_gives = { λ n r. ConvertsTo pos (FitsUnsignedBits 8) (pos n) r };

    fn try_from(value: Unsigned) -> Result<u8, OverflowError> {
        value.number()
    }
}

impl TryFrom<&Unsigned> for u8 {
    type Error = OverflowError;

    ghost try_from_gives = { λ n r. ConvertsTo pos (FitsUnsignedBits 8) (pos n.now) r };

    fn try_from(value: &Unsigned) -> Result<u8, OverflowError> {
        value.number()
    }
}

impl TryFrom<Unsigned> for u16 {
    type Error = OverflowError;

    ghost try_from_gives = { λ n r. ConvertsTo pos (FitsUnsignedBits 16) (pos n) r };

    fn try_from(value: Unsigned) -> Result<u16, OverflowError> {
        value.number()
    }
}

impl TryFrom<&Unsigned> for u16 {
    type Error = OverflowError;

    ghost try_from_gives = { λ n r. ConvertsTo pos (FitsUnsignedBits 16) (pos n.now) r };

    fn try_from(value: &Unsigned) -> Result<u16, OverflowError> {
        value.number()
    }
}

impl TryFrom<Unsigned> for u32 {
    type Error = OverflowError;

    ghost try_from_gives = { λ n r. ConvertsTo pos (FitsUnsignedBits 32) (pos n) r };

    fn try_from(value: Unsigned) -> Result<u32, OverflowError> {
        value.number()
    }
}

impl TryFrom<&Unsigned> for u32 {
    type Error = OverflowError;

    ghost try_from_gives = { λ n r. ConvertsTo pos (FitsUnsignedBits 32) (pos n.now) r };

    fn try_from(value: &Unsigned) -> Result<u32, OverflowError> {
        value.number()
    }
}

impl TryFrom<Unsigned> for u64 {
    type Error = OverflowError;

    ghost try_from_gives = { λ n r. ConvertsTo pos (FitsUnsignedBits 64) (pos n) r };

    fn try_from(value: Unsigned) -> Result<u64, OverflowError> {
        value.number()
    }
}

impl TryFrom<&Unsigned> for u64 {
    type Error = OverflowError;

    ghost try_from_gives = { λ n r. ConvertsTo pos (FitsUnsignedBits 64) (pos n.now) r };

    fn try_from(value: &Unsigned) -> Result<u64, OverflowError> {
        value.number()
    }
}

impl TryFrom<Unsigned> for u128 {
    type Error = OverflowError;

    ghost try_from_gives = { λ n r. ConvertsTo pos (FitsUnsignedBits 128) (pos n) r };

    fn try_from(value: Unsigned) -> Result<u128, OverflowError> {
        value.number()
    }
}

impl TryFrom<&Unsigned> for u128 {
    type Error = OverflowError;

    ghost try_from_gives = { λ n r. ConvertsTo pos (FitsUnsignedBits 128) (pos n.now) r };

    fn try_from(value: &Unsigned) -> Result<u128, OverflowError> {
        value.number()
    }
}
