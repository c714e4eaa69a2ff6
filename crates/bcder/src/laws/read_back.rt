//! What is written is read back as the same value: the reader of a type reads the contents octets
//! that an encoder means as this value, and as no other.
ghost use Rattle.std.specs.Prelude.{◌≡◌, ◌+◌, ⊤, true, length};
ghost use Rattle.std.specs.Int.{w8, w16, w32, w64, w128, FitsUnsignedBits};
ghost use Rattle.std.specs.Prelude.{pos, FitsSigned};
ghost use Rattle.bcder.specs.x690.BitString.{as_written, IsBitString};
ghost use Rattle.bcder.specs.x690.Integer.{AreInteger};
ghost use Rattle.bcder.specs.calls.Meaning.{fits_primitive};
ghost use Rattle.bcder.specs.x690.ObjectIdentifier.{IsComplete};
ghost use Rattle.bcder.specs.calls.Written.{IsReadBack, AreReadBack};
ghost use Rattle.bcder.specs.calls.Readers.{IsSigned, IsUnsigned, IsTruth, IsNull};

use crate::encode::PrimitiveContent;
use crate::int::{Integer, Unsigned};
use crate::mode::Mode;
use crate::oid::Oid;
use crate::string::BitString;
use std::convert::AsSlice;

/// Rust's unsigned integers are read back by `Primitive::to_u8` to `to_u128`, and by all that read
/// like these.
pub fn unsigned_integers_are_read_back()
    ensures of_8_bits { AreReadBack (λ n. FitsUnsignedBits 8 (pos n))
        ⟦<u8 as PrimitiveContent>⟧.means (λ _. IsUnsigned 8) }
    ensures of_16_bits { AreReadBack (λ n. FitsUnsignedBits 16 (pos n))
        ⟦<u16 as PrimitiveContent>⟧.means (λ _. IsUnsigned 16) }
    ensures of_32_bits { AreReadBack (λ n. FitsUnsignedBits 32 (pos n))
        ⟦<u32 as PrimitiveContent>⟧.means (λ _. IsUnsigned 32) }
    ensures of_64_bits { AreReadBack (λ n. FitsUnsignedBits 64 (pos n))
        ⟦<u64 as PrimitiveContent>⟧.means (λ _. IsUnsigned 64) }
    ensures of_128_bits { AreReadBack (λ n. FitsUnsignedBits 128 (pos n))
        ⟦<u128 as PrimitiveContent>⟧.means (λ _. IsUnsigned 128) }
{}

/// Rust's signed integers are read back by `Primitive::to_i8` to `to_i128`, and by all that read
/// like these.
pub fn signed_integers_are_read_back()
    ensures of_8_bits { AreReadBack (FitsSigned w8)
        ⟦<i8 as PrimitiveContent>⟧.means (λ _. IsSigned w8) }
    ensures of_16_bits { AreReadBack (FitsSigned w16)
        ⟦<i16 as PrimitiveContent>⟧.means (λ _. IsSigned w16) }
    ensures of_32_bits { AreReadBack (FitsSigned w32)
        ⟦<i32 as PrimitiveContent>⟧.means (λ _. IsSigned w32) }
    ensures of_64_bits { AreReadBack (FitsSigned w64)
        ⟦<i64 as PrimitiveContent>⟧.means (λ _. IsSigned w64) }
    ensures of_128_bits { AreReadBack (FitsSigned w128)
        ⟦<i128 as PrimitiveContent>⟧.means (λ _. IsSigned w128) }
{}

/// Booleans and null are read back by `Primitive::to_bool` and `to_null`, and by all that read like
/// these.
pub fn booleans_and_null_are_read_back()
    ensures booleans { AreReadBack (λ _. ⊤) ⟦<bool as PrimitiveContent>⟧.means IsTruth }
    ensures null { AreReadBack (λ _. ⊤) ⟦<() as PrimitiveContent>⟧.means (λ _. IsNull) }
{}

/// An integer of any size is read back by `Integer::from_primitive` and `take_from`.
pub fn an_integer_is_read_back<'a>(x: &'a Integer, mode: Mode)
    ensures { IsReadBack (⟦<&'a Integer as PrimitiveContent>⟧.means x.entry mode)
        (λ w z. AreInteger z w) x.now }
{
    let _x = x;
    let _mode = mode;
}

/// An integer of any size that isn't negative is read back by `Unsigned::from_primitive` and
/// `take_from`.
pub fn an_unsigned_is_read_back<'a>(x: &'a Unsigned, mode: Mode)
    ensures { IsReadBack (⟦<&'a Unsigned as PrimitiveContent>⟧.means x.entry mode)
        (λ w n. AreInteger (pos n) w) x.now }
{
    let _x = x;
    let _mode = mode;
}

/// An object identifier whose octets end with a subidentifier is read back, by its octets, by
/// `Oid::from_primitive` and `take_from`.
pub fn an_identifier_is_read_back<T: AsSlice<u8>>(x: &Oid<T>, mode: Mode)
    requires { IsComplete (T.items x.now.0) }
    ensures { IsReadBack (⟦<Oid<T> as PrimitiveContent>⟧.means x.now mode)
        (λ w v. (v ≡ w) × IsComplete w) (T.items x.now.0) }
{
    let slice = x.0.as_slice();
    let _slice = slice;
    let _mode = mode;
}

/// A bit string is read back by `BitString::from_content` and `take_from`, with unused bits as they
/// are written: unchanged in BER, zero in CER and DER (X.690, 11.2.1). In CER it has at most 999
/// octets (9.2).
pub fn a_bit_string_is_read_back(x: &BitString, mode: Mode)
    requires { fits_primitive mode (length x.now.octets + 1) ≡ true }
    ensures { IsReadBack (⟦<BitString as PrimitiveContent>⟧.means x.now mode)
        (IsBitString mode) (as_written mode x.now) }
{
    x.see();
    let _mode = mode;
}
