//! What is written is taken back as the same value: wherever open content begins with the encoding
//! that an encoder means in its mode, the typed takes return this value, and leave what follows.
ghost use Rattle.std.specs.Prelude.{◌≡◌, ⊤, true, pos, length, ◌+◌, ◌<◌, ◌^◌, FitsSigned};
ghost use Rattle.std.specs.Int.{w8, w16, w32, w64, w128, FitsUnsignedBits};
ghost use Rattle.bcder.specs.calls.Readers.{AreNot, NoBits};
ghost use Rattle.bcder.specs.x690.Identifier.{boolean_tag, integer_tag, null_tag};
ghost use Rattle.bcder.specs.x690.BitString.{as_written, bit_string_tag, IsBits, IsBitString};
ghost use Rattle.bcder.specs.x690.Integer.{AreInteger, integer_octets};
ghost use Rattle.bcder.specs.calls.Meaning.{fits_primitive};
ghost use Rattle.bcder.specs.calls.Readers.{HoldBits};
ghost use Rattle.bcder.specs.calls.Readers.{IsSigned, IsUnsigned, IsTruth, IsNull, IsThis};
ghost use Rattle.bcder.specs.calls.Readers.{MeanAnother, NoInteger};
ghost use Rattle.bcder.specs.x690.ObjectIdentifier.{IsComplete, identifier_tag};
ghost use Rattle.bcder.specs.calls.Readers.{NoUnsigned};
ghost use Rattle.bcder.specs.calls.Written.{AreTakenBack, IsTakenBack, IsTakenBackBy};
ghost use Rattle.bcder.specs.calls.Written.{SourceFailed};
ghost use Rattle.bcder.specs.calls.Written.{SourceFailedOrNoMemory};

use crate::encode::{Primitive, Values};
use crate::int::{Integer, Unsigned};
use crate::mode::Mode;
use crate::oid::Oid;
use crate::string::{BitSliceEncoder, BitString};
use bytes::Bytes;
use std::convert::AsSlice;

/// Rust's unsigned integers are taken back by `Constructed::take_u8` to `take_u64`, a `u128` by
/// `take_primitive_if` with a closure that calls `Primitive::to_u128`, and all by takes that read
/// like these, unless the source fails, whose errors are of type `E`.
pub fn unsigned_integers_are_taken_back<E>()
    ensures of_8_bits { AreTakenBack E (λ n. FitsUnsignedBits 8 (pos n)) integer_tag
        (λ _. IsUnsigned 8) (λ x. ⟦<Primitive<u8> as Values>⟧.means
        (record { tag = integer_tag; prim = x })) }
    ensures of_16_bits { AreTakenBack E (λ n. FitsUnsignedBits 16 (pos n)) integer_tag
        (λ _. IsUnsigned 16) (λ x. ⟦<Primitive<u16> as Values>⟧.means
        (record { tag = integer_tag; prim = x })) }
    ensures of_32_bits { AreTakenBack E (λ n. FitsUnsignedBits 32 (pos n)) integer_tag
        (λ _. IsUnsigned 32) (λ x. ⟦<Primitive<u32> as Values>⟧.means
        (record { tag = integer_tag; prim = x })) }
    ensures of_64_bits { AreTakenBack E (λ n. FitsUnsignedBits 64 (pos n)) integer_tag
        (λ _. IsUnsigned 64) (λ x. ⟦<Primitive<u64> as Values>⟧.means
        (record { tag = integer_tag; prim = x })) }
    ensures of_128_bits { AreTakenBack E (λ n. FitsUnsignedBits 128 (pos n)) integer_tag
        (λ _. IsUnsigned 128) (λ x. ⟦<Primitive<u128> as Values>⟧.means
        (record { tag = integer_tag; prim = x })) }
{}

/// Rust's signed integers are taken back by `Constructed::take_primitive_if` with a closure that
/// calls `Primitive::to_i8` to `to_i128`, and by all that read like this.
pub fn signed_integers_are_taken_back<E>()
    ensures of_8_bits { AreTakenBack E (FitsSigned w8) integer_tag
        (λ _. IsSigned w8) (λ x. ⟦<Primitive<i8> as Values>⟧.means
        (record { tag = integer_tag; prim = x })) }
    ensures of_16_bits { AreTakenBack E (FitsSigned w16) integer_tag
        (λ _. IsSigned w16) (λ x. ⟦<Primitive<i16> as Values>⟧.means
        (record { tag = integer_tag; prim = x })) }
    ensures of_32_bits { AreTakenBack E (FitsSigned w32) integer_tag
        (λ _. IsSigned w32) (λ x. ⟦<Primitive<i32> as Values>⟧.means
        (record { tag = integer_tag; prim = x })) }
    ensures of_64_bits { AreTakenBack E (FitsSigned w64) integer_tag
        (λ _. IsSigned w64) (λ x. ⟦<Primitive<i64> as Values>⟧.means
        (record { tag = integer_tag; prim = x })) }
    ensures of_128_bits { AreTakenBack E (FitsSigned w128) integer_tag
        (λ _. IsSigned w128) (λ x. ⟦<Primitive<i128> as Values>⟧.means
        (record { tag = integer_tag; prim = x })) }
{}

/// Booleans and null are taken back by `Constructed::take_bool` and `take_null`.
pub fn booleans_and_null_are_taken_back<E>()
    ensures booleans { AreTakenBack E (λ _. ⊤) boolean_tag IsTruth
        (λ x. ⟦<Primitive<bool> as Values>⟧.means (record { tag = boolean_tag; prim = x })) }
    ensures null { AreTakenBack E (λ _. ⊤) null_tag (λ _. IsNull)
        (λ x. ⟦<Primitive<()> as Values>⟧.means (record { tag = null_tag; prim = x })) }
{}

/// A `u8` that is written is skipped by `Constructed::skip_u8_if` for that number.
pub fn a_small_integer_is_skipped<E>(x: u8, mode: Mode)
    ensures { IsTakenBackBy {X = E} SourceFailed integer_tag (IsThis {T = Unit {0}} 8 x)
        (MeanAnother x) mode
        (⟦<Primitive<u8> as Values>⟧.means (record { tag = integer_tag; prim = x }) mode) tt }
{
    let _x = x;
    let _mode = mode;
}

/// An integer of any size whose contents octets an encoding may have is taken back by
/// `Integer::take_from`, if there is memory for them.
pub fn an_integer_is_taken_back<'a, E>(x: &'a Integer, mode: Mode)
    requires { length (integer_octets x.now) < 2 ^ 32 }
    ensures { IsTakenBackBy {X = E} SourceFailedOrNoMemory integer_tag (λ w z. AreInteger z w)
        NoInteger mode (⟦<Primitive<&'a Integer> as Values>⟧.means
        (record { tag = integer_tag; prim = x.entry }) mode) x.now }
{
    let _x = x;
    let _mode = mode;
}

/// An integer of any size that isn't negative is taken back by `Unsigned::take_from`.
pub fn an_unsigned_is_taken_back<'a, E>(x: &'a Unsigned, mode: Mode)
    requires { length (integer_octets (pos x.now)) < 2 ^ 32 }
    ensures { IsTakenBackBy {X = E} SourceFailedOrNoMemory integer_tag
        (λ w n. AreInteger (pos n) w) NoUnsigned mode
        (⟦<Primitive<&'a Unsigned> as Values>⟧.means
        (record { tag = integer_tag; prim = x.entry }) mode) x.now }
{
    let _x = x;
    let _mode = mode;
}

/// An object identifier whose octets end with a subidentifier is taken back by `Oid::take_from`.
pub fn an_identifier_is_taken_back<E>(x: &Oid<Bytes>, mode: Mode)
    requires complete { IsComplete x.now.0 }
    requires short { length x.now.0 < 2 ^ 32 }
    ensures { IsTakenBackBy {X = E} SourceFailedOrNoMemory identifier_tag
        (λ w oid. (oid.0 ≡ w) × IsComplete w) (AreNot IsComplete) mode
        (⟦<Primitive<Oid<Bytes>> as Values>⟧.means
        (record { tag = identifier_tag; prim = x.now }) mode) x.now }
{
    let slice = x.0.as_slice();
    let _slice = slice;
    let _mode = mode;
}

/// A bit string is taken back by `BitString::take_from`, and skipped by `BitString::skip_in`, with
/// unused bits as they are written: unchanged in BER, zero in CER and DER (X.690, 11.2.1). In CER
/// it has at most 999 octets (9.2).
pub fn a_bit_string_is_taken_back<E>(x: &BitString, mode: Mode)
    requires fits { fits_primitive mode (length x.now.octets + 1) ≡ true }
    requires short { length x.now.octets + 1 < 2 ^ 32 }
    ensures taken { IsTakenBackBy {X = E} SourceFailedOrNoMemory bit_string_tag
        (IsBitString mode) (NoBits mode) mode
        (⟦<Primitive<BitString> as Values>⟧.means
        (record { tag = bit_string_tag; prim = x.now }) mode) (as_written mode x.now) }
    ensures skipped { IsTakenBack {T = Unit {0}} E bit_string_tag (HoldBits mode) mode
        (⟦<Primitive<BitString> as Values>⟧.means
        (record { tag = bit_string_tag; prim = x.now }) mode) tt }
{
    x.see();
    let _mode = mode;
}

/// Octets that `BitString::encode_slice` writes are taken back in the same way.
pub fn a_slice_of_bits_is_taken_back<T: AsSlice<u8>, E>(value: &T, unused: u8, mode: Mode)
    requires bits { IsBits (record { unused = unused; octets = T.items value.now }) }
    requires fits { fits_primitive mode (length (T.items value.now) + 1) ≡ true }
    requires short { length (T.items value.now) + 1 < 2 ^ 32 }
    ensures { IsTakenBackBy {X = E} SourceFailedOrNoMemory bit_string_tag
        (IsBitString mode) (NoBits mode) mode
        (⟦<BitSliceEncoder<T> as Values>⟧.means
        (record { slice = value.now; unused = unused; tag = bit_string_tag }) mode)
        (as_written mode (record { unused = unused; octets = T.items value.now })) }
{
    let slice = value.as_slice();
    let _slice = slice;
    let _unused = unused;
    let _mode = mode;
}
