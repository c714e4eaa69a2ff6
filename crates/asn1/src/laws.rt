//! Laws: what is written is taken back, and in CER and DER values are their encodings.
ghost use Rattle.std.specs.Prelude.{◌≡◌, ◌≢◌, Decides, Err, IfErr, IfOk, IsTrue, OnOk};
ghost use Rattle.bcder.specs.declared.encode.error.EncodeError.TheVariants.{NoMemory};
ghost use Rattle.bcder.specs.calls.Encoders.{HasEncoding};
ghost use Rattle.bcder.specs.declared.mode.Mode.TheVariants.{Ber};
ghost use Rattle.asn1.specs.Decoded.{IsDecodedBack};
ghost use Rattle.asn1.specs.Writing.{IsTakenBack};
ghost use Rattle.asn1.specs.Canonical.{AreSameWrittenAlike, HaveOneEncoding, IsWrittenAsRead};

use crate::writers::Encode;
use crate::{Clear, Decode, Type, decode, encode};
use bcder::decode::BytesSource;
use bcder::encode::EncodeError;
use bcder::{Captured, Mode, Tag};
use std::alloc::Global;

/// What is written of a value with a tag is taken back with it by
/// [`take_opt_if`](crate::Decode::take_opt_if), from any source, wherever it stands in front of
/// content in the mode. What follows is left. It fails only if the source fails, whose errors are
/// of type `E`, or if memory runs out.
pub fn what_is_written_is_taken_back<T: Encode, E>(x: &T, tag: Tag, mode: Mode)
    requires { T.is_clear x.now mode }
    ensures { IsTakenBack E (T.tags tag) (T.means mode) T.key mode (T.writes tag x.now mode) x.now }
{
    let _x = x;
    T::is_read_back(tag, mode);
}

/// In CER and DER: two values that are written alike are the same; each value has one encoding with
/// a tag; and what was read with a tag is written back with it, octet for octet. The last two are
/// said of types that keep all that is encoded.
pub fn values_are_their_encodings<T: Encode>(tag: Tag, mode: Mode)
    requires { mode ≢ Ber }
    ensures same { AreSameWrittenAlike T.key (λ x. T.is_clear x mode) (λ x. T.writes tag x mode) }
    ensures one { T.keeps_all → HaveOneEncoding mode (T.tags tag) (T.means mode) T.key }
    ensures back { T.keeps_all → IsWrittenAsRead mode (T.tags tag) (T.means mode)
        (λ x. T.is_clear x mode) (λ x. T.writes tag x mode) }
{
    T::values_are_one();
    T::is_read_back(tag, mode);
}

/// For a type with distinct tags, all of whose values are clear in the mode: what is written of a
/// value is taken back, as [`what_is_written_is_taken_back`] says.
///
/// The checker finds out by itself whether a type is one. For one that isn't, it says that
/// `IsTrue false` is not proved.
pub fn each_value_is_taken_back<T: Clear, E>(x: &T, tag: Tag, mode: Mode)
    requires distinct { IsTrue T.distinct }
    requires always { IsTrue (T.always_clear mode) }
    ensures { IsTakenBack E (T.tags tag) (T.means mode) T.key mode (T.writes tag x.now mode) x.now }
{
    let _clear = x.is_clear_in(mode);
    what_is_written_is_taken_back::<T, E>(x, tag, mode);
}

/// For a type with distinct tags, all of whose values are clear in the mode: what is encoded of a
/// value is decoded as the value, and as no other.
pub fn each_value_is_decoded<T: Clear>(x: &T, mode: Mode)
    requires distinct { IsTrue T.distinct }
    requires always { IsTrue (T.always_clear mode) }
    ensures { IsDecodedBack mode (T.tags T.TAG) (T.means mode) T.key
        (T.writes T.TAG x.now mode) x.now }
{
    let _clear = x.is_clear_in(mode);
    T::is_read_back(T::tag(), mode);
}

/// Returns whether a value of a type with distinct tags is clear. What is encoded of it is then
/// decoded as the value, and as no other.
pub fn is_decoded_back<T: Clear>(x: &T, mode: Mode) -> bool
    requires distinct { IsTrue T.distinct }
    ensures clear { Decides result (T.is_clear x.now mode) }
    ensures decoded { IsTrue result → IsDecodedBack mode (T.tags T.TAG) (T.means mode) T.key
        (T.writes T.TAG x.now mode) x.now }
{
    T::is_read_back(T::tag(), mode);
    x.is_clear_in(mode)
}

/// Encodes a value and decodes its encoding. It is the value again.
///
/// # Errors
///
/// Returns the error of [`encode`](crate::encode), or `NoMemory` if memory runs out.
pub fn round_trip<T: Clear + Decode<BytesSource>>(
    alloc: Global,
    mode: Mode,
    value: &T,
) -> Result<T, EncodeError>
    requires distinct { IsTrue T.distinct }
    requires always { IsTrue (T.always_clear mode) }
    ensures same { IfOk result (λ y. T.key y ≡ T.key value.now) }
    ensures written { OnOk result (HasEncoding (T.writes T.TAG value.now mode)) }
    ensures refused { IfErr result (λ e.
        e ≢ NoMemory → T.writes T.TAG value.now mode (Err e)) }
{
    each_value_is_decoded(value, mode);
    let captured = match encode(alloc, mode, value) {
        Ok(captured) => captured,
        Err(error) => return Err(error),
    };
    match decode::<T, Captured>(alloc, mode, captured) {
        Ok(same) => Ok(same),
        Err(_) => Err(EncodeError::NoMemory),
    }
}
