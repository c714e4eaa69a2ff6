//! What is written of an octet string is an octet string: each value that its encoders mean is an
//! octet string in the mode, and holds the octets (X.690, 8.7, 9.2, 10.2).
ghost use Rattle.std.specs.Prelude.{ℕ, ◌^◌, ◌<◌, List, length, Ok};
ghost use Rattle.bcder.specs.declared.mode.Mode.{Mode};
ghost use Rattle.bcder.specs.x690.Identifier.{Tag};
ghost use Rattle.bcder.specs.calls.Meaning.{Encoded};
ghost use Rattle.bcder.specs.calls.StringOctets.{StringOctets, octets_of};
ghost use Rattle.bcder.specs.x690.OctetString.{octet_string_tag};
ghost use Rattle.bcder.specs.calls.Encoders.{HasEncoding};
ghost use Rattle.bcder.specs.calls.Written.{WritesString, WritesShort, WritesAlike};
ghost use Rattle.bcder.specs.calls.Written.{contents_count};
ghost use Rattle.bcder.specs.calls.Written.{WrittenAsRead};
ghost use Rattle.bcder.specs.calls.Written.{IsWrittenString, IsTakenString};

use crate::encode::Values;
use crate::mode::Mode;
use crate::string::octet::encode::see_string;
use crate::string::{
    OctetSliceEncoder, OctetString, OctetStringEncoder, WrappingOctetStringEncoder,
};
use crate::tag::Tag;
use std::convert::AsSlice;

/// What is written of an octet string is one octet string in the mode, with the tag that was asked
/// for and the octets of the string. Something is written of each string with fewer than 2^32
/// contents octets, with any tag but that of end-of-contents octets.
pub fn a_string_is_written_as_one<'a>(string: &'a OctetString, tag: Tag, mode: Mode)
    ensures owned { WritesString tag mode (octets_of string.now)
        (⟦<OctetStringEncoder<OctetString> as Values>⟧.means
        (record { value = string.now; tag = tag }) mode) }
    ensures borrowed { WritesString tag mode (octets_of string.now)
        (⟦<OctetStringEncoder<&'a OctetString> as Values>⟧.means
        (record { value = string.entry; tag = tag }) mode) }
    ensures owned_written { WritesShort tag (contents_count mode string.now)
        (⟦<OctetStringEncoder<OctetString> as Values>⟧.means
        (record { value = string.now; tag = tag }) mode) }
    ensures borrowed_written { WritesShort tag (contents_count mode string.now)
        (⟦<OctetStringEncoder<&'a OctetString> as Values>⟧.means
        (record { value = string.entry; tag = tag }) mode) }
{
    see_string(string);
    let _tag = tag;
    let _mode = mode;
}

/// In CER and DER strings with the same octets are written alike, however they were cut.
pub fn equal_strings_are_written_alike()
    ensures { (t : Tag) (mode : Mode) (r s : StringOctets) → WritesAlike t mode r s }
{}

/// What is written of the octets of a slice is one octet string in the mode, with the tag of the
/// encoder and these octets. Something is written of fewer than 2^32 octets, with any tag but that
/// of end-of-contents octets.
pub fn a_slice_is_written_as_one<T: AsSlice<u8>>(encoder: &OctetSliceEncoder<T>, mode: Mode)
    ensures one { WritesString encoder.now.tag mode (T.items encoder.now.slice)
        (⟦<OctetSliceEncoder<T> as Values>⟧.means encoder.now mode) }
    ensures written { WritesShort encoder.now.tag (length (T.items encoder.now.slice))
        (⟦<OctetSliceEncoder<T> as Values>⟧.means encoder.now mode) }
{
    encoder.see();
    let _mode = mode;
}

/// What is written of wrapped values is one OCTET STRING in the mode. Its octets are what is
/// written of the values in their own mode.
pub fn wrapped_values_are_written_as_one<V: Values>(
    encoder: &WrappingOctetStringEncoder<V>,
    mode: Mode,
)
    requires { V.can_encode encoder.now.values }
    ensures one { (inner : Encoded) → V.means encoder.now.values encoder.now.mode (Ok inner)
        → WritesString octet_string_tag mode inner.octets
        (⟦<WrappingOctetStringEncoder<V> as Values>⟧.means encoder.now mode) }
    ensures written { (inner : Encoded) → V.means encoder.now.values encoder.now.mode (Ok inner)
        → length inner.octets < 2 ^ 32
        → HasEncoding (⟦<WrappingOctetStringEncoder<V> as Values>⟧.means encoder.now mode) }
{
    let _encoder = encoder;
    let _mode = mode;
}

/// What is written of a string is taken back by `OctetString::take_from` and `take_opt_from`, and
/// by all that read like these, as a string with its octets, unless the source fails, whose errors
/// are of type `E`, or memory runs out.
pub fn written_strings_are_taken_back<E>()
    ensures { (t : Tag) (mode : Mode) (w : List ℕ) (e : Encoded)
        → IsWrittenString t mode w e → IsTakenString E t mode w e }
{}

/// In CER and DER an octet string is written as it was read, if it is written with the tag that it
/// was read with (9.2, 10.2). If it was read from fewer than 2^64 octets, header included, it has
/// an encoding, which is these octets. In any case it has no other encoding.
pub fn what_is_read_is_written_back<'a>(string: &'a OctetString)
    ensures owned { WrittenAsRead string.now
        (λ tag. ⟦<OctetStringEncoder<OctetString> as Values>⟧.means
        (record { value = string.now; tag = tag })) }
    ensures borrowed { WrittenAsRead string.now
        (λ tag. ⟦<OctetStringEncoder<&'a OctetString> as Values>⟧.means
        (record { value = string.entry; tag = tag })) }
{
    let _string = string;
}
