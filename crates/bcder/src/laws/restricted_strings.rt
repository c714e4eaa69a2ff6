//! What is written of a restricted string is read back, and what is read is written back (X.690,
//! 8.23, 9.2, 10.2).
ghost use Rattle.bcder.specs.calls.Meaning.{Encoded};
ghost use Rattle.bcder.specs.calls.StringOctets.{octets_of};
ghost use Rattle.bcder.specs.calls.Written.{WritesString, WritesShort, IsWrittenString};
ghost use Rattle.bcder.specs.calls.Written.{contents_count};
ghost use Rattle.bcder.specs.calls.Written.{IsTakenRestricted, WrittenAsReadOf};
ghost use Rattle.bcder.specs.calls.Written.{OneRestricted};

use crate::encode::Values;
use crate::mode::Mode;
use crate::string::octet::encode::see_string;
use crate::string::{CharSet, OctetString, OctetStringEncoder, RestrictedString};
use crate::tag::Tag;

/// What the encoders of a string of a set write is one string in the mode, with the octets of the
/// string. Something is written of each string with fewer than 2^32 contents octets, with any tag
/// but that of end-of-contents octets.
///
/// It is taken back, as an equal string, by the set's `take_from` and `take_opt_from`, and by all
/// that read like these, unless the source fails, whose errors are of type `E`, or memory runs out.
pub fn a_string_is_taken_back<'a, L: CharSet, E>(
    string: &'a RestrictedString<L>,
    tag: Tag,
    mode: Mode,
)
    ensures owned { WritesString tag mode (octets_of string.now)
        (⟦<OctetStringEncoder<OctetString> as Values>⟧.means
        (record { value = string.now; tag = tag }) mode) }
    ensures borrowed { WritesString tag mode (octets_of string.now)
        (⟦<OctetStringEncoder<&'a OctetString> as Values>⟧.means
        (record { value = string.entry; tag = tag }) mode) }
    ensures owned_written { WritesShort tag (contents_count mode string.now)
        (⟦<OctetStringEncoder<OctetString> as Values>⟧.means
        (record { value = string.now; tag = tag }) mode) }
    ensures borrowed_written { WritesShort tag (contents_count mode string.now)
        (⟦<OctetStringEncoder<&'a OctetString> as Values>⟧.means
        (record { value = string.entry; tag = tag }) mode) }
    ensures taken { (e : Encoded) → IsWrittenString tag mode (octets_of string.now) e
        → IsTakenRestricted E L.step tag mode (octets_of string.now) e }
{
    see_string(string.octet_string());
    let _tag = tag;
    let _mode = mode;
}

/// In CER and DER two strings of a set with the same tag and the same octets are the same value,
/// and have the same encoding (9.2, 10.2).
pub fn equal_strings_are_equal_octets<L: CharSet>()
    ensures { OneRestricted L.step }
{}

/// In CER and DER a string of a set is written as it was read, if it is written with the tag that
/// it was read with (9.2, 10.2). If it was read from fewer than 2^64 octets, header included, it
/// has an encoding, which is these octets. In any case it has no other encoding.
pub fn what_is_read_is_written_back<'a, L: CharSet>(string: &'a RestrictedString<L>)
    ensures owned { WrittenAsReadOf L.step string.now
        (λ tag. ⟦<OctetStringEncoder<OctetString> as Values>⟧.means
        (record { value = string.now; tag = tag })) }
    ensures borrowed { WrittenAsReadOf L.step string.now
        (λ tag. ⟦<OctetStringEncoder<&'a OctetString> as Values>⟧.means
        (record { value = string.entry; tag = tag })) }
{
    let _string = string;
}
