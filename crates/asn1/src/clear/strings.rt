//! OCTET STRING and restricted character strings (X.690, 8.7, 8.23).
ghost use Rattle.bcder.specs.x690.OctetString.{octet_string_tag};
ghost use Rattle.asn1.specs.Strings.{IsWrittenAsString};
ghost use Rattle.asn1.specs.TagSets.{one_tag, only_in};

use crate::TaggedCharSet;
use crate::clear::Clear;
use bcder::laws::written_strings::a_string_is_written_as_one;
use bcder::string::RestrictedString;
use bcder::{Mode, OctetString, Tag};

/// What is written of a string, whatever the tag, is a string with its octets.
fn see_string(string: &OctetString, mode: Mode)
    ensures { IsWrittenAsString mode string.now }
{
    a_string_is_written_as_one(string, Tag::OCTET_STRING, mode);
}

/// It is read back as a string with the same octets, also if it was cut into segments.
impl Clear for OctetString {
    ghost tag_set = { one_tag octet_string_tag };

    fn is_clear_in(&self, mode: Mode) -> bool {
        see_string(self, mode);
        true
    }

    ghost in_set = { only_in };
}

/// It is read back as an [`OctetString`] is.
impl<L: TaggedCharSet> Clear for RestrictedString<L> {
    ghost tag_set = { one_tag L.TAG };

    fn is_clear_in(&self, mode: Mode) -> bool {
        see_string(self.octet_string(), mode);
        true
    }

    ghost in_set = { only_in };
}
