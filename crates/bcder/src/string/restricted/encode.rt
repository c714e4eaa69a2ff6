//! Restricted strings as encoders (X.690, 8.23).
ghost use Rattle.std.specs.Prelude.{◌≡◌};

use super::{CharSet, RestrictedString};
use crate::string::octet::{OctetString, OctetStringEncoder};
use crate::tag::Tag;

impl<L: CharSet> RestrictedString<L> {
    /// Creates an encoder of the string with the tag of its set.
    pub fn encode(self) -> OctetStringEncoder<OctetString>
        ensures { result ≡ record { value = self; tag = L.TAG } }
    {
        self.encode_as(L::TAG)
    }

    /// Creates an encoder of the string with another tag.
    pub fn encode_as(self, tag: Tag) -> OctetStringEncoder<OctetString>
        ensures { result ≡ record { value = self; tag = tag } }
    {
        self.octets.encode_as(tag)
    }

    /// Creates an encoder of a reference to the string, with the tag of its set.
    pub fn encode_ref(&self) -> OctetStringEncoder<&OctetString>
        ensures value { result.value.now ≡ self.now }
        ensures tag { result.tag ≡ L.TAG }
    {
        self.encode_ref_as(L::TAG)
    }

    /// Creates an encoder of a reference to the string, with another tag.
    pub fn encode_ref_as(&self, tag: Tag) -> OctetStringEncoder<&OctetString>
        ensures value { result.value.now ≡ self.now }
        ensures tag { result.tag ≡ tag }
    {
        self.octets.encode_ref_as(tag)
    }
}
