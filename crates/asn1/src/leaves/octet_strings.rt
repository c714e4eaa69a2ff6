//! OCTET STRING (X.680, 23; X.690, 8.7, 9.2, 10.2).
ghost use Rattle.std.specs.Prelude.{ℕ, List, refl, true};
ghost use Rattle.bcder.specs.calls.StringOctets.{MeansString, octets_of};
ghost use Rattle.bcder.specs.x690.OctetString.{octet_string_tag};
ghost use Rattle.asn1.specs.Types.{Only};
ghost use Rattle.asn1.specs.Tags.{octet_string_tagged, only_tagged};

use crate::{Decode, Part, Trace, Type};
use bcder::decode::{Constructed, DecodeError, Source};
use bcder::{OctetString, Tag};
use std::alloc::Global;

/// OCTET STRING, in one piece or cut into segments. Two are the same if their octets are, however
/// they were cut.
impl Type for OctetString {
    ghost TAG = { octet_string_tag };

    #[inline(always)]
    fn tag() -> Tag {
        Tag::OCTET_STRING
    }

    fn expect<P: Trace>(path: &mut P) {
        path.note(Part::Expected(Self::tag()));
    }

    ghost tags = { Only };

    ghost Key = { List ℕ };

    ghost key = { octets_of };

    ghost means = { MeansString };

    fn values_are_one() {}

    ghost tagged = { refl };

    ghost value_tags = { only_tagged octet_string_tagged };
}

impl<S: Source> Decode<S> for OctetString {
    ghost may_lack = { true };

    #[inline(always)]
    fn trace_opt_if<P: Trace>(
        alloc: Global,
        cons: &mut Constructed<'_, S>,
        tag: Tag,
        _path: &mut P,
    ) -> Result<Option<OctetString>, DecodeError<S::Error>> {
        OctetString::take_opt_if(alloc, cons, tag)
    }
}
