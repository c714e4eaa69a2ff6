//! BIT STRING (X.680, 22; X.690, 8.6, 9.2, 11.2.1).
ghost use Rattle.std.specs.Prelude.{refl, true};
ghost use Rattle.bcder.specs.x690.BitString.{bit_string_tag, Bits, IsBitString};
ghost use Rattle.asn1.specs.Types.{IsLeaf, Only};
ghost use Rattle.asn1.specs.Tags.{bit_string_tagged, only_tagged};

use crate::{Decode, Part, Trace, Type};
use bcder::decode::{Constructed, DecodeError, Source};
use bcder::{BitString, Tag};
use std::alloc::Global;

/// A primitive BIT STRING (X.690, 8.6.2). Two are the same if their octets and their numbers of
/// unused bits are.
impl Type for BitString {
    ghost TAG = { bit_string_tag };

    #[inline(always)]
    fn tag() -> Tag {
        Tag::BIT_STRING
    }

    fn expect<P: Trace>(path: &mut P) {
        path.note(Part::Expected(Self::tag()));
    }

    ghost tags = { Only };

    ghost Key = { Bits };

    ghost key = { λ x. x };

    ghost means = { λ mode t x. IsLeaf (IsBitString mode) t x };

    fn values_are_one() {}

    ghost tagged = { refl };

    ghost value_tags = { only_tagged bit_string_tagged };
}

impl<S: Source> Decode<S> for BitString {
    ghost may_lack = { true };

    #[inline(always)]
    fn trace_opt_if<P: Trace>(
        alloc: Global,
        cons: &mut Constructed<'_, S>,
        tag: Tag,
        _path: &mut P,
    ) -> Result<Option<BitString>, DecodeError<S::Error>> {
        cons.take_opt_value_if(tag, |content| BitString::from_content(alloc, content))
    }
}
