//! BOOLEAN (X.680, 18; X.690, 8.2, 11.1) and NULL (X.680, 24; X.690, 8.8).
ghost use Rattle.std.specs.Prelude.{⊤, Bool, refl};
ghost use Rattle.bcder.specs.calls.Readers.{IsTruth, IsNull};
ghost use Rattle.bcder.specs.x690.Identifier.{boolean_tag, null_tag};
ghost use Rattle.asn1.specs.Types.{IsLeaf, Only};
ghost use Rattle.asn1.specs.Tags.{boolean_tagged, null_tagged, only_tagged};

use crate::{Decode, Part, Trace, Type};
use bcder::Tag;
use bcder::decode::{Constructed, DecodeError, Source};
use std::alloc::Global;

/// BOOLEAN. In BER any octet but `00` is true. In CER and DER true is `FF` (X.690, 11.1).
impl Type for bool {
    ghost TAG = { boolean_tag };

    #[inline(always)]
    fn tag() -> Tag {
        Tag::BOOLEAN
    }

    fn expect<P: Trace>(path: &mut P) {
        path.note(Part::Expected(Self::tag()));
    }

    ghost tags = { Only };

    ghost Key = { Bool };

    ghost key = { λ x. x };

    ghost means = { λ mode t x. IsLeaf (IsTruth mode) t x };

    fn values_are_one() {}

    ghost tagged = { refl };

    ghost value_tags = { only_tagged boolean_tagged };
}

impl<S: Source> Decode<S> for bool {
    #[inline(always)]
    fn trace_opt_if<P: Trace>(
        _alloc: Global,
        cons: &mut Constructed<'_, S>,
        tag: Tag,
        _path: &mut P,
    ) -> Result<Option<bool>, DecodeError<S::Error>> {
        cons.take_opt_primitive_if(tag, |octets| octets.to_bool())
    }
}

/// NULL, which has no contents octets.
impl Type for () {
    ghost TAG = { null_tag };

    #[inline(always)]
    fn tag() -> Tag {
        Tag::NULL
    }

    fn expect<P: Trace>(path: &mut P) {
        path.note(Part::Expected(Self::tag()));
    }

    ghost tags = { Only };

    ghost Key = { ⊤ };

    ghost key = { λ _. tt };

    ghost means = { λ _ t x. IsLeaf IsNull t x };

    fn values_are_one() {}

    ghost tagged = { refl };

    ghost value_tags = { only_tagged null_tagged };
}

impl<S: Source> Decode<S> for () {
    #[inline(always)]
    fn trace_opt_if<P: Trace>(
        _alloc: Global,
        cons: &mut Constructed<'_, S>,
        tag: Tag,
        _path: &mut P,
    ) -> Result<Option<()>, DecodeError<S::Error>> {
        cons.take_opt_primitive_if(tag, |octets| octets.to_null())
    }
}
