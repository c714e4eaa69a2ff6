//! INTEGER, as a number of any size (X.680, 19; X.690, 8.3).
ghost use Rattle.std.specs.Prelude.{ℕ, ℤ, pos, refl, true};
ghost use Rattle.bcder.specs.x690.Identifier.{integer_tag};
ghost use Rattle.bcder.specs.x690.Integer.{AreInteger};
ghost use Rattle.asn1.specs.Types.{IsLeaf, Only};
ghost use Rattle.asn1.specs.Tags.{integer_tagged, only_tagged};

use crate::{Decode, Part, Trace, Type};
use bcder::decode::{Constructed, DecodeError, Source};
use bcder::{Integer, Tag, Unsigned};
use std::alloc::Global;

/// INTEGER, whatever its size.
impl Type for Integer {
    ghost TAG = { integer_tag };

    #[inline(always)]
    fn tag() -> Tag {
        Tag::INTEGER
    }

    fn expect<P: Trace>(path: &mut P) {
        path.note(Part::Expected(Self::tag()));
    }

    ghost tags = { Only };

    ghost Key = { ℤ };

    ghost key = { λ x. x };

    ghost means = { λ _ t x. IsLeaf (λ w z. AreInteger z w) t x };

    fn values_are_one() {}

    ghost tagged = { refl };

    ghost value_tags = { only_tagged integer_tagged };
}

impl<S: Source> Decode<S> for Integer {
    ghost may_lack = { true };

    #[inline(always)]
    fn trace_opt_if<P: Trace>(
        alloc: Global,
        cons: &mut Constructed<'_, S>,
        tag: Tag,
        _path: &mut P,
    ) -> Result<Option<Integer>, DecodeError<S::Error>> {
        cons.take_opt_primitive_if(tag, |octets| Integer::from_primitive(alloc, octets))
    }
}

/// INTEGER of at least 0, whatever its size. A negative number is refused.
impl Type for Unsigned {
    ghost TAG = { integer_tag };

    #[inline(always)]
    fn tag() -> Tag {
        Tag::INTEGER
    }

    fn expect<P: Trace>(path: &mut P) {
        path.note(Part::Expected(Self::tag()));
    }

    ghost tags = { Only };

    ghost Key = { ℕ };

    ghost key = { λ x. x };

    ghost means = { λ _ t x. IsLeaf (λ w n. AreInteger (pos n) w) t x };

    fn values_are_one() {}

    ghost tagged = { refl };

    ghost value_tags = { only_tagged integer_tagged };
}

impl<S: Source> Decode<S> for Unsigned {
    ghost may_lack = { true };

    #[inline(always)]
    fn trace_opt_if<P: Trace>(
        alloc: Global,
        cons: &mut Constructed<'_, S>,
        tag: Tag,
        _path: &mut P,
    ) -> Result<Option<Unsigned>, DecodeError<S::Error>> {
        cons.take_opt_primitive_if(tag, |octets| Unsigned::from_primitive(alloc, octets))
    }
}
