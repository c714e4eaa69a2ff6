//! OBJECT IDENTIFIER (X.680, 32; X.690, 8.19).
ghost use Rattle.std.specs.Prelude.{◌≡◌, ℕ, List, refl, true};
ghost use Rattle.bcder.specs.x690.ObjectIdentifier.{identifier_tag, IsComplete};
ghost use Rattle.asn1.specs.Types.{IsLeaf, Only};
ghost use Rattle.asn1.specs.Tags.{identifier_tagged, only_tagged};

use crate::{Decode, Part, Trace, Type};
use bcder::decode::{Constructed, DecodeError, Source};
use bcder::{Oid, Tag};
use bytes::Bytes;
use std::alloc::Global;
use std::convert::AsSlice;

/// OBJECT IDENTIFIER. Two are the same if their contents octets are.
impl<T: AsSlice<u8> + Drop> Type for Oid<T> {
    ghost TAG = { identifier_tag };

    #[inline(always)]
    fn tag() -> Tag {
        Tag::OID
    }

    fn expect<P: Trace>(path: &mut P) {
        path.note(Part::Expected(Self::tag()));
    }

    ghost tags = { Only };

    ghost Key = { List ℕ };

    ghost key = { λ x. T.items x.0 };

    ghost means = { λ _ t x. IsLeaf (λ w y. (T.items y.0 ≡ w) × IsComplete w) t x };

    fn values_are_one() {}

    ghost tagged = { refl };

    ghost value_tags = { only_tagged identifier_tagged };
}

impl<S: Source> Decode<S> for Oid<Bytes> {
    ghost may_lack = { true };

    #[inline(always)]
    fn trace_opt_if<P: Trace>(
        alloc: Global,
        cons: &mut Constructed<'_, S>,
        tag: Tag,
        _path: &mut P,
    ) -> Result<Option<Oid<Bytes>>, DecodeError<S::Error>> {
        cons.take_opt_primitive_if(tag, |octets| Oid::from_primitive(alloc, octets))
    }
}
