//! OBJECT IDENTIFIER, as a type that owns its octets (X.680, 32; X.690, 8.19).
ghost use Rattle.std.specs.Prelude.{◌≡◌, ℕ, List, refl, true};
ghost use Rattle.bcder.specs.calls.Meaning.{ExactlyOctets, ValueMeans, primitive_meaning};
ghost use Rattle.bcder.specs.laws.Meanings.{ExactlyOctets_lawful, primitive_lawful};
ghost use Rattle.bcder.specs.x690.ObjectIdentifier.{identifier_tag, IsComplete};
ghost use Rattle.asn1.specs.Types.{IsLeaf, Only};
ghost use Rattle.asn1.specs.Tags.{identifier_tagged, only_tagged};
ghost use Rattle.asn1.specs.Markers.{only_fixed};

use crate::writers::Encode;
use crate::{Decode, FixedTag, Part, Trace, Type};
use bcder::decode::{Constructed, DecodeError, Source};
use bcder::encode::{EncodeError, WriteError};
use bcder::{Mode, Oid, Tag};
use bytes::Bytes;
use std::alloc::Global;
use std::io;
use std::marker::Model;

/// An OBJECT IDENTIFIER (X.680, 32; X.690, 8.19).
///
/// It is read and written as `Oid<Bytes>` is. It is a type of its own since the checker can't
/// state types defined by others that are defined by a `Bytes`.
#[derive(Debug, Drop)]
pub struct ObjectIdentifier(pub Oid<Bytes>);

/// In clauses it is the `Oid`.
impl Model for ObjectIdentifier {
    ghost use Rattle.std.specs.Prelude.{ℕ, List};
    ghost use Rattle.bcder.specs.declared.oid.Oid.{Oid};

    ghost Value = { Oid (List ℕ) };

    ghost view = { λ x. x.0 };

    ghost inverse = { λ v. record { 0 = v } };
}

impl Type for ObjectIdentifier {
    ghost TAG = { identifier_tag };

    #[inline(always)]
    fn tag() -> Tag {
        Tag::OID
    }

    fn expect<P: Trace>(path: &mut P) {
        path.note(Part::Expected(Self::tag()));
    }

    ghost tags = { Only };

    ghost Key = { List ℕ };

    ghost key = { λ x. x.0 };

    ghost means = { λ _ t x. IsLeaf (λ w y. (y.0 ≡ w) × IsComplete w) t x };

    fn values_are_one() {
        <Oid<Bytes>>::values_are_one();
    }

    ghost tagged = { refl };

    ghost value_tags = { only_tagged identifier_tagged };
}

impl FixedTag for ObjectIdentifier {
    ghost fixed = { only_fixed };
}

impl<S: Source> Decode<S> for ObjectIdentifier {
    ghost may_lack = { true };

    #[inline(always)]
    fn trace_opt_if<P: Trace>(
        alloc: Global,
        cons: &mut Constructed<'_, S>,
        tag: Tag,
        path: &mut P,
    ) -> Result<Option<ObjectIdentifier>, DecodeError<S::Error>> {
        match <Oid<Bytes>>::trace_opt_if(alloc, cons, tag, path) {
            Ok(Some(oid)) => Ok(Some(ObjectIdentifier(oid))),
            Ok(None) => Ok(None),
            Err(error) => Err(error),
        }
    }
}

/// The octets that it holds. It is read back if they end with a subidentifier.
impl Encode for ObjectIdentifier {
    ghost writes = { λ tag x _. ValueMeans tag (primitive_meaning tag) (ExactlyOctets x.0) };

    ghost is_clear = { λ x _. IsComplete x.0 };

    fn encoded_len_as(&self, tag: Tag, mode: Mode) -> Result<usize, EncodeError> {
        self.0.encoded_len_as(tag, mode)
    }

    fn write_encoded_as<W: io::Write>(
        &self,
        tag: Tag,
        mode: Mode,
        target: &mut W,
    ) -> Result<(), WriteError> {
        self.0.write_encoded_as(tag, mode, target)
    }

    fn is_read_back(tag: Tag, mode: Mode) {
        <Oid<Bytes>>::is_read_back(tag, mode);
    }

    ghost lawful = { λ tag x mode. primitive_lawful tag mode (ExactlyOctets_lawful x.0) };
}
