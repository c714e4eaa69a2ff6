//! RELATIVE-OID (X.680, 33; X.690, 8.20).
ghost use Rattle.std.specs.Prelude.{◌≡◌, ℕ, List, IfSome, MatchOption, refl, true};
ghost use Rattle.bcder.specs.calls.Meaning.{ExactlyOctets, ValueMeans, primitive_meaning};
ghost use Rattle.bcder.specs.calls.Views.{Moved};
ghost use Rattle.bcder.specs.laws.Meanings.{ExactlyOctets_lawful, primitive_lawful};
ghost use Rattle.asn1.specs.Markers.{only_fixed};
ghost use Rattle.asn1.specs.RelativeIdentifiers.{relative_tag, relative_tagged, IsRelative};
ghost use Rattle.asn1.specs.RelativeIdentifiers.{AreRelative};
ghost use Rattle.asn1.specs.Tags.{only_tagged};
ghost use Rattle.asn1.specs.TagSets.{one_tag, only_in};
ghost use Rattle.asn1.specs.Types.{IsLeaf, Only, TookNextTyped};

use crate::clear::{Clear, is_complete};
use crate::writers::Encode;
use crate::{Decode, FixedTag, Part, Trace, Type};
use bcder::decode::{Constructed, ContentError, DecodeError, Source};
use bcder::encode::{EncodeError, WriteError};
use bcder::{Mode, Oid, Tag};
use bytes::Bytes;
use std::alloc::Global;
use std::io;
use std::marker::Model;

/// A RELATIVE-OID: the end of an object identifier whose beginning is known (X.680, 33). It is
/// kept as its contents octets (X.690, 8.20).
///
/// There is at least one component. Each is in the fewest octets.
#[derive(Debug, Drop)]
pub struct RelativeOid {
    octets: Oid<Bytes>,
}

/// In clauses it is its contents octets.
impl Model for RelativeOid {
    ghost use Rattle.std.specs.Prelude.{ℕ, List};
    ghost use Rattle.asn1.specs.RelativeIdentifiers.{IsRelative};

    ghost Value = { List ℕ };

    ghost view = { λ x. x.octets.0 };

    ghost invariant = { λ x. IsRelative x.octets.0 };
}

impl RelativeOid {
    /// Creates the identifier with these contents octets, or returns `None` if they are those of
    /// none. The octets are then dropped.
    pub fn new(octets: Bytes) -> Option<RelativeOid>
        ensures { MatchOption result (IsRelative octets → ⊥)
            (λ x. (x ≡ octets) × IsRelative octets) }
    {
        let octets = Oid(octets);
        if is_complete(octets.0.as_slice()) && octets.is_minimal() {
            Some(RelativeOid { octets })
        } else {
            None
        }
    }

    /// Returns the contents octets.
    pub fn as_slice(&self) -> &[u8]
        ensures octets { result.now ≡ self.now }
        ensures relative { IsRelative self.now }
    {
        self.octets.0.as_slice()
    }
}

impl Type for RelativeOid {
    ghost TAG = { relative_tag };

    #[inline(always)]
    fn tag() -> Tag {
        Tag::RELATIVE_OID
    }

    fn expect<P: Trace>(path: &mut P) {
        path.note(Part::Expected(Self::tag()));
    }

    ghost tags = { Only };

    ghost Key = { List ℕ };

    ghost key = { λ x. x };

    ghost means = { λ _ t x. IsLeaf AreRelative t x };

    fn values_are_one() {}

    ghost tagged = { refl };

    ghost value_tags = { only_tagged relative_tagged };
}

impl FixedTag for RelativeOid {
    ghost fixed = { only_fixed };
}

impl<S: Source> Decode<S> for RelativeOid {
    ghost may_lack = { true };

    #[inline(always)]
    fn trace_opt_if<P: Trace>(
        alloc: Global,
        cons: &mut Constructed<'_, S>,
        tag: Tag,
        path: &mut P,
    ) -> Result<Option<RelativeOid>, DecodeError<S::Error>> {
        let padded = cons.next_err(ContentError::from_static("subidentifier begins with 80"));
        match <Oid<Bytes>>::trace_opt_if(alloc, cons, tag, path) {
            Ok(Some(oid)) => match RelativeOid::new(oid.0) {
                Some(relative) => Ok(Some(relative)),
                None => {
                    cons.fail();
                    Err(padded)
                }
            },
            Ok(None) => Ok(None),
            Err(error) => Err(error),
        }
    }
}

/// Its contents octets.
impl Encode for RelativeOid {
    ghost writes = { λ tag x _. ValueMeans tag (primitive_meaning tag) (ExactlyOctets x) };

    ghost is_clear = { λ x _. IsRelative x };

    fn encoded_len_as(&self, tag: Tag, mode: Mode) -> Result<usize, EncodeError> {
        self.octets.encoded_len_as(tag, mode)
    }

    fn write_encoded_as<W: io::Write>(
        &self,
        tag: Tag,
        mode: Mode,
        target: &mut W,
    ) -> Result<(), WriteError> {
        self.octets.write_encoded_as(tag, mode, target)
    }

    fn is_read_back(_tag: Tag, _mode: Mode) {
        let _known = (_tag, _mode);
    }

    ghost lawful = { λ tag x mode. primitive_lawful tag mode (ExactlyOctets_lawful x) };
}

/// It is read back.
impl Clear for RelativeOid {
    ghost tag_set = { one_tag relative_tag };

    fn is_clear_in(&self, _mode: Mode) -> bool {
        let _octets = self.as_slice();
        true
    }

    ghost in_set = { only_in };
}
