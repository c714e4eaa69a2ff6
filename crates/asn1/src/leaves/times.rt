//! UTCTime (X.680, 47; X.690, 11.8) and GeneralizedTime (X.680, 46; X.690, 11.7).
ghost use Rattle.std.specs.Prelude.{refl};
ghost use Rattle.civil.specs.Time.{Time};
ghost use Rattle.asn1.specs.Times.{IsUtcContents, IsGeneralizedContents};
ghost use Rattle.asn1.specs.Times.{utc_time_tag, generalized_time_tag};
ghost use Rattle.asn1.specs.Times.{utc_time_tagged, generalized_time_tagged};
ghost use Rattle.asn1.specs.Types.{IsLeaf, Only};
ghost use Rattle.asn1.specs.Tags.{only_tagged};

use crate::leaf::take_contents_if;
use crate::{Decode, FromContents, Part, Trace, Type};
use bcder::decode::{Constructed, DecodeError, Source};
use bcder::{Mode, Tag};
use civil::laws::octets_tell_times_apart;
use civil::{GeneralizedTime, UtcTime};
use std::alloc::Global;

impl FromContents for UtcTime {
    ghost TAG = { utc_time_tag };

    fn tag() -> Tag {
        Tag::UTC_TIME
    }

    ghost Key = { Time };

    ghost key = { λ x. x };

    ghost means = { IsUtcContents };

    fn from_contents(_mode: Mode, octets: &[u8]) -> Option<UtcTime> {
        UtcTime::from_octets(octets)
    }

    fn contents_are_one() {
        octets_tell_times_apart();
    }

    ghost tagged = { utc_time_tagged };
}

/// UTCTime, which is primitive. Its octets are those of CER and DER in each mode.
impl Type for UtcTime {
    ghost TAG = { utc_time_tag };

    #[inline(always)]
    fn tag() -> Tag {
        Tag::UTC_TIME
    }

    fn expect<P: Trace>(path: &mut P) {
        path.note(Part::Expected(<UtcTime as Type>::tag()));
    }

    ghost tags = { Only };

    ghost Key = { Time };

    ghost key = { λ x. x };

    ghost means = { λ mode t x. IsLeaf (IsUtcContents mode) t x };

    fn values_are_one() {
        UtcTime::contents_are_one();
    }

    ghost tagged = { refl };

    ghost value_tags = { only_tagged utc_time_tagged };
}

impl<S: Source> Decode<S> for UtcTime {
    #[inline(always)]
    fn trace_opt_if<P: Trace>(
        _alloc: Global,
        cons: &mut Constructed<'_, S>,
        tag: Tag,
        _path: &mut P,
    ) -> Result<Option<UtcTime>, DecodeError<S::Error>> {
        take_contents_if(cons, tag)
    }
}

impl FromContents for GeneralizedTime {
    ghost TAG = { generalized_time_tag };

    fn tag() -> Tag {
        Tag::GENERALIZED_TIME
    }

    ghost Key = { Time };

    ghost key = { λ x. x };

    ghost means = { IsGeneralizedContents };

    fn from_contents(_mode: Mode, octets: &[u8]) -> Option<GeneralizedTime> {
        GeneralizedTime::from_octets(octets)
    }

    fn contents_are_one() {
        octets_tell_times_apart();
    }

    ghost tagged = { generalized_time_tagged };
}

/// GeneralizedTime, which is primitive. Its octets are those of CER and DER in each mode.
impl Type for GeneralizedTime {
    ghost TAG = { generalized_time_tag };

    #[inline(always)]
    fn tag() -> Tag {
        Tag::GENERALIZED_TIME
    }

    fn expect<P: Trace>(path: &mut P) {
        path.note(Part::Expected(<GeneralizedTime as Type>::tag()));
    }

    ghost tags = { Only };

    ghost Key = { Time };

    ghost key = { λ x. x };

    ghost means = { λ mode t x. IsLeaf (IsGeneralizedContents mode) t x };

    fn values_are_one() {
        GeneralizedTime::contents_are_one();
    }

    ghost tagged = { refl };

    ghost value_tags = { only_tagged generalized_time_tagged };
}

impl<S: Source> Decode<S> for GeneralizedTime {
    #[inline(always)]
    fn trace_opt_if<P: Trace>(
        _alloc: Global,
        cons: &mut Constructed<'_, S>,
        tag: Tag,
        _path: &mut P,
    ) -> Result<Option<GeneralizedTime>, DecodeError<S::Error>> {
        take_contents_if(cons, tag)
    }
}
