//! REAL (X.680, 21; X.690, 8.5 and 11.3).
ghost use Rattle.std.specs.Prelude.{refl};
ghost use Rattle.asn1.specs.Markers.{only_fixed};
ghost use Rattle.asn1.specs.Reals.{IsRealContents, real_tag, real_tagged};
ghost use Rattle.asn1.specs.Tags.{only_tagged};
ghost use Rattle.asn1.specs.Types.{IsLeaf, Only};
ghost use Rattle.real.specs.declared.value.Real.{Real as RealValue};

use crate::leaf::take_contents_if;
use crate::{Decode, FixedTag, FromContents, Part, Trace, Type};
use bcder::decode::{Constructed, DecodeError, Source};
use bcder::{Mode, Tag};
use real::laws::contents_are_one;
use real::{Real, read};
use std::alloc::Global;

impl FromContents for Real {
    ghost TAG = { real_tag };

    fn tag() -> Tag {
        Tag::REAL
    }

    ghost Key = { RealValue };

    ghost key = { λ x. x };

    ghost means = { IsRealContents };

    fn from_contents(mode: Mode, octets: &[u8]) -> Option<Real> {
        match mode {
            Mode::Ber => read(octets, false),
            Mode::Cer => read(octets, true),
            Mode::Der => read(octets, true),
        }
    }

    fn contents_are_one() {
        contents_are_one();
    }

    ghost tagged = { real_tagged };
}

/// REAL, which is primitive. CER and DER have one form of each value (X.690, 11.3).
impl Type for Real {
    ghost TAG = { real_tag };

    #[inline(always)]
    fn tag() -> Tag {
        Tag::REAL
    }

    fn expect<P: Trace>(path: &mut P) {
        path.note(Part::Expected(<Real as Type>::tag()));
    }

    ghost tags = { Only };

    ghost Key = { RealValue };

    ghost key = { λ x. x };

    ghost means = { λ mode t x. IsLeaf (IsRealContents mode) t x };

    fn values_are_one() {
        Real::contents_are_one();
    }

    ghost tagged = { refl };

    ghost value_tags = { only_tagged real_tagged };
}

impl FixedTag for Real {
    ghost fixed = { only_fixed };
}

impl<S: Source> Decode<S> for Real {
    #[inline(always)]
    fn trace_opt_if<P: Trace>(
        _alloc: Global,
        cons: &mut Constructed<'_, S>,
        tag: Tag,
        _path: &mut P,
    ) -> Result<Option<Real>, DecodeError<S::Error>> {
        take_contents_if(cons, tag)
    }
}
