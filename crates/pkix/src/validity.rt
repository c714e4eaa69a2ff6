//! When a certificate is valid.
ghost use Rattle.std.specs.Prelude.{false, refl};
ghost use Rattle.asn1.specs.declared.choice.Choice2.TheVariants.{One, Two};

use asn1::{
    ByRef, Choice2, Decode, DecodeParts, Encode, EncodeParts, GeneralizedTime, Parts, Sequence,
    SequenceTag, Trace, Type, UseParts, UtcTime,
};
use bcder::decode::{Constructed, DecodeError, Source};
use bcder::{Mode, Tag};
use std::alloc::Global;

/// When a certificate is valid (RFC 5280, section 4.1.2.5).
///
///     Validity ::= SEQUENCE {
///         notBefore  Time,
///         notAfter   Time }
#[derive(Debug, Drop)]
pub struct Validity {
    /// From when on.
    pub not_before: Time,

    /// Until when.
    pub not_after: Time,
}

/// What defines [`Validity`].
type ValidityParts = Sequence<(Time, Time)>;

impl Parts for Validity {
    type As = ValidityParts;

    type Tags = SequenceTag;

    const NAME: &'static str = "Validity";

    const PARTS: &'static [&'static str] = &["not_before", "not_after"];

    ghost parts = { λ x. (x.not_before, x.not_after) };

    ghost typed = { ⟦<ValidityParts as Type>⟧ };

    fn from_parts(value: ValidityParts) -> Validity {
        let Sequence((not_before, not_after)) = value;
        Validity {
            not_before,
            not_after,
        }
    }

    fn parts_are_one() {
        <ValidityParts>::values_are_one();
    }
}

impl<S: Source> DecodeParts<S> for Validity {
    ghost may_lack = { false };

    fn trace_parts<P: Trace>(
        alloc: Global,
        cons: &mut Constructed<'_, S>,
        tag: Tag,
        path: &mut P,
    ) -> Result<Option<ValidityParts>, DecodeError<S::Error>> {
        <ValidityParts>::trace_opt_if(alloc, cons, tag, path)
    }
}

impl EncodeParts for Validity {
    ghost written = { ⟦<ValidityParts as Encode>⟧ };

    fn give_parts<T, U: UseParts<T>>(&self, tag: Tag, to: U, target: &mut T) -> U::Out {
        to.use_parts(
            &Sequence((ByRef(&self.not_before), ByRef(&self.not_after))),
            tag,
            target,
        )
    }

    fn are_read_back(tag: Tag, mode: Mode) {
        <ValidityParts>::is_read_back(tag, mode);
    }

    ghost made = { λ v. (record { not_before = v.0; not_after = v.1 }, refl) };
}

/// A time, in one of two notations.
///
///     Time ::= CHOICE {
///         utcTime      UTCTime,
///         generalTime  GeneralizedTime }
///
/// Certificates have a UTCTime up to the year 2049, and a GeneralizedTime from 2050 on. Either is
/// read for any year.
#[derive(Clone, Copy, Debug, PartialEq, Eq, Drop)]
pub enum Time {
    /// With two digits for the year.
    UtcTime(UtcTime),
    /// With four digits for the year.
    GeneralTime(GeneralizedTime),
}

ghost use Rattle.pkix.specs.declared.validity.Time.TheVariants.{UtcTime, GeneralTime};

/// What defines [`Time`].
type TimeParts = Choice2<UtcTime, GeneralizedTime>;

impl Parts for Time {
    type As = TimeParts;

    type Tags = TimeParts;

    const NAME: &'static str = "Time";

    const PARTS: &'static [&'static str] = &["utc_time", "general_time"];

    ghost parts = { elim [ UtcTime t ↦ One t | GeneralTime t ↦ Two t ] };

    ghost typed = { ⟦<TimeParts as Type>⟧ };

    fn from_parts(value: TimeParts) -> Time {
        match value {
            Choice2::One(time) => Time::UtcTime(time),
            Choice2::Two(time) => Time::GeneralTime(time),
        }
    }

    fn parts_are_one() {
        <TimeParts>::values_are_one();
    }
}

impl<S: Source> DecodeParts<S> for Time {
    ghost may_lack = { false };

    fn trace_parts<P: Trace>(
        alloc: Global,
        cons: &mut Constructed<'_, S>,
        tag: Tag,
        path: &mut P,
    ) -> Result<Option<TimeParts>, DecodeError<S::Error>> {
        <TimeParts>::trace_opt_if(alloc, cons, tag, path)
    }
}

impl EncodeParts for Time {
    ghost written = { ⟦<TimeParts as Encode>⟧ };

    fn give_parts<T, U: UseParts<T>>(&self, _tag: Tag, to: U, target: &mut T) -> U::Out {
        match self {
            Time::UtcTime(time) => to.use_alternative(time, target),
            Time::GeneralTime(time) => to.use_alternative(time, target),
        }
    }

    fn are_read_back(tag: Tag, mode: Mode) {
        <TimeParts>::is_read_back(tag, mode);
    }

    ghost made = { elim [ One t ↦ (UtcTime t, refl) | Two t ↦ (GeneralTime t, refl) ] };
}
