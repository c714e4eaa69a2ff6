//! Responses to requests for time stamps (RFC 3161, section 2.4.2).
ghost use Rattle.std.specs.Prelude.{refl};

use asn1::{
    ByRef, Decode, DecodeParts, Encode, EncodeParts, NamedBits, Parts, Sequence, SequenceOf,
    SequenceTag, Trace, Type, UseParts,
};
use bcder::decode::{Constructed, DecodeError, Source};
use bcder::{Mode, Tag};
use cms::ContentInfo;
use general_names::Utf8Text;
use std::alloc::Global;

/// A response to a request for a time stamp (RFC 3161, section 2.4.2).
///
///     TimeStampResp ::= SEQUENCE {
///         status          PKIStatusInfo,
///         timeStampToken  TimeStampToken OPTIONAL }
///
///     TimeStampToken ::= ContentInfo
#[derive(Debug, Drop)]
pub struct TimeStampResp {
    /// Whether there is one.
    pub status: PkiStatusInfo,

    /// The time stamp: a [`TstInfo`](crate::TstInfo) in a [`SignedData`](cms::SignedData).
    pub time_stamp_token: Option<ContentInfo>,
}

/// What defines [`TimeStampResp`].
type TimeStampRespParts = Sequence<(PkiStatusInfo, Option<ContentInfo>)>;

impl Parts for TimeStampResp {
    type As = TimeStampRespParts;

    type Tags = SequenceTag;

    const NAME: &'static str = "TimeStampResp";

    const PARTS: &'static [&'static str] = &["status", "time_stamp_token"];

    ghost parts = { λ x. (x.status, x.time_stamp_token) };

    ghost typed = { ⟦<TimeStampRespParts as Type>⟧ };

    fn from_parts(value: TimeStampRespParts) -> TimeStampResp {
        let Sequence((status, time_stamp_token)) = value;
        TimeStampResp {
            status,
            time_stamp_token,
        }
    }

    fn parts_are_one() {
        <TimeStampRespParts>::values_are_one();
    }
}

impl<S: Source> DecodeParts<S> for TimeStampResp {
    fn trace_parts<P: Trace>(
        alloc: Global,
        cons: &mut Constructed<'_, S>,
        tag: Tag,
        path: &mut P,
    ) -> Result<Option<TimeStampRespParts>, DecodeError<S::Error>> {
        <TimeStampRespParts>::trace_opt_if(alloc, cons, tag, path)
    }
}

impl EncodeParts for TimeStampResp {
    ghost written = { ⟦<TimeStampRespParts as Encode>⟧ };

    fn give_parts<T, U: UseParts<T>>(&self, tag: Tag, to: U, target: &mut T) -> U::Out {
        to.use_parts(
            &Sequence((ByRef(&self.status), ByRef(&self.time_stamp_token))),
            tag,
            target,
        )
    }

    fn are_read_back(tag: Tag, mode: Mode) {
        <TimeStampRespParts>::is_read_back(tag, mode);
    }

    ghost made = { λ v. (record { status = v.0; time_stamp_token = v.1 }, refl) };
}

/// Whether a time stamp was given (RFC 3161, section 2.4.2).
///
///     PKIStatusInfo ::= SEQUENCE {
///         status        PKIStatus,
///         statusString  PKIFreeText OPTIONAL,
///         failInfo      PKIFailureInfo OPTIONAL }
///
///     PKIStatus ::= INTEGER
///
///     PKIFreeText ::= SEQUENCE SIZE (1..MAX) OF UTF8String
///
///     PKIFailureInfo ::= BIT STRING { badAlg (0), .. }
///
/// Any status from 0 to 255 is read, and an empty list of texts is too.
#[derive(Debug, Drop)]
pub struct PkiStatusInfo {
    /// 0 or 1 if it was.
    pub status: u8,

    /// The same in words.
    pub status_string: Option<SequenceOf<Utf8Text>>,

    /// Why there is none.
    pub fail_info: Option<NamedBits>,
}

/// What defines [`PkiStatusInfo`].
type PkiStatusInfoParts = Sequence<(u8, Option<SequenceOf<Utf8Text>>, Option<NamedBits>)>;

impl Parts for PkiStatusInfo {
    type As = PkiStatusInfoParts;

    type Tags = SequenceTag;

    const NAME: &'static str = "PkiStatusInfo";

    const PARTS: &'static [&'static str] = &["status", "status_string", "fail_info"];

    ghost parts = { λ x. (x.status, x.status_string, x.fail_info) };

    ghost typed = { ⟦<PkiStatusInfoParts as Type>⟧ };

    fn from_parts(value: PkiStatusInfoParts) -> PkiStatusInfo {
        let Sequence((status, status_string, fail_info)) = value;
        PkiStatusInfo {
            status,
            status_string,
            fail_info,
        }
    }

    fn parts_are_one() {
        <PkiStatusInfoParts>::values_are_one();
    }
}

impl<S: Source> DecodeParts<S> for PkiStatusInfo {
    fn trace_parts<P: Trace>(
        alloc: Global,
        cons: &mut Constructed<'_, S>,
        tag: Tag,
        path: &mut P,
    ) -> Result<Option<PkiStatusInfoParts>, DecodeError<S::Error>> {
        <PkiStatusInfoParts>::trace_opt_if(alloc, cons, tag, path)
    }
}

impl EncodeParts for PkiStatusInfo {
    ghost written = { ⟦<PkiStatusInfoParts as Encode>⟧ };

    fn give_parts<T, U: UseParts<T>>(&self, tag: Tag, to: U, target: &mut T) -> U::Out {
        to.use_parts(
            &Sequence((
                ByRef(&self.status),
                ByRef(&self.status_string),
                ByRef(&self.fail_info),
            )),
            tag,
            target,
        )
    }

    fn are_read_back(tag: Tag, mode: Mode) {
        <PkiStatusInfoParts>::is_read_back(tag, mode);
    }

    ghost made = { λ v. (record { status = v.0; status_string = v.1; fail_info = v.2 }, refl) };
}
