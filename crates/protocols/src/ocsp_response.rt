//! Responses that say whether certificates are revoked (RFC 6960, section 4.2.1).
ghost use Rattle.std.proofs.Common.{inl, rules};
ghost use Rattle.std.specs.Prelude.{⊤, pos, refl, true};
ghost use Rattle.asn1.specs.Choices.{either_tagged};
ghost use Rattle.asn1.specs.Markers.{context_tagged};
ghost use Rattle.asn1.specs.Tags.{only_tagged};
ghost use Rattle.asn1.specs.declared.choice.Choice2.TheVariants.{One, Two};

use crate::{CertId, CertStatus};
use asn1::{
    Any, ByRef, Choice2, Context, Decode, DecodeParts, Encode, EncodeParts, Enumerated,
    Enumeration, Explicit, GeneralizedTime, ObjectIdentifier, OrDefault, Parts, Sequence,
    SequenceOf, SequenceTag, Trace, Type, UseParts,
};
use bcder::decode::{Constructed, DecodeError, Source};
use bcder::{BitString, Mode, OctetString, Tag};
use pkix::{AlgorithmIdentifier, Extensions, Name, Version, Version1};
use std::alloc::Global;

/// A response (RFC 6960, section 4.2.1).
///
///     OCSPResponse ::= SEQUENCE {
///         responseStatus  OCSPResponseStatus,
///         responseBytes   [0] EXPLICIT ResponseBytes OPTIONAL }
#[derive(Debug, Drop)]
pub struct OcspResponse {
    /// Whether the request was served.
    pub response_status: Enumerated<OcspResponseStatus>,

    /// The response, if it was.
    pub response_bytes: Option<Explicit<Context<0>, ResponseBytes>>,
}

/// What defines [`OcspResponse`].
type OcspResponseParts = Sequence<
    (
        Enumerated<OcspResponseStatus>,
        Option<Explicit<Context<0>, ResponseBytes>>,
    ),
>;

impl Parts for OcspResponse {
    type As = OcspResponseParts;

    type Tags = SequenceTag;

    const NAME: &'static str = "OcspResponse";

    const PARTS: &'static [&'static str] = &["response_status", "response_bytes"];

    ghost parts = { λ x. (x.response_status, x.response_bytes) };

    ghost typed = { ⟦<OcspResponseParts as Type>⟧ };

    fn from_parts(value: OcspResponseParts) -> OcspResponse {
        let Sequence((response_status, response_bytes)) = value;
        OcspResponse {
            response_status,
            response_bytes,
        }
    }

    fn parts_are_one() {
        <OcspResponseParts>::values_are_one();
    }
}

impl<S: Source> DecodeParts<S> for OcspResponse {
    fn trace_parts<P: Trace>(
        alloc: Global,
        cons: &mut Constructed<'_, S>,
        tag: Tag,
        path: &mut P,
    ) -> Result<Option<OcspResponseParts>, DecodeError<S::Error>> {
        <OcspResponseParts>::trace_opt_if(alloc, cons, tag, path)
    }
}

impl EncodeParts for OcspResponse {
    ghost written = { ⟦<OcspResponseParts as Encode>⟧ };

    fn give_parts<T, U: UseParts<T>>(&self, tag: Tag, to: U, target: &mut T) -> U::Out {
        to.use_parts(
            &Sequence((ByRef(&self.response_status), ByRef(&self.response_bytes))),
            tag,
            target,
        )
    }

    fn are_read_back(tag: Tag, mode: Mode) {
        <OcspResponseParts>::is_read_back(tag, mode);
    }

    ghost made = { λ v. (record { response_status = v.0; response_bytes = v.1 }, refl) };
}

/// Whether a request was served (RFC 6960, section 4.2.1).
///
///     OCSPResponseStatus ::= ENUMERATED {
///         successful        (0),
///         malformedRequest  (1),
///         internalError     (2),
///         tryLater          (3),
///         sigRequired       (5),
///         unauthorized      (6) }
///
/// The RFC leaves 4 out.
#[derive(Clone, Copy, Debug, PartialEq, Eq, Drop)]
pub enum OcspResponseStatus {
    /// It was.
    Successful,
    /// The request is no request.
    MalformedRequest,
    /// The responder failed.
    InternalError,
    /// The responder can't respond yet.
    TryLater,
    /// The request has to be signed.
    SigRequired,
    /// The client may not ask that.
    Unauthorized,
}

ghost use Rattle.protocols.specs.declared.ocsp_response.OcspResponseStatus.TheVariants as status;

impl Enumeration for OcspResponseStatus {
    ghost number = { elim [
      | status.Successful ↦ pos 0
      | status.MalformedRequest ↦ pos 1
      | status.InternalError ↦ pos 2
      | status.TryLater ↦ pos 3
      | status.SigRequired ↦ pos 5
      | status.Unauthorized ↦ pos 6
    ] };

    fn number(&self) -> i64 {
        match self {
            OcspResponseStatus::Successful => 0,
            OcspResponseStatus::MalformedRequest => 1,
            OcspResponseStatus::InternalError => 2,
            OcspResponseStatus::TryLater => 3,
            OcspResponseStatus::SigRequired => 5,
            OcspResponseStatus::Unauthorized => 6,
        }
    }

    fn from_number(value: i64) -> Option<OcspResponseStatus> {
        match value {
            0 => Some(OcspResponseStatus::Successful),
            1 => Some(OcspResponseStatus::MalformedRequest),
            2 => Some(OcspResponseStatus::InternalError),
            3 => Some(OcspResponseStatus::TryLater),
            5 => Some(OcspResponseStatus::SigRequired),
            6 => Some(OcspResponseStatus::Unauthorized),
            _ => None,
        }
    }
}

/// A response of some type (RFC 6960, section 4.2.1).
///
///     ResponseBytes ::= SEQUENCE {
///         responseType  OBJECT IDENTIFIER,
///         response      OCTET STRING }
#[derive(Debug, Drop)]
pub struct ResponseBytes {
    /// Which type it is.
    pub response_type: ObjectIdentifier,

    /// The response, as an encoding of its type, as [`BasicOcspResponse`].
    pub response: OctetString,
}

/// What defines [`ResponseBytes`].
type ResponseBytesParts = Sequence<(ObjectIdentifier, OctetString)>;

impl Parts for ResponseBytes {
    type As = ResponseBytesParts;

    type Tags = SequenceTag;

    const NAME: &'static str = "ResponseBytes";

    const PARTS: &'static [&'static str] = &["response_type", "response"];

    ghost parts = { λ x. (x.response_type, x.response) };

    ghost typed = { ⟦<ResponseBytesParts as Type>⟧ };

    fn from_parts(value: ResponseBytesParts) -> ResponseBytes {
        let Sequence((response_type, response)) = value;
        ResponseBytes {
            response_type,
            response,
        }
    }

    fn parts_are_one() {
        <ResponseBytesParts>::values_are_one();
    }
}

impl<S: Source> DecodeParts<S> for ResponseBytes {
    fn trace_parts<P: Trace>(
        alloc: Global,
        cons: &mut Constructed<'_, S>,
        tag: Tag,
        path: &mut P,
    ) -> Result<Option<ResponseBytesParts>, DecodeError<S::Error>> {
        <ResponseBytesParts>::trace_opt_if(alloc, cons, tag, path)
    }
}

impl EncodeParts for ResponseBytes {
    ghost written = { ⟦<ResponseBytesParts as Encode>⟧ };

    fn give_parts<T, U: UseParts<T>>(&self, tag: Tag, to: U, target: &mut T) -> U::Out {
        to.use_parts(
            &Sequence((ByRef(&self.response_type), ByRef(&self.response))),
            tag,
            target,
        )
    }

    fn are_read_back(tag: Tag, mode: Mode) {
        <ResponseBytesParts>::is_read_back(tag, mode);
    }

    ghost made = { λ v. (record { response_type = v.0; response = v.1 }, refl) };
}

/// A response with its signature (RFC 6960, section 4.2.1).
///
///     BasicOCSPResponse ::= SEQUENCE {
///         tbsResponseData     ResponseData,
///         signatureAlgorithm  AlgorithmIdentifier,
///         signature           BIT STRING,
///         certs               [0] EXPLICIT SEQUENCE OF Certificate OPTIONAL }
///
/// Certificates are kept as they are. They decode as [`Certificate`](pkix::Certificate).
#[derive(Debug, Drop)]
pub struct BasicOcspResponse {
    /// What is signed.
    pub tbs_response_data: ResponseData,

    /// The algorithm of the signature.
    pub signature_algorithm: AlgorithmIdentifier,

    /// The signature.
    pub signature: BitString,

    /// Certificates of the signer.
    pub certs: Option<Explicit<Context<0>, SequenceOf<Any>>>,
}

/// What defines [`BasicOcspResponse`].
type BasicOcspResponseParts = Sequence<
    (
        ResponseData,
        AlgorithmIdentifier,
        BitString,
        Option<Explicit<Context<0>, SequenceOf<Any>>>,
    ),
>;

impl Parts for BasicOcspResponse {
    type As = BasicOcspResponseParts;

    type Tags = SequenceTag;

    const NAME: &'static str = "BasicOcspResponse";

    const PARTS: &'static [&'static str] = &[
        "tbs_response_data",
        "signature_algorithm",
        "signature",
        "certs",
    ];

    ghost parts = { λ x. (x.tbs_response_data, x.signature_algorithm, x.signature, x.certs) };

    ghost typed = { ⟦<BasicOcspResponseParts as Type>⟧ };

    fn from_parts(value: BasicOcspResponseParts) -> BasicOcspResponse {
        let Sequence((tbs_response_data, signature_algorithm, signature, certs)) = value;
        BasicOcspResponse {
            tbs_response_data,
            signature_algorithm,
            signature,
            certs,
        }
    }

    fn parts_are_one() {
        <BasicOcspResponseParts>::values_are_one();
    }
}

impl<S: Source> DecodeParts<S> for BasicOcspResponse {
    fn trace_parts<P: Trace>(
        alloc: Global,
        cons: &mut Constructed<'_, S>,
        tag: Tag,
        path: &mut P,
    ) -> Result<Option<BasicOcspResponseParts>, DecodeError<S::Error>> {
        <BasicOcspResponseParts>::trace_opt_if(alloc, cons, tag, path)
    }
}

impl EncodeParts for BasicOcspResponse {
    ghost written = { ⟦<BasicOcspResponseParts as Encode>⟧ };

    fn give_parts<T, U: UseParts<T>>(&self, tag: Tag, to: U, target: &mut T) -> U::Out {
        to.use_parts(
            &Sequence((
                ByRef(&self.tbs_response_data),
                ByRef(&self.signature_algorithm),
                ByRef(&self.signature),
                ByRef(&self.certs),
            )),
            tag,
            target,
        )
    }

    fn are_read_back(tag: Tag, mode: Mode) {
        <BasicOcspResponseParts>::is_read_back(tag, mode);
    }

    ghost made = { λ v. (
      record {
        tbs_response_data = v.0;
        signature_algorithm = v.1;
        signature = v.2;
        certs = v.3;
      },
      refl,
    ) };
}

/// What is signed of a response (RFC 6960, section 4.2.1).
///
///     ResponseData ::= SEQUENCE {
///         version             [0] EXPLICIT Version DEFAULT v1,
///         responderID         ResponderID,
///         producedAt          GeneralizedTime,
///         responses           SEQUENCE OF SingleResponse,
///         responseExtensions  [1] EXPLICIT Extensions OPTIONAL }
///
/// Any version from 0 to 255 is read.
#[derive(Debug, Drop)]
pub struct ResponseData {
    /// The version, where 0 is the first.
    pub version: OrDefault<Explicit<Context<0>, Version>, Version1>,

    /// Who responds.
    pub responder_id: ResponderId,

    /// When it was signed.
    pub produced_at: GeneralizedTime,

    /// What is said of each certificate.
    pub responses: SequenceOf<SingleResponse>,

    /// Extensions.
    pub response_extensions: Option<Explicit<Context<1>, Extensions>>,
}

/// What defines [`ResponseData`].
type ResponseDataParts = Sequence<
    (
        OrDefault<Explicit<Context<0>, Version>, Version1>,
        ResponderId,
        GeneralizedTime,
        SequenceOf<SingleResponse>,
        Option<Explicit<Context<1>, Extensions>>,
    ),
>;

impl Parts for ResponseData {
    type As = ResponseDataParts;

    type Tags = SequenceTag;

    const NAME: &'static str = "ResponseData";

    const PARTS: &'static [&'static str] = &[
        "version",
        "responder_id",
        "produced_at",
        "responses",
        "response_extensions",
    ];

    ghost parts = { λ x. (
      x.version,
      x.responder_id,
      x.produced_at,
      x.responses,
      x.response_extensions,
    ) };

    ghost typed = { ⟦<ResponseDataParts as Type>⟧ };

    fn from_parts(value: ResponseDataParts) -> ResponseData {
        let Sequence((version, responder_id, produced_at, responses, response_extensions)) = value;
        ResponseData {
            version,
            responder_id,
            produced_at,
            responses,
            response_extensions,
        }
    }

    fn parts_are_one() {
        <ResponseDataParts>::values_are_one();
    }
}

impl<S: Source> DecodeParts<S> for ResponseData {
    fn trace_parts<P: Trace>(
        alloc: Global,
        cons: &mut Constructed<'_, S>,
        tag: Tag,
        path: &mut P,
    ) -> Result<Option<ResponseDataParts>, DecodeError<S::Error>> {
        <ResponseDataParts>::trace_opt_if(alloc, cons, tag, path)
    }
}

impl EncodeParts for ResponseData {
    ghost written = { ⟦<ResponseDataParts as Encode>⟧ };

    fn give_parts<T, U: UseParts<T>>(&self, tag: Tag, to: U, target: &mut T) -> U::Out {
        to.use_parts(
            &Sequence((
                ByRef(&self.version),
                ByRef(&self.responder_id),
                ByRef(&self.produced_at),
                ByRef(&self.responses),
                ByRef(&self.response_extensions),
            )),
            tag,
            target,
        )
    }

    fn are_read_back(tag: Tag, mode: Mode) {
        <ResponseDataParts>::is_read_back(tag, mode);
    }

    ghost made = { λ v. (
      record {
        version = v.0;
        responder_id = v.1;
        produced_at = v.2;
        responses = v.3;
        response_extensions = v.4;
      },
      refl,
    ) };
}

/// Who responds (RFC 6960, section 4.2.1).
///
///     ResponderID ::= CHOICE {
///         byName  [1] EXPLICIT Name,
///         byKey   [2] EXPLICIT KeyHash }
///
///     KeyHash ::= OCTET STRING
#[derive(Debug, Drop)]
pub enum ResponderId {
    /// By a name.
    ByName(Explicit<Context<1>, Name>),
    /// By the digest of a key.
    ByKey(Explicit<Context<2>, OctetString>),
}

ghost use Rattle.protocols.specs.declared.ocsp_response.ResponderId.TheVariants.{ByName, ByKey};

/// What defines [`ResponderId`].
type ResponderIdParts = Choice2<Explicit<Context<1>, Name>, Explicit<Context<2>, OctetString>>;

impl Parts for ResponderId {
    type As = ResponderIdParts;

    type Tags = ResponderIdTags;

    const NAME: &'static str = "ResponderId";

    const PARTS: &'static [&'static str] = &["by_name", "by_key"];

    ghost parts = { elim [ ByName x ↦ One x | ByKey x ↦ Two x ] };

    ghost typed = { ⟦<ResponderIdParts as Type>⟧ };

    fn from_parts(value: ResponderIdParts) -> ResponderId {
        match value {
            Choice2::One(value) => ResponderId::ByName(value),
            Choice2::Two(value) => ResponderId::ByKey(value),
        }
    }

    fn parts_are_one() {
        <ResponderIdParts>::values_are_one();
    }
}

impl<S: Source> DecodeParts<S> for ResponderId {
    fn trace_parts<P: Trace>(
        alloc: Global,
        cons: &mut Constructed<'_, S>,
        tag: Tag,
        path: &mut P,
    ) -> Result<Option<ResponderIdParts>, DecodeError<S::Error>> {
        <ResponderIdParts>::trace_opt_if(alloc, cons, tag, path)
    }
}

impl EncodeParts for ResponderId {
    ghost written = { ⟦<ResponderIdParts as Encode>⟧ };

    fn give_parts<T, U: UseParts<T>>(&self, _tag: Tag, to: U, target: &mut T) -> U::Out {
        match self {
            ResponderId::ByName(value) => to.use_alternative(value, target),
            ResponderId::ByKey(value) => to.use_alternative(value, target),
        }
    }

    fn are_read_back(tag: Tag, mode: Mode) {
        <ResponderIdParts>::is_read_back(tag, mode);
    }

    ghost made = { elim [ One x ↦ (ByName x, refl) | Two x ↦ (ByKey x, refl) ] };
}

/// What is said of one certificate (RFC 6960, section 4.2.1).
///
///     SingleResponse ::= SEQUENCE {
///         certID            CertID,
///         certStatus        CertStatus,
///         thisUpdate        GeneralizedTime,
///         nextUpdate        [0] EXPLICIT GeneralizedTime OPTIONAL,
///         singleExtensions  [1] EXPLICIT Extensions OPTIONAL }
#[derive(Debug, Drop)]
pub struct SingleResponse {
    /// The certificate.
    pub cert_id: CertId,

    /// Whether it is revoked.
    pub cert_status: CertStatus,

    /// When that was known.
    pub this_update: GeneralizedTime,

    /// When more will be known.
    pub next_update: Option<Explicit<Context<0>, GeneralizedTime>>,

    /// Extensions.
    pub single_extensions: Option<Explicit<Context<1>, Extensions>>,
}

/// What defines [`SingleResponse`].
type SingleResponseParts = Sequence<
    (
        CertId,
        CertStatus,
        GeneralizedTime,
        Option<Explicit<Context<0>, GeneralizedTime>>,
        Option<Explicit<Context<1>, Extensions>>,
    ),
>;

impl Parts for SingleResponse {
    type As = SingleResponseParts;

    type Tags = SequenceTag;

    const NAME: &'static str = "SingleResponse";

    const PARTS: &'static [&'static str] = &[
        "cert_id",
        "cert_status",
        "this_update",
        "next_update",
        "single_extensions",
    ];

    ghost parts = { λ x. (
      x.cert_id,
      x.cert_status,
      x.this_update,
      x.next_update,
      x.single_extensions,
    ) };

    ghost typed = { ⟦<SingleResponseParts as Type>⟧ };

    fn from_parts(value: SingleResponseParts) -> SingleResponse {
        let Sequence((cert_id, cert_status, this_update, next_update, single_extensions)) = value;
        SingleResponse {
            cert_id,
            cert_status,
            this_update,
            next_update,
            single_extensions,
        }
    }

    fn parts_are_one() {
        <SingleResponseParts>::values_are_one();
    }
}

impl<S: Source> DecodeParts<S> for SingleResponse {
    fn trace_parts<P: Trace>(
        alloc: Global,
        cons: &mut Constructed<'_, S>,
        tag: Tag,
        path: &mut P,
    ) -> Result<Option<SingleResponseParts>, DecodeError<S::Error>> {
        <SingleResponseParts>::trace_opt_if(alloc, cons, tag, path)
    }
}

impl EncodeParts for SingleResponse {
    ghost written = { ⟦<SingleResponseParts as Encode>⟧ };

    fn give_parts<T, U: UseParts<T>>(&self, tag: Tag, to: U, target: &mut T) -> U::Out {
        to.use_parts(
            &Sequence((
                ByRef(&self.cert_id),
                ByRef(&self.cert_status),
                ByRef(&self.this_update),
                ByRef(&self.next_update),
                ByRef(&self.single_extensions),
            )),
            tag,
            target,
        )
    }

    fn are_read_back(tag: Tag, mode: Mode) {
        <SingleResponseParts>::is_read_back(tag, mode);
    }

    ghost made = { λ v. (
      record {
        cert_id = v.0;
        cert_status = v.1;
        this_update = v.2;
        next_update = v.3;
        single_extensions = v.4;
      },
      refl,
    ) };
}

/// The tags of a [`ResponderId`], as a type without values.
///
/// With it, a proof about a type that holds one doesn't unfold the types of its alternatives.
#[derive(Clone, Copy, Debug, Drop)]
pub struct ResponderIdTags;

impl Type for ResponderIdTags {
    ghost TAG = { ⟦<ResponderIdParts as Type>⟧.TAG };

    #[inline(always)]
    fn tag() -> Tag {
        <ResponderIdParts>::tag()
    }

    ghost expects = { ⟦<ResponderIdParts as Type>⟧.expects };

    fn expect<P: Trace>(path: &mut P) {
        <ResponderIdParts>::expect(path);
    }

    ghost tags = { ⟦<ResponderIdParts as Type>⟧.tags };

    ghost Key = { ⊤ };

    ghost key = { λ _. tt };

    ghost means = { λ _ _ _. ⊥ };

    fn values_are_one() {}

    ghost tagged = { inl refl };

    ghost value_tags = { either_tagged (only_tagged (context_tagged {n = 1} (Prim.search rules))) (only_tagged (context_tagged {n = 2} (Prim.search rules))) };
}
