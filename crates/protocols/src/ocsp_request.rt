//! Requests that ask whether certificates are revoked (RFC 6960, section 4.1.1).
ghost use Rattle.std.specs.Prelude.{refl};

use crate::SingleRequest;
use asn1::{
    Any, ByRef, Context, Decode, DecodeParts, Encode, EncodeParts, Explicit, OrDefault, Parts,
    Sequence, SequenceOf, SequenceTag, Trace, Type, UseParts,
};
use bcder::decode::{Constructed, DecodeError, Source};
use bcder::{BitString, Mode, Tag};
use general_names::GeneralName;
use pkix::{AlgorithmIdentifier, Extensions, Version, Version1};
use std::alloc::Global;

/// A request to say whether certificates are revoked (RFC 6960, section 4.1.1).
///
///     OCSPRequest ::= SEQUENCE {
///         tbsRequest         TBSRequest,
///         optionalSignature  [0] EXPLICIT Signature OPTIONAL }
#[derive(Debug, Drop)]
pub struct OcspRequest {
    /// The request.
    pub tbs_request: TbsRequest,

    /// The signature, if there is one.
    pub optional_signature: Option<Explicit<Context<0>, OcspSignature>>,
}

/// What defines [`OcspRequest`].
type OcspRequestParts = Sequence<(TbsRequest, Option<Explicit<Context<0>, OcspSignature>>)>;

impl Parts for OcspRequest {
    type As = OcspRequestParts;

    type Tags = SequenceTag;

    const NAME: &'static str = "OcspRequest";

    const PARTS: &'static [&'static str] = &["tbs_request", "optional_signature"];

    ghost parts = { λ x. (x.tbs_request, x.optional_signature) };

    ghost typed = { ⟦<OcspRequestParts as Type>⟧ };

    fn from_parts(value: OcspRequestParts) -> OcspRequest {
        let Sequence((tbs_request, optional_signature)) = value;
        OcspRequest {
            tbs_request,
            optional_signature,
        }
    }

    fn parts_are_one() {
        <OcspRequestParts>::values_are_one();
    }
}

impl<S: Source> DecodeParts<S> for OcspRequest {
    fn trace_parts<P: Trace>(
        alloc: Global,
        cons: &mut Constructed<'_, S>,
        tag: Tag,
        path: &mut P,
    ) -> Result<Option<OcspRequestParts>, DecodeError<S::Error>> {
        <OcspRequestParts>::trace_opt_if(alloc, cons, tag, path)
    }
}

impl EncodeParts for OcspRequest {
    ghost written = { ⟦<OcspRequestParts as Encode>⟧ };

    fn give_parts<T, U: UseParts<T>>(&self, tag: Tag, to: U, target: &mut T) -> U::Out {
        to.use_parts(
            &Sequence((ByRef(&self.tbs_request), ByRef(&self.optional_signature))),
            tag,
            target,
        )
    }

    fn are_read_back(tag: Tag, mode: Mode) {
        <OcspRequestParts>::is_read_back(tag, mode);
    }

    ghost made = { λ v. (record { tbs_request = v.0; optional_signature = v.1 }, refl) };
}

/// What is signed of a request (RFC 6960, section 4.1.1).
///
///     TBSRequest ::= SEQUENCE {
///         version            [0] EXPLICIT Version DEFAULT v1,
///         requestorName      [1] EXPLICIT GeneralName OPTIONAL,
///         requestList        SEQUENCE OF Request,
///         requestExtensions  [2] EXPLICIT Extensions OPTIONAL }
///
/// Any version from 0 to 255 is read.
#[derive(Debug, Drop)]
pub struct TbsRequest {
    /// The version, where 0 is the first.
    pub version: OrDefault<Explicit<Context<0>, Version>, Version1>,

    /// Who asks.
    pub requestor_name: Option<Explicit<Context<1>, GeneralName>>,

    /// The certificates that are asked for.
    pub request_list: SequenceOf<SingleRequest>,

    /// Extensions.
    pub request_extensions: Option<Explicit<Context<2>, Extensions>>,
}

/// What defines [`TbsRequest`].
type TbsRequestParts = Sequence<
    (
        OrDefault<Explicit<Context<0>, Version>, Version1>,
        Option<Explicit<Context<1>, GeneralName>>,
        SequenceOf<SingleRequest>,
        Option<Explicit<Context<2>, Extensions>>,
    ),
>;

impl Parts for TbsRequest {
    type As = TbsRequestParts;

    type Tags = SequenceTag;

    const NAME: &'static str = "TbsRequest";

    const PARTS: &'static [&'static str] = &[
        "version",
        "requestor_name",
        "request_list",
        "request_extensions",
    ];

    ghost parts = { λ x. (x.version, x.requestor_name, x.request_list, x.request_extensions) };

    ghost typed = { ⟦<TbsRequestParts as Type>⟧ };

    fn from_parts(value: TbsRequestParts) -> TbsRequest {
        let Sequence((version, requestor_name, request_list, request_extensions)) = value;
        TbsRequest {
            version,
            requestor_name,
            request_list,
            request_extensions,
        }
    }

    fn parts_are_one() {
        <TbsRequestParts>::values_are_one();
    }
}

impl<S: Source> DecodeParts<S> for TbsRequest {
    fn trace_parts<P: Trace>(
        alloc: Global,
        cons: &mut Constructed<'_, S>,
        tag: Tag,
        path: &mut P,
    ) -> Result<Option<TbsRequestParts>, DecodeError<S::Error>> {
        <TbsRequestParts>::trace_opt_if(alloc, cons, tag, path)
    }
}

impl EncodeParts for TbsRequest {
    ghost written = { ⟦<TbsRequestParts as Encode>⟧ };

    fn give_parts<T, U: UseParts<T>>(&self, tag: Tag, to: U, target: &mut T) -> U::Out {
        to.use_parts(
            &Sequence((
                ByRef(&self.version),
                ByRef(&self.requestor_name),
                ByRef(&self.request_list),
                ByRef(&self.request_extensions),
            )),
            tag,
            target,
        )
    }

    fn are_read_back(tag: Tag, mode: Mode) {
        <TbsRequestParts>::is_read_back(tag, mode);
    }

    ghost made = { λ v. (
      record {
        version = v.0;
        requestor_name = v.1;
        request_list = v.2;
        request_extensions = v.3;
      },
      refl,
    ) };
}

/// The signature of a request: `Signature` in the RFC (RFC 6960, section 4.1.1).
///
///     Signature ::= SEQUENCE {
///         signatureAlgorithm  AlgorithmIdentifier,
///         signature           BIT STRING,
///         certs               [0] EXPLICIT SEQUENCE OF Certificate OPTIONAL }
///
/// Certificates are kept as they are. They decode as [`Certificate`](pkix::Certificate).
#[derive(Debug, Drop)]
pub struct OcspSignature {
    /// The algorithm.
    pub signature_algorithm: AlgorithmIdentifier,

    /// The signature.
    pub signature: BitString,

    /// Certificates of the signer.
    pub certs: Option<Explicit<Context<0>, SequenceOf<Any>>>,
}

/// What defines [`OcspSignature`].
type OcspSignatureParts = Sequence<
    (
        AlgorithmIdentifier,
        BitString,
        Option<Explicit<Context<0>, SequenceOf<Any>>>,
    ),
>;

impl Parts for OcspSignature {
    type As = OcspSignatureParts;

    type Tags = SequenceTag;

    const NAME: &'static str = "OcspSignature";

    const PARTS: &'static [&'static str] = &["signature_algorithm", "signature", "certs"];

    ghost parts = { λ x. (x.signature_algorithm, x.signature, x.certs) };

    ghost typed = { ⟦<OcspSignatureParts as Type>⟧ };

    fn from_parts(value: OcspSignatureParts) -> OcspSignature {
        let Sequence((signature_algorithm, signature, certs)) = value;
        OcspSignature {
            signature_algorithm,
            signature,
            certs,
        }
    }

    fn parts_are_one() {
        <OcspSignatureParts>::values_are_one();
    }
}

impl<S: Source> DecodeParts<S> for OcspSignature {
    fn trace_parts<P: Trace>(
        alloc: Global,
        cons: &mut Constructed<'_, S>,
        tag: Tag,
        path: &mut P,
    ) -> Result<Option<OcspSignatureParts>, DecodeError<S::Error>> {
        <OcspSignatureParts>::trace_opt_if(alloc, cons, tag, path)
    }
}

impl EncodeParts for OcspSignature {
    ghost written = { ⟦<OcspSignatureParts as Encode>⟧ };

    fn give_parts<T, U: UseParts<T>>(&self, tag: Tag, to: U, target: &mut T) -> U::Out {
        to.use_parts(
            &Sequence((
                ByRef(&self.signature_algorithm),
                ByRef(&self.signature),
                ByRef(&self.certs),
            )),
            tag,
            target,
        )
    }

    fn are_read_back(tag: Tag, mode: Mode) {
        <OcspSignatureParts>::is_read_back(tag, mode);
    }

    ghost made = { λ v. (
      record {
        signature_algorithm = v.0;
        signature = v.1;
        certs = v.2;
      },
      refl,
    ) };
}
