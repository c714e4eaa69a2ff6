//! Questions whether certificates are revoked (RFC 6960).
ghost use Rattle.std.specs.Prelude.{refl};

use asn1::{
    ByRef, Context, Decode, DecodeParts, Encode, EncodeParts, Explicit, Parts, Sequence,
    SequenceTag, Trace, Type, UseParts,
};
use bcder::decode::{Constructed, DecodeError, Source};
use bcder::{Integer, Mode, OctetString, Tag};
use pkix::{AlgorithmIdentifier, Extensions};
use std::alloc::Global;

/// One certificate that is asked for (RFC 6960, section 4.1.1).
///
///     Request ::= SEQUENCE {
///         reqCert                  CertID,
///         singleRequestExtensions  [0] EXPLICIT Extensions OPTIONAL }
#[derive(Debug, Drop)]
pub struct SingleRequest {
    /// The certificate.
    pub req_cert: CertId,

    /// Extensions.
    pub single_request_extensions: Option<Explicit<Context<0>, Extensions>>,
}

/// What defines [`SingleRequest`].
type SingleRequestParts = Sequence<(CertId, Option<Explicit<Context<0>, Extensions>>)>;

impl Parts for SingleRequest {
    type As = SingleRequestParts;

    type Tags = SequenceTag;

    const NAME: &'static str = "SingleRequest";

    const PARTS: &'static [&'static str] = &["req_cert", "single_request_extensions"];

    ghost parts = { λ x. (x.req_cert, x.single_request_extensions) };

    ghost typed = { ⟦<SingleRequestParts as Type>⟧ };

    fn from_parts(value: SingleRequestParts) -> SingleRequest {
        let Sequence((req_cert, single_request_extensions)) = value;
        SingleRequest {
            req_cert,
            single_request_extensions,
        }
    }

    fn parts_are_one() {
        <SingleRequestParts>::values_are_one();
    }
}

impl<S: Source> DecodeParts<S> for SingleRequest {
    fn trace_parts<P: Trace>(
        alloc: Global,
        cons: &mut Constructed<'_, S>,
        tag: Tag,
        path: &mut P,
    ) -> Result<Option<SingleRequestParts>, DecodeError<S::Error>> {
        <SingleRequestParts>::trace_opt_if(alloc, cons, tag, path)
    }
}

impl EncodeParts for SingleRequest {
    ghost written = { ⟦<SingleRequestParts as Encode>⟧ };

    fn give_parts<T, U: UseParts<T>>(&self, tag: Tag, to: U, target: &mut T) -> U::Out {
        to.use_parts(
            &Sequence((
                ByRef(&self.req_cert),
                ByRef(&self.single_request_extensions),
            )),
            tag,
            target,
        )
    }

    fn are_read_back(tag: Tag, mode: Mode) {
        <SingleRequestParts>::is_read_back(tag, mode);
    }

    ghost made = { λ v. (record { req_cert = v.0; single_request_extensions = v.1 }, refl) };
}

/// Which certificate it is (RFC 6960, section 4.1.1).
///
///     CertID ::= SEQUENCE {
///         hashAlgorithm   AlgorithmIdentifier,
///         issuerNameHash  OCTET STRING,
///         issuerKeyHash   OCTET STRING,
///         serialNumber    CertificateSerialNumber }
#[derive(Debug, Drop)]
pub struct CertId {
    /// The algorithm of both digests.
    pub hash_algorithm: AlgorithmIdentifier,

    /// The digest of the issuer's name.
    pub issuer_name_hash: OctetString,

    /// The digest of the issuer's key.
    pub issuer_key_hash: OctetString,

    /// The serial number.
    pub serial_number: Integer,
}

/// What defines [`CertId`].
type CertIdParts = Sequence<(AlgorithmIdentifier, OctetString, OctetString, Integer)>;

impl Parts for CertId {
    type As = CertIdParts;

    type Tags = SequenceTag;

    const NAME: &'static str = "CertId";

    const PARTS: &'static [&'static str] = &[
        "hash_algorithm",
        "issuer_name_hash",
        "issuer_key_hash",
        "serial_number",
    ];

    ghost parts = { λ x. (
      x.hash_algorithm,
      x.issuer_name_hash,
      x.issuer_key_hash,
      x.serial_number,
    ) };

    ghost typed = { ⟦<CertIdParts as Type>⟧ };

    fn from_parts(value: CertIdParts) -> CertId {
        let Sequence((hash_algorithm, issuer_name_hash, issuer_key_hash, serial_number)) = value;
        CertId {
            hash_algorithm,
            issuer_name_hash,
            issuer_key_hash,
            serial_number,
        }
    }

    fn parts_are_one() {
        <CertIdParts>::values_are_one();
    }
}

impl<S: Source> DecodeParts<S> for CertId {
    fn trace_parts<P: Trace>(
        alloc: Global,
        cons: &mut Constructed<'_, S>,
        tag: Tag,
        path: &mut P,
    ) -> Result<Option<CertIdParts>, DecodeError<S::Error>> {
        <CertIdParts>::trace_opt_if(alloc, cons, tag, path)
    }
}

impl EncodeParts for CertId {
    ghost written = { ⟦<CertIdParts as Encode>⟧ };

    fn give_parts<T, U: UseParts<T>>(&self, tag: Tag, to: U, target: &mut T) -> U::Out {
        to.use_parts(
            &Sequence((
                ByRef(&self.hash_algorithm),
                ByRef(&self.issuer_name_hash),
                ByRef(&self.issuer_key_hash),
                ByRef(&self.serial_number),
            )),
            tag,
            target,
        )
    }

    fn are_read_back(tag: Tag, mode: Mode) {
        <CertIdParts>::is_read_back(tag, mode);
    }

    ghost made = { λ v. (
      record {
        hash_algorithm = v.0;
        issuer_name_hash = v.1;
        issuer_key_hash = v.2;
        serial_number = v.3;
      },
      refl,
    ) };
}
