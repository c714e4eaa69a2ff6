//! Requests for certificates.
ghost use Rattle.std.specs.Prelude.{refl};

use crate::{AlgorithmIdentifier, Name, SubjectPublicKeyInfo, Version};
use asn1::{
    Any, ByRef, Context, Decode, DecodeParts, Encode, EncodeParts, Implicit, ObjectIdentifier,
    Parts, Sequence, SequenceTag, SetOf, Trace, Type, UseParts,
};
use bcder::decode::{Constructed, DecodeError, Source};
use bcder::{BitString, Mode, Tag};
use std::alloc::Global;

/// A request for a certificate (RFC 2986, section 4.2).
///
///     CertificationRequest ::= SEQUENCE {
///         certificationRequestInfo  CertificationRequestInfo,
///         signatureAlgorithm        AlgorithmIdentifier,
///         signature                 BIT STRING }
#[derive(Debug, Drop)]
pub struct CertificationRequest {
    /// What is signed.
    pub certification_request_info: CertificationRequestInfo,

    /// The algorithm of the signature.
    pub signature_algorithm: AlgorithmIdentifier,

    /// The signature, in an encoding that depends on the algorithm.
    pub signature: BitString,
}

/// What defines [`CertificationRequest`].
type CertificationRequestParts = Sequence<
    (CertificationRequestInfo, AlgorithmIdentifier, BitString),
>;

impl Parts for CertificationRequest {
    type As = CertificationRequestParts;

    type Tags = SequenceTag;

    const NAME: &'static str = "CertificationRequest";

    const PARTS: &'static [&'static str] = &[
        "certification_request_info",
        "signature_algorithm",
        "signature",
    ];

    ghost parts = { λ x. (x.certification_request_info, x.signature_algorithm, x.signature) };

    ghost typed = { ⟦<CertificationRequestParts as Type>⟧ };

    fn from_parts(value: CertificationRequestParts) -> CertificationRequest {
        let Sequence((certification_request_info, signature_algorithm, signature)) = value;
        CertificationRequest {
            certification_request_info,
            signature_algorithm,
            signature,
        }
    }

    fn parts_are_one() {
        <CertificationRequestParts>::values_are_one();
    }
}

impl<S: Source> DecodeParts<S> for CertificationRequest {
    fn trace_parts<P: Trace>(
        alloc: Global,
        cons: &mut Constructed<'_, S>,
        tag: Tag,
        path: &mut P,
    ) -> Result<Option<CertificationRequestParts>, DecodeError<S::Error>> {
        <CertificationRequestParts>::trace_opt_if(alloc, cons, tag, path)
    }
}

impl EncodeParts for CertificationRequest {
    ghost written = { ⟦<CertificationRequestParts as Encode>⟧ };

    fn give_parts<T, U: UseParts<T>>(&self, tag: Tag, to: U, target: &mut T) -> U::Out {
        to.use_parts(
            &Sequence((
                ByRef(&self.certification_request_info),
                ByRef(&self.signature_algorithm),
                ByRef(&self.signature),
            )),
            tag,
            target,
        )
    }

    fn are_read_back(tag: Tag, mode: Mode) {
        <CertificationRequestParts>::is_read_back(tag, mode);
    }

    ghost made = { λ v. (
      record {
        certification_request_info = v.0;
        signature_algorithm = v.1;
        signature = v.2;
      },
      refl,
    ) };
}

/// Whose key is to be certified (RFC 2986, section 4.1).
///
///     CertificationRequestInfo ::= SEQUENCE {
///         version        INTEGER { v1(0) } (v1,...),
///         subject        Name,
///         subjectPKInfo  SubjectPublicKeyInfo,
///         attributes     [0] Attributes }
///
///     Attributes ::= SET OF Attribute
///
/// Its module has implicit tags (RFC 2986, appendix A).
#[derive(Debug, Drop)]
pub struct CertificationRequestInfo {
    /// The version: 0 is the first.
    pub version: Version,

    /// Whose key it is.
    pub subject: Name,

    /// The key.
    pub subject_pk_info: SubjectPublicKeyInfo,

    /// What else is said of the subject.
    pub attributes: Implicit<Context<0>, SetOf<Attribute>>,
}

/// What defines [`CertificationRequestInfo`].
type CertificationRequestInfoParts = Sequence<
    (
        Version,
        Name,
        SubjectPublicKeyInfo,
        Implicit<Context<0>, SetOf<Attribute>>,
    ),
>;

impl Parts for CertificationRequestInfo {
    type As = CertificationRequestInfoParts;

    type Tags = SequenceTag;

    const NAME: &'static str = "CertificationRequestInfo";

    const PARTS: &'static [&'static str] = &["version", "subject", "subject_pk_info", "attributes"];

    ghost parts = { λ x. (x.version, x.subject, x.subject_pk_info, x.attributes) };

    ghost typed = { ⟦<CertificationRequestInfoParts as Type>⟧ };

    fn from_parts(value: CertificationRequestInfoParts) -> CertificationRequestInfo {
        let Sequence((version, subject, subject_pk_info, attributes)) = value;
        CertificationRequestInfo {
            version,
            subject,
            subject_pk_info,
            attributes,
        }
    }

    fn parts_are_one() {
        <CertificationRequestInfoParts>::values_are_one();
    }
}

impl<S: Source> DecodeParts<S> for CertificationRequestInfo {
    fn trace_parts<P: Trace>(
        alloc: Global,
        cons: &mut Constructed<'_, S>,
        tag: Tag,
        path: &mut P,
    ) -> Result<Option<CertificationRequestInfoParts>, DecodeError<S::Error>> {
        <CertificationRequestInfoParts>::trace_opt_if(alloc, cons, tag, path)
    }
}

impl EncodeParts for CertificationRequestInfo {
    ghost written = { ⟦<CertificationRequestInfoParts as Encode>⟧ };

    fn give_parts<T, U: UseParts<T>>(&self, tag: Tag, to: U, target: &mut T) -> U::Out {
        to.use_parts(
            &Sequence((
                ByRef(&self.version),
                ByRef(&self.subject),
                ByRef(&self.subject_pk_info),
                ByRef(&self.attributes),
            )),
            tag,
            target,
        )
    }

    fn are_read_back(tag: Tag, mode: Mode) {
        <CertificationRequestInfoParts>::is_read_back(tag, mode);
    }

    ghost made = { λ v. (
      record {
        version = v.0;
        subject = v.1;
        subject_pk_info = v.2;
        attributes = v.3;
      },
      refl,
    ) };
}

/// What is said of the subject besides (RFC 2986, section 4.1).
///
///     Attribute ::= SEQUENCE {
///         type    OBJECT IDENTIFIER,
///         values  SET SIZE (1..MAX) OF ANY -- DEFINED BY type }
///
/// One without a value is read too.
#[derive(Debug, Drop)]
pub struct Attribute {
    /// Which attribute it is: the `type`, which is a word of Rust.
    pub attribute_type: ObjectIdentifier,

    /// Its values, of a type that depends on the attribute.
    pub values: SetOf<Any>,
}

/// What defines [`Attribute`].
type AttributeParts = Sequence<(ObjectIdentifier, SetOf<Any>)>;

impl Parts for Attribute {
    type As = AttributeParts;

    type Tags = SequenceTag;

    const NAME: &'static str = "Attribute";

    const PARTS: &'static [&'static str] = &["attribute_type", "values"];

    ghost parts = { λ x. (x.attribute_type, x.values) };

    ghost typed = { ⟦<AttributeParts as Type>⟧ };

    fn from_parts(value: AttributeParts) -> Attribute {
        let Sequence((attribute_type, values)) = value;
        Attribute {
            attribute_type,
            values,
        }
    }

    fn parts_are_one() {
        <AttributeParts>::values_are_one();
    }
}

impl<S: Source> DecodeParts<S> for Attribute {
    fn trace_parts<P: Trace>(
        alloc: Global,
        cons: &mut Constructed<'_, S>,
        tag: Tag,
        path: &mut P,
    ) -> Result<Option<AttributeParts>, DecodeError<S::Error>> {
        <AttributeParts>::trace_opt_if(alloc, cons, tag, path)
    }
}

impl EncodeParts for Attribute {
    ghost written = { ⟦<AttributeParts as Encode>⟧ };

    fn give_parts<T, U: UseParts<T>>(&self, tag: Tag, to: U, target: &mut T) -> U::Out {
        to.use_parts(
            &Sequence((ByRef(&self.attribute_type), ByRef(&self.values))),
            tag,
            target,
        )
    }

    fn are_read_back(tag: Tag, mode: Mode) {
        <AttributeParts>::is_read_back(tag, mode);
    }

    ghost made = { λ v. (record { attribute_type = v.0; values = v.1 }, refl) };
}
