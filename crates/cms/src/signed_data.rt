//! Signed messages (RFC 5652, section 5).
ghost use Rattle.std.proofs.Common.{inl, rules};
ghost use Rattle.std.specs.Prelude.{⊤, refl, true};
ghost use Rattle.asn1.specs.Choices.{either_tagged};
ghost use Rattle.asn1.specs.Markers.{context_tagged};
ghost use Rattle.asn1.specs.Tags.{only_tagged, sequence_tagged};
ghost use Rattle.asn1.specs.declared.choice.Choice2.TheVariants.{One, Two};

use crate::EncapsulatedContentInfo;
use asn1::{
    Any, ByRef, Choice2, Context, Decode, DecodeParts, Encode, EncodeParts, Implicit, Parts,
    Sequence, SequenceTag, SetOf, Trace, Type, UseParts,
};
use bcder::decode::{Constructed, DecodeError, Source};
use bcder::{Integer, Mode, OctetString, Tag};
use pkix::{AlgorithmIdentifier, Attribute, KeyIdentifier, Name, SubjectKeyIdentifier};
use std::alloc::Global;

/// Content, and who signed it (RFC 5652, section 5.1).
///
///     SignedData ::= SEQUENCE {
///         version           CMSVersion,
///         digestAlgorithms  DigestAlgorithmIdentifiers,
///         encapContentInfo  EncapsulatedContentInfo,
///         certificates      [0] IMPLICIT CertificateSet OPTIONAL,
///         crls              [1] IMPLICIT RevocationInfoChoices OPTIONAL,
///         signerInfos       SignerInfos }
///
///     CMSVersion ::= INTEGER { v0(0), v1(1), v2(2), v3(3), v4(4), v5(5) }
///
///     DigestAlgorithmIdentifiers ::= SET OF DigestAlgorithmIdentifier
///
///     SignerInfos ::= SET OF SignerInfo
///
///     CertificateSet ::= SET OF CertificateChoices
///
///     RevocationInfoChoices ::= SET OF RevocationInfoChoice
///
/// Certificates and lists are kept as they are. They decode as [`Certificate`](pkix::Certificate)
/// and [`CertificateList`](pkix::CertificateList), or are of other kinds. Any version from 0 to 255 is
/// read.
#[derive(Debug, Drop)]
pub struct SignedData {
    /// The version.
    pub version: u8,

    /// The algorithms of the signers' digests.
    pub digest_algorithms: SetOf<AlgorithmIdentifier>,

    /// The content.
    pub encap_content_info: EncapsulatedContentInfo,

    /// Certificates.
    pub certificates: Option<Implicit<Context<0>, SetOf<Any>>>,

    /// Lists of revoked certificates.
    pub crls: Option<Implicit<Context<1>, SetOf<Any>>>,

    /// Who signed.
    pub signer_infos: SetOf<SignerInfo>,
}

/// What defines [`SignedData`].
type SignedDataParts = Sequence<
    (
        u8,
        SetOf<AlgorithmIdentifier>,
        EncapsulatedContentInfo,
        Option<Implicit<Context<0>, SetOf<Any>>>,
        Option<Implicit<Context<1>, SetOf<Any>>>,
        SetOf<SignerInfo>,
    ),
>;

impl Parts for SignedData {
    type As = SignedDataParts;

    type Tags = SequenceTag;

    const NAME: &'static str = "SignedData";

    const PARTS: &'static [&'static str] = &[
        "version",
        "digest_algorithms",
        "encap_content_info",
        "certificates",
        "crls",
        "signer_infos",
    ];

    ghost parts = { λ x. (
      x.version,
      x.digest_algorithms,
      x.encap_content_info,
      x.certificates,
      x.crls,
      x.signer_infos,
    ) };

    ghost typed = { ⟦<SignedDataParts as Type>⟧ };

    fn from_parts(value: SignedDataParts) -> SignedData {
        let Sequence(
            (version, digest_algorithms, encap_content_info, certificates, crls, signer_infos),
        ) = value;
        SignedData {
            version,
            digest_algorithms,
            encap_content_info,
            certificates,
            crls,
            signer_infos,
        }
    }

    fn parts_are_one() {
        <SignedDataParts>::values_are_one();
    }
}

impl<S: Source> DecodeParts<S> for SignedData {
    fn trace_parts<P: Trace>(
        alloc: Global,
        cons: &mut Constructed<'_, S>,
        tag: Tag,
        path: &mut P,
    ) -> Result<Option<SignedDataParts>, DecodeError<S::Error>> {
        <SignedDataParts>::trace_opt_if(alloc, cons, tag, path)
    }
}

impl EncodeParts for SignedData {
    ghost written = { ⟦<SignedDataParts as Encode>⟧ };

    fn give_parts<T, U: UseParts<T>>(&self, tag: Tag, to: U, target: &mut T) -> U::Out {
        to.use_parts(
            &Sequence((
                ByRef(&self.version),
                ByRef(&self.digest_algorithms),
                ByRef(&self.encap_content_info),
                ByRef(&self.certificates),
                ByRef(&self.crls),
                ByRef(&self.signer_infos),
            )),
            tag,
            target,
        )
    }

    fn are_read_back(tag: Tag, mode: Mode) {
        <SignedDataParts>::is_read_back(tag, mode);
    }

    ghost made = { λ v. (
      record {
        version = v.0;
        digest_algorithms = v.1;
        encap_content_info = v.2;
        certificates = v.3;
        crls = v.4;
        signer_infos = v.5;
      },
      refl,
    ) };
}

/// Who signed, and the signature (RFC 5652, section 5.3).
///
///     SignerInfo ::= SEQUENCE {
///         version             CMSVersion,
///         sid                 SignerIdentifier,
///         digestAlgorithm     DigestAlgorithmIdentifier,
///         signedAttrs         [0] IMPLICIT SignedAttributes OPTIONAL,
///         signatureAlgorithm  SignatureAlgorithmIdentifier,
///         signature           SignatureValue,
///         unsignedAttrs       [1] IMPLICIT UnsignedAttributes OPTIONAL }
///
///     SignedAttributes ::= SET SIZE (1..MAX) OF Attribute
///
///     UnsignedAttributes ::= SET SIZE (1..MAX) OF Attribute
///
///     SignatureValue ::= OCTET STRING
#[derive(Debug, Drop)]
pub struct SignerInfo {
    /// 1 with the issuer and serial number of a certificate, 3 with a key identifier.
    pub version: u8,

    /// Who signed.
    pub sid: SignerIdentifier,

    /// The algorithm of the digest.
    pub digest_algorithm: AlgorithmIdentifier,

    /// What is signed with the content.
    pub signed_attrs: Option<Implicit<Context<0>, SetOf<Attribute>>>,

    /// The algorithm of the signature.
    pub signature_algorithm: AlgorithmIdentifier,

    /// The signature.
    pub signature: OctetString,

    /// What else is said, not signed.
    pub unsigned_attrs: Option<Implicit<Context<1>, SetOf<Attribute>>>,
}

/// What defines [`SignerInfo`].
type SignerInfoParts = Sequence<
    (
        u8,
        SignerIdentifier,
        AlgorithmIdentifier,
        Option<Implicit<Context<0>, SetOf<Attribute>>>,
        AlgorithmIdentifier,
        OctetString,
        Option<Implicit<Context<1>, SetOf<Attribute>>>,
    ),
>;

impl Parts for SignerInfo {
    type As = SignerInfoParts;

    type Tags = SequenceTag;

    const NAME: &'static str = "SignerInfo";

    const PARTS: &'static [&'static str] = &[
        "version",
        "sid",
        "digest_algorithm",
        "signed_attrs",
        "signature_algorithm",
        "signature",
        "unsigned_attrs",
    ];

    ghost parts = { λ x. (
      x.version,
      x.sid,
      x.digest_algorithm,
      x.signed_attrs,
      x.signature_algorithm,
      x.signature,
      x.unsigned_attrs,
    ) };

    ghost typed = { ⟦<SignerInfoParts as Type>⟧ };

    fn from_parts(value: SignerInfoParts) -> SignerInfo {
        let Sequence(
            (
                version,
                sid,
                digest_algorithm,
                signed_attrs,
                signature_algorithm,
                signature,
                unsigned_attrs,
            ),
        ) = value;
        SignerInfo {
            version,
            sid,
            digest_algorithm,
            signed_attrs,
            signature_algorithm,
            signature,
            unsigned_attrs,
        }
    }

    fn parts_are_one() {
        <SignerInfoParts>::values_are_one();
    }
}

impl<S: Source> DecodeParts<S> for SignerInfo {
    fn trace_parts<P: Trace>(
        alloc: Global,
        cons: &mut Constructed<'_, S>,
        tag: Tag,
        path: &mut P,
    ) -> Result<Option<SignerInfoParts>, DecodeError<S::Error>> {
        <SignerInfoParts>::trace_opt_if(alloc, cons, tag, path)
    }
}

impl EncodeParts for SignerInfo {
    ghost written = { ⟦<SignerInfoParts as Encode>⟧ };

    fn give_parts<T, U: UseParts<T>>(&self, tag: Tag, to: U, target: &mut T) -> U::Out {
        to.use_parts(
            &Sequence((
                ByRef(&self.version),
                ByRef(&self.sid),
                ByRef(&self.digest_algorithm),
                ByRef(&self.signed_attrs),
                ByRef(&self.signature_algorithm),
                ByRef(&self.signature),
                ByRef(&self.unsigned_attrs),
            )),
            tag,
            target,
        )
    }

    fn are_read_back(tag: Tag, mode: Mode) {
        <SignerInfoParts>::is_read_back(tag, mode);
    }

    ghost made = { λ v. (
      record {
        version = v.0;
        sid = v.1;
        digest_algorithm = v.2;
        signed_attrs = v.3;
        signature_algorithm = v.4;
        signature = v.5;
        unsigned_attrs = v.6;
      },
      refl,
    ) };
}

/// Which certificate, or which key, a signer has (RFC 5652, section 5.3).
///
///     SignerIdentifier ::= CHOICE {
///         issuerAndSerialNumber  IssuerAndSerialNumber,
///         subjectKeyIdentifier   [0] SubjectKeyIdentifier }
#[derive(Debug, Drop)]
pub enum SignerIdentifier {
    /// Who issued the certificate, and its number.
    IssuerAndSerialNumber(IssuerAndSerialNumber),
    /// The identifier of the key.
    SubjectKeyIdentifier(Implicit<Context<0>, KeyIdentifier>),
}

ghost use Rattle.cms.specs.declared.signed_data.SignerIdentifier.TheVariants as signer;

/// What defines [`SignerIdentifier`].
type SignerIdentifierParts = Choice2<IssuerAndSerialNumber, Implicit<Context<0>, KeyIdentifier>>;

impl Parts for SignerIdentifier {
    type As = SignerIdentifierParts;

    type Tags = SignerIdentifierTags;

    const NAME: &'static str = "SignerIdentifier";

    const PARTS: &'static [&'static str] = &["issuer_and_serial_number", "subject_key_identifier"];

    ghost parts = { elim [
      | signer.IssuerAndSerialNumber x ↦ One x
      | signer.SubjectKeyIdentifier x ↦ Two x
    ] };

    ghost typed = { ⟦<SignerIdentifierParts as Type>⟧ };

    fn from_parts(value: SignerIdentifierParts) -> SignerIdentifier {
        match value {
            Choice2::One(value) => SignerIdentifier::IssuerAndSerialNumber(value),
            Choice2::Two(value) => SignerIdentifier::SubjectKeyIdentifier(value),
        }
    }

    fn parts_are_one() {
        <SignerIdentifierParts>::values_are_one();
    }
}

impl<S: Source> DecodeParts<S> for SignerIdentifier {
    fn trace_parts<P: Trace>(
        alloc: Global,
        cons: &mut Constructed<'_, S>,
        tag: Tag,
        path: &mut P,
    ) -> Result<Option<SignerIdentifierParts>, DecodeError<S::Error>> {
        <SignerIdentifierParts>::trace_opt_if(alloc, cons, tag, path)
    }
}

impl EncodeParts for SignerIdentifier {
    ghost written = { ⟦<SignerIdentifierParts as Encode>⟧ };

    fn give_parts<T, U: UseParts<T>>(&self, _tag: Tag, to: U, target: &mut T) -> U::Out {
        match self {
            SignerIdentifier::IssuerAndSerialNumber(value) => to.use_alternative(value, target),
            SignerIdentifier::SubjectKeyIdentifier(value) => to.use_alternative(value, target),
        }
    }

    fn are_read_back(tag: Tag, mode: Mode) {
        <SignerIdentifierParts>::is_read_back(tag, mode);
    }

    ghost made = { elim [
      | One x ↦ (signer.IssuerAndSerialNumber x, refl)
      | Two x ↦ (signer.SubjectKeyIdentifier x, refl)
    ] };
}

/// Who issued a certificate, and its number (RFC 5652, section 10.2.4).
///
///     IssuerAndSerialNumber ::= SEQUENCE {
///         issuer        Name,
///         serialNumber  CertificateSerialNumber }
#[derive(Debug, Drop)]
pub struct IssuerAndSerialNumber {
    /// Who issued it.
    pub issuer: Name,

    /// Its number.
    pub serial_number: Integer,
}

/// What defines [`IssuerAndSerialNumber`].
type IssuerAndSerialNumberParts = Sequence<(Name, Integer)>;

impl Parts for IssuerAndSerialNumber {
    type As = IssuerAndSerialNumberParts;

    type Tags = SequenceTag;

    const NAME: &'static str = "IssuerAndSerialNumber";

    const PARTS: &'static [&'static str] = &["issuer", "serial_number"];

    ghost parts = { λ x. (x.issuer, x.serial_number) };

    ghost typed = { ⟦<IssuerAndSerialNumberParts as Type>⟧ };

    fn from_parts(value: IssuerAndSerialNumberParts) -> IssuerAndSerialNumber {
        let Sequence((issuer, serial_number)) = value;
        IssuerAndSerialNumber {
            issuer,
            serial_number,
        }
    }

    fn parts_are_one() {
        <IssuerAndSerialNumberParts>::values_are_one();
    }
}

impl<S: Source> DecodeParts<S> for IssuerAndSerialNumber {
    fn trace_parts<P: Trace>(
        alloc: Global,
        cons: &mut Constructed<'_, S>,
        tag: Tag,
        path: &mut P,
    ) -> Result<Option<IssuerAndSerialNumberParts>, DecodeError<S::Error>> {
        <IssuerAndSerialNumberParts>::trace_opt_if(alloc, cons, tag, path)
    }
}

impl EncodeParts for IssuerAndSerialNumber {
    ghost written = { ⟦<IssuerAndSerialNumberParts as Encode>⟧ };

    fn give_parts<T, U: UseParts<T>>(&self, tag: Tag, to: U, target: &mut T) -> U::Out {
        to.use_parts(
            &Sequence((ByRef(&self.issuer), ByRef(&self.serial_number))),
            tag,
            target,
        )
    }

    fn are_read_back(tag: Tag, mode: Mode) {
        <IssuerAndSerialNumberParts>::is_read_back(tag, mode);
    }

    ghost made = { λ v. (record { issuer = v.0; serial_number = v.1 }, refl) };
}

/// The tags of a [`SignerIdentifier`], as a type without values.
///
/// With it, a proof about a type that holds one doesn't unfold the types of its alternatives.
#[derive(Clone, Copy, Debug, Drop)]
pub struct SignerIdentifierTags;

impl Type for SignerIdentifierTags {
    ghost TAG = { ⟦<SignerIdentifierParts as Type>⟧.TAG };

    #[inline(always)]
    fn tag() -> Tag {
        <SignerIdentifierParts>::tag()
    }

    ghost expects = { ⟦<SignerIdentifierParts as Type>⟧.expects };

    fn expect<P: Trace>(path: &mut P) {
        <SignerIdentifierParts>::expect(path);
    }

    ghost tags = { ⟦<SignerIdentifierParts as Type>⟧.tags };

    ghost Key = { ⊤ };

    ghost key = { λ _. tt };

    ghost means = { λ _ _ _. ⊥ };

    fn values_are_one() {}

    ghost tagged = { inl refl };

    ghost value_tags = { either_tagged (only_tagged sequence_tagged) (only_tagged (context_tagged {n = 0} (Prim.search rules))) };
}
