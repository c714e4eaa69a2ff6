//! What is signed of a certificate.
ghost use Rattle.std.specs.Prelude.{refl};

use crate::{AlgorithmIdentifier, Extensions, Name, SubjectPublicKeyInfo, Validity};
use asn1::{
    ByRef, Context, Decode, DecodeParts, DefaultValue, Encode, EncodeParts, Explicit, Implicit,
    OrDefault, Parts, Sequence, SequenceTag, Trace, Type, UseParts,
};
use bcder::decode::{Constructed, DecodeError, Source};
use bcder::{BitString, Integer, Mode, NoMemory, Tag};
use std::alloc::Global;

/// The version of a certificate: 0 is the first, 1 the second and 2 the third (RFC 5280, section
/// 4.1.2.1).
///
///     Version ::= INTEGER { v1(0), v2(1), v3(2) }
///
/// Any number from 0 to 255 is read.
pub type Version = u8;

/// `v1`, if no version is written.
#[derive(Clone, Copy, Debug, PartialEq, Eq)]
pub struct Version1;

impl DefaultValue<Explicit<Context<0>, Version>> for Version1 {
    ghost default = { 0 };

    fn is_default(value: &Explicit<Context<0>, Version>) -> bool {
        value.value == 0
    }

    fn make(_alloc: Global) -> Result<Explicit<Context<0>, Version>, NoMemory> {
        Ok(Explicit::new(0))
    }
}

/// What tells two issuers or subjects with one name apart (RFC 5280, section 4.1.2.8).
///
///     UniqueIdentifier ::= BIT STRING
pub type UniqueIdentifier = BitString;

/// What is signed of a certificate (RFC 5280, section 4.1.2).
///
///     TBSCertificate ::= SEQUENCE {
///         version               [0] EXPLICIT Version DEFAULT v1,
///         serialNumber          CertificateSerialNumber,
///         signature             AlgorithmIdentifier,
///         issuer                Name,
///         validity              Validity,
///         subject               Name,
///         subjectPublicKeyInfo  SubjectPublicKeyInfo,
///         issuerUniqueID        [1] IMPLICIT UniqueIdentifier OPTIONAL,
///         subjectUniqueID       [2] IMPLICIT UniqueIdentifier OPTIONAL,
///         extensions            [3] EXPLICIT Extensions OPTIONAL }
///
///     CertificateSerialNumber ::= INTEGER
#[derive(Debug, Drop)]
pub struct TbsCertificate {
    /// The version. It says which of the other fields there may be, which isn't looked at.
    pub version: OrDefault<Explicit<Context<0>, Version>, Version1>,

    /// The number that the issuer gave to the certificate.
    pub serial_number: Integer,

    /// The algorithm of the signature, once more.
    pub signature: AlgorithmIdentifier,

    /// Who signed.
    pub issuer: Name,

    /// When it is valid.
    pub validity: Validity,

    /// Whose key it is.
    pub subject: Name,

    /// The key.
    pub subject_public_key_info: SubjectPublicKeyInfo,

    /// Tells issuers with one name apart.
    pub issuer_unique_id: Option<Implicit<Context<1>, UniqueIdentifier>>,

    /// Tells subjects with one name apart.
    pub subject_unique_id: Option<Implicit<Context<2>, UniqueIdentifier>>,

    /// The extensions.
    pub extensions: Option<Explicit<Context<3>, Extensions>>,
}

/// What defines [`TbsCertificate`].
type TbsCertificateParts = Sequence<
    (
        OrDefault<Explicit<Context<0>, Version>, Version1>,
        Integer,
        AlgorithmIdentifier,
        Name,
        Validity,
        Name,
        SubjectPublicKeyInfo,
        Option<Implicit<Context<1>, UniqueIdentifier>>,
        Option<Implicit<Context<2>, UniqueIdentifier>>,
        Option<Explicit<Context<3>, Extensions>>,
    ),
>;

impl Parts for TbsCertificate {
    type As = TbsCertificateParts;

    type Tags = SequenceTag;

    const NAME: &'static str = "TbsCertificate";

    const PARTS: &'static [&'static str] = &[
        "version",
        "serial_number",
        "signature",
        "issuer",
        "validity",
        "subject",
        "subject_public_key_info",
        "issuer_unique_id",
        "subject_unique_id",
        "extensions",
    ];

    ghost parts = { λ x. (
      x.version,
      x.serial_number,
      x.signature,
      x.issuer,
      x.validity,
      x.subject,
      x.subject_public_key_info,
      x.issuer_unique_id,
      x.subject_unique_id,
      x.extensions,
    ) };

    ghost typed = { ⟦<TbsCertificateParts as Type>⟧ };

    fn from_parts(value: TbsCertificateParts) -> TbsCertificate {
        let Sequence(
            (
                version,
                serial_number,
                signature,
                issuer,
                validity,
                subject,
                subject_public_key_info,
                issuer_unique_id,
                subject_unique_id,
                extensions,
            ),
        ) = value;
        TbsCertificate {
            version,
            serial_number,
            signature,
            issuer,
            validity,
            subject,
            subject_public_key_info,
            issuer_unique_id,
            subject_unique_id,
            extensions,
        }
    }

    fn parts_are_one() {
        <TbsCertificateParts>::values_are_one();
    }
}

impl<S: Source> DecodeParts<S> for TbsCertificate {
    fn trace_parts<P: Trace>(
        alloc: Global,
        cons: &mut Constructed<'_, S>,
        tag: Tag,
        path: &mut P,
    ) -> Result<Option<TbsCertificateParts>, DecodeError<S::Error>> {
        <TbsCertificateParts>::trace_opt_if(alloc, cons, tag, path)
    }
}

impl EncodeParts for TbsCertificate {
    ghost written = { ⟦<TbsCertificateParts as Encode>⟧ };

    fn give_parts<T, U: UseParts<T>>(&self, tag: Tag, to: U, target: &mut T) -> U::Out {
        to.use_parts(
            &Sequence((
                ByRef(&self.version),
                ByRef(&self.serial_number),
                ByRef(&self.signature),
                ByRef(&self.issuer),
                ByRef(&self.validity),
                ByRef(&self.subject),
                ByRef(&self.subject_public_key_info),
                ByRef(&self.issuer_unique_id),
                ByRef(&self.subject_unique_id),
                ByRef(&self.extensions),
            )),
            tag,
            target,
        )
    }

    fn are_read_back(tag: Tag, mode: Mode) {
        <TbsCertificateParts>::is_read_back(tag, mode);
    }

    ghost made = { λ v. (
      record {
        version = v.0;
        serial_number = v.1;
        signature = v.2;
        issuer = v.3;
        validity = v.4;
        subject = v.5;
        subject_public_key_info = v.6;
        issuer_unique_id = v.7;
        subject_unique_id = v.8;
        extensions = v.9;
      },
      refl,
    ) };
}
