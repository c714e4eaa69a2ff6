//! What is signed of a list of revoked certificates.
ghost use Rattle.std.specs.Prelude.{refl};

use crate::{AlgorithmIdentifier, Extensions, Name, Time, Version};
use asn1::{
    ByRef, Context, Decode, DecodeParts, Encode, EncodeParts, Explicit, Parts, Sequence,
    SequenceOf, SequenceTag, Trace, Type, UseParts,
};
use bcder::decode::{Constructed, DecodeError, Source};
use bcder::{Integer, Mode, Tag};
use std::alloc::Global;

/// What is signed of a list of revoked certificates (RFC 5280, section 5.1.2).
///
///     TBSCertList ::= SEQUENCE {
///         version              Version OPTIONAL,
///         signature            AlgorithmIdentifier,
///         issuer               Name,
///         thisUpdate           Time,
///         nextUpdate           Time OPTIONAL,
///         revokedCertificates  SEQUENCE OF SEQUENCE { .. } OPTIONAL,
///         crlExtensions        [0] EXPLICIT Extensions OPTIONAL }
#[derive(Debug, Drop)]
pub struct TbsCertList {
    /// The version. It says whether there may be extensions, which isn't looked at.
    pub version: Option<Version>,

    /// The algorithm of the signature, once more.
    pub signature: AlgorithmIdentifier,

    /// Who signed.
    pub issuer: Name,

    /// When the list was made.
    pub this_update: Time,

    /// By when the next one comes.
    pub next_update: Option<Time>,

    /// The certificates.
    pub revoked_certificates: Option<SequenceOf<RevokedCertificate>>,

    /// The extensions of the list.
    pub crl_extensions: Option<Explicit<Context<0>, Extensions>>,
}

/// What defines [`TbsCertList`].
type TbsCertListParts = Sequence<
    (
        Option<Version>,
        AlgorithmIdentifier,
        Name,
        Time,
        Option<Time>,
        Option<SequenceOf<RevokedCertificate>>,
        Option<Explicit<Context<0>, Extensions>>,
    ),
>;

impl Parts for TbsCertList {
    type As = TbsCertListParts;

    type Tags = SequenceTag;

    const NAME: &'static str = "TbsCertList";

    const PARTS: &'static [&'static str] = &[
        "version",
        "signature",
        "issuer",
        "this_update",
        "next_update",
        "revoked_certificates",
        "crl_extensions",
    ];

    ghost parts = { λ x. (
      x.version,
      x.signature,
      x.issuer,
      x.this_update,
      x.next_update,
      x.revoked_certificates,
      x.crl_extensions,
    ) };

    ghost typed = { ⟦<TbsCertListParts as Type>⟧ };

    fn from_parts(value: TbsCertListParts) -> TbsCertList {
        let Sequence(
            (
                version,
                signature,
                issuer,
                this_update,
                next_update,
                revoked_certificates,
                crl_extensions,
            ),
        ) = value;
        TbsCertList {
            version,
            signature,
            issuer,
            this_update,
            next_update,
            revoked_certificates,
            crl_extensions,
        }
    }

    fn parts_are_one() {
        <TbsCertListParts>::values_are_one();
    }
}

impl<S: Source> DecodeParts<S> for TbsCertList {
    fn trace_parts<P: Trace>(
        alloc: Global,
        cons: &mut Constructed<'_, S>,
        tag: Tag,
        path: &mut P,
    ) -> Result<Option<TbsCertListParts>, DecodeError<S::Error>> {
        <TbsCertListParts>::trace_opt_if(alloc, cons, tag, path)
    }
}

impl EncodeParts for TbsCertList {
    ghost written = { ⟦<TbsCertListParts as Encode>⟧ };

    fn give_parts<T, U: UseParts<T>>(&self, tag: Tag, to: U, target: &mut T) -> U::Out {
        to.use_parts(
            &Sequence((
                ByRef(&self.version),
                ByRef(&self.signature),
                ByRef(&self.issuer),
                ByRef(&self.this_update),
                ByRef(&self.next_update),
                ByRef(&self.revoked_certificates),
                ByRef(&self.crl_extensions),
            )),
            tag,
            target,
        )
    }

    fn are_read_back(tag: Tag, mode: Mode) {
        <TbsCertListParts>::is_read_back(tag, mode);
    }

    ghost made = { λ v. (
      record {
        version = v.0;
        signature = v.1;
        issuer = v.2;
        this_update = v.3;
        next_update = v.4;
        revoked_certificates = v.5;
        crl_extensions = v.6;
      },
      refl,
    ) };
}

/// A certificate that is revoked (RFC 5280, section 5.1.2.6).
///
///     SEQUENCE {
///         userCertificate     CertificateSerialNumber,
///         revocationDate      Time,
///         crlEntryExtensions  Extensions OPTIONAL }
#[derive(Debug, Drop)]
pub struct RevokedCertificate {
    /// The number that the issuer gave to the certificate.
    pub user_certificate: Integer,

    /// When it was revoked.
    pub revocation_date: Time,

    /// The extensions of the entry.
    pub crl_entry_extensions: Option<Extensions>,
}

/// What defines [`RevokedCertificate`].
type RevokedCertificateParts = Sequence<(Integer, Time, Option<Extensions>)>;

impl Parts for RevokedCertificate {
    type As = RevokedCertificateParts;

    type Tags = SequenceTag;

    const NAME: &'static str = "RevokedCertificate";

    const PARTS: &'static [&'static str] = &[
        "user_certificate",
        "revocation_date",
        "crl_entry_extensions",
    ];

    ghost parts = { λ x. (x.user_certificate, x.revocation_date, x.crl_entry_extensions) };

    ghost typed = { ⟦<RevokedCertificateParts as Type>⟧ };

    fn from_parts(value: RevokedCertificateParts) -> RevokedCertificate {
        let Sequence((user_certificate, revocation_date, crl_entry_extensions)) = value;
        RevokedCertificate {
            user_certificate,
            revocation_date,
            crl_entry_extensions,
        }
    }

    fn parts_are_one() {
        <RevokedCertificateParts>::values_are_one();
    }
}

impl<S: Source> DecodeParts<S> for RevokedCertificate {
    fn trace_parts<P: Trace>(
        alloc: Global,
        cons: &mut Constructed<'_, S>,
        tag: Tag,
        path: &mut P,
    ) -> Result<Option<RevokedCertificateParts>, DecodeError<S::Error>> {
        <RevokedCertificateParts>::trace_opt_if(alloc, cons, tag, path)
    }
}

impl EncodeParts for RevokedCertificate {
    ghost written = { ⟦<RevokedCertificateParts as Encode>⟧ };

    fn give_parts<T, U: UseParts<T>>(&self, tag: Tag, to: U, target: &mut T) -> U::Out {
        to.use_parts(
            &Sequence((
                ByRef(&self.user_certificate),
                ByRef(&self.revocation_date),
                ByRef(&self.crl_entry_extensions),
            )),
            tag,
            target,
        )
    }

    fn are_read_back(tag: Tag, mode: Mode) {
        <RevokedCertificateParts>::is_read_back(tag, mode);
    }

    ghost made = { λ v. (
      record {
        user_certificate = v.0;
        revocation_date = v.1;
        crl_entry_extensions = v.2;
      },
      refl,
    ) };
}
