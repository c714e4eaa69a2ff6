//! Encrypted messages with a key for each recipient (RFC 5652, section 6).
ghost use Rattle.std.specs.Prelude.{refl};

use crate::{EncryptedContentInfo, RecipientInfo};
use asn1::{
    Any, ByRef, Context, Decode, DecodeParts, Encode, EncodeParts, Implicit, Parts, Sequence,
    SequenceTag, SetOf, Trace, Type, UseParts,
};
use bcder::decode::{Constructed, DecodeError, Source};
use bcder::{Mode, Tag};
use pkix::Attribute;
use std::alloc::Global;

/// Encrypted content, and its key for each recipient (RFC 5652, section 6.1).
///
///     EnvelopedData ::= SEQUENCE {
///         version               CMSVersion,
///         originatorInfo        [0] IMPLICIT OriginatorInfo OPTIONAL,
///         recipientInfos        RecipientInfos,
///         encryptedContentInfo  EncryptedContentInfo,
///         unprotectedAttrs      [1] IMPLICIT UnprotectedAttributes OPTIONAL }
///
///     RecipientInfos ::= SET SIZE (1..MAX) OF RecipientInfo
///
///     UnprotectedAttributes ::= SET SIZE (1..MAX) OF Attribute
///
/// Any version from 0 to 255 is read, and empty sets are too.
#[derive(Debug, Drop)]
pub struct EnvelopedData {
    /// The version.
    pub version: u8,

    /// Certificates and lists of the sender.
    pub originator_info: Option<Implicit<Context<0>, OriginatorInfo>>,

    /// The key for each recipient.
    pub recipient_infos: SetOf<RecipientInfo>,

    /// The content.
    pub encrypted_content_info: EncryptedContentInfo,

    /// What else is said, not encrypted.
    pub unprotected_attrs: Option<Implicit<Context<1>, SetOf<Attribute>>>,
}

/// What defines [`EnvelopedData`].
type EnvelopedDataParts = Sequence<
    (
        u8,
        Option<Implicit<Context<0>, OriginatorInfo>>,
        SetOf<RecipientInfo>,
        EncryptedContentInfo,
        Option<Implicit<Context<1>, SetOf<Attribute>>>,
    ),
>;

impl Parts for EnvelopedData {
    type As = EnvelopedDataParts;

    type Tags = SequenceTag;

    const NAME: &'static str = "EnvelopedData";

    const PARTS: &'static [&'static str] = &[
        "version",
        "originator_info",
        "recipient_infos",
        "encrypted_content_info",
        "unprotected_attrs",
    ];

    ghost parts = { λ x. (
      x.version,
      x.originator_info,
      x.recipient_infos,
      x.encrypted_content_info,
      x.unprotected_attrs,
    ) };

    ghost typed = { ⟦<EnvelopedDataParts as Type>⟧ };

    fn from_parts(value: EnvelopedDataParts) -> EnvelopedData {
        let Sequence(
            (version, originator_info, recipient_infos, encrypted_content_info, unprotected_attrs),
        ) = value;
        EnvelopedData {
            version,
            originator_info,
            recipient_infos,
            encrypted_content_info,
            unprotected_attrs,
        }
    }

    fn parts_are_one() {
        <EnvelopedDataParts>::values_are_one();
    }
}

impl<S: Source> DecodeParts<S> for EnvelopedData {
    fn trace_parts<P: Trace>(
        alloc: Global,
        cons: &mut Constructed<'_, S>,
        tag: Tag,
        path: &mut P,
    ) -> Result<Option<EnvelopedDataParts>, DecodeError<S::Error>> {
        <EnvelopedDataParts>::trace_opt_if(alloc, cons, tag, path)
    }
}

impl EncodeParts for EnvelopedData {
    ghost written = { ⟦<EnvelopedDataParts as Encode>⟧ };

    fn give_parts<T, U: UseParts<T>>(&self, tag: Tag, to: U, target: &mut T) -> U::Out {
        to.use_parts(
            &Sequence((
                ByRef(&self.version),
                ByRef(&self.originator_info),
                ByRef(&self.recipient_infos),
                ByRef(&self.encrypted_content_info),
                ByRef(&self.unprotected_attrs),
            )),
            tag,
            target,
        )
    }

    fn are_read_back(tag: Tag, mode: Mode) {
        <EnvelopedDataParts>::is_read_back(tag, mode);
    }

    ghost made = { λ v. (
      record {
        version = v.0;
        originator_info = v.1;
        recipient_infos = v.2;
        encrypted_content_info = v.3;
        unprotected_attrs = v.4;
      },
      refl,
    ) };
}

/// Certificates and lists of a sender (RFC 5652, section 6.1).
///
///     OriginatorInfo ::= SEQUENCE {
///         certs  [0] IMPLICIT CertificateSet OPTIONAL,
///         crls   [1] IMPLICIT RevocationInfoChoices OPTIONAL }
///
/// Both are kept as they are.
#[derive(Debug, Drop)]
pub struct OriginatorInfo {
    /// Certificates.
    pub certs: Option<Implicit<Context<0>, SetOf<Any>>>,

    /// Lists of revoked certificates.
    pub crls: Option<Implicit<Context<1>, SetOf<Any>>>,
}

/// What defines [`OriginatorInfo`].
type OriginatorInfoParts = Sequence<
    (
        Option<Implicit<Context<0>, SetOf<Any>>>,
        Option<Implicit<Context<1>, SetOf<Any>>>,
    ),
>;

impl Parts for OriginatorInfo {
    type As = OriginatorInfoParts;

    type Tags = SequenceTag;

    const NAME: &'static str = "OriginatorInfo";

    const PARTS: &'static [&'static str] = &["certs", "crls"];

    ghost parts = { λ x. (x.certs, x.crls) };

    ghost typed = { ⟦<OriginatorInfoParts as Type>⟧ };

    fn from_parts(value: OriginatorInfoParts) -> OriginatorInfo {
        let Sequence((certs, crls)) = value;
        OriginatorInfo { certs, crls }
    }

    fn parts_are_one() {
        <OriginatorInfoParts>::values_are_one();
    }
}

impl<S: Source> DecodeParts<S> for OriginatorInfo {
    fn trace_parts<P: Trace>(
        alloc: Global,
        cons: &mut Constructed<'_, S>,
        tag: Tag,
        path: &mut P,
    ) -> Result<Option<OriginatorInfoParts>, DecodeError<S::Error>> {
        <OriginatorInfoParts>::trace_opt_if(alloc, cons, tag, path)
    }
}

impl EncodeParts for OriginatorInfo {
    ghost written = { ⟦<OriginatorInfoParts as Encode>⟧ };

    fn give_parts<T, U: UseParts<T>>(&self, tag: Tag, to: U, target: &mut T) -> U::Out {
        to.use_parts(
            &Sequence((ByRef(&self.certs), ByRef(&self.crls))),
            tag,
            target,
        )
    }

    fn are_read_back(tag: Tag, mode: Mode) {
        <OriginatorInfoParts>::is_read_back(tag, mode);
    }

    ghost made = { λ v. (record { certs = v.0; crls = v.1 }, refl) };
}
