//! Messages: content with its type (RFC 5652).
ghost use Rattle.std.specs.Prelude.{refl};

use asn1::{
    Any, ByRef, Context, Decode, DecodeParts, Encode, EncodeParts, Explicit, Implicit,
    ObjectIdentifier, Parts, Sequence, SequenceTag, SetOf, Trace, Type, UseParts,
};
use bcder::decode::{Constructed, DecodeError, Source};
use bcder::{Mode, OctetString, Tag};
use pkix::{AlgorithmIdentifier, Attribute};
use std::alloc::Global;

/// Content with its type (RFC 5652, section 3).
///
///     ContentInfo ::= SEQUENCE {
///         contentType  ContentType,
///         content      [0] EXPLICIT ANY DEFINED BY contentType }
///
///     ContentType ::= OBJECT IDENTIFIER
#[derive(Debug, Drop)]
pub struct ContentInfo {
    /// Which content it is.
    pub content_type: ObjectIdentifier,

    /// The content, as [`SignedData`](crate::SignedData).
    pub content: Explicit<Context<0>, Any>,
}

/// What defines [`ContentInfo`].
type ContentInfoParts = Sequence<(ObjectIdentifier, Explicit<Context<0>, Any>)>;

impl Parts for ContentInfo {
    type As = ContentInfoParts;

    type Tags = SequenceTag;

    const NAME: &'static str = "ContentInfo";

    const PARTS: &'static [&'static str] = &["content_type", "content"];

    ghost parts = { λ x. (x.content_type, x.content) };

    ghost typed = { ⟦<ContentInfoParts as Type>⟧ };

    fn from_parts(value: ContentInfoParts) -> ContentInfo {
        let Sequence((content_type, content)) = value;
        ContentInfo {
            content_type,
            content,
        }
    }

    fn parts_are_one() {
        <ContentInfoParts>::values_are_one();
    }
}

impl<S: Source> DecodeParts<S> for ContentInfo {
    fn trace_parts<P: Trace>(
        alloc: Global,
        cons: &mut Constructed<'_, S>,
        tag: Tag,
        path: &mut P,
    ) -> Result<Option<ContentInfoParts>, DecodeError<S::Error>> {
        <ContentInfoParts>::trace_opt_if(alloc, cons, tag, path)
    }
}

impl EncodeParts for ContentInfo {
    ghost written = { ⟦<ContentInfoParts as Encode>⟧ };

    fn give_parts<T, U: UseParts<T>>(&self, tag: Tag, to: U, target: &mut T) -> U::Out {
        to.use_parts(
            &Sequence((ByRef(&self.content_type), ByRef(&self.content))),
            tag,
            target,
        )
    }

    fn are_read_back(tag: Tag, mode: Mode) {
        <ContentInfoParts>::is_read_back(tag, mode);
    }

    ghost made = { λ v. (record { content_type = v.0; content = v.1 }, refl) };
}

/// Content that is signed (RFC 5652, section 5.2).
///
///     EncapsulatedContentInfo ::= SEQUENCE {
///         eContentType  ContentType,
///         eContent      [0] EXPLICIT OCTET STRING OPTIONAL }
#[derive(Debug, Drop)]
pub struct EncapsulatedContentInfo {
    /// Which content it is.
    pub e_content_type: ObjectIdentifier,

    /// The content; left out if it is kept elsewhere.
    pub e_content: Option<Explicit<Context<0>, OctetString>>,
}

/// What defines [`EncapsulatedContentInfo`].
type EncapsulatedContentInfoParts = Sequence<
    (ObjectIdentifier, Option<Explicit<Context<0>, OctetString>>),
>;

impl Parts for EncapsulatedContentInfo {
    type As = EncapsulatedContentInfoParts;

    type Tags = SequenceTag;

    const NAME: &'static str = "EncapsulatedContentInfo";

    const PARTS: &'static [&'static str] = &["e_content_type", "e_content"];

    ghost parts = { λ x. (x.e_content_type, x.e_content) };

    ghost typed = { ⟦<EncapsulatedContentInfoParts as Type>⟧ };

    fn from_parts(value: EncapsulatedContentInfoParts) -> EncapsulatedContentInfo {
        let Sequence((e_content_type, e_content)) = value;
        EncapsulatedContentInfo {
            e_content_type,
            e_content,
        }
    }

    fn parts_are_one() {
        <EncapsulatedContentInfoParts>::values_are_one();
    }
}

impl<S: Source> DecodeParts<S> for EncapsulatedContentInfo {
    fn trace_parts<P: Trace>(
        alloc: Global,
        cons: &mut Constructed<'_, S>,
        tag: Tag,
        path: &mut P,
    ) -> Result<Option<EncapsulatedContentInfoParts>, DecodeError<S::Error>> {
        <EncapsulatedContentInfoParts>::trace_opt_if(alloc, cons, tag, path)
    }
}

impl EncodeParts for EncapsulatedContentInfo {
    ghost written = { ⟦<EncapsulatedContentInfoParts as Encode>⟧ };

    fn give_parts<T, U: UseParts<T>>(&self, tag: Tag, to: U, target: &mut T) -> U::Out {
        to.use_parts(
            &Sequence((ByRef(&self.e_content_type), ByRef(&self.e_content))),
            tag,
            target,
        )
    }

    fn are_read_back(tag: Tag, mode: Mode) {
        <EncapsulatedContentInfoParts>::is_read_back(tag, mode);
    }

    ghost made = { λ v. (record { e_content_type = v.0; e_content = v.1 }, refl) };
}

/// Content that is encrypted (RFC 5652, section 6.1).
///
///     EncryptedContentInfo ::= SEQUENCE {
///         contentType                 ContentType,
///         contentEncryptionAlgorithm  ContentEncryptionAlgorithmIdentifier,
///         encryptedContent            [0] IMPLICIT EncryptedContent OPTIONAL }
///
///     EncryptedContent ::= OCTET STRING
#[derive(Debug, Drop)]
pub struct EncryptedContentInfo {
    /// Which content it is.
    pub content_type: ObjectIdentifier,

    /// How it is encrypted.
    pub content_encryption_algorithm: AlgorithmIdentifier,

    /// Its encryption; left out if it is kept elsewhere.
    pub encrypted_content: Option<Implicit<Context<0>, OctetString>>,
}

/// What defines [`EncryptedContentInfo`].
type EncryptedContentInfoParts = Sequence<
    (
        ObjectIdentifier,
        AlgorithmIdentifier,
        Option<Implicit<Context<0>, OctetString>>,
    ),
>;

impl Parts for EncryptedContentInfo {
    type As = EncryptedContentInfoParts;

    type Tags = SequenceTag;

    const NAME: &'static str = "EncryptedContentInfo";

    const PARTS: &'static [&'static str] = &[
        "content_type",
        "content_encryption_algorithm",
        "encrypted_content",
    ];

    ghost parts = { λ x. (x.content_type, x.content_encryption_algorithm, x.encrypted_content) };

    ghost typed = { ⟦<EncryptedContentInfoParts as Type>⟧ };

    fn from_parts(value: EncryptedContentInfoParts) -> EncryptedContentInfo {
        let Sequence((content_type, content_encryption_algorithm, encrypted_content)) = value;
        EncryptedContentInfo {
            content_type,
            content_encryption_algorithm,
            encrypted_content,
        }
    }

    fn parts_are_one() {
        <EncryptedContentInfoParts>::values_are_one();
    }
}

impl<S: Source> DecodeParts<S> for EncryptedContentInfo {
    fn trace_parts<P: Trace>(
        alloc: Global,
        cons: &mut Constructed<'_, S>,
        tag: Tag,
        path: &mut P,
    ) -> Result<Option<EncryptedContentInfoParts>, DecodeError<S::Error>> {
        <EncryptedContentInfoParts>::trace_opt_if(alloc, cons, tag, path)
    }
}

impl EncodeParts for EncryptedContentInfo {
    ghost written = { ⟦<EncryptedContentInfoParts as Encode>⟧ };

    fn give_parts<T, U: UseParts<T>>(&self, tag: Tag, to: U, target: &mut T) -> U::Out {
        to.use_parts(
            &Sequence((
                ByRef(&self.content_type),
                ByRef(&self.content_encryption_algorithm),
                ByRef(&self.encrypted_content),
            )),
            tag,
            target,
        )
    }

    fn are_read_back(tag: Tag, mode: Mode) {
        <EncryptedContentInfoParts>::is_read_back(tag, mode);
    }

    ghost made = { λ v. (
      record {
        content_type = v.0;
        content_encryption_algorithm = v.1;
        encrypted_content = v.2;
      },
      refl,
    ) };
}

/// Encrypted content whose key is known otherwise (RFC 5652, section 8).
///
///     EncryptedData ::= SEQUENCE {
///         version                CMSVersion,
///         encryptedContentInfo   EncryptedContentInfo,
///         unprotectedAttrs       [1] IMPLICIT UnprotectedAttributes OPTIONAL }
///
///     UnprotectedAttributes ::= SET SIZE (1..MAX) OF Attribute
///
/// Any version from 0 to 255 is read, and an empty set is too.
#[derive(Debug, Drop)]
pub struct EncryptedData {
    /// The version.
    pub version: u8,

    /// The content.
    pub encrypted_content_info: EncryptedContentInfo,

    /// What else is said of it, not encrypted.
    pub unprotected_attrs: Option<Implicit<Context<1>, SetOf<Attribute>>>,
}

/// What defines [`EncryptedData`].
type EncryptedDataParts = Sequence<
    (
        u8,
        EncryptedContentInfo,
        Option<Implicit<Context<1>, SetOf<Attribute>>>,
    ),
>;

impl Parts for EncryptedData {
    type As = EncryptedDataParts;

    type Tags = SequenceTag;

    const NAME: &'static str = "EncryptedData";

    const PARTS: &'static [&'static str] = &[
        "version",
        "encrypted_content_info",
        "unprotected_attrs",
    ];

    ghost parts = { λ x. (x.version, x.encrypted_content_info, x.unprotected_attrs) };

    ghost typed = { ⟦<EncryptedDataParts as Type>⟧ };

    fn from_parts(value: EncryptedDataParts) -> EncryptedData {
        let Sequence((version, encrypted_content_info, unprotected_attrs)) = value;
        EncryptedData {
            version,
            encrypted_content_info,
            unprotected_attrs,
        }
    }

    fn parts_are_one() {
        <EncryptedDataParts>::values_are_one();
    }
}

impl<S: Source> DecodeParts<S> for EncryptedData {
    fn trace_parts<P: Trace>(
        alloc: Global,
        cons: &mut Constructed<'_, S>,
        tag: Tag,
        path: &mut P,
    ) -> Result<Option<EncryptedDataParts>, DecodeError<S::Error>> {
        <EncryptedDataParts>::trace_opt_if(alloc, cons, tag, path)
    }
}

impl EncodeParts for EncryptedData {
    ghost written = { ⟦<EncryptedDataParts as Encode>⟧ };

    fn give_parts<T, U: UseParts<T>>(&self, tag: Tag, to: U, target: &mut T) -> U::Out {
        to.use_parts(
            &Sequence((
                ByRef(&self.version),
                ByRef(&self.encrypted_content_info),
                ByRef(&self.unprotected_attrs),
            )),
            tag,
            target,
        )
    }

    fn are_read_back(tag: Tag, mode: Mode) {
        <EncryptedDataParts>::is_read_back(tag, mode);
    }

    ghost made = { λ v. (
      record {
        version = v.0;
        encrypted_content_info = v.1;
        unprotected_attrs = v.2;
      },
      refl,
    ) };
}
