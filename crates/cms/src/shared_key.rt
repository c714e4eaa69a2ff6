//! Keys that a sender and a recipient have (RFC 5652, section 6.2.3).
ghost use Rattle.std.specs.Prelude.{refl};

use asn1::{
    Any, ByRef, Decode, DecodeParts, Encode, EncodeParts, GeneralizedTime, ObjectIdentifier, Parts,
    Sequence, SequenceTag, Trace, Type, UseParts,
};
use bcder::decode::{Constructed, DecodeError, Source};
use bcder::{Mode, OctetString, Tag};
use pkix::AlgorithmIdentifier;
use std::alloc::Global;

/// A key encrypted with one that both have (RFC 5652, section 6.2.3).
///
///     KEKRecipientInfo ::= SEQUENCE {
///         version                 CMSVersion,
///         kekid                   KEKIdentifier,
///         keyEncryptionAlgorithm  KeyEncryptionAlgorithmIdentifier,
///         encryptedKey            EncryptedKey }
///
/// Any version from 0 to 255 is read.
#[derive(Debug, Drop)]
pub struct KekRecipientInfo {
    /// The version, which is 4.
    pub version: u8,

    /// Which key both have.
    pub kekid: KekIdentifier,

    /// How the key is encrypted.
    pub key_encryption_algorithm: AlgorithmIdentifier,

    /// The key, encrypted.
    pub encrypted_key: OctetString,
}

/// What defines [`KekRecipientInfo`].
type KekRecipientInfoParts = Sequence<(u8, KekIdentifier, AlgorithmIdentifier, OctetString)>;

impl Parts for KekRecipientInfo {
    type As = KekRecipientInfoParts;

    type Tags = SequenceTag;

    const NAME: &'static str = "KekRecipientInfo";

    const PARTS: &'static [&'static str] = &[
        "version",
        "kekid",
        "key_encryption_algorithm",
        "encrypted_key",
    ];

    ghost parts = { λ x. (x.version, x.kekid, x.key_encryption_algorithm, x.encrypted_key) };

    ghost typed = { ⟦<KekRecipientInfoParts as Type>⟧ };

    fn from_parts(value: KekRecipientInfoParts) -> KekRecipientInfo {
        let Sequence((version, kekid, key_encryption_algorithm, encrypted_key)) = value;
        KekRecipientInfo {
            version,
            kekid,
            key_encryption_algorithm,
            encrypted_key,
        }
    }

    fn parts_are_one() {
        <KekRecipientInfoParts>::values_are_one();
    }
}

impl<S: Source> DecodeParts<S> for KekRecipientInfo {
    fn trace_parts<P: Trace>(
        alloc: Global,
        cons: &mut Constructed<'_, S>,
        tag: Tag,
        path: &mut P,
    ) -> Result<Option<KekRecipientInfoParts>, DecodeError<S::Error>> {
        <KekRecipientInfoParts>::trace_opt_if(alloc, cons, tag, path)
    }
}

impl EncodeParts for KekRecipientInfo {
    ghost written = { ⟦<KekRecipientInfoParts as Encode>⟧ };

    fn give_parts<T, U: UseParts<T>>(&self, tag: Tag, to: U, target: &mut T) -> U::Out {
        to.use_parts(
            &Sequence((
                ByRef(&self.version),
                ByRef(&self.kekid),
                ByRef(&self.key_encryption_algorithm),
                ByRef(&self.encrypted_key),
            )),
            tag,
            target,
        )
    }

    fn are_read_back(tag: Tag, mode: Mode) {
        <KekRecipientInfoParts>::is_read_back(tag, mode);
    }

    ghost made = { λ v. (
      record {
        version = v.0;
        kekid = v.1;
        key_encryption_algorithm = v.2;
        encrypted_key = v.3;
      },
      refl,
    ) };
}

/// Which key a sender and a recipient have (RFC 5652, section 6.2.3).
///
///     KEKIdentifier ::= SEQUENCE {
///         keyIdentifier  OCTET STRING,
///         date           GeneralizedTime OPTIONAL,
///         other          OtherKeyAttribute OPTIONAL }
#[derive(Debug, Drop)]
pub struct KekIdentifier {
    /// The identifier of the key.
    pub key_identifier: OctetString,

    /// Which key, if several have the identifier.
    pub date: Option<GeneralizedTime>,

    /// What else tells which key it is.
    pub other: Option<OtherKeyAttribute>,
}

/// What defines [`KekIdentifier`].
type KekIdentifierParts = Sequence<
    (
        OctetString,
        Option<GeneralizedTime>,
        Option<OtherKeyAttribute>,
    ),
>;

impl Parts for KekIdentifier {
    type As = KekIdentifierParts;

    type Tags = SequenceTag;

    const NAME: &'static str = "KekIdentifier";

    const PARTS: &'static [&'static str] = &["key_identifier", "date", "other"];

    ghost parts = { λ x. (x.key_identifier, x.date, x.other) };

    ghost typed = { ⟦<KekIdentifierParts as Type>⟧ };

    fn from_parts(value: KekIdentifierParts) -> KekIdentifier {
        let Sequence((key_identifier, date, other)) = value;
        KekIdentifier {
            key_identifier,
            date,
            other,
        }
    }

    fn parts_are_one() {
        <KekIdentifierParts>::values_are_one();
    }
}

impl<S: Source> DecodeParts<S> for KekIdentifier {
    fn trace_parts<P: Trace>(
        alloc: Global,
        cons: &mut Constructed<'_, S>,
        tag: Tag,
        path: &mut P,
    ) -> Result<Option<KekIdentifierParts>, DecodeError<S::Error>> {
        <KekIdentifierParts>::trace_opt_if(alloc, cons, tag, path)
    }
}

impl EncodeParts for KekIdentifier {
    ghost written = { ⟦<KekIdentifierParts as Encode>⟧ };

    fn give_parts<T, U: UseParts<T>>(&self, tag: Tag, to: U, target: &mut T) -> U::Out {
        to.use_parts(
            &Sequence((
                ByRef(&self.key_identifier),
                ByRef(&self.date),
                ByRef(&self.other),
            )),
            tag,
            target,
        )
    }

    fn are_read_back(tag: Tag, mode: Mode) {
        <KekIdentifierParts>::is_read_back(tag, mode);
    }

    ghost made = { λ v. (record { key_identifier = v.0; date = v.1; other = v.2 }, refl) };
}

/// What else tells which key it is (RFC 5652, section 10.2.7).
///
///     OtherKeyAttribute ::= SEQUENCE {
///         keyAttrId  OBJECT IDENTIFIER,
///         keyAttr    ANY DEFINED BY keyAttrId OPTIONAL }
#[derive(Debug, Drop)]
pub struct OtherKeyAttribute {
    /// Which attribute it is.
    pub key_attr_id: ObjectIdentifier,

    /// Its value, of a type that depends on the attribute.
    pub key_attr: Option<Any>,
}

/// What defines [`OtherKeyAttribute`].
type OtherKeyAttributeParts = Sequence<(ObjectIdentifier, Option<Any>)>;

impl Parts for OtherKeyAttribute {
    type As = OtherKeyAttributeParts;

    type Tags = SequenceTag;

    const NAME: &'static str = "OtherKeyAttribute";

    const PARTS: &'static [&'static str] = &["key_attr_id", "key_attr"];

    ghost parts = { λ x. (x.key_attr_id, x.key_attr) };

    ghost typed = { ⟦<OtherKeyAttributeParts as Type>⟧ };

    fn from_parts(value: OtherKeyAttributeParts) -> OtherKeyAttribute {
        let Sequence((key_attr_id, key_attr)) = value;
        OtherKeyAttribute {
            key_attr_id,
            key_attr,
        }
    }

    fn parts_are_one() {
        <OtherKeyAttributeParts>::values_are_one();
    }
}

impl<S: Source> DecodeParts<S> for OtherKeyAttribute {
    fn trace_parts<P: Trace>(
        alloc: Global,
        cons: &mut Constructed<'_, S>,
        tag: Tag,
        path: &mut P,
    ) -> Result<Option<OtherKeyAttributeParts>, DecodeError<S::Error>> {
        <OtherKeyAttributeParts>::trace_opt_if(alloc, cons, tag, path)
    }
}

impl EncodeParts for OtherKeyAttribute {
    ghost written = { ⟦<OtherKeyAttributeParts as Encode>⟧ };

    fn give_parts<T, U: UseParts<T>>(&self, tag: Tag, to: U, target: &mut T) -> U::Out {
        to.use_parts(
            &Sequence((ByRef(&self.key_attr_id), ByRef(&self.key_attr))),
            tag,
            target,
        )
    }

    fn are_read_back(tag: Tag, mode: Mode) {
        <OtherKeyAttributeParts>::is_read_back(tag, mode);
    }

    ghost made = { λ v. (record { key_attr_id = v.0; key_attr = v.1 }, refl) };
}
