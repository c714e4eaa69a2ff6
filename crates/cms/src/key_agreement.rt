//! Keys that a sender and a recipient agree upon (RFC 5652, section 6.2.2).
ghost use Rattle.std.proofs.Common.{inl, rules};
ghost use Rattle.std.specs.Prelude.{⊤, refl, true};
ghost use Rattle.asn1.specs.Choices.{either_tagged};
ghost use Rattle.asn1.specs.Markers.{context_tagged};
ghost use Rattle.asn1.specs.Tags.{only_tagged, sequence_tagged};
ghost use Rattle.asn1.specs.declared.choice.Choice2.TheVariants.{One, Two};

use crate::{IssuerAndSerialNumber, KeyAgreeRecipientIdentifier};
use asn1::{
    ByRef, Choice2, Context, Decode, DecodeParts, Encode, EncodeParts, Explicit, Implicit, Parts,
    Sequence, SequenceOf, SequenceTag, Trace, Type, UseParts,
};
use bcder::decode::{Constructed, DecodeError, Source};
use bcder::{BitString, Mode, OctetString, Tag};
use pkix::{AlgorithmIdentifier, KeyIdentifier};
use std::alloc::Global;

/// A key encrypted with one that was agreed upon (RFC 5652, section 6.2.2).
///
///     KeyAgreeRecipientInfo ::= SEQUENCE {
///         version                 CMSVersion,
///         originator              [0] EXPLICIT OriginatorIdentifierOrKey,
///         ukm                     [1] EXPLICIT UserKeyingMaterial OPTIONAL,
///         keyEncryptionAlgorithm  KeyEncryptionAlgorithmIdentifier,
///         recipientEncryptedKeys  RecipientEncryptedKeys }
///
///     UserKeyingMaterial ::= OCTET STRING
///
///     RecipientEncryptedKeys ::= SEQUENCE OF RecipientEncryptedKey
///
/// Any version from 0 to 255 is read.
#[derive(Debug, Drop)]
pub struct KeyAgreeRecipientInfo {
    /// The version, which is 3.
    pub version: u8,

    /// The sender's key.
    pub originator: Explicit<Context<0>, OriginatorIdentifierOrKey>,

    /// What makes the key another one each time.
    pub ukm: Option<Explicit<Context<1>, OctetString>>,

    /// How the key is encrypted.
    pub key_encryption_algorithm: AlgorithmIdentifier,

    /// The key, for each recipient.
    pub recipient_encrypted_keys: SequenceOf<RecipientEncryptedKey>,
}

/// What defines [`KeyAgreeRecipientInfo`].
type KeyAgreeRecipientInfoParts = Sequence<
    (
        u8,
        Explicit<Context<0>, OriginatorIdentifierOrKey>,
        Option<Explicit<Context<1>, OctetString>>,
        AlgorithmIdentifier,
        SequenceOf<RecipientEncryptedKey>,
    ),
>;

impl Parts for KeyAgreeRecipientInfo {
    type As = KeyAgreeRecipientInfoParts;

    type Tags = SequenceTag;

    const NAME: &'static str = "KeyAgreeRecipientInfo";

    const PARTS: &'static [&'static str] = &[
        "version",
        "originator",
        "ukm",
        "key_encryption_algorithm",
        "recipient_encrypted_keys",
    ];

    ghost parts = { λ x. (
      x.version,
      x.originator,
      x.ukm,
      x.key_encryption_algorithm,
      x.recipient_encrypted_keys,
    ) };

    ghost typed = { ⟦<KeyAgreeRecipientInfoParts as Type>⟧ };

    fn from_parts(value: KeyAgreeRecipientInfoParts) -> KeyAgreeRecipientInfo {
        let Sequence(
            (version, originator, ukm, key_encryption_algorithm, recipient_encrypted_keys),
        ) = value;
        KeyAgreeRecipientInfo {
            version,
            originator,
            ukm,
            key_encryption_algorithm,
            recipient_encrypted_keys,
        }
    }

    fn parts_are_one() {
        <KeyAgreeRecipientInfoParts>::values_are_one();
    }
}

impl<S: Source> DecodeParts<S> for KeyAgreeRecipientInfo {
    fn trace_parts<P: Trace>(
        alloc: Global,
        cons: &mut Constructed<'_, S>,
        tag: Tag,
        path: &mut P,
    ) -> Result<Option<KeyAgreeRecipientInfoParts>, DecodeError<S::Error>> {
        <KeyAgreeRecipientInfoParts>::trace_opt_if(alloc, cons, tag, path)
    }
}

impl EncodeParts for KeyAgreeRecipientInfo {
    ghost written = { ⟦<KeyAgreeRecipientInfoParts as Encode>⟧ };

    fn give_parts<T, U: UseParts<T>>(&self, tag: Tag, to: U, target: &mut T) -> U::Out {
        to.use_parts(
            &Sequence((
                ByRef(&self.version),
                ByRef(&self.originator),
                ByRef(&self.ukm),
                ByRef(&self.key_encryption_algorithm),
                ByRef(&self.recipient_encrypted_keys),
            )),
            tag,
            target,
        )
    }

    fn are_read_back(tag: Tag, mode: Mode) {
        <KeyAgreeRecipientInfoParts>::is_read_back(tag, mode);
    }

    ghost made = { λ v. (
      record {
        version = v.0;
        originator = v.1;
        ukm = v.2;
        key_encryption_algorithm = v.3;
        recipient_encrypted_keys = v.4;
      },
      refl,
    ) };
}

/// A sender's certificate or key (RFC 5652, section 6.2.2).
///
///     OriginatorIdentifierOrKey ::= CHOICE {
///         issuerAndSerialNumber  IssuerAndSerialNumber,
///         subjectKeyIdentifier   [0] SubjectKeyIdentifier,
///         originatorKey          [1] OriginatorPublicKey }
#[derive(Debug, Drop)]
pub enum OriginatorIdentifierOrKey {
    /// Who issued the certificate, and its number.
    IssuerAndSerialNumber(IssuerAndSerialNumber),
    /// The identifier of the key.
    SubjectKeyIdentifier(Implicit<Context<0>, KeyIdentifier>),
    /// The key.
    OriginatorKey(Implicit<Context<1>, OriginatorPublicKey>),
}

ghost use Rattle.cms.specs.declared.key_agreement.OriginatorIdentifierOrKey.TheVariants as sender;

/// What defines [`OriginatorIdentifierOrKey`].
type OriginatorIdentifierOrKeyParts = Choice2<
    IssuerAndSerialNumber,
    Choice2<Implicit<Context<0>, KeyIdentifier>, Implicit<Context<1>, OriginatorPublicKey>>,
>;

impl Parts for OriginatorIdentifierOrKey {
    type As = OriginatorIdentifierOrKeyParts;

    type Tags = OriginatorIdentifierOrKeyTags;

    const NAME: &'static str = "OriginatorIdentifierOrKey";

    const PARTS: &'static [&'static str] = &[
        "issuer_and_serial_number",
        "subject_key_identifier",
        "originator_key",
    ];

    ghost parts = { elim [
      | sender.IssuerAndSerialNumber x ↦ One x
      | sender.SubjectKeyIdentifier x ↦ Two (One x)
      | sender.OriginatorKey x ↦ Two (Two x)
    ] };

    ghost typed = { ⟦<OriginatorIdentifierOrKeyParts as Type>⟧ };

    fn from_parts(value: OriginatorIdentifierOrKeyParts) -> OriginatorIdentifierOrKey {
        match value {
            Choice2::One(value) => OriginatorIdentifierOrKey::IssuerAndSerialNumber(value),
            Choice2::Two(Choice2::One(value)) => OriginatorIdentifierOrKey::SubjectKeyIdentifier(
                value,
            ),
            Choice2::Two(Choice2::Two(value)) => OriginatorIdentifierOrKey::OriginatorKey(value),
        }
    }

    fn parts_are_one() {
        <OriginatorIdentifierOrKeyParts>::values_are_one();
    }
}

impl<S: Source> DecodeParts<S> for OriginatorIdentifierOrKey {
    fn trace_parts<P: Trace>(
        alloc: Global,
        cons: &mut Constructed<'_, S>,
        tag: Tag,
        path: &mut P,
    ) -> Result<Option<OriginatorIdentifierOrKeyParts>, DecodeError<S::Error>> {
        <OriginatorIdentifierOrKeyParts>::trace_opt_if(alloc, cons, tag, path)
    }
}

impl EncodeParts for OriginatorIdentifierOrKey {
    ghost written = { ⟦<OriginatorIdentifierOrKeyParts as Encode>⟧ };

    fn give_parts<T, U: UseParts<T>>(&self, _tag: Tag, to: U, target: &mut T) -> U::Out {
        match self {
            OriginatorIdentifierOrKey::IssuerAndSerialNumber(value) => to.use_alternative(
                value, target,
            ),
            OriginatorIdentifierOrKey::SubjectKeyIdentifier(value) => to.use_alternative(
                value, target,
            ),
            OriginatorIdentifierOrKey::OriginatorKey(value) => to.use_alternative(value, target),
        }
    }

    fn are_read_back(tag: Tag, mode: Mode) {
        <OriginatorIdentifierOrKeyParts>::is_read_back(tag, mode);
    }

    ghost made = { elim [
      | One x ↦ (sender.IssuerAndSerialNumber x, refl)
      | Two (One x) ↦ (sender.SubjectKeyIdentifier x, refl)
      | Two (Two x) ↦ (sender.OriginatorKey x, refl)
    ] };
}

/// A sender's key (RFC 5652, section 6.2.2).
///
///     OriginatorPublicKey ::= SEQUENCE {
///         algorithm  AlgorithmIdentifier,
///         publicKey  BIT STRING }
#[derive(Debug, Drop)]
pub struct OriginatorPublicKey {
    /// The algorithm of the key.
    pub algorithm: AlgorithmIdentifier,

    /// The key.
    pub public_key: BitString,
}

/// What defines [`OriginatorPublicKey`].
type OriginatorPublicKeyParts = Sequence<(AlgorithmIdentifier, BitString)>;

impl Parts for OriginatorPublicKey {
    type As = OriginatorPublicKeyParts;

    type Tags = SequenceTag;

    const NAME: &'static str = "OriginatorPublicKey";

    const PARTS: &'static [&'static str] = &["algorithm", "public_key"];

    ghost parts = { λ x. (x.algorithm, x.public_key) };

    ghost typed = { ⟦<OriginatorPublicKeyParts as Type>⟧ };

    fn from_parts(value: OriginatorPublicKeyParts) -> OriginatorPublicKey {
        let Sequence((algorithm, public_key)) = value;
        OriginatorPublicKey {
            algorithm,
            public_key,
        }
    }

    fn parts_are_one() {
        <OriginatorPublicKeyParts>::values_are_one();
    }
}

impl<S: Source> DecodeParts<S> for OriginatorPublicKey {
    fn trace_parts<P: Trace>(
        alloc: Global,
        cons: &mut Constructed<'_, S>,
        tag: Tag,
        path: &mut P,
    ) -> Result<Option<OriginatorPublicKeyParts>, DecodeError<S::Error>> {
        <OriginatorPublicKeyParts>::trace_opt_if(alloc, cons, tag, path)
    }
}

impl EncodeParts for OriginatorPublicKey {
    ghost written = { ⟦<OriginatorPublicKeyParts as Encode>⟧ };

    fn give_parts<T, U: UseParts<T>>(&self, tag: Tag, to: U, target: &mut T) -> U::Out {
        to.use_parts(
            &Sequence((ByRef(&self.algorithm), ByRef(&self.public_key))),
            tag,
            target,
        )
    }

    fn are_read_back(tag: Tag, mode: Mode) {
        <OriginatorPublicKeyParts>::is_read_back(tag, mode);
    }

    ghost made = { λ v. (record { algorithm = v.0; public_key = v.1 }, refl) };
}

/// The key for one recipient (RFC 5652, section 6.2.2).
///
///     RecipientEncryptedKey ::= SEQUENCE {
///         rid           KeyAgreeRecipientIdentifier,
///         encryptedKey  EncryptedKey }
#[derive(Debug, Drop)]
pub struct RecipientEncryptedKey {
    /// Who receives it.
    pub rid: KeyAgreeRecipientIdentifier,

    /// The key, encrypted.
    pub encrypted_key: OctetString,
}

/// What defines [`RecipientEncryptedKey`].
type RecipientEncryptedKeyParts = Sequence<(KeyAgreeRecipientIdentifier, OctetString)>;

impl Parts for RecipientEncryptedKey {
    type As = RecipientEncryptedKeyParts;

    type Tags = SequenceTag;

    const NAME: &'static str = "RecipientEncryptedKey";

    const PARTS: &'static [&'static str] = &["rid", "encrypted_key"];

    ghost parts = { λ x. (x.rid, x.encrypted_key) };

    ghost typed = { ⟦<RecipientEncryptedKeyParts as Type>⟧ };

    fn from_parts(value: RecipientEncryptedKeyParts) -> RecipientEncryptedKey {
        let Sequence((rid, encrypted_key)) = value;
        RecipientEncryptedKey { rid, encrypted_key }
    }

    fn parts_are_one() {
        <RecipientEncryptedKeyParts>::values_are_one();
    }
}

impl<S: Source> DecodeParts<S> for RecipientEncryptedKey {
    fn trace_parts<P: Trace>(
        alloc: Global,
        cons: &mut Constructed<'_, S>,
        tag: Tag,
        path: &mut P,
    ) -> Result<Option<RecipientEncryptedKeyParts>, DecodeError<S::Error>> {
        <RecipientEncryptedKeyParts>::trace_opt_if(alloc, cons, tag, path)
    }
}

impl EncodeParts for RecipientEncryptedKey {
    ghost written = { ⟦<RecipientEncryptedKeyParts as Encode>⟧ };

    fn give_parts<T, U: UseParts<T>>(&self, tag: Tag, to: U, target: &mut T) -> U::Out {
        to.use_parts(
            &Sequence((ByRef(&self.rid), ByRef(&self.encrypted_key))),
            tag,
            target,
        )
    }

    fn are_read_back(tag: Tag, mode: Mode) {
        <RecipientEncryptedKeyParts>::is_read_back(tag, mode);
    }

    ghost made = { λ v. (record { rid = v.0; encrypted_key = v.1 }, refl) };
}

/// The tags of a [`OriginatorIdentifierOrKey`], as a type without values.
///
/// With it, a proof about a type that holds one doesn't unfold the types of its alternatives.
#[derive(Clone, Copy, Debug, Drop)]
pub struct OriginatorIdentifierOrKeyTags;

impl Type for OriginatorIdentifierOrKeyTags {
    ghost TAG = { ⟦<OriginatorIdentifierOrKeyParts as Type>⟧.TAG };

    #[inline(always)]
    fn tag() -> Tag {
        <OriginatorIdentifierOrKeyParts>::tag()
    }

    ghost expects = { ⟦<OriginatorIdentifierOrKeyParts as Type>⟧.expects };

    fn expect<P: Trace>(path: &mut P) {
        <OriginatorIdentifierOrKeyParts>::expect(path);
    }

    ghost tags = { ⟦<OriginatorIdentifierOrKeyParts as Type>⟧.tags };

    ghost Key = { ⊤ };

    ghost key = { λ _. tt };

    ghost means = { λ _ _ _. ⊥ };

    fn values_are_one() {}

    ghost tagged = { inl refl };

    ghost value_tags = { either_tagged (only_tagged sequence_tagged) (either_tagged (only_tagged (context_tagged {n = 0} (Prim.search rules))) (only_tagged (context_tagged {n = 1} (Prim.search rules)))) };
}
