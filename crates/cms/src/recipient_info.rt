//! The key of an encrypted message for one recipient (RFC 5652, section 6.2).
ghost use Rattle.std.proofs.Common.{inl, rules};
ghost use Rattle.std.specs.Prelude.{⊤, refl, true};
ghost use Rattle.asn1.specs.Choices.{either_tagged};
ghost use Rattle.asn1.specs.Markers.{context_tagged};
ghost use Rattle.asn1.specs.Tags.{only_tagged, sequence_tagged};
ghost use Rattle.asn1.specs.declared.choice.Choice2.TheVariants.{One, Two};

use crate::{KekRecipientInfo, KeyAgreeRecipientInfo, SignerIdentifier};
use asn1::{
    Any, ByRef, Choice2, Context, Decode, DecodeParts, Encode, EncodeParts, Implicit,
    ObjectIdentifier, Parts, Sequence, SequenceTag, Trace, Type, UseParts,
};
use bcder::decode::{Constructed, DecodeError, Source};
use bcder::{Mode, OctetString, Tag};
use pkix::AlgorithmIdentifier;
use std::alloc::Global;

/// The key for a recipient (RFC 5652, section 6.2).
///
///     RecipientInfo ::= CHOICE {
///         ktri   KeyTransRecipientInfo,
///         kari   [1] KeyAgreeRecipientInfo,
///         kekri  [2] KEKRecipientInfo,
///         pwri   [3] PasswordRecipientInfo,
///         ori    [4] OtherRecipientInfo }
///
/// Tags are implicit.
#[derive(Debug, Drop)]
pub enum RecipientInfo {
    /// Encrypted with the recipient's public key.
    Ktri(KeyTransRecipientInfo),
    /// Encrypted with a key that both agreed upon.
    Kari(Implicit<Context<1>, KeyAgreeRecipientInfo>),
    /// Encrypted with a key that both have.
    Kekri(Implicit<Context<2>, KekRecipientInfo>),
    /// Encrypted with a password.
    Pwri(Implicit<Context<3>, PasswordRecipientInfo>),
    /// Another way.
    Ori(Implicit<Context<4>, OtherRecipientInfo>),
}

ghost use Rattle.cms.specs.declared.recipient_info.RecipientInfo.TheVariants as info;

/// What defines [`RecipientInfo`].
type RecipientInfoParts = Choice2<
    KeyTransRecipientInfo,
    Choice2<
        Implicit<Context<1>, KeyAgreeRecipientInfo>,
        Choice2<
            Implicit<Context<2>, KekRecipientInfo>,
            Choice2<
                Implicit<Context<3>, PasswordRecipientInfo>,
                Implicit<Context<4>, OtherRecipientInfo>,
            >,
        >,
    >,
>;

impl Parts for RecipientInfo {
    type As = RecipientInfoParts;

    type Tags = RecipientInfoTags;

    const NAME: &'static str = "RecipientInfo";

    const PARTS: &'static [&'static str] = &["ktri", "kari", "kekri", "pwri", "ori"];

    ghost parts = { elim [
      | info.Ktri x ↦ One x
      | info.Kari x ↦ Two (One x)
      | info.Kekri x ↦ Two (Two (One x))
      | info.Pwri x ↦ Two (Two (Two (One x)))
      | info.Ori x ↦ Two (Two (Two (Two x)))
    ] };

    ghost typed = { ⟦<RecipientInfoParts as Type>⟧ };

    fn from_parts(value: RecipientInfoParts) -> RecipientInfo {
        match value {
            Choice2::One(value) => RecipientInfo::Ktri(value),
            Choice2::Two(Choice2::One(value)) => RecipientInfo::Kari(value),
            Choice2::Two(Choice2::Two(Choice2::One(value))) => RecipientInfo::Kekri(value),
            Choice2::Two(Choice2::Two(Choice2::Two(Choice2::One(value)))) => RecipientInfo::Pwri(
                value,
            ),
            Choice2::Two(Choice2::Two(Choice2::Two(Choice2::Two(value)))) => RecipientInfo::Ori(
                value,
            ),
        }
    }

    fn parts_are_one() {
        <RecipientInfoParts>::values_are_one();
    }
}

impl<S: Source> DecodeParts<S> for RecipientInfo {
    fn trace_parts<P: Trace>(
        alloc: Global,
        cons: &mut Constructed<'_, S>,
        tag: Tag,
        path: &mut P,
    ) -> Result<Option<RecipientInfoParts>, DecodeError<S::Error>> {
        <RecipientInfoParts>::trace_opt_if(alloc, cons, tag, path)
    }
}

impl EncodeParts for RecipientInfo {
    ghost written = { ⟦<RecipientInfoParts as Encode>⟧ };

    fn give_parts<T, U: UseParts<T>>(&self, _tag: Tag, to: U, target: &mut T) -> U::Out {
        match self {
            RecipientInfo::Ktri(value) => to.use_alternative(value, target),
            RecipientInfo::Kari(value) => to.use_alternative(value, target),
            RecipientInfo::Kekri(value) => to.use_alternative(value, target),
            RecipientInfo::Pwri(value) => to.use_alternative(value, target),
            RecipientInfo::Ori(value) => to.use_alternative(value, target),
        }
    }

    fn are_read_back(tag: Tag, mode: Mode) {
        <RecipientInfoParts>::is_read_back(tag, mode);
    }

    ghost made = { elim [
      | One x ↦ (info.Ktri x, refl)
      | Two (One x) ↦ (info.Kari x, refl)
      | Two (Two (One x)) ↦ (info.Kekri x, refl)
      | Two (Two (Two (One x))) ↦ (info.Pwri x, refl)
      | Two (Two (Two (Two x))) ↦ (info.Ori x, refl)
    ] };
}

/// A key encrypted with the recipient's public key (RFC 5652, section 6.2.1).
///
///     KeyTransRecipientInfo ::= SEQUENCE {
///         version                 CMSVersion,
///         rid                     RecipientIdentifier,
///         keyEncryptionAlgorithm  KeyEncryptionAlgorithmIdentifier,
///         encryptedKey            EncryptedKey }
///
///     EncryptedKey ::= OCTET STRING
///
/// Any version from 0 to 255 is read.
#[derive(Debug, Drop)]
pub struct KeyTransRecipientInfo {
    /// 0 with the issuer and serial number of a certificate, 2 with a key identifier.
    pub version: u8,

    /// Who receives it.
    pub rid: RecipientIdentifier,

    /// How the key is encrypted.
    pub key_encryption_algorithm: AlgorithmIdentifier,

    /// The key, encrypted.
    pub encrypted_key: OctetString,
}

/// What defines [`KeyTransRecipientInfo`].
type KeyTransRecipientInfoParts = Sequence<
    (u8, RecipientIdentifier, AlgorithmIdentifier, OctetString),
>;

impl Parts for KeyTransRecipientInfo {
    type As = KeyTransRecipientInfoParts;

    type Tags = SequenceTag;

    const NAME: &'static str = "KeyTransRecipientInfo";

    const PARTS: &'static [&'static str] = &[
        "version",
        "rid",
        "key_encryption_algorithm",
        "encrypted_key",
    ];

    ghost parts = { λ x. (x.version, x.rid, x.key_encryption_algorithm, x.encrypted_key) };

    ghost typed = { ⟦<KeyTransRecipientInfoParts as Type>⟧ };

    fn from_parts(value: KeyTransRecipientInfoParts) -> KeyTransRecipientInfo {
        let Sequence((version, rid, key_encryption_algorithm, encrypted_key)) = value;
        KeyTransRecipientInfo {
            version,
            rid,
            key_encryption_algorithm,
            encrypted_key,
        }
    }

    fn parts_are_one() {
        <KeyTransRecipientInfoParts>::values_are_one();
    }
}

impl<S: Source> DecodeParts<S> for KeyTransRecipientInfo {
    fn trace_parts<P: Trace>(
        alloc: Global,
        cons: &mut Constructed<'_, S>,
        tag: Tag,
        path: &mut P,
    ) -> Result<Option<KeyTransRecipientInfoParts>, DecodeError<S::Error>> {
        <KeyTransRecipientInfoParts>::trace_opt_if(alloc, cons, tag, path)
    }
}

impl EncodeParts for KeyTransRecipientInfo {
    ghost written = { ⟦<KeyTransRecipientInfoParts as Encode>⟧ };

    fn give_parts<T, U: UseParts<T>>(&self, tag: Tag, to: U, target: &mut T) -> U::Out {
        to.use_parts(
            &Sequence((
                ByRef(&self.version),
                ByRef(&self.rid),
                ByRef(&self.key_encryption_algorithm),
                ByRef(&self.encrypted_key),
            )),
            tag,
            target,
        )
    }

    fn are_read_back(tag: Tag, mode: Mode) {
        <KeyTransRecipientInfoParts>::is_read_back(tag, mode);
    }

    ghost made = { λ v. (
      record {
        version = v.0;
        rid = v.1;
        key_encryption_algorithm = v.2;
        encrypted_key = v.3;
      },
      refl,
    ) };
}

/// Which certificate, or which key, a recipient has (RFC 5652, section 6.2.1).
///
///     RecipientIdentifier ::= CHOICE {
///         issuerAndSerialNumber  IssuerAndSerialNumber,
///         subjectKeyIdentifier   [0] SubjectKeyIdentifier }
///
/// It is the same CHOICE as that of a signer.
pub type RecipientIdentifier = SignerIdentifier;

/// A key encrypted with a password (RFC 5652, section 6.2.4).
///
///     PasswordRecipientInfo ::= SEQUENCE {
///         version                 CMSVersion,
///         keyDerivationAlgorithm  [0] KeyDerivationAlgorithmIdentifier OPTIONAL,
///         keyEncryptionAlgorithm  KeyEncryptionAlgorithmIdentifier,
///         encryptedKey            EncryptedKey }
///
/// Any version from 0 to 255 is read.
#[derive(Debug, Drop)]
pub struct PasswordRecipientInfo {
    /// The version, which is 0.
    pub version: u8,

    /// How a key is made of the password.
    pub key_derivation_algorithm: Option<Implicit<Context<0>, AlgorithmIdentifier>>,

    /// How the key is encrypted.
    pub key_encryption_algorithm: AlgorithmIdentifier,

    /// The key, encrypted.
    pub encrypted_key: OctetString,
}

/// What defines [`PasswordRecipientInfo`].
type PasswordRecipientInfoParts = Sequence<
    (
        u8,
        Option<Implicit<Context<0>, AlgorithmIdentifier>>,
        AlgorithmIdentifier,
        OctetString,
    ),
>;

impl Parts for PasswordRecipientInfo {
    type As = PasswordRecipientInfoParts;

    type Tags = SequenceTag;

    const NAME: &'static str = "PasswordRecipientInfo";

    const PARTS: &'static [&'static str] = &[
        "version",
        "key_derivation_algorithm",
        "key_encryption_algorithm",
        "encrypted_key",
    ];

    ghost parts = { λ x. (
      x.version,
      x.key_derivation_algorithm,
      x.key_encryption_algorithm,
      x.encrypted_key,
    ) };

    ghost typed = { ⟦<PasswordRecipientInfoParts as Type>⟧ };

    fn from_parts(value: PasswordRecipientInfoParts) -> PasswordRecipientInfo {
        let Sequence((version, key_derivation_algorithm, key_encryption_algorithm, encrypted_key)) =
            value;
        PasswordRecipientInfo {
            version,
            key_derivation_algorithm,
            key_encryption_algorithm,
            encrypted_key,
        }
    }

    fn parts_are_one() {
        <PasswordRecipientInfoParts>::values_are_one();
    }
}

impl<S: Source> DecodeParts<S> for PasswordRecipientInfo {
    fn trace_parts<P: Trace>(
        alloc: Global,
        cons: &mut Constructed<'_, S>,
        tag: Tag,
        path: &mut P,
    ) -> Result<Option<PasswordRecipientInfoParts>, DecodeError<S::Error>> {
        <PasswordRecipientInfoParts>::trace_opt_if(alloc, cons, tag, path)
    }
}

impl EncodeParts for PasswordRecipientInfo {
    ghost written = { ⟦<PasswordRecipientInfoParts as Encode>⟧ };

    fn give_parts<T, U: UseParts<T>>(&self, tag: Tag, to: U, target: &mut T) -> U::Out {
        to.use_parts(
            &Sequence((
                ByRef(&self.version),
                ByRef(&self.key_derivation_algorithm),
                ByRef(&self.key_encryption_algorithm),
                ByRef(&self.encrypted_key),
            )),
            tag,
            target,
        )
    }

    fn are_read_back(tag: Tag, mode: Mode) {
        <PasswordRecipientInfoParts>::is_read_back(tag, mode);
    }

    ghost made = { λ v. (
      record {
        version = v.0;
        key_derivation_algorithm = v.1;
        key_encryption_algorithm = v.2;
        encrypted_key = v.3;
      },
      refl,
    ) };
}

/// Another way to give the key (RFC 5652, section 6.2.5).
///
///     OtherRecipientInfo ::= SEQUENCE {
///         oriType   OBJECT IDENTIFIER,
///         oriValue  ANY DEFINED BY oriType }
#[derive(Debug, Drop)]
pub struct OtherRecipientInfo {
    /// Which way.
    pub ori_type: ObjectIdentifier,

    /// What it needs, of a type that depends on the way.
    pub ori_value: Any,
}

/// What defines [`OtherRecipientInfo`].
type OtherRecipientInfoParts = Sequence<(ObjectIdentifier, Any)>;

impl Parts for OtherRecipientInfo {
    type As = OtherRecipientInfoParts;

    type Tags = SequenceTag;

    const NAME: &'static str = "OtherRecipientInfo";

    const PARTS: &'static [&'static str] = &["ori_type", "ori_value"];

    ghost parts = { λ x. (x.ori_type, x.ori_value) };

    ghost typed = { ⟦<OtherRecipientInfoParts as Type>⟧ };

    fn from_parts(value: OtherRecipientInfoParts) -> OtherRecipientInfo {
        let Sequence((ori_type, ori_value)) = value;
        OtherRecipientInfo {
            ori_type,
            ori_value,
        }
    }

    fn parts_are_one() {
        <OtherRecipientInfoParts>::values_are_one();
    }
}

impl<S: Source> DecodeParts<S> for OtherRecipientInfo {
    fn trace_parts<P: Trace>(
        alloc: Global,
        cons: &mut Constructed<'_, S>,
        tag: Tag,
        path: &mut P,
    ) -> Result<Option<OtherRecipientInfoParts>, DecodeError<S::Error>> {
        <OtherRecipientInfoParts>::trace_opt_if(alloc, cons, tag, path)
    }
}

impl EncodeParts for OtherRecipientInfo {
    ghost written = { ⟦<OtherRecipientInfoParts as Encode>⟧ };

    fn give_parts<T, U: UseParts<T>>(&self, tag: Tag, to: U, target: &mut T) -> U::Out {
        to.use_parts(
            &Sequence((ByRef(&self.ori_type), ByRef(&self.ori_value))),
            tag,
            target,
        )
    }

    fn are_read_back(tag: Tag, mode: Mode) {
        <OtherRecipientInfoParts>::is_read_back(tag, mode);
    }

    ghost made = { λ v. (record { ori_type = v.0; ori_value = v.1 }, refl) };
}

/// The tags of a [`RecipientInfo`], as a type without values.
///
/// With it, a proof about a type that holds one doesn't unfold the types of its alternatives.
#[derive(Clone, Copy, Debug, Drop)]
pub struct RecipientInfoTags;

impl Type for RecipientInfoTags {
    ghost TAG = { ⟦<RecipientInfoParts as Type>⟧.TAG };

    #[inline(always)]
    fn tag() -> Tag {
        <RecipientInfoParts>::tag()
    }

    ghost expects = { ⟦<RecipientInfoParts as Type>⟧.expects };

    fn expect<P: Trace>(path: &mut P) {
        <RecipientInfoParts>::expect(path);
    }

    ghost tags = { ⟦<RecipientInfoParts as Type>⟧.tags };

    ghost Key = { ⊤ };

    ghost key = { λ _. tt };

    ghost means = { λ _ _ _. ⊥ };

    fn values_are_one() {}

    ghost tagged = { inl refl };

    ghost value_tags = { either_tagged (only_tagged sequence_tagged) (either_tagged (only_tagged (context_tagged {n = 1} (Prim.search rules))) (either_tagged (only_tagged (context_tagged {n = 2} (Prim.search rules))) (either_tagged (only_tagged (context_tagged {n = 3} (Prim.search rules))) (only_tagged (context_tagged {n = 4} (Prim.search rules)))))) };
}
