//! Which key a recipient has (RFC 5652, section 6.2.2).
ghost use Rattle.std.proofs.Common.{inl, rules};
ghost use Rattle.std.specs.Prelude.{⊤, refl, true};
ghost use Rattle.asn1.specs.Choices.{either_tagged};
ghost use Rattle.asn1.specs.Markers.{context_tagged};
ghost use Rattle.asn1.specs.Tags.{only_tagged, sequence_tagged};
ghost use Rattle.asn1.specs.declared.choice.Choice2.TheVariants.{One, Two};

use crate::{IssuerAndSerialNumber, OtherKeyAttribute};
use asn1::{
    ByRef, Choice2, Context, Decode, DecodeParts, Encode, EncodeParts, GeneralizedTime, Implicit,
    Parts, Sequence, SequenceTag, Trace, Type, UseParts,
};
use bcder::decode::{Constructed, DecodeError, Source};
use bcder::{Mode, Tag};
use pkix::SubjectKeyIdentifier;
use std::alloc::Global;

/// Which certificate, or which key, a recipient has (RFC 5652, section 6.2.2).
///
///     KeyAgreeRecipientIdentifier ::= CHOICE {
///         issuerAndSerialNumber  IssuerAndSerialNumber,
///         rKeyId                 [0] IMPLICIT RecipientKeyIdentifier }
#[derive(Debug, Drop)]
pub enum KeyAgreeRecipientIdentifier {
    /// Who issued the certificate, and its number.
    IssuerAndSerialNumber(IssuerAndSerialNumber),
    /// The key.
    RKeyId(Implicit<Context<0>, RecipientKeyIdentifier>),
}

ghost use Rattle.cms.specs.declared.recipient_key.KeyAgreeRecipientIdentifier.TheVariants as key;

/// What defines [`KeyAgreeRecipientIdentifier`].
type KeyAgreeRecipientIdentifierParts = Choice2<
    IssuerAndSerialNumber,
    Implicit<Context<0>, RecipientKeyIdentifier>,
>;

impl Parts for KeyAgreeRecipientIdentifier {
    type As = KeyAgreeRecipientIdentifierParts;

    type Tags = KeyAgreeRecipientIdentifierTags;

    const NAME: &'static str = "KeyAgreeRecipientIdentifier";

    const PARTS: &'static [&'static str] = &["issuer_and_serial_number", "r_key_id"];

    ghost parts = { elim [ key.IssuerAndSerialNumber x ↦ One x | key.RKeyId x ↦ Two x ] };

    ghost typed = { ⟦<KeyAgreeRecipientIdentifierParts as Type>⟧ };

    fn from_parts(value: KeyAgreeRecipientIdentifierParts) -> KeyAgreeRecipientIdentifier {
        match value {
            Choice2::One(value) => KeyAgreeRecipientIdentifier::IssuerAndSerialNumber(value),
            Choice2::Two(value) => KeyAgreeRecipientIdentifier::RKeyId(value),
        }
    }

    fn parts_are_one() {
        <KeyAgreeRecipientIdentifierParts>::values_are_one();
    }
}

impl<S: Source> DecodeParts<S> for KeyAgreeRecipientIdentifier {
    fn trace_parts<P: Trace>(
        alloc: Global,
        cons: &mut Constructed<'_, S>,
        tag: Tag,
        path: &mut P,
    ) -> Result<Option<KeyAgreeRecipientIdentifierParts>, DecodeError<S::Error>> {
        <KeyAgreeRecipientIdentifierParts>::trace_opt_if(alloc, cons, tag, path)
    }
}

impl EncodeParts for KeyAgreeRecipientIdentifier {
    ghost written = { ⟦<KeyAgreeRecipientIdentifierParts as Encode>⟧ };

    fn give_parts<T, U: UseParts<T>>(&self, _tag: Tag, to: U, target: &mut T) -> U::Out {
        match self {
            KeyAgreeRecipientIdentifier::IssuerAndSerialNumber(value) => to.use_alternative(
                value, target,
            ),
            KeyAgreeRecipientIdentifier::RKeyId(value) => to.use_alternative(value, target),
        }
    }

    fn are_read_back(tag: Tag, mode: Mode) {
        <KeyAgreeRecipientIdentifierParts>::is_read_back(tag, mode);
    }

    ghost made = { elim [
      | One x ↦ (key.IssuerAndSerialNumber x, refl)
      | Two x ↦ (key.RKeyId x, refl)
    ] };
}

/// Which key a recipient has (RFC 5652, section 6.2.2).
///
///     RecipientKeyIdentifier ::= SEQUENCE {
///         subjectKeyIdentifier  SubjectKeyIdentifier,
///         date                  GeneralizedTime OPTIONAL,
///         other                 OtherKeyAttribute OPTIONAL }
#[derive(Debug, Drop)]
pub struct RecipientKeyIdentifier {
    /// The identifier of the key.
    pub subject_key_identifier: SubjectKeyIdentifier,

    /// Which key, if several have the identifier.
    pub date: Option<GeneralizedTime>,

    /// What else tells which key it is.
    pub other: Option<OtherKeyAttribute>,
}

/// What defines [`RecipientKeyIdentifier`].
type RecipientKeyIdentifierParts = Sequence<
    (
        SubjectKeyIdentifier,
        Option<GeneralizedTime>,
        Option<OtherKeyAttribute>,
    ),
>;

impl Parts for RecipientKeyIdentifier {
    type As = RecipientKeyIdentifierParts;

    type Tags = SequenceTag;

    const NAME: &'static str = "RecipientKeyIdentifier";

    const PARTS: &'static [&'static str] = &["subject_key_identifier", "date", "other"];

    ghost parts = { λ x. (x.subject_key_identifier, x.date, x.other) };

    ghost typed = { ⟦<RecipientKeyIdentifierParts as Type>⟧ };

    fn from_parts(value: RecipientKeyIdentifierParts) -> RecipientKeyIdentifier {
        let Sequence((subject_key_identifier, date, other)) = value;
        RecipientKeyIdentifier {
            subject_key_identifier,
            date,
            other,
        }
    }

    fn parts_are_one() {
        <RecipientKeyIdentifierParts>::values_are_one();
    }
}

impl<S: Source> DecodeParts<S> for RecipientKeyIdentifier {
    fn trace_parts<P: Trace>(
        alloc: Global,
        cons: &mut Constructed<'_, S>,
        tag: Tag,
        path: &mut P,
    ) -> Result<Option<RecipientKeyIdentifierParts>, DecodeError<S::Error>> {
        <RecipientKeyIdentifierParts>::trace_opt_if(alloc, cons, tag, path)
    }
}

impl EncodeParts for RecipientKeyIdentifier {
    ghost written = { ⟦<RecipientKeyIdentifierParts as Encode>⟧ };

    fn give_parts<T, U: UseParts<T>>(&self, tag: Tag, to: U, target: &mut T) -> U::Out {
        to.use_parts(
            &Sequence((
                ByRef(&self.subject_key_identifier),
                ByRef(&self.date),
                ByRef(&self.other),
            )),
            tag,
            target,
        )
    }

    fn are_read_back(tag: Tag, mode: Mode) {
        <RecipientKeyIdentifierParts>::is_read_back(tag, mode);
    }

    ghost made = { λ v. (record { subject_key_identifier = v.0; date = v.1; other = v.2 }, refl) };
}

/// The tags of a [`KeyAgreeRecipientIdentifier`], as a type without values.
///
/// With it, a proof about a type that holds one doesn't unfold the types of its alternatives.
#[derive(Clone, Copy, Debug, Drop)]
pub struct KeyAgreeRecipientIdentifierTags;

impl Type for KeyAgreeRecipientIdentifierTags {
    ghost TAG = { ⟦<KeyAgreeRecipientIdentifierParts as Type>⟧.TAG };

    #[inline(always)]
    fn tag() -> Tag {
        <KeyAgreeRecipientIdentifierParts>::tag()
    }

    ghost expects = { ⟦<KeyAgreeRecipientIdentifierParts as Type>⟧.expects };

    fn expect<P: Trace>(path: &mut P) {
        <KeyAgreeRecipientIdentifierParts>::expect(path);
    }

    ghost tags = { ⟦<KeyAgreeRecipientIdentifierParts as Type>⟧.tags };

    ghost Key = { ⊤ };

    ghost key = { λ _. tt };

    ghost means = { λ _ _ _. ⊥ };

    fn values_are_one() {}

    ghost tagged = { inl refl };

    ghost value_tags = { either_tagged (only_tagged sequence_tagged) (only_tagged (context_tagged {n = 0} (Prim.search rules))) };
}
