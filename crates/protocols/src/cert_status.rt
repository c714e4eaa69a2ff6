//! Whether certificates are revoked (RFC 6960, section 4.2.1).
ghost use Rattle.std.proofs.Common.{inl, rules};
ghost use Rattle.std.specs.Prelude.{⊤, false, refl, true};
ghost use Rattle.asn1.specs.Choices.{either_tagged};
ghost use Rattle.asn1.specs.Markers.{context_tagged};
ghost use Rattle.asn1.specs.Tags.{only_tagged};
ghost use Rattle.asn1.specs.declared.choice.Choice2.TheVariants.{One, Two};

use asn1::{
    ByRef, Choice2, Context, Decode, DecodeParts, Encode, EncodeParts, Enumerated, Explicit,
    GeneralizedTime, Implicit, Parts, Sequence, SequenceTag, Trace, Type, UseParts,
};
use bcder::decode::{Constructed, DecodeError, Source};
use bcder::{Mode, Tag};
use pkix::CrlReason;
use std::alloc::Global;

/// Whether a certificate is revoked (RFC 6960, section 4.2.1).
///
///     CertStatus ::= CHOICE {
///         good     [0] IMPLICIT NULL,
///         revoked  [1] IMPLICIT RevokedInfo,
///         unknown  [2] IMPLICIT UnknownInfo }
///
///     UnknownInfo ::= NULL
#[derive(Debug, Drop)]
pub enum CertStatus {
    /// It isn't, as far as is known.
    Good(Implicit<Context<0>, ()>),
    /// It is.
    Revoked(Implicit<Context<1>, RevokedInfo>),
    /// The responder doesn't know the certificate.
    Unknown(Implicit<Context<2>, ()>),
}

ghost use Rattle.protocols.specs.declared.cert_status.CertStatus.TheVariants as status;

/// What defines [`CertStatus`].
type CertStatusParts = Choice2<
    Implicit<Context<0>, ()>,
    Choice2<Implicit<Context<1>, RevokedInfo>, Implicit<Context<2>, ()>>,
>;

impl Parts for CertStatus {
    type As = CertStatusParts;

    type Tags = CertStatusTags;

    const NAME: &'static str = "CertStatus";

    const PARTS: &'static [&'static str] = &["good", "revoked", "unknown"];

    ghost parts = { elim [
      | status.Good x ↦ One x
      | status.Revoked x ↦ Two (One x)
      | status.Unknown x ↦ Two (Two x)
    ] };

    ghost typed = { ⟦<CertStatusParts as Type>⟧ };

    fn from_parts(value: CertStatusParts) -> CertStatus {
        match value {
            Choice2::One(value) => CertStatus::Good(value),
            Choice2::Two(Choice2::One(value)) => CertStatus::Revoked(value),
            Choice2::Two(Choice2::Two(value)) => CertStatus::Unknown(value),
        }
    }

    fn parts_are_one() {
        <CertStatusParts>::values_are_one();
    }
}

impl<S: Source> DecodeParts<S> for CertStatus {
    fn trace_parts<P: Trace>(
        alloc: Global,
        cons: &mut Constructed<'_, S>,
        tag: Tag,
        path: &mut P,
    ) -> Result<Option<CertStatusParts>, DecodeError<S::Error>> {
        <CertStatusParts>::trace_opt_if(alloc, cons, tag, path)
    }
}

impl EncodeParts for CertStatus {
    ghost written = { ⟦<CertStatusParts as Encode>⟧ };

    fn give_parts<T, U: UseParts<T>>(&self, _tag: Tag, to: U, target: &mut T) -> U::Out {
        match self {
            CertStatus::Good(value) => to.use_alternative(value, target),
            CertStatus::Revoked(value) => to.use_alternative(value, target),
            CertStatus::Unknown(value) => to.use_alternative(value, target),
        }
    }

    fn are_read_back(tag: Tag, mode: Mode) {
        <CertStatusParts>::is_read_back(tag, mode);
    }

    ghost made = { elim [
      | One x ↦ (status.Good x, refl)
      | Two (One x) ↦ (status.Revoked x, refl)
      | Two (Two x) ↦ (status.Unknown x, refl)
    ] };
}

/// When and why a certificate was revoked (RFC 6960, section 4.2.1).
///
///     RevokedInfo ::= SEQUENCE {
///         revocationTime    GeneralizedTime,
///         revocationReason  [0] EXPLICIT CRLReason OPTIONAL }
#[derive(Debug, Drop)]
pub struct RevokedInfo {
    /// When.
    pub revocation_time: GeneralizedTime,

    /// Why.
    pub revocation_reason: Option<Explicit<Context<0>, Enumerated<CrlReason>>>,
}

/// What defines [`RevokedInfo`].
type RevokedInfoParts = Sequence<
    (
        GeneralizedTime,
        Option<Explicit<Context<0>, Enumerated<CrlReason>>>,
    ),
>;

impl Parts for RevokedInfo {
    type As = RevokedInfoParts;

    type Tags = SequenceTag;

    const NAME: &'static str = "RevokedInfo";

    const PARTS: &'static [&'static str] = &["revocation_time", "revocation_reason"];

    ghost parts = { λ x. (x.revocation_time, x.revocation_reason) };

    ghost typed = { ⟦<RevokedInfoParts as Type>⟧ };

    fn from_parts(value: RevokedInfoParts) -> RevokedInfo {
        let Sequence((revocation_time, revocation_reason)) = value;
        RevokedInfo {
            revocation_time,
            revocation_reason,
        }
    }

    fn parts_are_one() {
        <RevokedInfoParts>::values_are_one();
    }
}

impl<S: Source> DecodeParts<S> for RevokedInfo {
    ghost may_lack = { false };

    fn trace_parts<P: Trace>(
        alloc: Global,
        cons: &mut Constructed<'_, S>,
        tag: Tag,
        path: &mut P,
    ) -> Result<Option<RevokedInfoParts>, DecodeError<S::Error>> {
        <RevokedInfoParts>::trace_opt_if(alloc, cons, tag, path)
    }
}

impl EncodeParts for RevokedInfo {
    ghost written = { ⟦<RevokedInfoParts as Encode>⟧ };

    fn give_parts<T, U: UseParts<T>>(&self, tag: Tag, to: U, target: &mut T) -> U::Out {
        to.use_parts(
            &Sequence((ByRef(&self.revocation_time), ByRef(&self.revocation_reason))),
            tag,
            target,
        )
    }

    fn are_read_back(tag: Tag, mode: Mode) {
        <RevokedInfoParts>::is_read_back(tag, mode);
    }

    ghost made = { λ v. (record { revocation_time = v.0; revocation_reason = v.1 }, refl) };
}

/// The tags of a [`CertStatus`], as a type without values.
///
/// With it, a proof about a type that holds one doesn't unfold the types of its alternatives.
#[derive(Clone, Copy, Debug, Drop)]
pub struct CertStatusTags;

impl Type for CertStatusTags {
    ghost TAG = { ⟦<CertStatusParts as Type>⟧.TAG };

    #[inline(always)]
    fn tag() -> Tag {
        <CertStatusParts>::tag()
    }

    ghost expects = { ⟦<CertStatusParts as Type>⟧.expects };

    fn expect<P: Trace>(path: &mut P) {
        <CertStatusParts>::expect(path);
    }

    ghost tags = { ⟦<CertStatusParts as Type>⟧.tags };

    ghost Key = { ⊤ };

    ghost key = { λ _. tt };

    ghost means = { λ _ _ _. ⊥ };

    fn values_are_one() {}

    ghost tagged = { inl refl };

    ghost value_tags = { either_tagged (only_tagged (context_tagged {n = 0} (Prim.search rules))) (either_tagged (only_tagged (context_tagged {n = 1} (Prim.search rules))) (only_tagged (context_tagged {n = 2} (Prim.search rules)))) };
}
