//! Policies under which certificates are issued.
ghost use Rattle.std.specs.Prelude.{false, refl};

use asn1::{
    Any, ByRef, Context, Decode, DecodeParts, Encode, EncodeParts, Implicit, ObjectIdentifier,
    Parts, Sequence, SequenceOf, SequenceTag, Trace, Type, UseParts,
};
use bcder::decode::{Constructed, DecodeError, Source};
use bcder::{Mode, Tag};
use std::alloc::Global;

/// The policies under which a certificate was issued (RFC 5280, section 4.2.1.4).
///
///     certificatePolicies ::= SEQUENCE SIZE (1..MAX) OF PolicyInformation
///
/// An empty list is read too.
pub type CertificatePolicies = SequenceOf<PolicyInformation>;

/// Which policy it is.
///
///     CertPolicyId ::= OBJECT IDENTIFIER
pub type CertPolicyId = ObjectIdentifier;

/// A policy.
///
///     PolicyInformation ::= SEQUENCE {
///         policyIdentifier  CertPolicyId,
///         policyQualifiers  SEQUENCE SIZE (1..MAX) OF PolicyQualifierInfo OPTIONAL }
///
/// An empty list of qualifiers is read too.
#[derive(Debug, Drop)]
pub struct PolicyInformation {
    /// Which policy it is.
    pub policy_identifier: CertPolicyId,

    /// What is said about it.
    pub policy_qualifiers: Option<SequenceOf<PolicyQualifierInfo>>,
}

/// What defines [`PolicyInformation`].
type PolicyInformationParts = Sequence<(CertPolicyId, Option<SequenceOf<PolicyQualifierInfo>>)>;

impl Parts for PolicyInformation {
    type As = PolicyInformationParts;

    type Tags = SequenceTag;

    const NAME: &'static str = "PolicyInformation";

    const PARTS: &'static [&'static str] = &["policy_identifier", "policy_qualifiers"];

    ghost parts = { λ x. (x.policy_identifier, x.policy_qualifiers) };

    ghost typed = { ⟦<PolicyInformationParts as Type>⟧ };

    fn from_parts(value: PolicyInformationParts) -> PolicyInformation {
        let Sequence((policy_identifier, policy_qualifiers)) = value;
        PolicyInformation {
            policy_identifier,
            policy_qualifiers,
        }
    }

    fn parts_are_one() {
        <PolicyInformationParts>::values_are_one();
    }
}

impl<S: Source> DecodeParts<S> for PolicyInformation {
    fn trace_parts<P: Trace>(
        alloc: Global,
        cons: &mut Constructed<'_, S>,
        tag: Tag,
        path: &mut P,
    ) -> Result<Option<PolicyInformationParts>, DecodeError<S::Error>> {
        <PolicyInformationParts>::trace_opt_if(alloc, cons, tag, path)
    }
}

impl EncodeParts for PolicyInformation {
    ghost written = { ⟦<PolicyInformationParts as Encode>⟧ };

    fn give_parts<T, U: UseParts<T>>(&self, tag: Tag, to: U, target: &mut T) -> U::Out {
        to.use_parts(
            &Sequence((
                ByRef(&self.policy_identifier),
                ByRef(&self.policy_qualifiers),
            )),
            tag,
            target,
        )
    }

    fn are_read_back(tag: Tag, mode: Mode) {
        <PolicyInformationParts>::is_read_back(tag, mode);
    }

    ghost made = { λ v. (record { policy_identifier = v.0; policy_qualifiers = v.1 }, refl) };
}

/// What is said about a policy.
///
///     PolicyQualifierInfo ::= SEQUENCE {
///         policyQualifierId  PolicyQualifierId,
///         qualifier          ANY DEFINED BY policyQualifierId }
///
///     PolicyQualifierId ::= OBJECT IDENTIFIER ( id-qt-cps | id-qt-unotice )
#[derive(Debug, Drop)]
pub struct PolicyQualifierInfo {
    /// Which qualifier it is.
    pub policy_qualifier_id: ObjectIdentifier,

    /// The qualifier, of a type that depends on it.
    pub qualifier: Any,
}

/// What defines [`PolicyQualifierInfo`].
type PolicyQualifierInfoParts = Sequence<(ObjectIdentifier, Any)>;

impl Parts for PolicyQualifierInfo {
    type As = PolicyQualifierInfoParts;

    type Tags = SequenceTag;

    const NAME: &'static str = "PolicyQualifierInfo";

    const PARTS: &'static [&'static str] = &["policy_qualifier_id", "qualifier"];

    ghost parts = { λ x. (x.policy_qualifier_id, x.qualifier) };

    ghost typed = { ⟦<PolicyQualifierInfoParts as Type>⟧ };

    fn from_parts(value: PolicyQualifierInfoParts) -> PolicyQualifierInfo {
        let Sequence((policy_qualifier_id, qualifier)) = value;
        PolicyQualifierInfo {
            policy_qualifier_id,
            qualifier,
        }
    }

    fn parts_are_one() {
        <PolicyQualifierInfoParts>::values_are_one();
    }
}

impl<S: Source> DecodeParts<S> for PolicyQualifierInfo {
    fn trace_parts<P: Trace>(
        alloc: Global,
        cons: &mut Constructed<'_, S>,
        tag: Tag,
        path: &mut P,
    ) -> Result<Option<PolicyQualifierInfoParts>, DecodeError<S::Error>> {
        <PolicyQualifierInfoParts>::trace_opt_if(alloc, cons, tag, path)
    }
}

impl EncodeParts for PolicyQualifierInfo {
    ghost written = { ⟦<PolicyQualifierInfoParts as Encode>⟧ };

    fn give_parts<T, U: UseParts<T>>(&self, tag: Tag, to: U, target: &mut T) -> U::Out {
        to.use_parts(
            &Sequence((ByRef(&self.policy_qualifier_id), ByRef(&self.qualifier))),
            tag,
            target,
        )
    }

    fn are_read_back(tag: Tag, mode: Mode) {
        <PolicyQualifierInfoParts>::is_read_back(tag, mode);
    }

    ghost made = { λ v. (record { policy_qualifier_id = v.0; qualifier = v.1 }, refl) };
}

/// Which policies of others are as good (RFC 5280, section 4.2.1.5).
///
///     PolicyMappings ::= SEQUENCE SIZE (1..MAX) OF SEQUENCE {
///         issuerDomainPolicy   CertPolicyId,
///         subjectDomainPolicy  CertPolicyId }
///
/// An empty list is read too.
pub type PolicyMappings = SequenceOf<PolicyMapping>;

/// A policy of another that is as good as one of the issuer.
#[derive(Debug, Drop)]
pub struct PolicyMapping {
    /// The issuer's policy.
    pub issuer_domain_policy: CertPolicyId,

    /// The other one.
    pub subject_domain_policy: CertPolicyId,
}

/// What defines [`PolicyMapping`].
type PolicyMappingParts = Sequence<(CertPolicyId, CertPolicyId)>;

impl Parts for PolicyMapping {
    type As = PolicyMappingParts;

    type Tags = SequenceTag;

    const NAME: &'static str = "PolicyMapping";

    const PARTS: &'static [&'static str] = &["issuer_domain_policy", "subject_domain_policy"];

    ghost parts = { λ x. (x.issuer_domain_policy, x.subject_domain_policy) };

    ghost typed = { ⟦<PolicyMappingParts as Type>⟧ };

    fn from_parts(value: PolicyMappingParts) -> PolicyMapping {
        let Sequence((issuer_domain_policy, subject_domain_policy)) = value;
        PolicyMapping {
            issuer_domain_policy,
            subject_domain_policy,
        }
    }

    fn parts_are_one() {
        <PolicyMappingParts>::values_are_one();
    }
}

impl<S: Source> DecodeParts<S> for PolicyMapping {
    fn trace_parts<P: Trace>(
        alloc: Global,
        cons: &mut Constructed<'_, S>,
        tag: Tag,
        path: &mut P,
    ) -> Result<Option<PolicyMappingParts>, DecodeError<S::Error>> {
        <PolicyMappingParts>::trace_opt_if(alloc, cons, tag, path)
    }
}

impl EncodeParts for PolicyMapping {
    ghost written = { ⟦<PolicyMappingParts as Encode>⟧ };

    fn give_parts<T, U: UseParts<T>>(&self, tag: Tag, to: U, target: &mut T) -> U::Out {
        to.use_parts(
            &Sequence((
                ByRef(&self.issuer_domain_policy),
                ByRef(&self.subject_domain_policy),
            )),
            tag,
            target,
        )
    }

    fn are_read_back(tag: Tag, mode: Mode) {
        <PolicyMappingParts>::is_read_back(tag, mode);
    }

    ghost made = { λ v. (
      record {
        issuer_domain_policy = v.0;
        subject_domain_policy = v.1;
      },
      refl,
    ) };
}

/// Demands on policies in the certificates below (RFC 5280, section 4.2.1.11).
///
///     PolicyConstraints ::= SEQUENCE {
///         requireExplicitPolicy  [0] SkipCerts OPTIONAL,
///         inhibitPolicyMapping   [1] SkipCerts OPTIONAL }
///
///     SkipCerts ::= INTEGER (0..MAX)
#[derive(Debug, Drop)]
pub struct PolicyConstraints {
    /// After how many certificates a policy is needed.
    pub require_explicit_policy: Option<Implicit<Context<0>, u32>>,

    /// After how many certificates no policy may be mapped.
    pub inhibit_policy_mapping: Option<Implicit<Context<1>, u32>>,
}

/// What defines [`PolicyConstraints`].
type PolicyConstraintsParts = Sequence<
    (
        Option<Implicit<Context<0>, u32>>,
        Option<Implicit<Context<1>, u32>>,
    ),
>;

impl Parts for PolicyConstraints {
    type As = PolicyConstraintsParts;

    type Tags = SequenceTag;

    const NAME: &'static str = "PolicyConstraints";

    const PARTS: &'static [&'static str] = &["require_explicit_policy", "inhibit_policy_mapping"];

    ghost parts = { λ x. (x.require_explicit_policy, x.inhibit_policy_mapping) };

    ghost typed = { ⟦<PolicyConstraintsParts as Type>⟧ };

    fn from_parts(value: PolicyConstraintsParts) -> PolicyConstraints {
        let Sequence((require_explicit_policy, inhibit_policy_mapping)) = value;
        PolicyConstraints {
            require_explicit_policy,
            inhibit_policy_mapping,
        }
    }

    fn parts_are_one() {
        <PolicyConstraintsParts>::values_are_one();
    }
}

impl<S: Source> DecodeParts<S> for PolicyConstraints {
    ghost may_lack = { false };

    fn trace_parts<P: Trace>(
        alloc: Global,
        cons: &mut Constructed<'_, S>,
        tag: Tag,
        path: &mut P,
    ) -> Result<Option<PolicyConstraintsParts>, DecodeError<S::Error>> {
        <PolicyConstraintsParts>::trace_opt_if(alloc, cons, tag, path)
    }
}

impl EncodeParts for PolicyConstraints {
    ghost written = { ⟦<PolicyConstraintsParts as Encode>⟧ };

    fn give_parts<T, U: UseParts<T>>(&self, tag: Tag, to: U, target: &mut T) -> U::Out {
        to.use_parts(
            &Sequence((
                ByRef(&self.require_explicit_policy),
                ByRef(&self.inhibit_policy_mapping),
            )),
            tag,
            target,
        )
    }

    fn are_read_back(tag: Tag, mode: Mode) {
        <PolicyConstraintsParts>::is_read_back(tag, mode);
    }

    ghost made = { λ v. (
      record {
        require_explicit_policy = v.0;
        inhibit_policy_mapping = v.1;
      },
      refl,
    ) };
}

/// After how many certificates `anyPolicy` stands for none (RFC 5280, section 4.2.1.14).
///
///     InhibitAnyPolicy ::= SkipCerts
pub type InhibitAnyPolicy = u32;
