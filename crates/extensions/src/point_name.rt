//! What names the place of a list of revoked certificates.
ghost use Rattle.std.proofs.Common.{inl, rules};
ghost use Rattle.std.specs.Prelude.{⊤, refl, true};
ghost use Rattle.asn1.specs.Choices.{either_tagged};
ghost use Rattle.asn1.specs.Markers.{context_tagged};
ghost use Rattle.asn1.specs.Tags.{only_tagged};
ghost use Rattle.asn1.specs.declared.choice.Choice2.TheVariants.{One, Two};

use asn1::{
    Choice2, Context, Decode, DecodeParts, Encode, EncodeParts, Implicit, Parts, Trace, Type,
    UseParts,
};
use bcder::decode::{Constructed, DecodeError, Source};
use bcder::{Mode, Tag};
use general_names::GeneralNames;
use pkix::RelativeDistinguishedName;
use std::alloc::Global;

/// The place of a list (RFC 5280, section 4.2.1.13).
///
///     DistributionPointName ::= CHOICE {
///         fullName                 [0] GeneralNames,
///         nameRelativeToCRLIssuer  [1] RelativeDistinguishedName }
///
/// Tags are implicit.
#[derive(Debug, Drop)]
pub enum DistributionPointName {
    /// Names of the place.
    FullName(Implicit<Context<0>, GeneralNames>),
    /// A name below that of the issuer.
    NameRelativeToCrlIssuer(Implicit<Context<1>, RelativeDistinguishedName>),
}

ghost use Rattle.extensions.specs.declared.point_name.DistributionPointName.TheVariants as name;

/// What defines [`DistributionPointName`].
type DistributionPointNameParts = Choice2<
    Implicit<Context<0>, GeneralNames>,
    Implicit<Context<1>, RelativeDistinguishedName>,
>;

impl Parts for DistributionPointName {
    type As = DistributionPointNameParts;

    type Tags = DistributionPointNameTags;

    const NAME: &'static str = "DistributionPointName";

    const PARTS: &'static [&'static str] = &["full_name", "name_relative_to_crl_issuer"];

    ghost parts = { elim [ name.FullName x ↦ One x | name.NameRelativeToCrlIssuer x ↦ Two x ] };

    ghost typed = { ⟦<DistributionPointNameParts as Type>⟧ };

    fn from_parts(value: DistributionPointNameParts) -> DistributionPointName {
        match value {
            Choice2::One(value) => DistributionPointName::FullName(value),
            Choice2::Two(value) => DistributionPointName::NameRelativeToCrlIssuer(value),
        }
    }

    fn parts_are_one() {
        <DistributionPointNameParts>::values_are_one();
    }
}

impl<S: Source> DecodeParts<S> for DistributionPointName {
    fn trace_parts<P: Trace>(
        alloc: Global,
        cons: &mut Constructed<'_, S>,
        tag: Tag,
        path: &mut P,
    ) -> Result<Option<DistributionPointNameParts>, DecodeError<S::Error>> {
        <DistributionPointNameParts>::trace_opt_if(alloc, cons, tag, path)
    }
}

impl EncodeParts for DistributionPointName {
    ghost written = { ⟦<DistributionPointNameParts as Encode>⟧ };

    fn give_parts<T, U: UseParts<T>>(&self, _tag: Tag, to: U, target: &mut T) -> U::Out {
        match self {
            DistributionPointName::FullName(value) => to.use_alternative(value, target),
            DistributionPointName::NameRelativeToCrlIssuer(value) => to.use_alternative(
                value, target,
            ),
        }
    }

    fn are_read_back(tag: Tag, mode: Mode) {
        <DistributionPointNameParts>::is_read_back(tag, mode);
    }

    ghost made = { elim [
      | One x ↦ (name.FullName x, refl)
      | Two x ↦ (name.NameRelativeToCrlIssuer x, refl)
    ] };
}

/// The tags of a [`DistributionPointName`], as a type without values.
///
/// With it, a proof about a type that holds such a name doesn't unfold the types of its
/// alternatives.
#[derive(Clone, Copy, Debug, Drop)]
pub struct DistributionPointNameTags;

impl Type for DistributionPointNameTags {
    ghost TAG = { ⟦<DistributionPointNameParts as Type>⟧.TAG };

    #[inline(always)]
    fn tag() -> Tag {
        <DistributionPointNameParts>::tag()
    }

    ghost expects = { ⟦<DistributionPointNameParts as Type>⟧.expects };

    fn expect<P: Trace>(path: &mut P) {
        <DistributionPointNameParts>::expect(path);
    }

    ghost tags = { ⟦<DistributionPointNameParts as Type>⟧.tags };

    ghost Key = { ⊤ };

    ghost key = { λ _. tt };

    ghost means = { λ _ _ _. ⊥ };

    fn values_are_one() {}

    ghost tagged = { inl refl };

    ghost value_tags = { either_tagged (only_tagged (context_tagged {n = 0} (Prim.search rules)))
        (only_tagged (context_tagged {n = 1} (Prim.search rules))) };
}
