//! Which certificates a list of revoked ones is about.
ghost use Rattle.std.specs.Prelude.{false, refl};

use crate::{DistributionPointName, ReasonFlags};
use asn1::{
    ByRef, Context, Decode, DecodeParts, DefaultValue, Encode, EncodeParts, Explicit, Implicit,
    OrDefault, Parts, Sequence, SequenceTag, TagMarker, Trace, Type, UseParts,
};
use bcder::decode::{Constructed, DecodeError, Source};
use bcder::{Mode, NoMemory, Tag};
use std::alloc::Global;

/// Which certificates a list is about (RFC 5280, section 5.2.5).
///
///     IssuingDistributionPoint ::= SEQUENCE {
///         distributionPoint           [0] DistributionPointName OPTIONAL,
///         onlyContainsUserCerts       [1] BOOLEAN DEFAULT FALSE,
///         onlyContainsCACerts         [2] BOOLEAN DEFAULT FALSE,
///         onlySomeReasons             [3] ReasonFlags OPTIONAL,
///         indirectCRL                 [4] BOOLEAN DEFAULT FALSE,
///         onlyContainsAttributeCerts  [5] BOOLEAN DEFAULT FALSE }
///
/// Tags are implicit, except that of `distributionPoint`, which is a CHOICE. An empty one is read
/// too, and one about several kinds of certificates alone.
#[derive(Debug, Drop)]
pub struct IssuingDistributionPoint {
    /// The place of the list.
    pub distribution_point: Option<Explicit<Context<0>, DistributionPointName>>,

    /// Whether it is about certificates of users alone.
    pub only_contains_user_certs: OrDefault<Implicit<Context<1>, bool>, No>,

    /// Whether it is about certificates of authorities alone.
    pub only_contains_ca_certs: OrDefault<Implicit<Context<2>, bool>, No>,

    /// The reasons that it is about, if not all.
    pub only_some_reasons: Option<Implicit<Context<3>, ReasonFlags>>,

    /// Whether it lists certificates of other issuers, too.
    pub indirect_crl: OrDefault<Implicit<Context<4>, bool>, No>,

    /// Whether it is about attribute certificates alone.
    pub only_contains_attribute_certs: OrDefault<Implicit<Context<5>, bool>, No>,
}

/// What defines [`IssuingDistributionPoint`].
type IssuingDistributionPointParts = Sequence<
    (
        Option<Explicit<Context<0>, DistributionPointName>>,
        OrDefault<Implicit<Context<1>, bool>, No>,
        OrDefault<Implicit<Context<2>, bool>, No>,
        Option<Implicit<Context<3>, ReasonFlags>>,
        OrDefault<Implicit<Context<4>, bool>, No>,
        OrDefault<Implicit<Context<5>, bool>, No>,
    ),
>;

impl Parts for IssuingDistributionPoint {
    type As = IssuingDistributionPointParts;

    type Tags = SequenceTag;

    const NAME: &'static str = "IssuingDistributionPoint";

    const PARTS: &'static [&'static str] = &[
        "distribution_point",
        "only_contains_user_certs",
        "only_contains_ca_certs",
        "only_some_reasons",
        "indirect_crl",
        "only_contains_attribute_certs",
    ];

    ghost parts = { λ x. (
      x.distribution_point,
      x.only_contains_user_certs,
      x.only_contains_ca_certs,
      x.only_some_reasons,
      x.indirect_crl,
      x.only_contains_attribute_certs,
    ) };

    ghost typed = { ⟦<IssuingDistributionPointParts as Type>⟧ };

    fn from_parts(value: IssuingDistributionPointParts) -> IssuingDistributionPoint {
        let Sequence(
            (
                distribution_point,
                only_contains_user_certs,
                only_contains_ca_certs,
                only_some_reasons,
                indirect_crl,
                only_contains_attribute_certs,
            ),
        ) = value;
        IssuingDistributionPoint {
            distribution_point,
            only_contains_user_certs,
            only_contains_ca_certs,
            only_some_reasons,
            indirect_crl,
            only_contains_attribute_certs,
        }
    }

    fn parts_are_one() {
        <IssuingDistributionPointParts>::values_are_one();
    }
}

impl<S: Source> DecodeParts<S> for IssuingDistributionPoint {
    fn trace_parts<P: Trace>(
        alloc: Global,
        cons: &mut Constructed<'_, S>,
        tag: Tag,
        path: &mut P,
    ) -> Result<Option<IssuingDistributionPointParts>, DecodeError<S::Error>> {
        <IssuingDistributionPointParts>::trace_opt_if(alloc, cons, tag, path)
    }
}

impl EncodeParts for IssuingDistributionPoint {
    ghost written = { ⟦<IssuingDistributionPointParts as Encode>⟧ };

    fn give_parts<T, U: UseParts<T>>(&self, tag: Tag, to: U, target: &mut T) -> U::Out {
        to.use_parts(
            &Sequence((
                ByRef(&self.distribution_point),
                ByRef(&self.only_contains_user_certs),
                ByRef(&self.only_contains_ca_certs),
                ByRef(&self.only_some_reasons),
                ByRef(&self.indirect_crl),
                ByRef(&self.only_contains_attribute_certs),
            )),
            tag,
            target,
        )
    }

    fn are_read_back(tag: Tag, mode: Mode) {
        <IssuingDistributionPointParts>::is_read_back(tag, mode);
    }

    ghost made = { λ v. (
      record {
        distribution_point = v.0;
        only_contains_user_certs = v.1;
        only_contains_ca_certs = v.2;
        only_some_reasons = v.3;
        indirect_crl = v.4;
        only_contains_attribute_certs = v.5;
      },
      refl,
    ) };
}

/// `FALSE`, if nothing is said.
#[derive(Clone, Copy, Debug, PartialEq, Eq)]
pub struct No;

impl<M: TagMarker> DefaultValue<Implicit<M, bool>> for No {
    ghost default = { false };

    fn is_default(value: &Implicit<M, bool>) -> bool {
        !value.value
    }

    fn make(_alloc: Global) -> Result<Implicit<M, bool>, NoMemory> {
        Ok(Implicit::new(false))
    }
}
