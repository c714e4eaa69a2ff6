//! Where lists of revoked certificates are.
ghost use Rattle.std.specs.Prelude.{refl};

use crate::DistributionPointName;
use asn1::{
    ByRef, Context, Decode, DecodeParts, Encode, EncodeParts, Explicit, Implicit, NamedBits, Parts,
    Sequence, SequenceOf, SequenceTag, Trace, Type, UseParts,
};
use bcder::decode::{Constructed, DecodeError, Source};
use bcder::{Mode, Tag};
use general_names::GeneralNames;
use std::alloc::Global;

/// Where lists of revoked certificates are (RFC 5280, section 4.2.1.13).
///
///     CRLDistributionPoints ::= SEQUENCE SIZE (1..MAX) OF DistributionPoint
///
/// An empty list is read too.
pub type CrlDistributionPoints = SequenceOf<DistributionPoint>;

/// Where lists of the newest changes are (RFC 5280, section 4.2.1.15).
///
///     FreshestCRL ::= CRLDistributionPoints
pub type FreshestCrl = CrlDistributionPoints;

/// Where a list is (RFC 5280, section 4.2.1.13).
///
///     DistributionPoint ::= SEQUENCE {
///         distributionPoint  [0] DistributionPointName OPTIONAL,
///         reasons            [1] ReasonFlags OPTIONAL,
///         cRLIssuer          [2] GeneralNames OPTIONAL }
///
/// Tags are implicit, except that of `distributionPoint`, which is a CHOICE. One with neither a
/// place nor an issuer is read too.
#[derive(Debug, Drop)]
pub struct DistributionPoint {
    /// The place.
    pub distribution_point: Option<Explicit<Context<0>, DistributionPointName>>,

    /// For which reasons certificates are listed there.
    pub reasons: Option<Implicit<Context<1>, ReasonFlags>>,

    /// Who signs the list, if it isn't the issuer of the certificate.
    pub crl_issuer: Option<Implicit<Context<2>, GeneralNames>>,
}

/// What defines [`DistributionPoint`].
type DistributionPointParts = Sequence<
    (
        Option<Explicit<Context<0>, DistributionPointName>>,
        Option<Implicit<Context<1>, ReasonFlags>>,
        Option<Implicit<Context<2>, GeneralNames>>,
    ),
>;

impl Parts for DistributionPoint {
    type As = DistributionPointParts;

    type Tags = SequenceTag;

    const NAME: &'static str = "DistributionPoint";

    const PARTS: &'static [&'static str] = &["distribution_point", "reasons", "crl_issuer"];

    ghost parts = { λ x. (x.distribution_point, x.reasons, x.crl_issuer) };

    ghost typed = { ⟦<DistributionPointParts as Type>⟧ };

    fn from_parts(value: DistributionPointParts) -> DistributionPoint {
        let Sequence((distribution_point, reasons, crl_issuer)) = value;
        DistributionPoint {
            distribution_point,
            reasons,
            crl_issuer,
        }
    }

    fn parts_are_one() {
        <DistributionPointParts>::values_are_one();
    }
}

impl<S: Source> DecodeParts<S> for DistributionPoint {
    fn trace_parts<P: Trace>(
        alloc: Global,
        cons: &mut Constructed<'_, S>,
        tag: Tag,
        path: &mut P,
    ) -> Result<Option<DistributionPointParts>, DecodeError<S::Error>> {
        <DistributionPointParts>::trace_opt_if(alloc, cons, tag, path)
    }
}

impl EncodeParts for DistributionPoint {
    ghost written = { ⟦<DistributionPointParts as Encode>⟧ };

    fn give_parts<T, U: UseParts<T>>(&self, tag: Tag, to: U, target: &mut T) -> U::Out {
        to.use_parts(
            &Sequence((
                ByRef(&self.distribution_point),
                ByRef(&self.reasons),
                ByRef(&self.crl_issuer),
            )),
            tag,
            target,
        )
    }

    fn are_read_back(tag: Tag, mode: Mode) {
        <DistributionPointParts>::is_read_back(tag, mode);
    }

    ghost made = { λ v. (
      record {
        distribution_point = v.0;
        reasons = v.1;
        crl_issuer = v.2;
      },
      refl,
    ) };
}

/// Reasons for which certificates are revoked (RFC 5280, section 4.2.1.13).
///
///     ReasonFlags ::= BIT STRING {
///         unused                (0),
///         keyCompromise         (1),
///         cACompromise          (2),
///         affiliationChanged    (3),
///         superseded            (4),
///         cessationOfOperation  (5),
///         certificateHold       (6),
///         privilegeWithdrawn    (7),
///         aACompromise          (8) }
pub type ReasonFlags = NamedBits;
