//! Which names an authority may certify.
ghost use Rattle.std.specs.Prelude.{refl};

use asn1::{
    ByRef, Context, Decode, DecodeParts, DefaultValue, Encode, EncodeParts, Implicit, OrDefault,
    Parts, Sequence, SequenceOf, SequenceTag, Trace, Type, UseParts,
};
use bcder::decode::{Constructed, DecodeError, Source};
use bcder::{Mode, NoMemory, Tag};
use general_names::GeneralName;
use std::alloc::Global;

/// Which names an authority may certify (RFC 5280, section 4.2.1.10).
///
///     NameConstraints ::= SEQUENCE {
///         permittedSubtrees  [0] GeneralSubtrees OPTIONAL,
///         excludedSubtrees   [1] GeneralSubtrees OPTIONAL }
///
/// Tags are implicit. One with neither is read too.
#[derive(Debug, Drop)]
pub struct NameConstraints {
    /// Names have to be in one of these.
    pub permitted_subtrees: Option<Implicit<Context<0>, GeneralSubtrees>>,

    /// Names may be in none of these.
    pub excluded_subtrees: Option<Implicit<Context<1>, GeneralSubtrees>>,
}

/// What defines [`NameConstraints`].
type NameConstraintsParts = Sequence<
    (
        Option<Implicit<Context<0>, GeneralSubtrees>>,
        Option<Implicit<Context<1>, GeneralSubtrees>>,
    ),
>;

impl Parts for NameConstraints {
    type As = NameConstraintsParts;

    type Tags = SequenceTag;

    const NAME: &'static str = "NameConstraints";

    const PARTS: &'static [&'static str] = &["permitted_subtrees", "excluded_subtrees"];

    ghost parts = { λ x. (x.permitted_subtrees, x.excluded_subtrees) };

    ghost typed = { ⟦<NameConstraintsParts as Type>⟧ };

    fn from_parts(value: NameConstraintsParts) -> NameConstraints {
        let Sequence((permitted_subtrees, excluded_subtrees)) = value;
        NameConstraints {
            permitted_subtrees,
            excluded_subtrees,
        }
    }

    fn parts_are_one() {
        <NameConstraintsParts>::values_are_one();
    }
}

impl<S: Source> DecodeParts<S> for NameConstraints {
    fn trace_parts<P: Trace>(
        alloc: Global,
        cons: &mut Constructed<'_, S>,
        tag: Tag,
        path: &mut P,
    ) -> Result<Option<NameConstraintsParts>, DecodeError<S::Error>> {
        <NameConstraintsParts>::trace_opt_if(alloc, cons, tag, path)
    }
}

impl EncodeParts for NameConstraints {
    ghost written = { ⟦<NameConstraintsParts as Encode>⟧ };

    fn give_parts<T, U: UseParts<T>>(&self, tag: Tag, to: U, target: &mut T) -> U::Out {
        to.use_parts(
            &Sequence((
                ByRef(&self.permitted_subtrees),
                ByRef(&self.excluded_subtrees),
            )),
            tag,
            target,
        )
    }

    fn are_read_back(tag: Tag, mode: Mode) {
        <NameConstraintsParts>::is_read_back(tag, mode);
    }

    ghost made = { λ v. (record { permitted_subtrees = v.0; excluded_subtrees = v.1 }, refl) };
}

/// Subtrees of names (RFC 5280, section 4.2.1.10).
///
///     GeneralSubtrees ::= SEQUENCE SIZE (1..MAX) OF GeneralSubtree
///
/// An empty list is read too.
pub type GeneralSubtrees = SequenceOf<GeneralSubtree>;

/// A subtree: the names below a name (RFC 5280, section 4.2.1.10).
///
///     GeneralSubtree ::= SEQUENCE {
///         base     GeneralName,
///         minimum  [0] BaseDistance DEFAULT 0,
///         maximum  [1] BaseDistance OPTIONAL }
///
///     BaseDistance ::= INTEGER (0..MAX)
///
/// Tags are implicit. The RFC wants a minimum of 0 and no maximum; others are read too, if they
/// take at most 32 bits.
#[derive(Debug, Drop)]
pub struct GeneralSubtree {
    /// The name at the top.
    pub base: GeneralName,

    /// How many levels below it the subtree begins.
    pub minimum: OrDefault<Implicit<Context<0>, u32>, NoDistance>,

    /// How many levels below it the subtree ends.
    pub maximum: Option<Implicit<Context<1>, u32>>,
}

/// What defines [`GeneralSubtree`].
type GeneralSubtreeParts = Sequence<
    (
        GeneralName,
        OrDefault<Implicit<Context<0>, u32>, NoDistance>,
        Option<Implicit<Context<1>, u32>>,
    ),
>;

impl Parts for GeneralSubtree {
    type As = GeneralSubtreeParts;

    type Tags = SequenceTag;

    const NAME: &'static str = "GeneralSubtree";

    const PARTS: &'static [&'static str] = &["base", "minimum", "maximum"];

    ghost parts = { λ x. (x.base, x.minimum, x.maximum) };

    ghost typed = { ⟦<GeneralSubtreeParts as Type>⟧ };

    fn from_parts(value: GeneralSubtreeParts) -> GeneralSubtree {
        let Sequence((base, minimum, maximum)) = value;
        GeneralSubtree {
            base,
            minimum,
            maximum,
        }
    }

    fn parts_are_one() {
        <GeneralSubtreeParts>::values_are_one();
    }
}

impl<S: Source> DecodeParts<S> for GeneralSubtree {
    fn trace_parts<P: Trace>(
        alloc: Global,
        cons: &mut Constructed<'_, S>,
        tag: Tag,
        path: &mut P,
    ) -> Result<Option<GeneralSubtreeParts>, DecodeError<S::Error>> {
        <GeneralSubtreeParts>::trace_opt_if(alloc, cons, tag, path)
    }
}

impl EncodeParts for GeneralSubtree {
    ghost written = { ⟦<GeneralSubtreeParts as Encode>⟧ };

    fn give_parts<T, U: UseParts<T>>(&self, tag: Tag, to: U, target: &mut T) -> U::Out {
        to.use_parts(
            &Sequence((
                ByRef(&self.base),
                ByRef(&self.minimum),
                ByRef(&self.maximum),
            )),
            tag,
            target,
        )
    }

    fn are_read_back(tag: Tag, mode: Mode) {
        <GeneralSubtreeParts>::is_read_back(tag, mode);
    }

    ghost made = { λ v. (record { base = v.0; minimum = v.1; maximum = v.2 }, refl) };
}

/// 0, if no minimum is given.
#[derive(Clone, Copy, Debug, PartialEq, Eq)]
pub struct NoDistance;

impl DefaultValue<Implicit<Context<0>, u32>> for NoDistance {
    ghost default = { 0 };

    fn is_default(value: &Implicit<Context<0>, u32>) -> bool {
        value.value == 0
    }

    fn make(_alloc: Global) -> Result<Implicit<Context<0>, u32>, NoMemory> {
        Ok(Implicit::new(0))
    }
}
