//! ENUMERATED (X.680, 20; X.690, 8.4).
ghost use Rattle.std.specs.Int.{w64};
ghost use Rattle.std.specs.Prelude.{◌≡◌, ℤ, MatchOption, refl};
ghost use Rattle.bcder.specs.calls.Readers.{IsSigned};
ghost use Rattle.bcder.specs.calls.Views.{Moved};
ghost use Rattle.asn1.specs.Enumerations.{enumerated_tag, enumerated_tagged};
ghost use Rattle.asn1.specs.Markers.{only_fixed};
ghost use Rattle.asn1.specs.Tags.{only_tagged};
ghost use Rattle.asn1.specs.Types.{IsLeaf, Only, TookNextTyped};

use crate::{Decode, FixedTag, Part, Trace, Type};
use bcder::Tag;
use bcder::decode::{Constructed, ContentError, DecodeError, Source};
use std::alloc::Global;

/// The items of an ENUMERATED and their numbers (X.680, 20).
///
/// [`Enumerated`] makes a [`Type`] of it. An enumeration with an extension marker has a variant for
/// the numbers of no item, as `Other(i64)`. Then `from_number` always returns one.
pub trait Enumeration: Drop + Sized {
    /// The number of an item, in clauses.
    ghost number: { Self → ℤ };

    /// Returns the number of an item.
    fn number(&self) -> i64
        ensures { result ≡ number self.now };

    /// Returns an item with this number, or `None` if there is none.
    fn from_number(value: i64) -> Option<Self>
        ensures { MatchOption result ((x : Self) → number x ≡ value → ⊥)
            (λ x. number x ≡ value) };
}

/// An ENUMERATED: one of the items of an enumeration. It is encoded as the INTEGER that is its
/// number (X.690, 8.4). A number of no item is refused.
///
/// Two are the same if their numbers are.
#[derive(Clone, Copy, Debug, PartialEq, Eq, Drop)]
pub struct Enumerated<E>(pub E);

impl<E: Enumeration> Type for Enumerated<E> {
    ghost TAG = { enumerated_tag };

    #[inline(always)]
    fn tag() -> Tag {
        Tag::ENUMERATED
    }

    fn expect<P: Trace>(path: &mut P) {
        path.note(Part::Expected(Self::tag()));
    }

    ghost tags = { Only };

    ghost Key = { ℤ };

    ghost key = { λ x. E.number x.0 };

    ghost means = { λ _ t x. IsLeaf (λ w y. IsSigned w64 w (E.number y.0)) t x };

    fn values_are_one() {}

    ghost tagged = { refl };

    ghost value_tags = { only_tagged enumerated_tagged };
}

impl<E: Enumeration> FixedTag for Enumerated<E> {
    ghost fixed = { only_fixed };
}

impl<S: Source, E: Enumeration> Decode<S> for Enumerated<E> {
    #[inline(always)]
    fn trace_opt_if<P: Trace>(
        alloc: Global,
        cons: &mut Constructed<'_, S>,
        tag: Tag,
        path: &mut P,
    ) -> Result<Option<Enumerated<E>>, DecodeError<S::Error>> {
        let unknown = cons.next_err(ContentError::from_static("no item of the enumeration"));
        match <i64>::trace_opt_if(alloc, cons, tag, path) {
            Ok(Some(number)) => match E::from_number(number) {
                Some(item) => Ok(Some(Enumerated(item))),
                None => {
                    cons.fail();
                    Err(unknown)
                }
            },
            Ok(None) => Ok(None),
            Err(error) => Err(error),
        }
    }
}
