//! Primitive types of a user's own, read from their contents octets (X.690, 8.1.4).
ghost use Rattle.std.specs.Prelude.{◌≡◌, ◌≢◌, ℕ, List, MatchOption, false, refl};
ghost use Rattle.bcder.specs.declared.mode.Mode.{Mode as Rules};
ghost use Rattle.bcder.specs.declared.mode.Mode.TheVariants.{Ber};
ghost use Rattle.bcder.specs.calls.Readers.{ReadOctets};
ghost use Rattle.bcder.specs.calls.Views.{octets_before, Moved, MovedOctets};
ghost use Rattle.bcder.specs.x690.Identifier.{Tag as TagValue, IsValueTag};
ghost use Rattle.asn1.specs.Keys.{ContentsMeanOne, ContentsAreMeantOnce};
ghost use Rattle.asn1.specs.Types.{IsLeaf, Only, TookNextTyped};
ghost use Rattle.asn1.specs.Told.{MeansOrNothing};
ghost use Rattle.asn1.specs.Tags.{only_tagged};

use crate::{Decode, Part, Trace, Type};
use bcder::decode::{Constructed, ContentError, DecodeError, Primitive, Source};
use bcder::{Mode, Tag};
use std::alloc::Global;

/// What contents octets mean.
///
/// [`Leaf`] makes a [`Type`] of it, whose values are primitive.
pub trait FromContents: Drop + Sized {
    /// The tag of its values.
    ghost TAG: { TagValue };

    /// Returns the tag of its values.
    fn tag() -> Tag
        ensures { result ≡ TAG };

    /// What its values are told apart by.
    ghost Key: { Type 0 };

    /// By what a value is told apart.
    ghost key: { Self → Key };

    /// Which contents octets mean what, in a mode.
    ghost means: { Rules → List ℕ → Self → Type 0 };

    /// Returns what contents octets mean, or `None` if they mean nothing.
    fn from_contents(mode: Mode, octets: &[u8]) -> Option<Self>
        ensures { MatchOption result ((x : Self) → means mode octets.now x → ⊥)
            (λ x. means mode octets.now x) };

    /// A law: contents octets mean one thing at most, and in CER and DER one list of octets means
    /// it.
    fn contents_are_one()
        ensures one { (mode : Rules) → ContentsMeanOne (means mode) key }
        ensures once { (mode : Rules) → mode ≢ Ber → ContentsAreMeantOnce (means mode) key };

    /// Values can have the tag.
    ghost tagged: { IsValueTag TAG };
}

/// A primitive value that is what its contents octets mean.
#[derive(Clone, Copy, Debug, PartialEq, Eq, Drop)]
pub struct Leaf<V>(pub V);

/// Returns what contents octets mean.
#[inline(always)]
fn meaning_of<V: FromContents>(mode: Mode, octets: &[u8]) -> Result<V, ContentError>
    ensures { MeansOrNothing (V.means mode) octets.now result }
{
    match V::from_contents(mode, octets) {
        Some(value) => Ok(value),
        None => Err(ContentError::from_static("invalid contents octets")),
    }
}

/// Reads all octets as what they mean.
#[inline(always)]
fn read_contents<V: FromContents, S: Source>(
    octets: &mut Primitive<'_, S>,
) -> Result<V, DecodeError<S::Error>>
    ensures moves { MovedOctets S.stream octets }
    ensures read { ReadOctets S.stream octets
        (V.means (octets_before S.stream octets).mode) result }
{
    let mode = octets.mode();
    octets.with_slice_all(|octets| meaning_of::<V>(mode, octets))
}

/// Takes the next value if it has this tag. It then has to be primitive, and its contents octets
/// have to mean something.
#[inline(always)]
pub(crate) fn take_contents_if<V: FromContents, S: Source>(
    cons: &mut Constructed<'_, S>,
    tag: Tag,
) -> Result<Option<V>, DecodeError<S::Error>>
    ensures moves { Moved S.stream cons }
    ensures took { TookNextTyped S.stream cons (Only tag)
        (λ mode. IsLeaf (V.means mode)) false result }
{
    cons.take_opt_primitive_if(tag, |octets| read_contents::<V, S>(octets))
}

impl<V: FromContents> Type for Leaf<V> {
    ghost TAG = { V.TAG };

    #[inline(always)]
    fn tag() -> Tag {
        V::tag()
    }

    fn expect<P: Trace>(path: &mut P) {
        path.note(Part::Expected(Self::tag()));
    }

    ghost tags = { Only };

    ghost Key = { V.Key };

    ghost key = { λ x. V.key x.0 };

    ghost means = { λ mode t x. IsLeaf (V.means mode) t x.0 };

    fn values_are_one() {
        V::contents_are_one();
    }

    ghost tagged = { refl };

    ghost value_tags = { only_tagged V.tagged };
}

impl<S: Source, V: FromContents> Decode<S> for Leaf<V> {
    #[inline(always)]
    fn trace_opt_if<P: Trace>(
        _alloc: Global,
        cons: &mut Constructed<'_, S>,
        tag: Tag,
        _path: &mut P,
    ) -> Result<Option<Leaf<V>>, DecodeError<S::Error>> {
        match take_contents_if(cons, tag) {
            Ok(Some(value)) => Ok(Some(Leaf(value))),
            Ok(None) => Ok(None),
            Err(error) => Err(error),
        }
    }
}
