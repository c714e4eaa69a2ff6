//! A user's own type that stands for itself, by what its values are made of.
ghost use Rattle.std.specs.Prelude.{◌≡◌, ◌≢◌, ⊤, Bool, refl, true};
ghost use Rattle.bcder.specs.declared.mode.Mode.{Mode};
ghost use Rattle.bcder.specs.declared.mode.Mode.TheVariants.{Ber};
ghost use Rattle.bcder.specs.x690.Identifier.{sequence_tag};
ghost use Rattle.bcder.specs.calls.Views.{Moved};
ghost use Rattle.asn1.specs.Types.{Only, TookNextTyped};
ghost use Rattle.asn1.specs.Keys.{MeansOne, IsMeantOnce};
ghost use Rattle.asn1.specs.Tags.{only_tagged, sequence_tagged};
ghost use Rattle.asn1.specs.declared.types.Type.{Ghosts as TypeOf};

use crate::{Decode, Part, Trace, Type};
use bcder::Tag;
use bcder::decode::{Constructed, DecodeError, Source};
use std::alloc::Global;

/// A struct or enum that is defined by a type of ASN.1 (X.680, 16.1), and refers to it by name.
///
/// It is a [`Type`] as a [`Definition`](crate::Definition) is. But what it means is told by its own
/// members, and not by a bound on the type behind the `::=`. So it is checked in the same time,
/// however deep it stands in others.
pub trait Parts: Drop + Sized {
    /// The type behind the `::=`.
    type As: Drop + Sized;

    /// A type with the tags of that type: [`SequenceTag`] of a SEQUENCE, and else that type.
    type Tags: Type;

    /// Its name, for errors. It may be left out.
    const NAME: &'static str = "";

    /// The names of its fields or alternatives, for errors. Without them, fields are shown by
    /// their number, from 0.
    const PARTS: &'static [&'static str] = &[];

    /// The value as one of the type behind the `::=`.
    ghost parts: { Self → Self.As };

    /// What that type means: `⟦<A as Type>⟧`, if it is `A`.
    ghost typed: { TypeOf Self.As };

    /// Makes the value.
    fn from_parts(value: Self::As) -> Self
        ensures { parts result ≡ value };

    /// A law: a value means one thing at most, and in CER and DER one value with a tag means it, if
    /// all is kept. It calls `values_are_one` of the type behind the `::=`.
    fn parts_are_one()
        ensures one { (mode : Mode) → MeansOne (typed.means mode) typed.key }
        ensures once { typed.keeps_all → (mode : Mode) → mode ≢ Ber
            → IsMeantOnce mode Self.Tags.tags (typed.means mode) typed.key };
}

impl<D: Parts> Type for D {
    ghost TAG = { D.Tags.TAG };

    #[inline(always)]
    fn tag() -> Tag {
        <D::Tags>::tag()
    }

    const NAME: &'static str = D::NAME;

    ghost expects = { D.Tags.expects };

    fn expect<P: Trace>(path: &mut P) {
        <D::Tags>::expect(path);
    }

    ghost tags = { D.Tags.tags };

    ghost Key = { D.typed.Key };

    ghost key = { λ x. D.typed.key (D.parts x) };

    ghost means = { λ mode t x. D.typed.means mode t (D.parts x) };

    ghost keeps_all = { D.typed.keeps_all };

    fn values_are_one() {
        D::parts_are_one();
    }

    ghost tagged = { D.Tags.tagged };

    ghost value_tags = { D.Tags.value_tags };
}

/// [`Parts`] that are read from a source.
pub trait DecodeParts<S: Source>: Parts {
    /// Whether memory may run out for the type behind the `::=`. By default it may. If it can't, as
    /// for numbers alone, it is `false`.
    ghost may_lack: { Bool } = { true };

    /// Takes the next value if it has this tag, as one of the type behind the `::=`. It calls
    /// `trace_opt_if` of that type.
    ///
    /// # Errors
    ///
    /// Those of [`Decode::trace_opt_if`].
    fn trace_parts<P: Trace>(
        alloc: Global,
        cons: &mut Constructed<'_, S>,
        tag: Tag,
        path: &mut P,
    ) -> Result<Option<Self::As>, DecodeError<S::Error>>
        ensures moves { Moved S.stream cons }
        ensures took { TookNextTyped S.stream cons (Self.Tags.tags tag) Self.typed.means may_lack
            result };
}

impl<S: Source, D: Parts + DecodeParts<S>> Decode<S> for D {
    ghost may_lack = { D.may_lack };

    #[inline(always)]
    fn trace_opt_if<P: Trace>(
        alloc: Global,
        cons: &mut Constructed<'_, S>,
        tag: Tag,
        path: &mut P,
    ) -> Result<Option<D>, DecodeError<S::Error>> {
        match D::trace_parts(alloc, cons, tag, path) {
            Ok(Some(parts)) => Ok(Some(D::from_parts(parts))),
            Ok(None) => Ok(None),
            Err(error) => {
                path.name_part(D::PARTS);
                Err(error)
            }
        }
    }
}

/// The tag of a SEQUENCE (X.690, 8.9), as a type without values.
#[derive(Clone, Copy, Debug, Drop)]
pub struct SequenceTag;

impl Type for SequenceTag {
    ghost TAG = { sequence_tag };

    #[inline(always)]
    fn tag() -> Tag {
        Tag::SEQUENCE
    }

    fn expect<P: Trace>(path: &mut P) {
        path.note(Part::Expected(Self::tag()));
    }

    ghost tags = { Only };

    ghost Key = { ⊤ };

    ghost key = { λ _. tt };

    ghost means = { λ _ _ _. ⊥ };

    fn values_are_one() {}

    ghost tagged = { refl };

    ghost value_tags = { only_tagged sequence_tagged };
}
