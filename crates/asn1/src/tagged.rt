//! Types with a tag of their own (X.680, 31; X.690, 8.14).
ghost use Rattle.std.proofs.Common.{rules};
ghost use Rattle.std.specs.Prelude.{◌≡◌, refl};
ghost use Rattle.bcder.specs.x690.Identifier.{Tag as TagValue, IsValueTag};
ghost use Rattle.bcder.specs.x690.Identifier.{application as application_class};
ghost use Rattle.bcder.specs.x690.Identifier.{context_specific as context_specific_class};
ghost use Rattle.bcder.specs.x690.Identifier.{private as private_class};
ghost use Rattle.bcder.specs.calls.Views.{Moved};
ghost use Rattle.asn1.specs.Types.{AreInside, IsMember, Only, TookNextTyped};
ghost use Rattle.asn1.specs.Tags.{only_tagged};
ghost use Rattle.asn1.specs.Markers.{application_tagged, context_tagged, private_tagged};

use crate::sequence::take_inside;
use crate::{Decode, Fields, Part, Trace, Type};
use bcder::Tag;
use bcder::decode::{Constructed, DecodeError, Source};
use std::alloc::Global;
use std::marker::{Model, PhantomData};

/// A tag, as a type: the `[0]` of `[0] EXPLICIT INTEGER` (X.680, 31.2).
///
/// [`Context`], [`Application`] and [`Private`] are tags by their number. A tag with a larger
/// number than theirs is a marker of your own.
pub trait TagMarker: Drop + Sized {
    /// The tag, in clauses.
    ghost TAG: { TagValue };

    /// The tag.
    fn tag() -> Tag
        ensures { result ≡ TAG };

    /// A value can have it.
    ghost tagged: { IsValueTag TAG };
}

/// The context-specific tag with this number: `[N]`.
#[derive(Clone, Copy, Debug, PartialEq, Eq, Drop)]
pub struct Context<const N: u16>;

impl<const N: u16> TagMarker for Context<N> {
    ghost TAG = { record { class = context_specific_class; number = N } };

    #[inline(always)]
    fn tag() -> Tag {
        Tag::ctx(N as u32)
    }

    ghost tagged = { context_tagged (Prim.search rules) };
}

/// The application tag with this number: `[APPLICATION N]`.
#[derive(Clone, Copy, Debug, PartialEq, Eq, Drop)]
pub struct Application<const N: u16>;

impl<const N: u16> TagMarker for Application<N> {
    ghost TAG = { record { class = application_class; number = N } };

    #[inline(always)]
    fn tag() -> Tag {
        Tag::application(N as u32)
    }

    ghost tagged = { application_tagged (Prim.search rules) };
}

/// The private tag with this number: `[PRIVATE N]`.
#[derive(Clone, Copy, Debug, PartialEq, Eq, Drop)]
pub struct Private<const N: u16>;

impl<const N: u16> TagMarker for Private<N> {
    ghost TAG = { record { class = private_class; number = N } };

    #[inline(always)]
    fn tag() -> Tag {
        Tag::private(N as u32)
    }

    ghost tagged = { private_tagged (Prim.search rules) };
}

/// An explicitly tagged type: a constructed value with the tag, inside which one value of the
/// type stands (X.680, 31.2; X.690, 8.14.3).
///
/// `Explicit<Context<0>, u32>` is `[0] EXPLICIT INTEGER (0..4294967295)`.
#[derive(Clone, Copy, Debug, PartialEq, Eq, Drop)]
pub struct Explicit<M, T> {
    /// The value inside.
    pub value: T,
    mark: PhantomData<M>,
}

/// In clauses it is the value.
impl<M, T> Model for Explicit<M, T> {
    ghost Value = { T };

    ghost view = { λ x. x.value };

    ghost inverse = { λ v. record { value = v; mark = record {} } };
}

impl<M, T> Explicit<M, T> {
    /// This value.
    pub fn new(value: T) -> Explicit<M, T>
        ensures { result ≡ value }
    {
        Explicit {
            value,
            mark: PhantomData,
        }
    }
}

impl<M: TagMarker, T: Type> Type for Explicit<M, T> {
    ghost TAG = { M.TAG };

    #[inline(always)]
    fn tag() -> Tag {
        M::tag()
    }

    fn expect<P: Trace>(path: &mut P) {
        path.note(Part::Expected(Self::tag()));
    }

    ghost tags = { Only };

    ghost Key = { T.Key };

    ghost key = { λ x. T.key x };

    ghost means = { λ mode t x. AreInside (IsMember (T.tags T.TAG) (T.means mode)) t x };

    ghost keeps_all = { T.keeps_all };

    fn values_are_one() {
        <T as Fields>::fields_are_one();
    }

    ghost tagged = { refl };

    ghost value_tags = { only_tagged M.tagged };
}

impl<S: Source, M: TagMarker, T: Decode<S>> Decode<S> for Explicit<M, T> {
    ghost may_lack = { T.may_lack };

    #[inline(always)]
    fn trace_opt_if<P: Trace>(
        alloc: Global,
        cons: &mut Constructed<'_, S>,
        tag: Tag,
        path: &mut P,
    ) -> Result<Option<Explicit<M, T>>, DecodeError<S::Error>> {
        match take_inside::<S, T, P>(alloc, cons, tag, path) {
            Ok(Some(value)) => Ok(Some(Explicit::new(value))),
            Ok(None) => Ok(None),
            Err(error) => {
                path.note(Part::Only);
                Err(error)
            }
        }
    }
}
