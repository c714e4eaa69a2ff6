//! Implicitly tagged types (X.680, 31.2; X.690, 8.14).
ghost use Rattle.std.specs.Prelude.{◌≡◌, refl};
ghost use Rattle.bcder.specs.x690.Identifier.{Tag as TagValue};
ghost use Rattle.bcder.specs.calls.Views.{Moved};
ghost use Rattle.asn1.specs.Types.{Only, TookNextTyped};
ghost use Rattle.asn1.specs.Tags.{only_tagged};
ghost use Rattle.asn1.specs.Markers.{IsFixed, only_fixed};

use crate::{
    Decode, Explicit, Fields, FromContents, Leaf, OctetStringRef, Part, Parts, RestrictedStringRef,
    Sequence, SequenceTag, TagMarker, TaggedCharSet, Trace, Type,
};
use bcder::decode::{Constructed, DecodeError, Source};
use bcder::string::RestrictedString;
use bcder::{BitString, Integer, OctetString, Oid, Tag, Unsigned};
use std::alloc::Global;
use std::convert::AsSlice;
use std::marker::{Model, PhantomData};

/// A type whose values have one tag: all but a CHOICE, and what is defined by one.
///
/// Only such a type can be tagged implicitly (X.680, 31.2.7).
pub trait FixedTag: Type {
    /// Its values have the tag that is asked for.
    ghost fixed: { IsFixed Self.tags };
}

impl FixedTag for u8 {
    ghost fixed = { only_fixed };
}

impl FixedTag for u16 {
    ghost fixed = { only_fixed };
}

impl FixedTag for u32 {
    ghost fixed = { only_fixed };
}

impl FixedTag for u64 {
    ghost fixed = { only_fixed };
}

impl FixedTag for u128 {
    ghost fixed = { only_fixed };
}

impl FixedTag for i8 {
    ghost fixed = { only_fixed };
}

impl FixedTag for i16 {
    ghost fixed = { only_fixed };
}

impl FixedTag for i32 {
    ghost fixed = { only_fixed };
}

impl FixedTag for i64 {
    ghost fixed = { only_fixed };
}

impl FixedTag for i128 {
    ghost fixed = { only_fixed };
}

impl FixedTag for bool {
    ghost fixed = { only_fixed };
}

impl FixedTag for () {
    ghost fixed = { only_fixed };
}

impl FixedTag for Integer {
    ghost fixed = { only_fixed };
}

impl FixedTag for Unsigned {
    ghost fixed = { only_fixed };
}

impl FixedTag for OctetString {
    ghost fixed = { only_fixed };
}

impl FixedTag for BitString {
    ghost fixed = { only_fixed };
}

impl<T: AsSlice<u8> + Drop> FixedTag for Oid<T> {
    ghost fixed = { only_fixed };
}

impl<L: TaggedCharSet> FixedTag for RestrictedString<L> {
    ghost fixed = { only_fixed };
}

impl<L: AsSlice<u8> + Copy + Drop> FixedTag for OctetStringRef<L> {
    ghost fixed = { only_fixed };
}

impl<C: TaggedCharSet, L: AsSlice<u8> + Copy + Drop> FixedTag for RestrictedStringRef<C, L> {
    ghost fixed = { only_fixed };
}

impl<V: FromContents> FixedTag for Leaf<V> {
    ghost fixed = { only_fixed };
}

impl<F: Fields> FixedTag for Sequence<F> {
    ghost fixed = { only_fixed };
}

impl<M: TagMarker, T: Type> FixedTag for Explicit<M, T> {
    ghost fixed = { only_fixed };
}

impl FixedTag for SequenceTag {
    ghost fixed = { only_fixed };
}

impl<D: Parts> FixedTag for D
where
    D::Tags: FixedTag,
{
    ghost fixed = { D.Tags.fixed };
}

/// An implicitly tagged type: a value of the type, with this tag in place of its own
/// (X.680, 31.2; X.690, 8.14.4).
///
/// `Implicit<Context<0>, u32>` is `[0] IMPLICIT INTEGER (0..4294967295)`.
#[derive(Clone, Copy, Debug, PartialEq, Eq, Drop)]
pub struct Implicit<M, T> {
    /// The value.
    pub value: T,
    mark: PhantomData<M>,
}

/// In clauses it is the value.
impl<M, T> Model for Implicit<M, T> {
    ghost Value = { T };

    ghost view = { λ x. x.value };

    ghost inverse = { λ v. record { value = v; mark = record {} } };
}

impl<M, T> Implicit<M, T> {
    /// This value.
    pub fn new(value: T) -> Implicit<M, T>
        ensures { result ≡ value }
    {
        Implicit {
            value,
            mark: PhantomData,
        }
    }
}

impl<M: TagMarker, T: FixedTag> FixedTag for Implicit<M, T> {
    ghost fixed = { only_fixed };
}

impl<M: TagMarker, T: FixedTag> Type for Implicit<M, T> {
    ghost TAG = { M.TAG };

    #[inline(always)]
    fn tag() -> Tag {
        M::tag()
    }

    fn expect<P: Trace>(path: &mut P) {
        path.note(Part::Expected(Self::tag()));
    }

    ghost tags = { Only };

    ghost Key = { T.Key };

    ghost key = { λ x. T.key x };

    ghost means = { λ mode t x. T.means mode t x };

    ghost keeps_all = { T.keeps_all };

    fn values_are_one() {
        T::values_are_one();
    }

    ghost tagged = { refl };

    ghost value_tags = { only_tagged M.tagged };
}

impl<S: Source, M: TagMarker, T: FixedTag + Decode<S>> Decode<S> for Implicit<M, T> {
    ghost may_lack = { T.may_lack };

    #[inline(always)]
    fn trace_opt_if<P: Trace>(
        alloc: Global,
        cons: &mut Constructed<'_, S>,
        tag: Tag,
        path: &mut P,
    ) -> Result<Option<Implicit<M, T>>, DecodeError<S::Error>> {
        match T::trace_opt_if(alloc, cons, tag, path) {
            Ok(Some(value)) => Ok(Some(Implicit::new(value))),
            Ok(None) => Ok(None),
            Err(error) => Err(error),
        }
    }
}
