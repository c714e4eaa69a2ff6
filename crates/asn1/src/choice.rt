//! One of several types: CHOICE (X.680, 29; X.690, 8.13).
ghost use Rattle.std.proofs.Common.{inl};
ghost use Rattle.std.specs.Prelude.{◌||◌, ◌++◌};
ghost use Rattle.bcder.specs.calls.Views.{Moved};
ghost use Rattle.asn1.specs.Types.{TookNextTyped};
ghost use Rattle.asn1.specs.Choices.{EitherTag, IsChoice, choice_key, either_tagged};
ghost use Rattle.asn1.specs.Choices.{three_in_two, four_in_two};
ghost use Rattle.asn1.specs.declared.choice.Choice2.{Choice2 as ChoiceOfKeys};

use crate::{Decode, DecodeParts, Part, Parts, Trace, Type};
use bcder::Tag;
use bcder::decode::{Constructed, DecodeError, Source};
use std::alloc::Global;

/// A CHOICE of two types (X.680, 29).
///
/// It has no tag of its own: a value is one of the type that its tag shows (X.690, 8.13). Where
/// the types share a tag, which X.680, 29.3, does not allow, it is one of the first.
#[derive(Clone, Copy, Debug, PartialEq, Eq, Drop)]
pub enum Choice2<A, B> {
    /// A value of the first type.
    One(A),
    /// A value of the second type.
    Two(B),
}

impl<A: Type, B: Type> Type for Choice2<A, B> {
    ghost TAG = { A.TAG };

    #[inline(always)]
    fn tag() -> Tag {
        A::tag()
    }

    ghost expects = { λ _. A.expects A.TAG ++ B.expects B.TAG };

    #[tactic(auto, using(crate::proofs::Traced::noted_both))]
    fn expect<P: Trace>(path: &mut P) {
        A::expect(path);
        B::expect(path);
    }

    ghost tags = { λ _ t. EitherTag (A.tags A.TAG) (B.tags B.TAG) t };

    ghost Key = { ChoiceOfKeys A.Key B.Key };

    ghost key = { choice_key A.key B.key };

    ghost means = { λ mode. IsChoice (A.tags A.TAG) (A.means mode) (B.tags B.TAG) (B.means mode) };

    ghost keeps_all = { A.keeps_all × B.keeps_all };

    fn values_are_one() {
        A::values_are_one();
        B::values_are_one();
    }

    ghost tagged = { inl A.tagged };

    ghost value_tags = { either_tagged A.value_tags B.value_tags };
}

impl<S: Source, A: Decode<S>, B: Decode<S>> Decode<S> for Choice2<A, B> {
    ghost may_lack = { A.may_lack || B.may_lack };

    #[inline(always)]
    fn trace_opt_if<P: Trace>(
        alloc: Global,
        cons: &mut Constructed<'_, S>,
        _tag: Tag,
        path: &mut P,
    ) -> Result<Option<Choice2<A, B>>, DecodeError<S::Error>> {
        match A::trace_opt_from(alloc, cons, path) {
            Ok(Some(one)) => return Ok(Some(Choice2::One(one))),
            Ok(None) => {}
            Err(error) => {
                path.note(Part::First);
                return Err(error);
            }
        }
        match B::trace_opt_from(alloc, cons, path) {
            Ok(Some(two)) => Ok(Some(Choice2::Two(two))),
            Ok(None) => Ok(None),
            Err(error) => {
                path.note(Part::Second);
                Err(error)
            }
        }
    }
}

/// A CHOICE of three types.
#[derive(Clone, Copy, Debug, PartialEq, Eq, Drop)]
pub enum Choice3<A, B, C> {
    /// A value of the first type.
    One(A),
    /// A value of the second type.
    Two(B),
    /// A value of the third type.
    Three(C),
}

/// It is [`Parts`], since types that hold it are then checked in less time.
impl<A: Type, B: Type, C: Type> Parts for Choice3<A, B, C> {
    type As = Choice2<A, Choice2<B, C>>;

    type Tags = Choice2<A, Choice2<B, C>>;

    ghost parts = { three_in_two };

    ghost typed = { ⟦<Choice2<A, Choice2<B, C>> as Type>⟧ };

    fn from_parts(value: Choice2<A, Choice2<B, C>>) -> Choice3<A, B, C> {
        match value {
            Choice2::One(one) => Choice3::One(one),
            Choice2::Two(Choice2::One(two)) => Choice3::Two(two),
            Choice2::Two(Choice2::Two(three)) => Choice3::Three(three),
        }
    }

    fn parts_are_one() {
        <Choice2<A, Choice2<B, C>>>::values_are_one();
    }
}

impl<S: Source, A: Decode<S>, B: Decode<S>, C: Decode<S>> DecodeParts<S> for Choice3<A, B, C> {
    ghost may_lack = { A.may_lack || (B.may_lack || C.may_lack) };

    #[inline(always)]
    fn trace_parts<P: Trace>(
        alloc: Global,
        cons: &mut Constructed<'_, S>,
        tag: Tag,
        path: &mut P,
    ) -> Result<Option<Choice2<A, Choice2<B, C>>>, DecodeError<S::Error>> {
        <Choice2<A, Choice2<B, C>>>::trace_opt_if(alloc, cons, tag, path)
    }
}

/// A CHOICE of four types.
#[derive(Clone, Copy, Debug, PartialEq, Eq, Drop)]
pub enum Choice4<A, B, C, D> {
    /// A value of the first type.
    One(A),
    /// A value of the second type.
    Two(B),
    /// A value of the third type.
    Three(C),
    /// A value of the fourth type.
    Four(D),
}

/// It is [`Parts`], since types that hold it are then checked in less time.
impl<A: Type, B: Type, C: Type, D: Type> Parts for Choice4<A, B, C, D> {
    type As = Choice2<A, Choice2<B, Choice2<C, D>>>;

    type Tags = Choice2<A, Choice2<B, Choice2<C, D>>>;

    ghost parts = { four_in_two };

    ghost typed = { ⟦<Choice2<A, Choice2<B, Choice2<C, D>>> as Type>⟧ };

    fn from_parts(value: Choice2<A, Choice2<B, Choice2<C, D>>>) -> Choice4<A, B, C, D> {
        match value {
            Choice2::One(one) => Choice4::One(one),
            Choice2::Two(Choice2::One(two)) => Choice4::Two(two),
            Choice2::Two(Choice2::Two(Choice2::One(three))) => Choice4::Three(three),
            Choice2::Two(Choice2::Two(Choice2::Two(four))) => Choice4::Four(four),
        }
    }

    fn parts_are_one() {
        <Choice2<A, Choice2<B, Choice2<C, D>>>>::values_are_one();
    }
}

impl<S: Source, A: Decode<S>, B: Decode<S>, C: Decode<S>, D: Decode<S>> DecodeParts<S>
    for Choice4<A, B, C, D> {
    ghost may_lack = { A.may_lack || (B.may_lack || (C.may_lack || D.may_lack)) };

    #[inline(always)]
    fn trace_parts<P: Trace>(
        alloc: Global,
        cons: &mut Constructed<'_, S>,
        tag: Tag,
        path: &mut P,
    ) -> Result<Option<Choice2<A, Choice2<B, Choice2<C, D>>>>, DecodeError<S::Error>> {
        <Choice2<A, Choice2<B, Choice2<C, D>>>>::trace_opt_if(alloc, cons, tag, path)
    }
}
