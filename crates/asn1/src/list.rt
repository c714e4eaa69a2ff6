//! As many values of a type as stand there: SEQUENCE OF (X.680, 26; X.690, 8.10).
ghost use Rattle.std.specs.Prelude.{List, refl, true};
ghost use Rattle.bcder.specs.x690.Identifier.{sequence_tag};
ghost use Rattle.bcder.specs.calls.Views.{Moved};
ghost use Rattle.asn1.specs.Types.{AreInside, AreList, Only, TookFields, TookNextTyped};
ghost use Rattle.asn1.specs.Types.{TookList};
ghost use Rattle.asn1.specs.Keys.{list_key};
ghost use Rattle.asn1.specs.Tags.{sequence_tagged, only_tagged};
ghost use Rattle.asn1.specs.Markers.{only_fixed};

use crate::sequence::take_inside;
use crate::{Decode, DecodeFields, Fields, FixedTag, Part, Sequence, Trace, Type};
use bcder::Tag;
use bcder::decode::{Constructed, DecodeError, Source};
use std::alloc::Global;
use std::marker::Model;

/// A SEQUENCE OF: any number of values of one type, in their order (X.680, 26; X.690, 8.10).
///
/// `SequenceOf<u32>` is `SEQUENCE OF INTEGER (0..4294967295)`. It is read and written as
/// `Sequence<Vec<u32>>` is. It is a type of its own since the checker can't state types defined by
/// others that are defined by a `Vec`.
#[derive(Debug, Drop)]
pub struct SequenceOf<T>(pub Vec<T>);

/// In clauses it is the vector.
impl<T> Model for SequenceOf<T> {
    ghost use Rattle.std.specs.declared.vec.Vec.{Vec};
    ghost use Rattle.std.specs.declared.alloc.Global.{Global};

    ghost Value = { Vec T Global };

    ghost view = { λ s. s.0 };

    ghost inverse = { λ v. record { 0 = v } };
}

impl<T: Type> Type for SequenceOf<T> {
    ghost TAG = { sequence_tag };

    #[inline(always)]
    fn tag() -> Tag {
        Tag::SEQUENCE
    }

    fn expect<P: Trace>(path: &mut P) {
        path.note(Part::Expected(Self::tag()));
    }

    ghost tags = { Only };

    ghost Key = { List T.Key };

    ghost key = { λ x. list_key T.key x.items };

    ghost means = { λ mode t x. AreInside (λ ts y us.
        AreList (T.tags T.TAG) (T.means mode) ts y.items us) t x };

    ghost keeps_all = { T.keeps_all };

    fn values_are_one() {
        <Sequence<Vec<T>>>::values_are_one();
    }

    ghost tagged = { refl };

    ghost value_tags = { only_tagged sequence_tagged };
}

impl<T: Type> FixedTag for SequenceOf<T> {
    ghost fixed = { only_fixed };
}

impl<S: Source, T: Decode<S>> Decode<S> for SequenceOf<T> {
    ghost may_lack = { true };

    #[inline(always)]
    fn trace_opt_if<P: Trace>(
        alloc: Global,
        cons: &mut Constructed<'_, S>,
        tag: Tag,
        path: &mut P,
    ) -> Result<Option<SequenceOf<T>>, DecodeError<S::Error>> {
        match take_inside::<S, Vec<T>, P>(alloc, cons, tag, path) {
            Ok(Some(values)) => Ok(Some(SequenceOf(values))),
            Ok(None) => Ok(None),
            Err(error) => {
                path.note(Part::Only);
                Err(error)
            }
        }
    }
}

/// As many values as have one of the type's tags, in their order.
impl<T: Type> Fields for Vec<T> {
    ghost Keys = { List T.Key };

    ghost keys = { λ x. list_key T.key x.items };

    ghost takes = { λ mode ts x us. AreList (T.tags T.TAG) (T.means mode) ts x.items us };

    ghost keep_all = { T.keeps_all };

    fn count() -> usize {
        1
    }

    fn fields_are_one() {
        T::values_are_one();
    }
}

impl<S: Source, T: Decode<S>> DecodeFields<S> for Vec<T> {
    ghost may_lack = { true };

    #[inline(always)]
    fn trace_fields<P: Trace>(
        alloc: Global,
        cons: &mut Constructed<'_, S>,
        path: &mut P,
    ) -> Result<Vec<T>, DecodeError<S::Error>> {
        take_list(alloc, cons, path)
    }
}

/// Takes as many values as have one of the type's tags.
#[inline(always)]
pub(crate) fn take_list<S: Source, T: Decode<S>, P: Trace>(
    alloc: Global,
    cons: &mut Constructed<'_, S>,
    path: &mut P,
) -> Result<Vec<T>, DecodeError<S::Error>>
    ensures moves { Moved S.stream cons }
    ensures took { TookList S.stream cons (T.tags T.TAG) T.means result }
{
    let mut all = Vec::new(alloc);
    loop {
        match T::trace_opt_from(alloc, cons, path) {
            Ok(Some(value)) => {
                if all.push(value).is_err() {
                    return Err(DecodeError::no_memory());
                }
            }
            Ok(None) => return Ok(all),
            Err(error) => {
                path.note(Part::Item(all.len()));
                path.note(Part::Field);
                return Err(error);
            }
        }
    }
}
