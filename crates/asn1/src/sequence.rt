//! Constructed values of fields: SEQUENCE (X.690, 8.9), SEQUENCE OF, and explicit tags (8.14).
ghost use Rattle.std.specs.Prelude.{refl};
ghost use Rattle.bcder.specs.x690.Identifier.{sequence_tag};
ghost use Rattle.bcder.specs.calls.Views.{Moved};
ghost use Rattle.asn1.specs.Types.{AreInside, Only, TookFields, TookNextTyped};
ghost use Rattle.asn1.specs.Tags.{sequence_tagged, only_tagged};

use crate::{Decode, DecodeFields, Fields, Part, Trace, Type};
use bcder::Tag;
use bcder::decode::{Constructed, DecodeError, Source};
use std::alloc::Global;
use std::marker::Model;

/// Takes the next value if it has this tag. It then has to be constructed of the fields.
#[inline(always)]
pub(crate) fn take_inside<S: Source, F: DecodeFields<S>, P: Trace>(
    alloc: Global,
    cons: &mut Constructed<'_, S>,
    tag: Tag,
    path: &mut P,
) -> Result<Option<F>, DecodeError<S::Error>>
    ensures moves { Moved S.stream cons }
    ensures took { TookNextTyped S.stream cons (Only tag)
        (λ mode. AreInside (F.takes mode)) F.may_lack result }
{
    cons.take_opt_constructed_if(tag, |cons| F::trace_fields(alloc, cons, path))
}

/// A SEQUENCE of fields.
#[derive(Clone, Copy, Debug, PartialEq, Eq, Drop)]
pub struct Sequence<F>(pub F);

impl<F> Model for Sequence<F> {
    ghost Value = { F };

    ghost view = { λ s. s.0 };

    ghost inverse = { λ f. record { 0 = f } };
}

impl<F: Fields> Type for Sequence<F> {
    ghost TAG = { sequence_tag };

    #[inline(always)]
    fn tag() -> Tag {
        Tag::SEQUENCE
    }

    fn expect<P: Trace>(path: &mut P) {
        path.note(Part::Expected(Self::tag()));
    }

    ghost tags = { Only };

    ghost Key = { F.Keys };

    ghost key = { λ x. F.keys x };

    ghost means = { λ mode t x. AreInside (F.takes mode) t x };

    ghost keeps_all = { F.keep_all };

    fn values_are_one() {
        F::fields_are_one();
    }

    ghost tagged = { refl };

    ghost value_tags = { only_tagged sequence_tagged };
}

impl<S: Source, F: DecodeFields<S>> Decode<S> for Sequence<F> {
    ghost may_lack = { F.may_lack };

    #[inline(always)]
    fn trace_opt_if<P: Trace>(
        alloc: Global,
        cons: &mut Constructed<'_, S>,
        tag: Tag,
        path: &mut P,
    ) -> Result<Option<Sequence<F>>, DecodeError<S::Error>> {
        cons.take_opt_constructed_if(
            tag,
            |cons|
                ensures moves { Moved S.stream cons }
                ensures took { TookFields S.stream cons F.takes F.may_lack result }
            {
                match F::trace_fields(alloc, cons, path) {
                    Ok(fields) => Ok(Sequence(fields)),
                    Err(error) => Err(error),
                }
            },
        )
    }
}
