//! Values in memory of their own.
ghost use Rattle.std.specs.Prelude.{true};
ghost use Rattle.bcder.specs.calls.Views.{Moved};
ghost use Rattle.asn1.specs.Types.{TookNextTyped};

use crate::{Decode, FixedTag, Trace, Type};
use bcder::Tag;
use bcder::decode::{Constructed, DecodeError, Source};
use std::alloc::Global;

/// A value in memory of its own: it means the same, and is told apart by the same.
impl<T: Type> Type for Box<T> {
    ghost TAG = { T.TAG };

    #[inline(always)]
    fn tag() -> Tag {
        T::tag()
    }

    const NAME: &'static str = T::NAME;

    ghost expects = { T.expects };

    fn expect<P: Trace>(path: &mut P) {
        T::expect(path);
    }

    ghost tags = { T.tags };

    ghost Key = { T.Key };

    ghost key = { λ x. T.key x.value };

    ghost means = { λ mode t x. T.means mode t x.value };

    ghost keeps_all = { T.keeps_all };

    fn values_are_one() {
        T::values_are_one();
    }

    ghost tagged = { T.tagged };

    ghost value_tags = { T.value_tags };
}

impl<T: FixedTag> FixedTag for Box<T> {
    ghost fixed = { T.fixed };
}

impl<S: Source, T: Decode<S>> Decode<S> for Box<T> {
    ghost may_lack = { true };

    fn trace_opt_if<P: Trace>(
        alloc: Global,
        cons: &mut Constructed<'_, S>,
        tag: Tag,
        path: &mut P,
    ) -> Result<Option<Box<T>>, DecodeError<S::Error>> {
        match T::trace_opt_if(alloc, cons, tag, path) {
            Ok(Some(value)) => match Box::new(alloc, value) {
                Ok(boxed) => Ok(Some(boxed)),
                Err(_) => {
                    cons.fail();
                    Err(DecodeError::no_memory())
                }
            },
            Ok(None) => Ok(None),
            Err(error) => Err(error),
        }
    }
}
