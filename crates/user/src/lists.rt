//! Reads lists: those of SEQUENCEs, and those of values of any kind.
ghost use Rattle.bcder.specs.calls.Views.{Moved};

use bcder::Tag;
use bcder::decode::{Constructed, DecodeError, Source};

/// What is kept of a list.
pub(crate) trait List: Sized + Drop {
    /// Takes what is inside the next SEQUENCE, and keeps what it needs of it.
    fn take_one<S: Source>(
        &mut self,
        cons: &mut Constructed<'_, S>,
    ) -> Result<(), DecodeError<S::Error>>
        ensures { Moved S.stream cons };
}

/// Takes SEQUENCEs up to the end.
pub(crate) fn take_each<L: List, S: Source>(
    list: &mut L,
    cons: &mut Constructed<'_, S>,
) -> Result<(), DecodeError<S::Error>>
    ensures { Moved S.stream cons }
{
    cons.while_some(|cons| cons.take_opt_sequence(|cons| list.take_one(cons)))
}

/// What is kept of values of any kind.
pub(crate) trait Each {
    /// Takes the next value, if there is one, and keeps what it needs of it.
    fn take_next<S: Source>(
        &mut self,
        cons: &mut Constructed<'_, S>,
    ) -> Result<Option<()>, DecodeError<S::Error>>
        ensures { Moved S.stream cons };
}

/// Takes values up to the end.
pub(crate) fn take_all<E: Each, S: Source>(
    each: &mut E,
    cons: &mut Constructed<'_, S>,
) -> Result<(), DecodeError<S::Error>>
    ensures { Moved S.stream cons }
{
    cons.while_some(|cons| each.take_next(cons))
}

/// Takes a list with this tag, and adds its SEQUENCEs to `empty`.
pub(crate) fn take_list<L: List, S: Source>(
    tag: Tag,
    empty: L,
    cons: &mut Constructed<'_, S>,
) -> Result<L, DecodeError<S::Error>>
    ensures { Moved S.stream cons }
{
    let mut list = empty;
    cons.take_constructed_if(tag, |cons| take_each(&mut list, cons))?;
    Ok(list)
}

/// Takes a list with this tag, if it comes next, and adds its SEQUENCEs to `empty`.
pub(crate) fn take_opt_list<L: List, S: Source>(
    tag: Tag,
    empty: L,
    cons: &mut Constructed<'_, S>,
) -> Result<L, DecodeError<S::Error>>
    ensures { Moved S.stream cons }
{
    let mut list = empty;
    cons.take_opt_constructed_if(tag, |cons| take_each(&mut list, cons))?;
    Ok(list)
}
