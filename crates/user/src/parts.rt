//! Reads structures, each of which is a SEQUENCE.
ghost use Rattle.bcder.specs.calls.Views.{Moved};

use crate::certificate::skip_algorithm;
use crate::skip_octets;
use bcder::decode::{Constructed, DecodeError, Source};
use bcder::{Mode, Tag};
use std::alloc::Global;

/// What is read of a structure.
pub(crate) trait Parts: Sized + Drop {
    /// Takes what is inside the SEQUENCE.
    fn take_parts<S: Source>(
        alloc: Global,
        cons: &mut Constructed<'_, S>,
    ) -> Result<Self, DecodeError<S::Error>>
        ensures { Moved S.stream cons };
}

/// Takes a structure.
pub(crate) fn take<P: Parts, S: Source>(
    alloc: Global,
    cons: &mut Constructed<'_, S>,
) -> Result<P, DecodeError<S::Error>>
    ensures { Moved S.stream cons }
{
    cons.take_sequence(|cons| P::take_parts(alloc, cons))
}

/// Takes a structure, if one comes next.
pub(crate) fn take_opt<P: Parts, S: Source>(
    alloc: Global,
    cons: &mut Constructed<'_, S>,
) -> Result<Option<P>, DecodeError<S::Error>>
    ensures { Moved S.stream cons }
{
    cons.take_opt_sequence(|cons| P::take_parts(alloc, cons))
}

/// Decodes a structure from the start of a source.
pub(crate) fn decode<P: Parts, S: Source + Drop>(
    mode: Mode,
    alloc: Global,
    source: S,
) -> Result<P, DecodeError<S::Error>> {
    Constructed::decode(source, mode, |cons| take(alloc, cons))
}

/// What is signed, as certificates and lists of revoked ones are: a SEQUENCE of a structure, an
/// algorithm and a signature, of which the structure is kept.
#[derive(Drop)]
pub(crate) struct SignedPart<P>(pub P);

impl<P: Parts> Parts for SignedPart<P> {
    fn take_parts<S: Source>(
        alloc: Global,
        cons: &mut Constructed<'_, S>,
    ) -> Result<SignedPart<P>, DecodeError<S::Error>> {
        let part = take(alloc, cons)?;
        skip_algorithm(cons)?;
        skip_octets(Tag::BIT_STRING, cons)?;
        Ok(SignedPart(part))
    }
}
