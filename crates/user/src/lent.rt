//! Reads entries of a revocation list (RFC 5280, section 5.1) that keep lent octets: nothing is
//! copied.
ghost use Rattle.bcder.specs.calls.Views.{Moved};

use bcder::decode::{Constructed, DecodeError, LendingSource};
use bcder::{Mode, Tag};
use std::alloc::Global;

/// An entry for a revoked certificate. It keeps octets that its source lends.
#[derive(Clone, Copy)]
pub struct LentEntry<O> {
    /// The octets of its serial number.
    pub serial: O,

    /// The digits of the time when it was revoked.
    pub date: O,
}

/// Takes the next entry, a SEQUENCE, if there is one. Skips its extensions.
fn take_opt_entry<S: LendingSource>(
    alloc: Global,
    cons: &mut Constructed<'_, S>,
) -> Result<Option<LentEntry<S::Lent>>, DecodeError<S::Error>>
    ensures { Moved S.stream cons }
{
    cons.take_opt_sequence(|cons| take_entry(alloc, cons))
}

/// Takes what is inside that SEQUENCE.
fn take_entry<S: LendingSource>(
    alloc: Global,
    cons: &mut Constructed<'_, S>,
) -> Result<LentEntry<S::Lent>, DecodeError<S::Error>>
    ensures { Moved S.stream cons }
{
    let serial = cons.take_primitive_if(Tag::INTEGER, |octets| octets.take_lent())?;
    let date = cons.take_primitive(|_tag, octets| octets.take_lent())?;
    cons.skip_all(alloc)?;
    Ok(LentEntry { serial, date })
}

/// Decodes a list in DER, which has to be all of a source.
pub fn lent_entries<S: LendingSource + Drop>(
    alloc: Global,
    source: S,
) -> Result<Vec<LentEntry<S::Lent>>, DecodeError<S::Error>> {
    Mode::Der.decode_all(source, |cons| take_lent_entries(alloc, cons))
}

/// Takes the entries of a list, a SEQUENCE OF.
fn take_lent_entries<S: LendingSource>(
    alloc: Global,
    cons: &mut Constructed<'_, S>,
) -> Result<Vec<LentEntry<S::Lent>>, DecodeError<S::Error>>
    ensures { Moved S.stream cons }
{
    cons.take_sequence(|cons| { cons.collect_some(alloc, |cons| take_opt_entry(alloc, cons)) })
}
