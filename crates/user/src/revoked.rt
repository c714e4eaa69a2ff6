//! Reads the entries of a list of revoked certificates (RFC 5280, section 5.1), and shows how to
//! keep a list.
ghost use Rattle.bcder.specs.calls.Views.{Moved};

use crate::certificate::Time;
use crate::parts;
use crate::parts::Parts;
use bcder::decode::{Constructed, DecodeError, Source};
use bcder::{Captured, Mode, Tag, Unsigned};
use std::alloc::Global;
use std::convert::Infallible;

/// A revoked certificate.
#[derive(Drop)]
pub struct Entry {
    /// The serial number of the certificate.
    pub serial: Unsigned,

    /// When the certificate was revoked.
    pub date: Time,

    /// The extensions of the entry, captured to be read later.
    pub extensions: Option<Captured>,
}

impl Entry {
    /// Takes the next entry, a SEQUENCE, if there is one.
    pub fn take_opt_from<S: Source>(
        alloc: Global,
        cons: &mut Constructed<'_, S>,
    ) -> Result<Option<Entry>, DecodeError<S::Error>>
        ensures { Moved S.stream cons }
    {
        parts::take_opt(alloc, cons)
    }
}

impl Parts for Entry {
    fn take_parts<S: Source>(
        alloc: Global,
        cons: &mut Constructed<'_, S>,
    ) -> Result<Entry, DecodeError<S::Error>> {
        let serial = Unsigned::take_from(alloc, cons)?;
        let date = Time::take_from(cons)?;
        let extensions = cons.take_opt_sequence(|cons| cons.capture_all(alloc))?;
        Ok(Entry {
            serial,
            date,
            extensions,
        })
    }
}

/// Takes the entries of a list, which is a SEQUENCE OF.
pub fn take_entries<S: Source>(
    alloc: Global,
    cons: &mut Constructed<'_, S>,
) -> Result<Vec<Entry>, DecodeError<S::Error>>
    ensures { Moved S.stream cons }
{
    cons.take_sequence(|cons| cons.collect_some(alloc, |cons| Entry::take_opt_from(alloc, cons)))
}

/// Decodes the entries of a list in DER from the start of octets.
pub fn decode_entries(alloc: Global, octets: &[u8]) -> Result<Vec<Entry>, DecodeError<Infallible>> {
    Mode::Der.decode(octets, |cons| take_entries(alloc, cons))
}

/// Takes an OCTET STRING that holds an ENUMERATED, and returns its number: the reason of a
/// revocation.
pub fn take_reason<S: Source>(
    alloc: Global,
    cons: &mut Constructed<'_, S>,
) -> Result<u8, DecodeError<S::Error>>
    ensures { Moved S.stream cons }
{
    let octets = cons.take_primitive_if(Tag::OCTET_STRING, |octets| octets.take_all(alloc))?;
    match Mode::Der.decode(octets, |cons| take_enumerated(cons)) {
        Ok(reason) => Ok(reason),
        Err(error) => Err(error.convert()),
    }
}

/// Takes an ENUMERATED.
fn take_enumerated<S: Source>(cons: &mut Constructed<'_, S>) -> Result<u8, DecodeError<S::Error>>
    ensures { Moved S.stream cons }
{
    cons.take_primitive_if(Tag::ENUMERATED, |octets| octets.to_u8())
}
