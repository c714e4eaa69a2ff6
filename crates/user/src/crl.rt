//! Reads a list of revoked certificates (RFC 5280, section 5.1).
//!
//! This module shows a loop that keeps values with `push`, object identifiers that must have the
//! fewest octets, and how to decode a value inside an OCTET STRING that was kept.
ghost use Rattle.bcder.specs.calls.Views.{Moved};

use crate::certificate::{Time, skip_algorithm};
use crate::lists::{List, take_list};
use crate::names::Name;
use crate::parts;
use crate::parts::{Parts, SignedPart};
use crate::revoked::Entry;
use bcder::decode::{Constructed, ContentError, DecodeError, SliceSource, Source};
use bcder::{ConstOid, Mode, OctetString, Oid, Tag, Unsigned};
use std::alloc::Global;
use std::convert::Infallible;

/// The identifier of the extension that holds the number of the list: 2.5.29.20.
const CRL_NUMBER: ConstOid = Oid(&[0x55, 0x1D, 0x14]);

/// What is read of a list of revoked certificates.
#[derive(Drop)]
pub struct Crl {
    /// The name of the issuer.
    pub issuer: Name,

    /// When the list was issued.
    pub this_update: Time,

    /// When the next list is issued at the latest.
    pub next_update: Option<Time>,

    /// The revoked certificates.
    pub revoked: Vec<Entry>,

    /// The number of the list, if an extension holds one.
    pub number: Option<Unsigned>,
}

impl Crl {
    /// Decodes a list in DER from the start of octets.
    pub fn decode(alloc: Global, octets: &[u8]) -> Result<Crl, DecodeError<Infallible>> {
        let source = SliceSource::new(octets);
        let signed: SignedPart<Crl> = parts::decode(Mode::Der, alloc, source)?;
        Ok(signed.0)
    }
}

/// The parts are those of the SEQUENCE that is signed.
impl Parts for Crl {
    fn take_parts<S: Source>(
        alloc: Global,
        cons: &mut Constructed<'_, S>,
    ) -> Result<Crl, DecodeError<S::Error>> {
        cons.take_opt_u8()?;
        skip_algorithm(cons)?;
        let mut crl = Crl {
            issuer: Name::take_from(alloc, cons)?,
            this_update: Time::take_from(cons)?,
            next_update: take_opt_time(cons)?,
            revoked: take_revoked(alloc, cons)?,
            number: None,
        };
        let number = cons.take_opt_constructed_if(Tag::CTX_0, |cons| take_number(alloc, cons))?;
        crl.number = number.unwrap_or(None);
        Ok(crl)
    }
}

/// The number of the list, if an extension holds one.
#[derive(Drop)]
struct Number {
    alloc: Global,
    found: Option<Unsigned>,
}

/// Each extension is a SEQUENCE of its identifier, an optional BOOLEAN that says whether it is
/// critical, and an OCTET STRING.
impl List for Number {
    fn take_one<S: Source>(
        &mut self,
        cons: &mut Constructed<'_, S>,
    ) -> Result<(), DecodeError<S::Error>> {
        let kind = take_identifier(self.alloc, cons)?;
        cons.take_opt_bool()?;
        let value = OctetString::take_from(self.alloc, cons)?;
        if kind.same_as(&CRL_NUMBER) {
            self.found = Some(number_in(self.alloc, value)?);
        }
        Ok(())
    }
}

/// Takes a SEQUENCE OF extensions, and returns the number of the list, if one of them holds it.
fn take_number<S: Source>(
    alloc: Global,
    cons: &mut Constructed<'_, S>,
) -> Result<Option<Unsigned>, DecodeError<S::Error>>
    ensures { Moved S.stream cons }
{
    let none = Number { alloc, found: None };
    let number = take_list(Tag::SEQUENCE, none, cons)?;
    Ok(number.found)
}

/// Takes a time, if one comes next.
fn take_opt_time<S: Source>(
    cons: &mut Constructed<'_, S>,
) -> Result<Option<Time>, DecodeError<S::Error>>
    ensures { Moved S.stream cons }
{
    let time = Time::take_opt_if(Tag::UTC_TIME, cons)?;
    if time.is_some() {
        return Ok(time);
    }
    Time::take_opt_if(Tag::GENERALIZED_TIME, cons)
}

/// Takes the entries, a SEQUENCE OF that is left out if there are none.
fn take_revoked<S: Source>(
    alloc: Global,
    cons: &mut Constructed<'_, S>,
) -> Result<Vec<Entry>, DecodeError<S::Error>>
    ensures { Moved S.stream cons }
{
    let mut revoked = Vec::new(alloc);
    cons.take_opt_sequence(
        |cons|
            ensures { Moved S.stream cons }
        {
            cons.while_some(
                |cons|
                    ensures { Moved S.stream cons }
                {
                    let Some(entry) = Entry::take_opt_from(alloc, cons)? else {
                        return Ok(None);
                    };
                    revoked.push(entry).map_err(|_| DecodeError::no_memory())?;
                    Ok(Some(()))
                },
            )
        },
    )?;
    Ok(revoked)
}

/// Takes an object identifier, and refuses one with a subidentifier that isn't in the fewest octets
/// (X.690, 8.19.2).
fn take_identifier<S: Source>(
    alloc: Global,
    cons: &mut Constructed<'_, S>,
) -> Result<Oid, DecodeError<S::Error>>
    ensures { Moved S.stream cons }
{
    let oid = Oid::take_from(alloc, cons)?;
    if oid.is_minimal() {
        return Ok(oid);
    }
    let error = ContentError::from_static("subidentifier not in the fewest octets");
    Err(cons.content_err(error))
}

/// Decodes the INTEGER inside an OCTET STRING.
fn number_in<E>(alloc: Global, string: OctetString) -> Result<Unsigned, DecodeError<E>> {
    match Mode::Der.decode(string, |cons| Unsigned::take_from(alloc, cons)) {
        Ok(number) => Ok(number),
        Err(error) => Err(error.convert()),
    }
}
