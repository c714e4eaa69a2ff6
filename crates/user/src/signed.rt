//! Reads signed messages (RFC 5652, section 5).
ghost use Rattle.bcder.specs.calls.Views.{Moved};

use crate::certificate::{Certificate, skip_algorithm, skip_algorithm_parts};
use crate::lists::{Each, List, take_all, take_list, take_opt_list};
use crate::parts::{Parts, SignedPart};
use crate::{parts, skip_octets};
use bcder::decode::{Constructed, DecodeError, Source, walk};
use bcder::{Mode, OctetString, Tag};
use std::alloc::Global;

/// What is read of a signed message.
#[derive(Clone, Copy)]
pub struct Signed {
    /// The number of digest algorithms.
    pub digests: u64,

    /// The number of octets of the message, if it is inside.
    pub message: Option<usize>,

    /// The number of certificates.
    pub certificates: u64,

    /// The number of revocation lists.
    pub lists: u64,

    /// The number of signers.
    pub signers: u64,

    /// The number of attributes of all signers.
    pub attributes: u64,
}

/// A message is a SEQUENCE of an OBJECT IDENTIFIER and, with the explicit tag `[0]`, the signed
/// data.
impl Parts for Signed {
    fn take_parts<S: Source>(
        alloc: Global,
        cons: &mut Constructed<'_, S>,
    ) -> Result<Signed, DecodeError<S::Error>> {
        skip_octets(Tag::OID, cons)?;
        cons.take_constructed_if(Tag::CTX_0, |cons| {
            cons.take_sequence(|cons| Signed::take_data(alloc, cons))
        })
    }
}

impl Signed {
    /// Takes the parts of the signed data.
    fn take_data<S: Source>(
        alloc: Global,
        cons: &mut Constructed<'_, S>,
    ) -> Result<Signed, DecodeError<S::Error>>
        ensures { Moved S.stream cons }
    {
        cons.take_u8()?;
        let digests = take_list(Tag::SET, Algorithms(0), cons)?;
        let message = take_message(alloc, cons)?;
        let none = Certificates { alloc, all: 0 };
        let certificates = take_opt_list(Tag::CTX_0, none, cons)?;
        let lists = cons.take_opt_constructed_if(Tag::CTX_1, |cons| count_values(cons))?;
        let none = Signers {
            all: 0,
            attributes: 0,
        };
        let signers = take_list(Tag::SET, none, cons)?;
        Ok(Signed {
            digests: digests.0,
            message,
            certificates: certificates.all,
            lists: lists.unwrap_or(0),
            signers: signers.all,
            attributes: signers.attributes,
        })
    }
}

/// Takes what is signed, and returns the number of the message's octets if it is inside.
///
/// It is a SEQUENCE of an OBJECT IDENTIFIER and, with the explicit tag `[0]`, the optional message,
/// which may be cut into segments.
fn take_message<S: Source>(
    alloc: Global,
    cons: &mut Constructed<'_, S>,
) -> Result<Option<usize>, DecodeError<S::Error>>
    ensures { Moved S.stream cons }
{
    let message = cons.take_sequence(|cons| {
        skip_octets(Tag::OID, cons)?;
        cons.take_opt_constructed_if(Tag::CTX_0, |cons| OctetString::take_from(alloc, cons))
    })?;
    match message {
        Some(message) => Ok(Some(message.len())),
        None => Ok(None),
    }
}

/// The number of algorithms.
#[derive(Clone, Copy)]
struct Algorithms(u64);

impl List for Algorithms {
    fn take_one<S: Source>(
        &mut self,
        cons: &mut Constructed<'_, S>,
    ) -> Result<(), DecodeError<S::Error>> {
        self.0 = self.0.saturating_add(1);
        skip_algorithm_parts(cons)
    }
}

/// The number of certificates.
#[derive(Clone, Copy)]
struct Certificates {
    alloc: Global,
    all: u64,
}

impl List for Certificates {
    fn take_one<S: Source>(
        &mut self,
        cons: &mut Constructed<'_, S>,
    ) -> Result<(), DecodeError<S::Error>> {
        self.all = self.all.saturating_add(1);
        SignedPart::<Certificate>::take_parts(self.alloc, cons)?;
        Ok(())
    }
}

/// The number of values, of which only the headers are read.
#[derive(Clone, Copy)]
struct Values(u64);

impl Each for Values {
    fn take_next<S: Source>(
        &mut self,
        cons: &mut Constructed<'_, S>,
    ) -> Result<Option<()>, DecodeError<S::Error>> {
        let value = walk(cons)?;
        if value.is_some() {
            self.0 = self.0.saturating_add(1);
        }
        Ok(value)
    }
}

/// Skips the values up to the end, and returns their number.
fn count_values<S: Source>(cons: &mut Constructed<'_, S>) -> Result<u64, DecodeError<S::Error>>
    ensures { Moved S.stream cons }
{
    let mut values = Values(0);
    take_all(&mut values, cons)?;
    Ok(values.0)
}

/// The number of signers, and of the attributes of all of them.
#[derive(Clone, Copy)]
struct Signers {
    all: u64,
    attributes: u64,
}

impl List for Signers {
    fn take_one<S: Source>(
        &mut self,
        cons: &mut Constructed<'_, S>,
    ) -> Result<(), DecodeError<S::Error>> {
        let attributes = take_signer(cons)?;
        self.all = self.all.saturating_add(1);
        self.attributes = self.attributes.saturating_add(attributes);
        Ok(())
    }
}

/// Takes what is inside the SEQUENCE of a signer, and returns the number of its attributes.
fn take_signer<S: Source>(cons: &mut Constructed<'_, S>) -> Result<u64, DecodeError<S::Error>>
    ensures { Moved S.stream cons }
{
    cons.take_u8()?;
    skip_signer_name(cons)?;
    skip_algorithm(cons)?;
    let signed = take_opt_list(Tag::CTX_0, Attributes(0), cons)?;
    skip_algorithm(cons)?;
    skip_octets(Tag::OCTET_STRING, cons)?;
    let unsigned = take_opt_list(Tag::CTX_1, Attributes(0), cons)?;
    Ok(signed.0.saturating_add(unsigned.0))
}

/// Skips the name of a signer: a SEQUENCE of the issuer's name and a serial number, or the octets
/// of a key identifier with the tag `[0]`.
fn skip_signer_name<S: Source>(cons: &mut Constructed<'_, S>) -> Result<(), DecodeError<S::Error>>
    ensures { Moved S.stream cons }
{
    let name = cons.take_opt_sequence(|cons| {
        cons.take_sequence(|cons| count_values(cons))?;
        skip_octets(Tag::INTEGER, cons)
    })?;
    match name {
        Some(()) => Ok(()),
        None => skip_octets(Tag::CTX_0, cons),
    }
}

/// The number of attributes.
#[derive(Clone, Copy)]
struct Attributes(u64);

/// Each attribute is a SEQUENCE of an OBJECT IDENTIFIER and a SET OF any values.
impl List for Attributes {
    fn take_one<S: Source>(
        &mut self,
        cons: &mut Constructed<'_, S>,
    ) -> Result<(), DecodeError<S::Error>> {
        self.0 = self.0.saturating_add(1);
        skip_octets(Tag::OID, cons)?;
        cons.take_set(|cons| count_values(cons))?;
        Ok(())
    }
}

/// Decodes a signed message in BER from the start of a source.
pub fn decode_signed<S: Source + Drop>(
    alloc: Global,
    source: S,
) -> Result<Signed, DecodeError<S::Error>> {
    parts::decode(Mode::Ber, alloc, source)
}
