//! Reads certificates (RFC 5280, section 4.1).
ghost use Rattle.std.specs.Prelude.{◌≡◌, ℕ, List, ◌++◌};
ghost use Rattle.bcder.specs.calls.Views.{Moved, MovedOctets};

use crate::lists::{List, take_list};
use crate::names::Name;
use crate::parts::{Parts, SignedPart};
use crate::{parts, skip_octets, take_len, take_len_of, take_opt_len_of};
use bcder::decode::{Constructed, ContentError, DecodeError, Primitive, Source, walk};
use bcder::{Mode, Tag};
use std::alloc::Global;

/// A time, of which only the number of octets is kept.
#[derive(Clone, Copy)]
pub enum Time {
    /// A time with two digits for the year.
    Utc(usize),

    /// A time with four digits for the year.
    Generalized(usize),
}

impl Time {
    /// Takes a time, which has one of two tags.
    pub fn take_from<S: Source>(
        cons: &mut Constructed<'_, S>,
    ) -> Result<Time, DecodeError<S::Error>>
        ensures { Moved S.stream cons }
    {
        cons.take_primitive(|tag, octets| Time::from_primitive(tag, octets))
    }

    /// Takes a time with this tag, if one comes next.
    pub(crate) fn take_opt_if<S: Source>(
        tag: Tag,
        cons: &mut Constructed<'_, S>,
    ) -> Result<Option<Time>, DecodeError<S::Error>>
        ensures { Moved S.stream cons }
    {
        cons.take_opt_primitive_if(tag, |octets| Time::from_primitive(tag, octets))
    }

    /// Reads a time from the tag and the contents octets of a primitive value.
    fn from_primitive<S: Source>(
        tag: Tag,
        octets: &mut Primitive<'_, S>,
    ) -> Result<Time, DecodeError<S::Error>>
        ensures { MovedOctets S.stream octets }
    {
        let len = take_len(octets)?;
        match Time::new(tag, len) {
            Some(time) => Ok(time),
            None => Err(octets.content_err(ContentError::from_static("expected a time"))),
        }
    }

    /// Makes a time of a tag and the number of octets, or returns `None` if the tag is of no time.
    fn new(tag: Tag, len: usize) -> Option<Time> {
        if tag == Tag::UTC_TIME {
            Some(Time::Utc(len))
        } else if tag == Tag::GENERALIZED_TIME {
            Some(Time::Generalized(len))
        } else {
            None
        }
    }
}

/// The time during which a certificate is valid.
#[derive(Clone, Copy)]
pub struct Validity {
    /// The first time.
    pub from: Time,

    /// The last time.
    pub to: Time,
}

impl Validity {
    /// Takes a SEQUENCE of two times.
    pub fn take_from<S: Source>(
        cons: &mut Constructed<'_, S>,
    ) -> Result<Validity, DecodeError<S::Error>>
        ensures { Moved S.stream cons }
    {
        cons.take_sequence(|cons| {
            let from = Time::take_from(cons)?;
            let to = Time::take_from(cons)?;
            Ok(Validity { from, to })
        })
    }
}

/// Skips an algorithm: a SEQUENCE of an OBJECT IDENTIFIER and optional parameters.
pub(crate) fn skip_algorithm<S: Source>(
    cons: &mut Constructed<'_, S>,
) -> Result<(), DecodeError<S::Error>>
    ensures { Moved S.stream cons }
{
    cons.take_sequence(|cons| skip_algorithm_parts(cons))
}

/// Skips what is inside the SEQUENCE of an algorithm.
pub(crate) fn skip_algorithm_parts<S: Source>(
    cons: &mut Constructed<'_, S>,
) -> Result<(), DecodeError<S::Error>>
    ensures { Moved S.stream cons }
{
    skip_octets(Tag::OID, cons)?;
    walk(cons)?;
    Ok(())
}

/// What is read of a certificate.
#[derive(Drop)]
pub struct Certificate {
    /// The version, which is 1 if the field is left out. Unique identifiers are read from version 2
    /// on, extensions from version 3 on.
    pub version: u8,

    /// The number of contents octets of the serial number.
    pub serial: usize,

    /// The name of the issuer.
    pub issuer: Name,

    /// The time during which the certificate is valid.
    pub validity: Validity,

    /// The name of the holder of the key.
    pub subject: Name,

    /// The number of contents octets of the key, a BIT STRING.
    pub key: usize,

    /// The number of extensions.
    pub extensions: u64,

    /// The number of critical extensions.
    pub critical: u64,
}

impl Certificate {
    /// Takes a SEQUENCE of the signed part, an algorithm and a signature.
    pub fn take_from<S: Source>(
        alloc: Global,
        cons: &mut Constructed<'_, S>,
    ) -> Result<Certificate, DecodeError<S::Error>>
        ensures { Moved S.stream cons }
    {
        let signed: SignedPart<Certificate> = parts::take(alloc, cons)?;
        Ok(signed.0)
    }

    /// Takes the fields from the serial number to the key.
    fn take_fields<S: Source>(
        version: u8,
        alloc: Global,
        cons: &mut Constructed<'_, S>,
    ) -> Result<Certificate, DecodeError<S::Error>>
        ensures { Moved S.stream cons }
    {
        let serial = take_len_of(Tag::INTEGER, cons)?;
        skip_algorithm(cons)?;
        let issuer = Name::take_from(alloc, cons)?;
        let validity = Validity::take_from(cons)?;
        let subject = Name::take_from(alloc, cons)?;
        let key = take_key(cons)?;
        Ok(Certificate {
            version,
            serial,
            issuer,
            validity,
            subject,
            key,
            extensions: 0,
            critical: 0,
        })
    }

    /// Takes the fields behind the key, which the version allows.
    fn take_rest<S: Source>(
        &mut self,
        cons: &mut Constructed<'_, S>,
    ) -> Result<(), DecodeError<S::Error>>
        ensures { Moved S.stream cons }
    {
        if self.version < 2 {
            return Ok(());
        }
        take_opt_len_of(Tag::CTX_1, cons)?;
        take_opt_len_of(Tag::CTX_2, cons)?;
        if self.version < 3 {
            return Ok(());
        }
        if let Some(extensions) = Extensions::take_from(cons)? {
            self.extensions = extensions.all;
            self.critical = extensions.critical;
        }
        Ok(())
    }
}

/// The parts are those of the SEQUENCE that is signed.
impl Parts for Certificate {
    fn take_parts<S: Source>(
        alloc: Global,
        cons: &mut Constructed<'_, S>,
    ) -> Result<Certificate, DecodeError<S::Error>> {
        let version = cons.take_opt_constructed_if(Tag::CTX_0, |cons| cons.take_u8())?;
        let version = version.unwrap_or(0).saturating_add(1);
        let mut certificate = Certificate::take_fields(version, alloc, cons)?;
        certificate.take_rest(cons)?;
        Ok(certificate)
    }
}

/// Takes a key, a SEQUENCE of an algorithm and a BIT STRING, and returns the number of contents
/// octets of the BIT STRING.
fn take_key<S: Source>(cons: &mut Constructed<'_, S>) -> Result<usize, DecodeError<S::Error>>
    ensures { Moved S.stream cons }
{
    cons.take_sequence(|cons| {
        skip_algorithm(cons)?;
        take_len_of(Tag::BIT_STRING, cons)
    })
}

/// The number of extensions, and how many of them are critical.
#[derive(Clone, Copy)]
struct Extensions {
    all: u64,
    critical: u64,
}

impl Extensions {
    /// Takes a SEQUENCE OF extensions with the explicit tag `[3]`, if it is there.
    fn take_from<S: Source>(
        cons: &mut Constructed<'_, S>,
    ) -> Result<Option<Extensions>, DecodeError<S::Error>>
        ensures { Moved S.stream cons }
    {
        let none = Extensions {
            all: 0,
            critical: 0,
        };
        cons.take_opt_constructed_if(Tag::CTX_3, |cons| take_list(Tag::SEQUENCE, none, cons))
    }
}

/// Each extension is a SEQUENCE of an OBJECT IDENTIFIER, an optional BOOLEAN and an OCTET STRING.
impl List for Extensions {
    fn take_one<S: Source>(
        &mut self,
        cons: &mut Constructed<'_, S>,
    ) -> Result<(), DecodeError<S::Error>> {
        skip_octets(Tag::OID, cons)?;
        if cons.take_opt_bool()?.unwrap_or(false) {
            self.critical = self.critical.saturating_add(1);
        }
        self.all = self.all.saturating_add(1);
        skip_octets(Tag::OCTET_STRING, cons)
    }
}

/// Decodes a certificate in DER from the start of a source.
pub fn decode_certificate<S: Source + Drop>(
    alloc: Global,
    source: S,
) -> Result<Certificate, DecodeError<S::Error>> {
    let signed: SignedPart<Certificate> = parts::decode(Mode::Der, alloc, source)?;
    Ok(signed.0)
}

/// Decodes two certificates in DER from a borrowed source. Its owner can go on with what is left.
pub fn decode_two<S: Source>(
    alloc: Global,
    source: &mut S,
) -> Result<(Certificate, Certificate), DecodeError<S::Error>>
    ensures { (passed : List ℕ)
        × ((S.stream source.old).rest ≡ passed ++ (S.stream source.new).rest) }
{
    Constructed::decode_lent(source, Mode::Der, |cons| {
        let first = Certificate::take_from(alloc, cons)?;
        let second = Certificate::take_from(alloc, cons)?;
        Ok((first, second))
    })
}
