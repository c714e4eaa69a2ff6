//! Reads the validity of a certificate (RFC 5280, section 4.1.2.5), and nothing else of it.
//!
//! This is a whole reader, from octets to the two times. The guide, docs/GUIDE.md, begins with it.
ghost use Rattle.bcder.specs.calls.Views.{Moved};

use bcder::decode::{Constructed, ContentError, DecodeError, Source};
use bcder::{Mode, Tag};
use bytes::Bytes;
use std::alloc::Global;
use std::convert::Infallible;

/// How a time is written.
#[derive(Clone, Copy, Debug, PartialEq, Eq)]
pub enum Kind {
    /// With two digits for the year.
    Utc,

    /// With four digits for the year.
    Generalized,
}

/// A time: its kind, and its digits followed by `Z`.
#[derive(Drop)]
pub struct Time {
    pub kind: Kind,
    pub text: Bytes,
}

/// The time during which a certificate is valid.
#[derive(Drop)]
pub struct Validity {
    pub from: Time,
    pub until: Time,
}

impl Time {
    /// Takes the next value, which has to be a time.
    fn take_from<S: Source>(
        alloc: Global,
        cons: &mut Constructed<'_, S>,
    ) -> Result<Time, DecodeError<S::Error>>
        ensures { Moved S.stream cons }
    {
        cons.take_primitive(|tag, octets| {
            let text = octets.take_all(alloc)?;
            match Time::from_text(tag, text) {
                Some(time) => Ok(time),
                None => Err(octets.content_err(ContentError::from_static("expected a time"))),
            }
        })
    }

    /// Makes a time of a tag and a text, or returns `None` if they aren't one: digits to the
    /// second, and a `Z`.
    fn from_text(tag: Tag, text: Bytes) -> Option<Time> {
        let (kind, digits) = if tag == Tag::UTC_TIME {
            (Kind::Utc, 12)
        } else if tag == Tag::GENERALIZED_TIME {
            (Kind::Generalized, 14)
        } else {
            return None;
        };
        let (last, front) = text.as_slice().split_last()?;
        let is_time = *last == b'Z'
            && front.len() == digits
            && front.iter().all(|octet| octet.is_ascii_digit());
        if is_time {
            Some(Time { kind, text })
        } else {
            None
        }
    }
}

impl Validity {
    /// Takes the next value, which has to be a certificate, and returns its validity.
    pub fn take_from<S: Source>(
        alloc: Global,
        cons: &mut Constructed<'_, S>,
    ) -> Result<Validity, DecodeError<S::Error>>
        ensures { Moved S.stream cons }
    {
        cons.take_sequence(|cons| {
            let validity = cons.take_sequence(|cons| Validity::take_signed(alloc, cons))?;
            cons.skip_all(alloc)?;
            Ok(validity)
        })
    }

    /// Takes the signed part of a certificate, and returns its validity.
    ///
    /// The validity follows an optional version, a serial number, the signature's algorithm and the
    /// issuer's name.
    fn take_signed<S: Source>(
        alloc: Global,
        cons: &mut Constructed<'_, S>,
    ) -> Result<Validity, DecodeError<S::Error>>
        ensures { Moved S.stream cons }
    {
        cons.take_opt_constructed_if(Tag::CTX_0, |cons| cons.take_u8())?;
        cons.take_primitive_if(Tag::INTEGER, |octets| octets.skip_all())?;
        cons.take_sequence(|cons| cons.skip_all(alloc))?;
        cons.take_sequence(|cons| cons.skip_all(alloc))?;
        let validity = cons.take_sequence(|cons| {
            let from = Time::take_from(alloc, cons)?;
            let until = Time::take_from(alloc, cons)?;
            Ok(Validity { from, until })
        })?;
        cons.skip_all(alloc)?;
        Ok(validity)
    }

    /// Decodes a certificate in DER, and returns its validity. Octets after the certificate are
    /// refused.
    pub fn of_certificate(
        alloc: Global,
        octets: &[u8],
    ) -> Result<Validity, DecodeError<Infallible>> {
        Mode::Der.decode_all(octets, |cons| Validity::take_from(alloc, cons))
    }
}
