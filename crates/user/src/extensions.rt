//! Reads the extensions of a certificate, each by its object identifier (RFC 5280, section 4.2).
ghost use Rattle.bcder.specs.calls.Views.{Moved};

use crate::lists::{List, take_list};
use crate::{skip_octets, take_len_of};
use bcder::decode::{Constructed, DecodeError, SliceSource, Source};
use bcder::{ConstOid, Mode, Oid, Tag};
use std::alloc::Global;

/// The identifier of basic constraints: 2.5.29.19.
const BASIC_CONSTRAINTS: ConstOid = Oid(&[0x55, 0x1D, 0x13]);

/// The identifier of key usage: 2.5.29.15.
const KEY_USAGE: ConstOid = Oid(&[0x55, 0x1D, 0x0F]);

/// Basic constraints: whether the key may sign certificates, and how long the path below it may be.
#[derive(Clone, Copy)]
pub struct Basic {
    /// Whether the holder is an authority.
    pub authority: bool,

    /// How many certificates may come between this one and the last one, if that is limited.
    pub path: Option<u8>,
}

impl Basic {
    /// Takes a SEQUENCE of a BOOLEAN and an INTEGER, each of which may be left out.
    fn take_from<S: Source>(cons: &mut Constructed<'_, S>) -> Result<Basic, DecodeError<S::Error>>
        ensures { Moved S.stream cons }
    {
        cons.take_sequence(|cons| Basic::take_parts(cons))
    }

    /// Takes what is inside the SEQUENCE.
    fn take_parts<S: Source>(cons: &mut Constructed<'_, S>) -> Result<Basic, DecodeError<S::Error>>
        ensures { Moved S.stream cons }
    {
        let authority = cons.take_opt_bool()?.unwrap_or(false);
        let path = cons.take_opt_u8()?;
        Ok(Basic { authority, path })
    }

    /// Takes an OCTET STRING with basic constraints inside.
    fn take_inside<S: Source>(cons: &mut Constructed<'_, S>) -> Result<Basic, DecodeError<S::Error>>
        ensures { Moved S.stream cons }
    {
        cons.take_primitive_if(
            Tag::OCTET_STRING,
            |octets| octets.decode_all(Mode::Der, |cons| Basic::take_from(cons)),
        )
    }
}

/// What is read of the extensions.
#[derive(Clone, Copy)]
pub struct Extensions {
    alloc: Global,

    /// The basic constraints, if they are there.
    pub basic: Option<Basic>,

    /// The number of contents octets of the OCTET STRING that holds the key usage, if it is there.
    pub usage: Option<usize>,

    /// The number of all other extensions.
    pub others: u64,
}

impl Extensions {
    /// Takes a SEQUENCE OF extensions, each a SEQUENCE.
    pub fn take_from<S: Source>(
        alloc: Global,
        cons: &mut Constructed<'_, S>,
    ) -> Result<Extensions, DecodeError<S::Error>>
        ensures { Moved S.stream cons }
    {
        let none = Extensions {
            alloc,
            basic: None,
            usage: None,
            others: 0,
        };
        take_list(Tag::SEQUENCE, none, cons)
    }
}

/// Each extension is a SEQUENCE of an OBJECT IDENTIFIER, an optional BOOLEAN, and an OCTET STRING,
/// which is read as the identifier says.
impl List for Extensions {
    fn take_one<S: Source>(
        &mut self,
        cons: &mut Constructed<'_, S>,
    ) -> Result<(), DecodeError<S::Error>> {
        let kind = Oid::take_from(self.alloc, cons)?;
        cons.take_opt_bool()?;
        if kind.same_as(&BASIC_CONSTRAINTS) {
            self.basic = Some(Basic::take_inside(cons)?);
        } else if kind.same_as(&KEY_USAGE) {
            self.usage = Some(take_len_of(Tag::OCTET_STRING, cons)?);
        } else {
            self.others = self.others.saturating_add(1);
            skip_octets(Tag::OCTET_STRING, cons)?;
        }
        Ok(())
    }
}

/// Decodes extensions in DER from the start of octets.
pub fn decode_extensions(
    alloc: Global,
    octets: &[u8],
) -> Result<Extensions, DecodeError<std::convert::Infallible>> {
    Constructed::decode(
        SliceSource::new(octets),
        Mode::Der,
        |cons| Extensions::take_from(alloc, cons),
    )
}
