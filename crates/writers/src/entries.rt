//! Writes basic constraints, and entries of a list of revoked certificates (RFC 5280, sections
//! 4.2.1.9 and 5.1).
//!
//! This module shows a method that returns an encoder of a type, and a list that is built in
//! memory.

use bcder::captured::CapturedBuilder;
use bcder::encode::{
    self, Constructed, EncodeError, Primitive, PrimitiveContent, Values, WriteError,
};
use bcder::{Captured, Mode, Tag, Unsigned};
use std::alloc::Global;
use std::io;

/// Basic constraints: whether a key may sign certificates, and how long the path below it may be.
#[derive(Clone, Copy)]
pub struct Basic {
    /// Whether the holder is an authority.
    pub authority: bool,

    /// How many certificates may come between this one and the last one, if that is limited.
    pub path: Option<u8>,
}

impl Basic {
    /// Returns an encoder of a SEQUENCE of a BOOLEAN and an INTEGER, which may be left out.
    pub fn encode(&self) -> Constructed<(Primitive<bool>, Option<Primitive<u8>>)> {
        encode::sequence((self.authority.encode(), self.path.map(|path| path.encode())))
    }
}

/// A revoked certificate.
#[derive(Drop)]
pub struct Entry {
    /// The serial number of the certificate.
    pub serial: Unsigned,

    /// When the certificate was revoked, as the text of a UTCTime.
    pub date: String,

    /// The extensions of the entry, already encoded.
    pub extensions: Option<Captured>,
}

impl Entry {
    /// Writes a SEQUENCE of the entry's parts, which are borrowed.
    ///
    /// # Errors
    ///
    /// Returns the errors of [`Values::write_encoded`].
    pub fn write<W: io::Write>(&self, mode: Mode, target: &mut W) -> Result<(), WriteError> {
        let parts = (
            (&self.serial).encode(),
            self.date.as_bytes().encode_as(Tag::UTC_TIME),
            self.extensions.as_ref(),
        );
        encode::sequence(&parts).write_encoded(mode, target)
    }

    /// Adds this SEQUENCE to a builder.
    fn gather(&self, target: &mut CapturedBuilder) -> Result<(), EncodeError> {
        let parts = (
            (&self.serial).encode(),
            self.date.as_bytes().encode_as(Tag::UTC_TIME),
            self.extensions.as_ref(),
        );
        target.extend(encode::sequence(&parts))
    }
}

/// Encodes a SEQUENCE OF entries in memory.
///
/// # Errors
///
/// Returns the errors of [`CapturedBuilder::extend`].
pub fn gather_entries(
    alloc: Global,
    entries: &[Entry],
    mode: Mode,
) -> Result<Captured, EncodeError> {
    let mut inside = Captured::builder(alloc, mode);
    for entry in entries {
        entry.gather(&mut inside)?;
    }
    let inside = inside.freeze()?;
    Captured::from_values(alloc, mode, encode::sequence(inside))
}
