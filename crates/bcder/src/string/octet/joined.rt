//! The octets of an octet string in one piece.
ghost use Rattle.std.specs.Prelude.{◌≡◌, IfOk, OnErr};
ghost use Rattle.bcder.specs.calls.StringOctets.{octets_of, IsCut};

use super::{OctetString, Octets};
use crate::NoMemory;
use bytes::Bytes;
use std::alloc::Global;

impl OctetString {
    /// Returns the octets, copied into one block.
    fn joined(&self, alloc: Global) -> Result<Bytes, NoMemory>
        ensures { IfOk result (λ octets. octets ≡ octets_of self.now) }
    {
        let mut octets = Vec::with_capacity(alloc, self.len())?;
        for part in self {
            octets.extend_from_slice(part)?;
        }
        Ok(Bytes::from_vec(octets)?)
    }

    /// Returns the octets in one piece. They are shared if they came in one piece, and otherwise
    /// copied once.
    ///
    /// # Errors
    ///
    /// Returns an error if there is no memory to share or copy them.
    pub fn to_bytes(&self, alloc: Global) -> Result<Bytes, NoMemory>
        ensures { IfOk result (λ octets. octets ≡ octets_of self.now) }
    {
        match &self.octets {
            Octets::Whole(octets) => Ok(octets.clone()?),
            Octets::Cut(..) => self.joined(alloc),
        }
    }

    /// Returns the octets in one piece. They are the string's own if they came in one piece, and
    /// otherwise copied once.
    ///
    /// # Errors
    ///
    /// Returns an error if the string was cut and there is no memory for a copy. The string is then
    /// dropped.
    pub fn into_bytes(self, alloc: Global) -> Result<Bytes, NoMemory>
        ensures octets { IfOk result (λ octets. octets ≡ octets_of self) }
        ensures memory { OnErr result (IsCut self) }
    {
        match self.octets {
            Octets::Whole(octets) => Ok(octets),
            Octets::Cut(captured, segments) => {
                OctetString::of_segments(captured, segments).joined(alloc)
            }
        }
    }
}
