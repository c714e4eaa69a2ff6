//! Octets as a value of a type.
ghost use Rattle.std.specs.Prelude.{◌≡◌, IfOk};
ghost use Rattle.asn1.specs.Decoded.{IsValueOf};

use crate::page::Page;
use asn1::{Any, Decode, Type, TypeError, decode_octets};
use bcder::decode::SliceSource;
use bcder::plain::front_at;
use bcder::{Mode, NoMemory, OctetString, Tag};
use bytes::Bytes;
use std::alloc::{AllocError, Global};

/// Why octets aren't shown.
#[derive(Debug, Drop)]
pub(crate) enum Unshown {
    /// They are no value of the type.
    Refused(TypeError),

    /// Memory ran out.
    NoMemory,
}

impl From<AllocError> for Unshown {
    fn from(_error: AllocError) -> Unshown {
        Unshown::NoMemory
    }
}

/// Decodes octets as a value of a type.
pub(crate) fn read<'a, T: Type + Decode<SliceSource<'a>>>(
    page: &Page,
    octets: &'a [u8],
) -> Result<T, Unshown>
    ensures { IfOk result (λ x.
        IsValueOf page.now.mode (T.tags T.TAG) (T.means page.now.mode) octets.now x) }
{
    match decode_octets::<T>(page.alloc, page.mode, octets) {
        Ok(value) => Ok(value),
        Err(error) if error.error.is_memory() => Err(Unshown::NoMemory),
        Err(error) => Err(Unshown::Refused(error)),
    }
}

/// Returns the octets of a string, in one piece.
pub(crate) fn whole(alloc: Global, string: &OctetString) -> Result<Bytes, AllocError> {
    match string.to_bytes(alloc) {
        Ok(octets) => Ok(octets),
        Err(NoMemory) => Err(AllocError),
    }
}

/// Returns the tag and the contents octets of a primitive value.
pub(crate) fn contents(mode: Mode, value: &Any) -> Option<(Tag, &[u8])> {
    match front_at(mode, value.as_slice()) {
        Some(front) if !front.constructed => Some((front.tag, front.rest)),
        _ => None,
    }
}
