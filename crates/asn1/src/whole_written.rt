//! A whole value, written into memory.
ghost use Rattle.bcder.specs.calls.Gathered.{GathersValues};

use crate::writers::{ByRef, Encode};
use bcder::encode::{EncodeError, Values};
use bcder::{Captured, Mode};
use std::alloc::Global;

/// Encodes a value with its type's own tag, and returns the encoding in memory.
///
/// ```
/// let octets = asn1::encode(alloc, Mode::Der, &validity)?.into_bytes();
/// ```
///
/// # Errors
///
/// Returns the error of [`Encode::encoded_len_as`], or `NoMemory` if there is no memory for the
/// octets.
pub fn encode<T: Encode>(alloc: Global, mode: Mode, value: &T) -> Result<Captured, EncodeError>
    ensures { GathersValues (T.writes T.TAG value.now mode)
        (T.may_lack value.now mode) mode result }
{
    ByRef(value).to_captured(alloc, mode)
}
