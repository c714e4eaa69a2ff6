//! Encodings in memory.
ghost use Rattle.bcder.specs.calls.Encoders.{GathersContents};

use crate::encode::primitive::PrimitiveContent;
use crate::encode::{EncodeError, WriteError};
use crate::mode::Mode;
use bytes::Bytes;
use std::alloc::Global;

/// Returns the contents octets, in memory that is reserved once.
pub(crate) fn gather_contents<P: PrimitiveContent>(
    contents: &P,
    alloc: Global,
    mode: Mode,
) -> Result<Bytes, EncodeError>
    ensures { GathersContents (P.means contents.now mode) (P.may_lack contents.now mode) result }
{
    let len = contents.encoded_len(mode)?;
    let mut target = match Vec::with_capacity(alloc, len) {
        Ok(target) => target,
        Err(_) => return Err(EncodeError::NoMemory),
    };
    match contents.write_encoded(mode, &mut target) {
        Ok(()) => match Bytes::from_vec(target) {
            Ok(octets) => Ok(octets),
            Err(_) => Err(EncodeError::NoMemory),
        },
        Err(WriteError::Refused(error)) => Err(error),
        Err(WriteError::Target(_)) => Err(EncodeError::NoMemory),
    }
}
