//! The loop that writes octets to a target.
ghost use Rattle.std.specs.Prelude.{OnOk, OnErr};
ghost use Rattle.bcder.specs.calls.Encoders.{WroteOctets, into_result};
ghost use Rattle.bcder.specs.calls.Encoders.{Appended, AppendedShorter};

use crate::encode::WriteError;
use crate::encode::slot::{Failed, store_target_error};
use std::io;
use std::io::{Error, ErrorKind, Write};

/// Writes all octets. A target that accepts none of one or more octets has failed, and any error
/// ends the loop.
///
/// # Errors
///
/// Returns the target's error. A proper prefix of the octets was written then.
#[inline(always)]
pub fn write_octets<W: Write>(target: &mut W, octets: &[u8]) -> io::Result<()>
    ensures ok { OnOk result (Appended W.contents target octets.now) }
    ensures refused { OnErr result (AppendedShorter W.contents target octets.now) }
{
    let mut rest = octets;
    while !rest.is_empty() {
        let count = target.write(rest)?;
        if count == 0 {
            return Err(Error::from(ErrorKind::WriteZero));
        }
        rest = &rest[count..];
    }
    Ok(())
}

/// Writes all octets, for callers that may refuse as well.
#[inline(always)]
pub(crate) fn write_all<W: Write>(target: &mut W, octets: &[u8]) -> Result<(), WriteError>
    ensures { WroteOctets W.contents target octets.now result }
{
    write_octets(target, octets)?;
    Ok(())
}

/// Writes all octets, and stores the error in a slot.
#[inline(always)]
pub(crate) fn put_all<W: Write>(
    target: &mut W,
    octets: &[u8],
    why: &mut WriteError,
) -> Result<(), Failed>
    ensures { WroteOctets W.contents target octets.now (into_result result why.new) }
{
    match write_octets(target, octets) {
        Ok(()) => Ok(()),
        Err(error) => Err(store_target_error(why, error)),
    }
}
