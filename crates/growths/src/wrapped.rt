//! Values that are wrapped into octet strings.
use crate::end::{End, answered, refused, tell};
use anyhow::Error;
use bcder::encode::{EncodeError, PrimitiveContent, Values, WriteError};
use bcder::{Mode, OctetString};
use std::alloc::Global;

/// The first octets in CER of 1001 octets that are an OCTET STRING themselves.
const FRONT: [u8; 10] = [0x24, 0x80, 0x04, 0x82, 0x03, 0xE8, 0x04, 0x82, 0x03, 0xE5];

/// Wraps over 1000 octets, which are gathered before they are written in CER. If memory for them
/// runs out, a prefix of what is to be written was.
fn wraps(alloc: Global) -> Result<End, Error> {
    let zeros = [0; 997];
    let octets: &[u8] = &zeros;
    let wrapped = OctetString::encode_wrapped(alloc, Mode::Der, octets.encode());
    let mut target = Vec::with_capacity(alloc, 1011)?;
    Ok(match wrapped.write_encoded(Mode::Cer, &mut target) {
        Ok(()) => answered(target.len() == 1011 && target.as_slice().starts_with(&FRONT)),
        Err(WriteError::Refused(error)) => refused(
            error == EncodeError::NoMemory,
            FRONT.starts_with(target.as_slice()),
        ),
        Err(WriteError::Target(_)) => End::Wrong,
    })
}

pub fn run(rt: &HostRuntime) -> Result<(), Error> {
    let alloc = rt.alloc();
    tell(
        rt,
        "WrappingOctetStringEncoder::write_encoded",
        wraps(alloc)?,
    )
}
