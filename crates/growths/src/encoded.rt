//! Contents octets and values in memory, some of more octets than there can be.
use crate::end::{End, answered, refused, tell};
use anyhow::Error;
use bcder::captured::CapturedBuilder;
use bcder::encode::{EncodeError, PrimitiveContent, Values, WriteError};
use bcder::{Captured, Mode, NoMemory};
use std::alloc::Global;
use support::encoders::{Nulls, Zeros};

/// The contents octets of 200.
const CONTENTS: [u8; 2] = [0x00, 0xC8];

fn encodes(alloc: Global) -> End {
    match 200u8.to_encoded_bytes(alloc, Mode::Der) {
        Ok(octets) => answered(octets.as_slice() == CONTENTS.as_slice()),
        Err(error) => refused(error == EncodeError::NoMemory, true),
    }
}

/// Writes to a target in memory. If it can't grow it fails, and holds a prefix of what was to be
/// written.
fn writes(alloc: Global) -> End {
    let wanted = [0x02, 0x02, 0x00, 0xC8];
    let mut target = Vec::new(alloc);
    match 200u8.encode().write_encoded(Mode::Der, &mut target) {
        Ok(()) => answered(target.as_slice() == wanted.as_slice()),
        Err(WriteError::Target(_)) => {
            refused(
                true,
                target.len() < 4 && wanted.starts_with(target.as_slice()),
            )
        }
        Err(WriteError::Refused(_)) => End::Wrong,
    }
}

pub fn run(rt: &HostRuntime) -> Result<(), Error> {
    tell(
        rt,
        "PrimitiveContent::to_encoded_bytes",
        encodes(rt.alloc()),
    )?;
    tell(rt, "Values::write_encoded", writes(rt.alloc()))
}

/// More octets than any address space has.
const BEYOND: usize = 1 << 62;

/// Returns how a call ended for which there can't be enough memory.
fn wants<T: Drop>(outcome: Result<T, EncodeError>) -> End {
    refused(matches!(outcome, Err(EncodeError::NoMemory)), true)
}

/// Extends a builder beyond memory. The refused `extend` leaves what was held.
fn extends_beyond(alloc: Global) -> Result<End, Error> {
    let mut builder = Captured::builder(alloc, Mode::Cer);
    builder.extend(5u8.encode())?;
    let end = wants(builder.extend(Nulls(BEYOND / 2)));
    let left = builder.freeze()?.as_slice() == [0x02, 0x01, 0x05].as_slice();
    Ok(refused(matches!(end, End::NoMemory), left))
}

/// Makes calls that run out of memory on any machine.
pub fn run_beyond_memory(rt: &HostRuntime) -> Result<(), Error> {
    let alloc = rt.alloc();
    let end = wants(Zeros(BEYOND).to_encoded_bytes(alloc, Mode::Der));
    tell(rt, "PrimitiveContent::to_encoded_bytes, beyond memory", end)?;
    let end = wants(Nulls(BEYOND / 2).to_captured(alloc, Mode::Der));
    tell(rt, "Values::to_captured, beyond memory", end)?;
    let end = wants(Captured::from_values(alloc, Mode::Ber, Nulls(BEYOND / 2)));
    tell(rt, "Captured::from_values, beyond memory", end)?;
    let end = match CapturedBuilder::with_capacity(alloc, BEYOND, Mode::Der) {
        Ok(_) => End::Wrong,
        Err(NoMemory) => End::NoMemory,
    };
    tell(rt, "CapturedBuilder::with_capacity, beyond memory", end)?;
    tell(
        rt,
        "CapturedBuilder::extend, beyond memory",
        extends_beyond(alloc)?,
    )
}
