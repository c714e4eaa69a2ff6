//! Bit strings: taken, shared and cloned.
use crate::end::{End, answered, refused, tell};
use crate::read::{Reader, Reading};
use anyhow::Error;
use bcder::{BitString, Mode, NoMemory};
use bytes::Bytes;
use std::alloc::{AllocError, Global};

/// A BIT STRING of twelve bits.
const VALUE: [u8; 5] = [0x03, 0x03, 0x04, 0x0A, 0xF0];

/// The octets of this bit string.
const OCTETS: [u8; 2] = [0x0A, 0xF0];

/// The readers of the value.
const READERS: [(&str, Reading<'static>); 2] = [
    (
        "BitString::take_from",
        Reading {
            reader: Reader::Bits,
            mode: Mode::Der,
            value: &VALUE,
            wanted: &OCTETS,
        },
    ),
    (
        "BitString::from_content",
        Reading {
            reader: Reader::BitsOfContent,
            mode: Mode::Der,
            value: &VALUE,
            wanted: &OCTETS,
        },
    ),
];

/// Returns whether a bit string is this one.
fn is_it(bits: &BitString) -> bool {
    bits.unused() == 4 && bits.octet_slice() == Some(OCTETS.as_slice())
}

/// Shares the octets of a bit string, which stays as it is.
fn shares(bits: &BitString) -> End {
    match bits.octet_bytes() {
        Ok(octets) => answered(octets.as_slice() == OCTETS.as_slice()),
        Err(NoMemory) => refused(true, is_it(bits)),
    }
}

/// Clones a bit string, which stays as it is.
fn clones(bits: &BitString) -> End {
    let clone: Result<BitString, AllocError> = bits.clone();
    match clone {
        Ok(clone) => answered(is_it(bits) && clone == *bits),
        Err(AllocError) => refused(true, is_it(bits)),
    }
}

pub fn run(rt: &HostRuntime) -> Result<(), Error> {
    let alloc = rt.alloc();
    let [first, second] = READERS;
    first.1.tell_copied(rt, first.0)?;
    second.1.tell_copied(rt, second.0)?;
    first.1.tell_shared(rt, first.0)?;
    second.1.tell_shared(rt, second.0)?;
    let bits = BitString::new(4, Bytes::copy_from_slice(alloc, &OCTETS)?);
    tell(rt, "BitString::octet_bytes", shares(&bits))?;
    tell(rt, "BitString::clone", clones(&bits))
}
