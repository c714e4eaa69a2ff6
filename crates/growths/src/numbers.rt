//! Integers, object identifiers and errors that are made.
use crate::end::{End, answered, made, refused, tell, tell_all};
use anyhow::Error;
use bcder::decode::{ContentError, Message};
use bcder::int::IntegerError;
use bcder::oid::OidError;
use bcder::{Integer, NoMemory, Oid, Unsigned};
use bytes::Bytes;
use std::alloc::{AllocError, Global};

/// Returns how a call ended that makes the integer with these contents octets.
fn is(made: Result<Integer, NoMemory>, octets: &[u8]) -> End {
    match made {
        Ok(integer) => answered(integer.as_slice() == octets),
        Err(NoMemory) => End::NoMemory,
    }
}

/// Returns how a call ended that makes the unsigned integer with these contents octets.
fn is_unsigned(made: Result<Unsigned, NoMemory>, octets: &[u8]) -> End {
    match made {
        Ok(integer) => answered(integer.as_slice() == octets),
        Err(NoMemory) => End::NoMemory,
    }
}

fn signed(alloc: Global) -> [(&'static str, End); 5] {
    [
        ("Integer::from_i8", is(Integer::from_i8(alloc, -1), &[0xFF])),
        (
            "Integer::from_i16",
            is(Integer::from_i16(alloc, -129), &[0xFF, 0x7F]),
        ),
        (
            "Integer::from_i32",
            is(Integer::from_i32(alloc, -129), &[0xFF, 0x7F]),
        ),
        (
            "Integer::from_i64",
            is(Integer::from_i64(alloc, -129), &[0xFF, 0x7F]),
        ),
        (
            "Integer::from_i128",
            is(Integer::from_i128(alloc, -129), &[0xFF, 0x7F]),
        ),
    ]
}

fn unsigned(alloc: Global) -> [(&'static str, End); 5] {
    [
        (
            "Integer::from_u8",
            is(Integer::from_u8(alloc, 200), &[0x00, 0xC8]),
        ),
        (
            "Integer::from_u16",
            is(Integer::from_u16(alloc, 200), &[0x00, 0xC8]),
        ),
        (
            "Integer::from_u32",
            is(Integer::from_u32(alloc, 200), &[0x00, 0xC8]),
        ),
        (
            "Integer::from_u64",
            is(Integer::from_u64(alloc, 200), &[0x00, 0xC8]),
        ),
        (
            "Integer::from_u128",
            is(Integer::from_u128(alloc, 200), &[0x00, 0xC8]),
        ),
    ]
}

fn of_unsigned(alloc: Global) -> [(&'static str, End); 5] {
    [
        (
            "Unsigned::from_u8",
            is_unsigned(Unsigned::from_u8(alloc, 200), &[0x00, 0xC8]),
        ),
        (
            "Unsigned::from_u16",
            is_unsigned(Unsigned::from_u16(alloc, 200), &[0x00, 0xC8]),
        ),
        (
            "Unsigned::from_u32",
            is_unsigned(Unsigned::from_u32(alloc, 200), &[0x00, 0xC8]),
        ),
        (
            "Unsigned::from_u64",
            is_unsigned(Unsigned::from_u64(alloc, 200), &[0x00, 0xC8]),
        ),
        (
            "Unsigned::from_u128",
            is_unsigned(Unsigned::from_u128(alloc, 200), &[0x00, 0xC8]),
        ),
    ]
}

/// Returns how a call ended that makes the unsigned integer with these contents octets from octets.
fn is_of(made: Result<Unsigned, IntegerError>, octets: &[u8]) -> End {
    match made {
        Ok(integer) => answered(integer.as_slice() == octets),
        Err(error) => refused(error == IntegerError::NoMemory, true),
    }
}

fn run_of_octets(rt: &HostRuntime) -> Result<(), Error> {
    let alloc = rt.alloc();
    let octets = [0x00, 0xC8];
    let end = is_of(Unsigned::from_slice(alloc, &[0xC8]), &octets);
    tell(rt, "Unsigned::from_slice", end)?;
    let shared = Bytes::copy_from_slice(alloc, &[0xC8])?;
    let end = is_of(Unsigned::from_bytes(alloc, shared), &octets);
    tell(rt, "Unsigned::from_bytes, with a zero more", end)?;
    let shared = Bytes::copy_from_slice(alloc, &octets)?;
    let end = is_of(Unsigned::from_bytes(alloc, shared), &octets);
    tell(rt, "Unsigned::from_bytes", end)
}

/// The contents octets of `2.5.29.19`.
const IDENTIFIER: [u8; 3] = [0x55, 0x1D, 0x13];

fn identifier(alloc: Global) -> End {
    match Oid::from_str(alloc, "2.5.29.19") {
        Ok(oid) => answered(oid.0.as_slice() == IDENTIFIER.as_slice()),
        Err(error) => refused(error == OidError::NoMemory, true),
    }
}

fn shared_identifier(alloc: Global) -> Result<End, Error> {
    let mut octets = Vec::new(alloc);
    octets.extend_from_slice(&IDENTIFIER)?;
    Ok(made(match Oid(octets).into_shared() {
        Ok(oid) => Ok(oid.0.as_slice() == IDENTIFIER.as_slice()),
        Err(NoMemory) => Err(NoMemory),
    }))
}

#[derive(Drop)]
struct Note;

impl Message for Note {
    ghost use Rattle.std.specs.Prelude.{codes};

    ghost shown = { λ _. codes "a note" };

    fn text(&self) -> &str {
        "a note"
    }
}

fn boxed(alloc: Global) -> Result<End, Error> {
    let message = Box::new(alloc, Note)?;
    let Ok(error) = ContentError::from_boxed(alloc, message) else {
        return Ok(End::NoMemory);
    };
    Ok(answered(match &error {
        ContentError::Boxed(text) => text.as_str() == "a note",
        _ => false,
    }))
}

/// Clones integers, which stay as they are.
fn cloned(alloc: Global) -> Result<End, Error> {
    let number = Integer::from_i64(alloc, -129)?;
    let clone: Result<Integer, AllocError> = number.clone();
    let left = number.as_slice() == [0xFF, 0x7F].as_slice();
    Ok(match clone {
        Ok(clone) => answered(left && clone == number),
        Err(AllocError) => refused(true, left),
    })
}

fn cloned_unsigned(alloc: Global) -> Result<End, Error> {
    let number = Unsigned::from_u8(alloc, 200)?;
    let clone: Result<Unsigned, AllocError> = number.clone();
    let left = number.as_slice() == [0x00, 0xC8].as_slice();
    Ok(match clone {
        Ok(clone) => answered(left && clone == number),
        Err(AllocError) => refused(true, left),
    })
}

/// Clones an object identifier, which stays as it is.
fn cloned_identifier(alloc: Global) -> Result<End, Error> {
    let oid: Oid<Vec<u8>> = Oid(IDENTIFIER.to_vec(alloc)?);
    let clone: Result<Oid<Vec<u8>>, AllocError> = oid.clone();
    let left = oid.0.as_slice() == IDENTIFIER.as_slice();
    Ok(match clone {
        Ok(clone) => answered(left && clone.same_as(&oid)),
        Err(AllocError) => refused(true, left),
    })
}

pub fn run(rt: &HostRuntime) -> Result<(), Error> {
    tell_all(rt, &signed(rt.alloc()))?;
    tell_all(rt, &unsigned(rt.alloc()))?;
    tell_all(rt, &of_unsigned(rt.alloc()))?;
    run_of_octets(rt)?;
    tell(rt, "Integer::clone", cloned(rt.alloc())?)?;
    tell(rt, "Unsigned::clone", cloned_unsigned(rt.alloc())?)?;
    tell(rt, "Oid::clone", cloned_identifier(rt.alloc())?)?;
    tell(rt, "Oid::from_str", identifier(rt.alloc()))?;
    tell(rt, "Oid::into_shared", shared_identifier(rt.alloc())?)?;
    tell(rt, "ContentError::from_boxed", boxed(rt.alloc())?)
}
