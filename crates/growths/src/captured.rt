//! Captured values: made of encoders, put one after the other, decoded in part.
use crate::end::{End, answered, made, refused, tell};
use anyhow::Error;
use bcder::captured::CapturedBuilder;
use bcder::encode::{EncodeError, PrimitiveContent, Values, iter};
use bcder::{Captured, Mode, NoMemory};
use std::alloc::{AllocError, Global};
use support::encoders::Nulls;

/// The INTEGER 5.
const FIVE: [u8; 3] = [0x02, 0x01, 0x05];

/// Returns how a call ended that gathers this value.
fn gathers(gathered: Result<Captured, EncodeError>) -> End {
    match gathered {
        Ok(captured) => answered(captured.as_slice() == FIVE.as_slice()),
        Err(error) => refused(error == EncodeError::NoMemory, true),
    }
}

fn with_capacity(alloc: Global) -> End {
    made(match CapturedBuilder::with_capacity(alloc, 3, Mode::Der) {
        Ok(_) => Ok(true),
        Err(NoMemory) => Err(NoMemory),
    })
}

/// Extends a builder. A refused `extend` leaves what was held, and what is added then follows it.
fn extends(alloc: Global) -> Result<End, Error> {
    let mut builder = Captured::builder(alloc, Mode::Der);
    builder.extend(5u8.encode())?;
    let refusal = builder.extend(Nulls(100)).err();
    if refusal.is_some() {
        builder.extend(Nulls(100))?;
    }
    let captured = builder.freeze()?;
    let octets = captured.as_slice();
    let right = octets.len() == 203 && octets.starts_with(&[0x02, 0x01, 0x05, 0x05, 0x00]);
    Ok(match refusal {
        Some(error) => refused(error == EncodeError::NoMemory, right),
        None => answered(right),
    })
}

/// Returns how `freeze` ends, which consumes the values.
fn freezes(alloc: Global) -> Result<End, Error> {
    let mut builder = Captured::builder(alloc, Mode::Der);
    builder.extend(5u8.encode())?;
    Ok(match builder.freeze() {
        Ok(captured) => answered(captured.as_slice() == FIVE.as_slice()),
        Err(NoMemory) => End::NoMemory,
    })
}

fn five(alloc: Global) -> Result<Captured, Error> {
    Ok(5u8.encode().to_captured(alloc, Mode::Der)?)
}

/// Returns how `into_builder` ends, which consumes the values.
fn continues(alloc: Global) -> Result<End, Error> {
    let captured = five(alloc)?;
    let Ok(builder) = captured.into_builder(alloc) else {
        return Ok(End::NoMemory);
    };
    Ok(answered(builder.freeze()?.as_slice() == FIVE.as_slice()))
}

/// Returns how `into_builder` ends if the octets are shared and have to be copied.
fn continues_shared(alloc: Global) -> Result<End, Error> {
    let captured = five(alloc)?;
    let shared = captured.bytes()?;
    let Ok(builder) = captured.into_builder(alloc) else {
        return Ok(refused(true, shared.as_slice() == FIVE.as_slice()));
    };
    Ok(answered(builder.freeze()?.as_slice() == FIVE.as_slice()))
}

fn clones(alloc: Global) -> Result<End, Error> {
    let captured = five(alloc)?;
    let clone: Result<Captured, AllocError> = captured.clone();
    let left = captured.as_slice() == FIVE.as_slice();
    Ok(match clone {
        Ok(clone) => answered(left && clone.as_slice() == FIVE.as_slice()),
        Err(AllocError) => refused(true, left),
    })
}

fn shares(alloc: Global) -> Result<End, Error> {
    let captured = five(alloc)?;
    let shared = captured.bytes();
    let left = captured.as_slice() == FIVE.as_slice();
    Ok(match shared {
        Ok(octets) => answered(left && octets.as_slice() == FIVE.as_slice()),
        Err(NoMemory) => refused(true, left),
    })
}

/// Counts the items of an `Iter`, for which its iterator and the items are cloned. The `Iter` stays
/// as it is.
fn lists(alloc: Global) -> Result<End, Error> {
    let mut values = Vec::new(alloc);
    values.push(five(alloc)?)?;
    values.push(five(alloc)?)?;
    let list = iter(values);
    let found = match list.items() {
        Ok(items) => Some(items.count()),
        Err(NoMemory) => None,
    };
    let left = list.into_iter().count() == 2;
    Ok(match found {
        Some(count) => answered(left && count == 2),
        None => refused(true, left),
    })
}

/// Decodes values in part. They stay if memory runs out.
fn decodes(alloc: Global) -> Result<End, Error> {
    let mut captured = five(alloc)?;
    let decoded = captured.decode_partial(|cons| cons.take_u8());
    Ok(match decoded {
        Ok(number) => answered(number == 5 && captured.as_slice().is_empty()),
        Err(error) => refused(error.is_memory(), captured.as_slice() == FIVE.as_slice()),
    })
}

pub fn run(rt: &HostRuntime) -> Result<(), Error> {
    let alloc = rt.alloc();
    let gathered = Captured::from_values(alloc, Mode::Der, 5u8.encode());
    tell(rt, "Captured::from_values", gathers(gathered))?;
    let gathered = 5u8.encode().to_captured(alloc, Mode::Cer);
    tell(rt, "Values::to_captured", gathers(gathered))?;
    tell(rt, "CapturedBuilder::with_capacity", with_capacity(alloc))?;
    tell(rt, "CapturedBuilder::extend", extends(alloc)?)?;
    tell(rt, "CapturedBuilder::freeze", freezes(alloc)?)?;
    tell(rt, "Captured::into_builder", continues(alloc)?)?;
    tell(
        rt,
        "Captured::into_builder, of shared octets",
        continues_shared(alloc)?,
    )?;
    tell(rt, "Captured::clone", clones(alloc)?)?;
    tell(rt, "Iter::items", lists(alloc)?)?;
    tell(rt, "Captured::bytes", shares(alloc)?)?;
    tell(rt, "Captured::decode_partial", decodes(alloc)?)
}
