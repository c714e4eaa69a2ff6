//! Octets of sources, shared or copied.
use crate::end::{End, answered, refused, tell, tell_over};
use anyhow::Error;
use bcder::NoMemory;
use bcder::decode::{BytesSource, CaptureSource, LimitedSource, SliceSource, Source};
use bytes::Bytes;
use std::alloc::{AllocError, Global};

/// Three octets.
const OCTETS: [u8; 3] = [0x01, 0x02, 0x03];

/// Shares octets of a source, which still begins with all of them.
fn shares<S: Source>(alloc: Global, source: &mut S) -> Result<End, S::Error> {
    if source.request(3)? < 3 {
        return Ok(End::Wrong);
    }
    let octets = source.bytes(alloc, 1, 3);
    let left = source.slice().starts_with(&OCTETS);
    Ok(match octets {
        Ok(octets) => answered(left && octets.as_slice() == [0x02, 0x03].as_slice()),
        Err(NoMemory) => refused(true, left),
    })
}

/// Takes all octets within a limit, or none.
fn takes_all<S: Source>(alloc: Global, source: &mut S) -> Result<End, S::Error> {
    let mut limited = LimitedSource::new(source);
    limited.set_limit(Some(3));
    match limited.take_all(alloc) {
        Ok(octets) => Ok(answered(
            limited.limit() == Some(0) && octets.as_slice() == OCTETS.as_slice(),
        )),
        Err(error) => {
            let left = limited.limit() == Some(3) && limited.request(3)? == 3;
            Ok(refused(error.is_memory(), left))
        }
    }
}

/// Captures the octets that were skipped. They are left if memory runs out.
fn captures<S: Source>(alloc: Global, source: &mut S) -> Result<End, S::Error> {
    let mut view = CaptureSource::new(source);
    if view.request(3)? < 3 {
        return Ok(End::Wrong);
    }
    view.advance(3);
    let octets = view.into_bytes(alloc);
    let left = source.request(3)?;
    Ok(match octets {
        Ok(octets) => answered(left == 0 && octets.as_slice() == OCTETS.as_slice()),
        Err(NoMemory) => refused(true, left == 3),
    })
}

/// Splits a source over shared octets in two.
fn splits(source: &mut BytesSource) -> End {
    if source.len() < 1 {
        return End::Wrong;
    }
    match source.split_to(1) {
        Ok(front) => answered(front.as_slice() == [0x01].as_slice() && source.len() == 2),
        Err(NoMemory) => refused(true, source.len() == 3),
    }
}

fn clones(source: &BytesSource) -> End {
    match source.clone() {
        Ok(clone) => answered(clone.len() == 3),
        Err(AllocError) => refused(true, source.len() == 3),
    }
}

fn shared(alloc: Global) -> Result<BytesSource, Error> {
    Ok(BytesSource::new(Bytes::copy_from_slice(alloc, &OCTETS)?))
}

pub fn run(rt: &HostRuntime) -> Result<(), Error> {
    let alloc = rt.alloc();
    let end = shares(alloc, &mut SliceSource::new(&OCTETS))?;
    tell_over(rt, "Source::bytes", "copied", end)?;
    let end = shares(alloc, &mut shared(alloc)?)?;
    tell_over(rt, "Source::bytes", "shared", end)?;
    let end = takes_all(alloc, &mut SliceSource::new(&OCTETS))?;
    tell_over(rt, "LimitedSource::take_all", "copied", end)?;
    let end = takes_all(alloc, &mut shared(alloc)?)?;
    tell_over(rt, "LimitedSource::take_all", "shared", end)?;
    let end = captures(alloc, &mut SliceSource::new(&OCTETS))?;
    tell_over(rt, "CaptureSource::into_bytes", "copied", end)?;
    let end = captures(alloc, &mut shared(alloc)?)?;
    tell_over(rt, "CaptureSource::into_bytes", "shared", end)?;
    tell(rt, "BytesSource::split_to", splits(&mut shared(alloc)?))?;
    tell(rt, "BytesSource::clone", clones(&shared(alloc)?))
}
