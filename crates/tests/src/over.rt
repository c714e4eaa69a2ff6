//! Sources for tests, over copies of octets, and the loop that checks rows over each kind.
use crate::asserts::{Case, done};
use bcder::decode::{BytesSource, SliceSource, Source};
use bytes::Bytes;
use std::alloc::Global;
use std::process::Abort;
use support::sip::Sip;

/// Returns a source over shared octets.
pub fn shared(rt: &impl Abort, alloc: Global, octets: &[u8]) -> BytesSource {
    BytesSource::new(done(rt, Bytes::copy_from_slice(alloc, octets)))
}

/// Returns a source that makes available no more than is requested.
pub fn sip(rt: &impl Abort, alloc: Global, octets: &[u8]) -> Sip {
    failing_sip(rt, alloc, octets, 0)
}

/// Returns a source that makes available no more than is requested. The request with the number
/// `failing`, counted from 1, fails; if it is 0, none does.
pub fn failing_sip(rt: &impl Abort, alloc: Global, octets: &[u8], failing: usize) -> Sip {
    Sip::new(done(rt, octets.to_vec(alloc)), failing)
}

/// Returns a source that makes all that is left available at each request. The request with the
/// number `failing`, counted from 1, fails; if it is 0, none does.
pub fn failing_whole(rt: &impl Abort, alloc: Global, octets: &[u8], failing: usize) -> Sip {
    Sip::whole(done(rt, octets.to_vec(alloc)), failing)
}

/// A row of a table that is checked over sources.
pub trait Row {
    /// Returns the octets of the source.
    fn octets(&self) -> &[u8];

    /// Checks the row over a source of these octets.
    fn check<S: Source + Drop, R: Abort>(&self, case: &Case<'_, R>, source: S);
}

/// Checks a row over three sources: borrowed octets, shared octets, and octets of which no more are
/// available than was requested.
pub fn check_over<T: Row>(rt: &impl Abort, alloc: Global, number: usize, row: &T) {
    let octets = row.octets();
    row.check(
        &Case::over(rt, alloc, number, "borrowed octets"),
        SliceSource::new(octets),
    );
    row.check(
        &Case::over(rt, alloc, number, "shared octets"),
        shared(rt, alloc, octets),
    );
    row.check(
        &Case::over(rt, alloc, number, "a sip"),
        sip(rt, alloc, octets),
    );
}

/// Checks each row over the three sources.
pub fn check_all<T: Row>(rt: &impl Abort, alloc: Global, rows: &[T]) {
    for (number, row) in rows.iter().enumerate() {
        check_over(rt, alloc, number, row);
    }
}
