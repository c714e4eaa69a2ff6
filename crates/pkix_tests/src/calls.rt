//! What the tests do with a type.
use asn1::{Decode, Encode, TypeError, decode, decode_octets, encode};
use bcder::Mode;
use bcder::decode::{BytesSource, SliceSource};
use bytes::Bytes;
use std::alloc::Global;
use std::process::Abort;

/// Reads octets, if they are a value of the type.
pub fn read_in<T: Decode<BytesSource>>(
    rt: &impl Abort,
    alloc: Global,
    mode: Mode,
    octets: &[u8],
) -> Option<T> {
    let octets = Bytes::copy_from_slice(alloc, octets).expect(rt, "no memory");
    decode::<T, Bytes>(alloc, mode, octets).ok()
}

/// Reads octets in DER, which must be a value of the type.
pub fn read<T: Decode<BytesSource>>(rt: &impl Abort, alloc: Global, octets: &[u8]) -> T {
    read_in(rt, alloc, Mode::Der, octets).expect(rt, "refused")
}

/// Asserts that a value is written as these octets.
pub fn is_written<T: Encode>(rt: &impl Abort, alloc: Global, value: &T, mode: Mode, octets: &[u8]) {
    let written = encode(alloc, mode, value).expect(rt, "not written");
    assert_eq!(rt; written.as_slice(), octets);
}

/// Returns why octets are no value of the type in DER.
pub fn refusal<'a, T: Decode<SliceSource<'a>>>(
    rt: &impl Abort,
    alloc: Global,
    octets: &'a [u8],
) -> TypeError {
    decode_octets::<T>(alloc, Mode::Der, octets)
        .err()
        .expect(rt, "read")
}
