//! Rows of data, and the loops over them.
ghost use Rattle.std.specs.Prelude.{IsTrue};
ghost use Rattle.bcder.specs.declared.mode.Mode.{Mode as Rules};

use crate::cut::{Cut, IsCut};
use asn1::laws::{is_decoded_back, round_trip};
use asn1::{Clear, Decode, Encode, TypeError, decode, decode_octets, encode};
use bcder::Mode;
use bcder::decode::{BytesSource, DecodeError, SliceSource};
use bytes::Bytes;
use std::alloc::Global;
use std::convert::Infallible;
use std::fmt::Debug;
use std::process::Abort;

/// Octets in a mode, and what is read from them: how `Debug` shows the value, or `refused`, or
/// `none` if no value of the type comes next.
pub type Read<'a> = (Mode, &'a [u8], &'a str);

/// Octets that are read in BER, and as which octets the value is written in a mode.
pub type Written<'a> = (&'a [u8], Mode, &'a [u8]);

/// Octets in a mode, and as which octets their value is written in a mode, also once it has been
/// encoded in that mode and decoded.
pub type Again<'a> = (Mode, &'a [u8], Mode, &'a [u8]);

/// Returns how what was read is shown, without the marks of types that are tagged.
pub fn shown<T: Debug + Drop>(
    rt: &impl Abort,
    alloc: Global,
    value: Option<T>,
    other: &str,
) -> String {
    match value {
        Some(value) => {
            let text = format!(in alloc; "{value:?}").expect(rt, "refused");
            text.replace(alloc, ", mark: PhantomData<_>", "")
                .expect(rt, "refused")
        }
        None => format!(in alloc; "{other}").expect(rt, "refused"),
    }
}

/// Asserts that what was read is shown as this text.
pub fn is_shown(rt: &impl Abort, mode: Mode, octets: &[u8], found: &str, wanted: &str) {
    assert_eq!(rt; found, wanted, "{octets:?} in {mode:?}");
}

/// Reads the octets of each row as one value of a type.
pub fn reads<T: Decode<BytesSource> + Debug>(rt: &impl Abort, alloc: Global, rows: &[Read<'_>]) {
    for (mode, octets, wanted) in rows {
        let shared = Bytes::copy_from_slice(alloc, octets).expect(rt, "no memory");
        let value = decode::<T, Bytes>(alloc, *mode, shared).ok();
        let found = shown(rt, alloc, value, "refused");
        is_shown(rt, *mode, octets, found.as_str(), wanted);
    }
}

/// Does so with a type of octets that are lent.
pub fn lends<'a, T: Decode<SliceSource<'a>> + Debug>(
    rt: &impl Abort,
    alloc: Global,
    rows: &[Read<'a>],
) {
    for (mode, octets, wanted) in rows {
        let value = decode::<T, &'a [u8]>(alloc, *mode, octets).ok();
        let found = shown(rt, alloc, value, "refused");
        is_shown(rt, *mode, octets, found.as_str(), wanted);
    }
}

/// Asserts how an error shows itself, or that octets are `read`.
pub fn is_explained(
    rt: &impl Abort,
    alloc: Global,
    mode: Mode,
    octets: &[u8],
    error: Option<TypeError>,
    wanted: &str,
) {
    let found = match error {
        Some(error) => format!(in alloc; "{error}").expect(rt, "refused"),
        None => format!(in alloc; "read").expect(rt, "refused"),
    };
    is_shown(rt, mode, octets, found.as_str(), wanted);
}

/// Asserts that the octets of each row are refused with an error that shows itself so, or `read`.
pub fn explains<'a, T: Decode<SliceSource<'a>>>(rt: &impl Abort, alloc: Global, rows: &[Read<'a>]) {
    for (mode, octets, wanted) in rows {
        let error = decode_octets::<T>(alloc, *mode, octets).err();
        is_explained(rt, alloc, *mode, octets, error, wanted);
    }
}

/// Reads octets over a source that fails behind the first `end` of them.
fn read_cut<T: Decode<Cut>>(
    rt: &impl Abort,
    alloc: Global,
    mode: Mode,
    octets: &[u8],
    end: usize,
    whole: bool,
) -> Result<T, DecodeError<IsCut>> {
    let octets = octets.to_vec(alloc).expect(rt, "refused");
    decode::<T, Cut>(alloc, mode, Cut::new(octets, end, whole))
}

/// Asserts that an error is that of the source.
fn is_of_source(rt: &impl Abort, mode: Mode, octets: &[u8], end: usize, found: bool) {
    assert!(rt; found, "{octets:?} in {mode:?}, cut at {end}");
}

/// Reads the octets of each row over sources that fail at each of them, and behind the last: the
/// error is that of the source. Over one that fails later, the value is as the row shows it.
pub fn fails<T: Decode<Cut> + Debug>(rt: &impl Abort, alloc: Global, rows: &[Read<'_>]) {
    for (mode, octets, wanted) in rows {
        for whole in [false, true] {
            for end in 0..octets.len().saturating_add(1) {
                let read = read_cut::<T>(rt, alloc, *mode, octets, end, whole);
                let found = read.is_err_and(|error| error.is_source());
                is_of_source(rt, *mode, octets, end, found);
            }
            let read = read_cut::<T>(rt, alloc, *mode, octets, usize::MAX, whole).ok();
            let found = shown(rt, alloc, read, "refused");
            is_shown(rt, *mode, octets, found.as_str(), wanted);
        }
    }
}

/// Takes the next value of a type, if it comes next.
fn next<T: Decode<BytesSource>>(
    alloc: Global,
    mode: Mode,
    octets: Bytes,
) -> Result<Option<T>, DecodeError<Infallible>> {
    mode.decode(octets, |cons| T::take_opt_from(alloc, cons))
}

/// Takes a value of a type from the front of the octets of each row.
pub fn takes<T: Decode<BytesSource> + Debug>(rt: &impl Abort, alloc: Global, rows: &[Read<'_>]) {
    for (mode, octets, wanted) in rows {
        let shared = Bytes::copy_from_slice(alloc, octets).expect(rt, "no memory");
        let found = match next::<T>(alloc, *mode, shared) {
            Ok(value) => shown(rt, alloc, value, "none"),
            Err(_) => shown(rt, alloc, None::<T>, "refused"),
        };
        is_shown(rt, *mode, octets, found.as_str(), wanted);
    }
}

/// Reads the octets of some rows, and writes the values of others. A call costs a proof by its type
/// and its source, so both are one, and the source is a plain one.
pub fn reads_and_rewrites<T: Encode + Decode<BytesSource> + Debug>(
    rt: &impl Abort,
    alloc: Global,
    rows: &[Read<'_>],
    written: &[Written<'_>],
) {
    reads::<T>(rt, alloc, rows);
    rewrites::<T>(rt, alloc, written);
}

/// Does so with a type of octets that are lent.
pub fn lends_and_rewrites<'a, T: Encode + Decode<SliceSource<'a>> + Debug>(
    rt: &impl Abort,
    alloc: Global,
    rows: &[Read<'a>],
    written: &[Written<'a>],
) {
    lends::<T>(rt, alloc, rows);
    for (octets, mode, wanted) in written {
        let value = decode::<T, &'a [u8]>(alloc, Mode::Ber, octets).expect(rt, "refused");
        writes(rt, alloc, &value, *mode, wanted);
    }
}

/// Takes the values of some rows, and writes those of others.
pub fn takes_and_rewrites<T: Encode + Decode<BytesSource> + Debug>(
    rt: &impl Abort,
    alloc: Global,
    rows: &[Read<'_>],
    written: &[Written<'_>],
) {
    takes::<T>(rt, alloc, rows);
    rewrites::<T>(rt, alloc, written);
}

/// Asserts that a value is written as these octets.
pub fn writes<T: Encode>(rt: &impl Abort, alloc: Global, value: &T, mode: Mode, wanted: &[u8]) {
    let found = encode(alloc, mode, value).expect(rt, "refused");
    assert_eq!(rt; found.as_slice(), wanted, "in {mode:?}");
}

/// Reads the octets of each row in BER, and writes the value.
pub fn rewrites<T: Encode + Decode<BytesSource>>(
    rt: &impl Abort,
    alloc: Global,
    rows: &[Written<'_>],
) {
    for (octets, mode, wanted) in rows {
        let value = value::<T>(rt, alloc, Mode::Ber, octets);
        writes(rt, alloc, &value, *mode, wanted);
    }
}

/// Reads octets, which must be a value of the type.
pub fn value<T: Decode<BytesSource>>(
    rt: &impl Abort,
    alloc: Global,
    mode: Mode,
    octets: &[u8],
) -> T {
    let shared = Bytes::copy_from_slice(alloc, octets).expect(rt, "no memory");
    decode::<T, Bytes>(alloc, mode, shared).expect(rt, "refused")
}

/// Reads the octets of each row, writes the value, and does so again with what `round_trip`
/// returns. The checker finds out that each value comes back, and so does `is_decoded_back`.
pub fn come_back<T: Clear + Decode<BytesSource>>(rt: &impl Abort, alloc: Global, rows: &[Again<'_>])
    requires distinct { IsTrue T.distinct }
    requires always { (mode : Rules) → IsTrue (T.always_clear mode) }
{
    for (mode, octets, other, wanted) in rows {
        let x = value::<T>(rt, alloc, *mode, octets);
        writes(rt, alloc, &x, *other, wanted);
        assert!(rt; is_decoded_back(&x, *other));
        let y = round_trip(alloc, *other, &x).expect(rt, "refused");
        writes(rt, alloc, &y, *other, wanted);
    }
}

/// Reads the octets of some rows, writes the values of others, and does so again.
pub fn reads_and_come_back<T: Clear + Decode<BytesSource> + Debug>(
    rt: &impl Abort,
    alloc: Global,
    rows: &[Read<'_>],
    written: &[Written<'_>],
    again: &[Again<'_>],
)
    requires distinct { IsTrue T.distinct }
    requires always { (mode : Rules) → IsTrue (T.always_clear mode) }
{
    reads::<T>(rt, alloc, rows);
    rewrites::<T>(rt, alloc, written);
    come_back::<T>(rt, alloc, again);
}

/// Takes the values of some rows, writes those of others, and does so again.
pub fn takes_and_come_back<T: Clear + Decode<BytesSource> + Debug>(
    rt: &impl Abort,
    alloc: Global,
    rows: &[Read<'_>],
    written: &[Written<'_>],
    again: &[Again<'_>],
)
    requires distinct { IsTrue T.distinct }
    requires always { (mode : Rules) → IsTrue (T.always_clear mode) }
{
    takes::<T>(rt, alloc, rows);
    rewrites::<T>(rt, alloc, written);
    come_back::<T>(rt, alloc, again);
}
