//! Compares integers: the numbers that contents octets are, in each type, and values that are read.
use crate::values::numbers::{self, Numbers, Readers, count, found};
use crate::values::written;
use anyhow::Error;
use bcder::decode::{BytesSource, DecodeError, Primitive, SliceSource, Source};
use bcder::int::{IntegerError, InvalidInteger};
use bcder::{Integer, Mode, Unsigned};
use bytes::Bytes;
use lines::fields::{find, next, octets_of};
use lines::tally::{Differing, Tally, differ_in};
use std::alloc::Global;
use std::cmp::Ordering;
use std::convert::TryFrom;
use support::sip::Sip;

/// What was compared.
#[derive(Clone, Copy, Default)]
pub struct Tallies {
    /// Numbers read.
    pub readers: Readers,

    /// Integers converted to numbers.
    pub converted: Tally,

    /// Integers made of numbers.
    pub made: Tally,

    /// Values read from sources.
    pub values: Tally,

    /// Numbers written as values.
    pub written: Tally,

    /// Octets made unsigned integers.
    pub unsigned: Tally,

    /// Integers compared, and their signs.
    pub ordered: Tally,
}

impl Differing for Tallies {
    fn differ(&self) -> u64 {
        let others = [
            self.converted,
            self.made,
            self.values,
            self.written,
            self.unsigned,
            self.ordered,
        ];
        self.readers.differ().saturating_add(differ_in(&others))
    }
}

/// Compares the conversions to types of 16 and 32 bits.
fn compare_narrowed(integer: &Integer, text: &str, tally: &mut Tally) {
    count(
        tally,
        found(u16::try_from(integer)),
        found(text.parse::<u16>()),
    );
    count(
        tally,
        found(u32::try_from(integer)),
        found(text.parse::<u32>()),
    );
    count(
        tally,
        found(i16::try_from(integer)),
        found(text.parse::<i16>()),
    );
    count(
        tally,
        found(i32::try_from(integer)),
        found(text.parse::<i32>()),
    );
}

fn compare_converted(integer: &Integer, text: &str, tally: &mut Tally) {
    count(
        tally,
        found(u8::try_from(integer)),
        found(text.parse::<u8>()),
    );
    count(
        tally,
        found(u64::try_from(integer)),
        found(text.parse::<u64>()),
    );
    count(
        tally,
        found(u128::try_from(integer)),
        found(text.parse::<u128>()),
    );
    count(
        tally,
        found(i8::try_from(integer)),
        found(text.parse::<i8>()),
    );
    count(
        tally,
        found(i64::try_from(integer)),
        found(text.parse::<i64>()),
    );
    count(
        tally,
        found(i128::try_from(integer)),
        found(text.parse::<i128>()),
    );
}

/// Compares the octets of the integers that are made of numbers.
fn compare_made(alloc: Global, octets: &[u8], text: &str, tally: &mut Tally) -> Result<(), Error> {
    if let Ok(number) = text.parse::<i128>() {
        tally.count(Integer::from_i128(alloc, number)?.as_slice() == octets);
    }
    if let Ok(number) = text.parse::<u128>() {
        tally.count(Integer::from_u128(alloc, number)?.as_slice() == octets);
    }
    Ok(())
}

/// Compares the answers of one line of numbers.
pub fn compare_line(alloc: Global, line: &str, tallies: &mut Tallies) -> Result<(), Error> {
    let mut fields = line.split('\t');
    let list = octets_of(alloc, next(&mut fields)?)?;
    let octets = list.as_slice();
    let text = next(&mut fields)?;
    numbers::compare(alloc, octets, &Numbers::of_text(text), &mut tallies.readers)?;
    let read = found(Primitive::decode_slice(octets, Mode::Cer, |p| {
        Integer::from_primitive(alloc, p)
    }));
    tallies.converted.count(read.is_some() == (text != "-"));
    if let Some(integer) = read {
        compare_converted(&integer, text, &mut tallies.converted);
        compare_narrowed(&integer, text, &mut tallies.converted);
    }
    written::compare_unsigned(alloc, octets, text, &mut tallies.written);
    written::compare_signed(alloc, octets, text, &mut tallies.written);
    compare_made(alloc, octets, text, &mut tallies.made)
}

/// Compares the contents octets of the unsigned integer that octets are, or that they are none.
pub fn compare_made_unsigned(
    alloc: Global,
    line: &str,
    tallies: &mut Tallies,
) -> Result<(), Error> {
    let mut fields = line.split('\t');
    let octets = octets_of(alloc, next(&mut fields)?)?;
    let copied = Unsigned::from_slice(alloc, &octets);
    let shared = Unsigned::from_bytes(alloc, Bytes::copy_from_slice(alloc, &octets)?);
    match next(&mut fields)? {
        "invalid" => {
            let invalid = Some(IntegerError::Invalid(InvalidInteger));
            tallies.unsigned.count(copied.err() == invalid);
            tallies.unsigned.count(shared.err() == invalid);
        }
        field => {
            let wanted = octets_of(alloc, field)?;
            let (copied, shared) = (copied?, shared?);
            tallies
                .unsigned
                .count(copied.as_slice() == wanted.as_slice());
            tallies
                .unsigned
                .count(shared.as_slice() == wanted.as_slice());
            tallies.unsigned.count(copied == shared);
        }
    }
    Ok(())
}

/// The words for orders.
const ORDERS: [(&str, Ordering); 3] = [
    ("less", Ordering::Less),
    ("equal", Ordering::Equal),
    ("greater", Ordering::Greater),
];

/// Compares the order of the integers of two numbers, and of the first one and zero.
pub fn compare_order(alloc: Global, line: &str, tallies: &mut Tallies) -> Result<(), Error> {
    let mut fields = line.split('\t');
    let one = Integer::from_i128(alloc, next(&mut fields)?.parse::<i128>()?)?;
    let sign = find(&ORDERS, next(&mut fields)?)?;
    let other = Integer::from_i128(alloc, next(&mut fields)?.parse::<i128>()?)?;
    let order = find(&ORDERS, next(&mut fields)?)?;
    let tally = &mut tallies.ordered;
    tally.count(one.is_negative() == (sign == Ordering::Less));
    tally.count(one.is_zero() == (sign == Ordering::Equal));
    tally.count(one.is_positive() == (sign == Ordering::Greater));
    tally.count(one.cmp(&other) == order);
    tally.count(other.cmp(&one) == order.reverse());
    tally.count((one == other) == (order == Ordering::Equal));
    Ok(())
}

/// Takes the INTEGER at the start of a source, and returns its contents octets with how many of
/// `count` octets are left after it.
fn take_integer<S: Source>(
    alloc: Global,
    mode: Mode,
    source: &mut S,
    count: usize,
) -> Option<(Bytes, usize)> {
    let integer = match mode.decode_lent(source, |cons| Integer::take_from(alloc, cons)) {
        Ok(integer) => integer,
        Err(_) => return None,
    };
    match source.request(count) {
        Ok(left) => Some((integer.into_bytes(), left)),
        Err(_) => None,
    }
}

/// Returns whether what was taken is what an answer says.
fn is_answer(
    alloc: Global,
    taken: Option<(Bytes, usize)>,
    count: usize,
    answer: &str,
) -> Result<bool, Error> {
    let Some((contents, left)) = taken else {
        return Ok(answer == "-");
    };
    let Some((size, hex)) = answer.split_once(':') else {
        return Ok(false);
    };
    let wanted = hex::decode(alloc, hex)?;
    Ok(
        size.parse::<usize>()?.checked_add(left) == Some(count)
            && contents.as_slice() == wanted.as_slice(),
    )
}

/// Compares the answers of one line of values.
pub fn compare_value(alloc: Global, line: &str, tallies: &mut Tallies) -> Result<(), Error> {
    let mut fields = line.split('\t');
    let list = octets_of(alloc, next(&mut fields)?)?;
    let octets = list.as_slice();
    let count = octets.len();
    for mode in [Mode::Ber, Mode::Cer, Mode::Der] {
        let answer = next(&mut fields)?;
        let taken = take_integer(alloc, mode, &mut SliceSource::new(octets), count);
        tallies
            .values
            .count(is_answer(alloc, taken, count, answer)?);
        let shared = Bytes::copy_from_slice(alloc, octets)?;
        let taken = take_integer(alloc, mode, &mut BytesSource::new(shared), count);
        tallies
            .values
            .count(is_answer(alloc, taken, count, answer)?);
        let mut sip = Sip::new(octets.to_vec(alloc)?, 0);
        let taken = take_integer(alloc, mode, &mut sip, count);
        tallies
            .values
            .count(is_answer(alloc, taken, count, answer)?);
    }
    Ok(())
}
