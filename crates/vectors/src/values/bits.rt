//! Compares bit strings: values that are read, and skipped.
use anyhow::Error;
use bcder::decode::{BytesSource, SliceSource, Source};
use bcder::{BitString, Mode};
use bytes::Bytes;
use lines::fields::{next, octets_of};
use lines::tally::Tally;
use std::alloc::Global;
use support::sip::Sip;

/// Takes the BIT STRING at the start of a source, and returns it with how many of `count` octets
/// are left after it.
fn take_bits<S: Source>(
    alloc: Global,
    mode: Mode,
    source: &mut S,
    count: usize,
) -> Option<(BitString, usize)> {
    let bits = match mode.decode_lent(source, |cons| BitString::take_from(alloc, cons)) {
        Ok(bits) => bits,
        Err(_) => return None,
    };
    match source.request(count) {
        Ok(left) => Some((bits, left)),
        Err(_) => None,
    }
}

/// Skips the BIT STRING at the start of octets, and returns how many octets are left after it.
fn skip_bits(mode: Mode, octets: &[u8]) -> Option<usize> {
    let mut source = SliceSource::new(octets);
    match mode.decode_lent(&mut source, |cons| BitString::skip_in(cons)) {
        Ok(()) => Some(source.len()),
        Err(_) => None,
    }
}

/// Returns whether what was taken is what an answer says.
fn is_answer(
    alloc: Global,
    taken: Option<(BitString, usize)>,
    count: usize,
    answer: &str,
) -> Result<bool, Error> {
    let Some((bits, left)) = taken else {
        return Ok(answer == "-");
    };
    let mut words = answer.split(':');
    let size = next(&mut words)?;
    if size == "-" {
        return Ok(false);
    }
    let unused = next(&mut words)?.parse::<u8>()?;
    let wanted = octets_of(alloc, next(&mut words)?)?;
    let octets = bits.octet_bytes()?;
    Ok(
        size.parse::<usize>()?.checked_add(left) == Some(count)
            && bits.unused() == unused
            && octets.as_slice() == wanted.as_slice(),
    )
}

/// Compares the answers of one line of values.
pub fn compare_value(alloc: Global, line: &str, tally: &mut Tally) -> Result<(), Error> {
    let mut fields = line.split('\t');
    let list = octets_of(alloc, next(&mut fields)?)?;
    let octets = list.as_slice();
    let count = octets.len();
    for mode in [Mode::Ber, Mode::Cer, Mode::Der] {
        let answer = next(&mut fields)?;
        let taken = take_bits(alloc, mode, &mut SliceSource::new(octets), count);
        let left = match &taken {
            Some((_, left)) => Some(*left),
            None => None,
        };
        tally.count(skip_bits(mode, octets) == left);
        tally.count(is_answer(alloc, taken, count, answer)?);
        let shared = Bytes::copy_from_slice(alloc, octets)?;
        let taken = take_bits(alloc, mode, &mut BytesSource::new(shared), count);
        tally.count(is_answer(alloc, taken, count, answer)?);
        let mut sip = Sip::new(octets.to_vec(alloc)?, 0);
        let taken = take_bits(alloc, mode, &mut sip, count);
        tally.count(is_answer(alloc, taken, count, answer)?);
    }
    Ok(())
}
