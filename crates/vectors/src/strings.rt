//! Compares octet strings: values that are read, in one piece or in parts.
use anyhow::Error;
use bcder::decode::{BytesSource, SliceSource, Source};
use bcder::{Mode, OctetString};
use bytes::Bytes;
use lines::fields::{next, octets_of};
use lines::tally::Tally;
use std::alloc::Global;
use support::sip::Sip;

/// Takes the OCTET STRING at the start of a source, and returns it with how many of `count` octets
/// are left after it.
fn take_string<S: Source>(
    alloc: Global,
    mode: Mode,
    source: &mut S,
    count: usize,
) -> Option<(OctetString, usize)> {
    let string = match mode.decode_lent(source, |cons| OctetString::take_from(alloc, cons)) {
        Ok(string) => string,
        Err(_) => return None,
    };
    match source.request(count) {
        Ok(left) => Some((string, left)),
        Err(_) => None,
    }
}

/// Returns whether these are the parts of a string.
fn are_parts(alloc: Global, string: &OctetString, wanted: &str) -> Result<bool, Error> {
    let mut parts = string.iter();
    if wanted != "none" {
        for word in wanted.split(',') {
            let octets = octets_of(alloc, word)?;
            if parts.next() != Some(octets.as_slice()) {
                return Ok(false);
            }
        }
    }
    Ok(string.as_slice().is_none() && parts.next().is_none())
}

/// Returns whether what was taken is what an answer says.
fn is_answer(
    alloc: Global,
    taken: Option<(OctetString, usize)>,
    count: usize,
    answer: &str,
) -> Result<bool, Error> {
    let Some((string, left)) = taken else {
        return Ok(answer == "-");
    };
    let mut words = answer.split(':');
    let size = next(&mut words)?;
    if size == "-" {
        return Ok(false);
    }
    let octets = octets_of(alloc, next(&mut words)?)?;
    let cut = match words.next() {
        Some("whole") => string.as_slice() == Some(octets.as_slice()),
        Some(parts) => are_parts(alloc, &string, parts)?,
        None => true,
    };
    let same = string.eq_octets(octets.as_slice());
    Ok(cut && same && size.parse::<usize>()?.checked_add(left) == Some(count))
}

/// Compares the answers of one line of values.
pub fn compare_line(alloc: Global, line: &str, tally: &mut Tally) -> Result<(), Error> {
    let mut fields = line.split('\t');
    let list = octets_of(alloc, next(&mut fields)?)?;
    let octets = list.as_slice();
    let count = octets.len();
    for mode in [Mode::Ber, Mode::Cer, Mode::Der] {
        let answer = next(&mut fields)?;
        let taken = take_string(alloc, mode, &mut SliceSource::new(octets), count);
        tally.count(is_answer(alloc, taken, count, answer)?);
        let shared = Bytes::copy_from_slice(alloc, octets)?;
        let taken = take_string(alloc, mode, &mut BytesSource::new(shared), count);
        tally.count(is_answer(alloc, taken, count, answer)?);
        let mut sip = Sip::new(octets.to_vec(alloc)?, 0);
        let taken = take_string(alloc, mode, &mut sip, count);
        tally.count(is_answer(alloc, taken, count, answer)?);
    }
    Ok(())
}
