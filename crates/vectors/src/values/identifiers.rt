//! Compares object identifiers: their components and texts, reading them, and values that are read.
use anyhow::Error;
use bcder::decode::{BytesSource, Primitive, SliceSource, Source};
use bcder::oid::OidError;
use bcder::{Mode, Oid};
use bytes::Bytes;
use lines::fields::{next, octets_of};
use lines::malformed::Malformed;
use lines::tally::{Differing, Tally, differ_in};
use std::alloc::Global;
use support::sip::Sip;

/// What was compared.
#[derive(Clone, Copy, Default)]
pub struct Tallies {
    /// Contents octets that were read, or refused.
    pub read: Tally,

    /// Texts that were shown.
    pub shown: Tally,

    /// Texts that were read, or refused.
    pub texts: Tally,

    /// Components as numbers.
    pub components: Tally,

    /// Values read from sources.
    pub values: Tally,
}

impl Differing for Tallies {
    fn differ(&self) -> u64 {
        differ_in(&[
            self.read,
            self.shown,
            self.texts,
            self.components,
            self.values,
        ])
    }
}

/// Compares whether contents octets are read as an identifier, the text that shows it, and what
/// this text is read as.
pub fn compare_line(alloc: Global, line: &str, tallies: &mut Tallies) -> Result<(), Error> {
    let mut fields = line.split('\t');
    let octets = octets_of(alloc, next(&mut fields)?)?;
    let taken = next(&mut fields)? == "taken";
    let text = next(&mut fields)?;
    for mode in [Mode::Ber, Mode::Cer, Mode::Der] {
        let skipped = Primitive::decode_slice(&octets, mode, |p| Oid::skip_primitive(p));
        tallies.read.count(skipped.is_ok() == taken);
        match Primitive::decode_slice(&octets, mode, |p| Oid::from_primitive(alloc, p)) {
            Ok(oid) => tallies
                .read
                .count(taken && oid.0.as_slice() == octets.as_slice()),
            Err(_) => tallies.read.count(!taken),
        }
    }
    let shown = format!(in alloc; "{}", Oid(octets))?;
    let same = if text == "-" {
        shown.as_str().is_empty()
    } else {
        shown.as_str() == text
    };
    tallies.shown.count(same);
    let back = next(&mut fields)?;
    tallies.texts.count(is_read(alloc, shown.as_str(), back)?);
    Ok(())
}

/// Returns the word for why a text isn't an identifier.
fn reason(error: OidError) -> &'static str {
    match error {
        OidError::TooFew => "few",
        OidError::NotInteger => "integer",
        OidError::First => "first",
        OidError::Second => "second",
        OidError::NoMemory => "memory",
    }
}

/// Returns whether a text is an identifier of these contents octets, or is none for this reason.
fn is_read(alloc: Global, text: &str, wanted: &str) -> Result<bool, Error> {
    match Oid::from_str(alloc, text) {
        Ok(oid) => match octets_of(alloc, wanted) {
            Ok(octets) => {
                let same = oid.0.as_slice() == octets.as_slice();
                Ok(same && oid.into_shared()?.0.as_slice() == octets.as_slice())
            }
            Err(_) => Ok(false),
        },
        Err(error) => Ok(reason(error) == wanted),
    }
}

/// Compares the contents octets of the identifier that a text is, or why it is none.
pub fn compare_text(alloc: Global, line: &str, tallies: &mut Tallies) -> Result<(), Error> {
    let (text, wanted) = line.split_once('\t').ok_or(Malformed)?;
    tallies.texts.count(is_read(alloc, text, wanted)?);
    Ok(())
}

/// Returns whether a component of octets is this number, or isn't below 2^32 for `-`.
fn is_component(octets: &[u8], place: usize, number: &str) -> bool {
    match Oid(octets).iter().nth(place) {
        Some(component) => match component.to_u32() {
            Some(found) => matches!(number.parse::<u32>(), Ok(wanted) if wanted == found),
            None => number == "-",
        },
        None => false,
    }
}

/// Compares the numbers of the octets of a subidentifier as first, second and third component.
pub fn compare_components(alloc: Global, line: &str, tallies: &mut Tallies) -> Result<(), Error> {
    let mut fields = line.split('\t');
    let octets = octets_of(alloc, next(&mut fields)?)?;
    tallies
        .components
        .count(is_component(&octets, 0, next(&mut fields)?));
    tallies
        .components
        .count(is_component(&octets, 1, next(&mut fields)?));
    let mut behind = Vec::new(alloc);
    behind.push(0x2A)?;
    behind.extend_from_slice(&octets)?;
    tallies
        .components
        .count(is_component(&behind, 2, next(&mut fields)?));
    Ok(())
}

/// Takes the OBJECT IDENTIFIER at the start of a source, and returns it with how many of `count`
/// octets are left after it.
fn take_identifier<S: Source>(
    alloc: Global,
    mode: Mode,
    source: &mut S,
    count: usize,
) -> Option<(Bytes, usize)> {
    let oid = match mode.decode_lent(source, |cons| Oid::take_from(alloc, cons)) {
        Ok(oid) => oid,
        Err(_) => return None,
    };
    match source.request(count) {
        Ok(left) => Some((oid.0, left)),
        Err(_) => None,
    }
}

/// Returns whether what was taken is what an answer says.
fn is_answer(
    alloc: Global,
    taken: Option<(Bytes, usize)>,
    count: usize,
    answer: &str,
) -> Result<bool, Error> {
    let Some((contents, left)) = taken else {
        return Ok(answer == "-");
    };
    let mut words = answer.split(':');
    let size = next(&mut words)?;
    if size == "-" {
        return Ok(false);
    }
    let text = next(&mut words)?;
    let wanted = octets_of(alloc, next(&mut words)?)?;
    let same = contents.as_slice() == wanted.as_slice();
    let shown = format!(in alloc; "{}", Oid(contents))?;
    Ok(same && size.parse::<usize>()?.checked_add(left) == Some(count) && shown.as_str() == text)
}

/// Compares the answers of one line of values.
pub fn compare_value(alloc: Global, line: &str, tallies: &mut Tallies) -> Result<(), Error> {
    let mut fields = line.split('\t');
    let list = octets_of(alloc, next(&mut fields)?)?;
    let octets = list.as_slice();
    let count = octets.len();
    let tally = &mut tallies.values;
    for mode in [Mode::Ber, Mode::Cer, Mode::Der] {
        let answer = next(&mut fields)?;
        let taken = take_identifier(alloc, mode, &mut SliceSource::new(octets), count);
        tally.count(is_answer(alloc, taken, count, answer)?);
        let shared = Bytes::copy_from_slice(alloc, octets)?;
        let taken = take_identifier(alloc, mode, &mut BytesSource::new(shared), count);
        tally.count(is_answer(alloc, taken, count, answer)?);
        let mut sip = Sip::new(octets.to_vec(alloc)?, 0);
        let taken = take_identifier(alloc, mode, &mut sip, count);
        tally.count(is_answer(alloc, taken, count, answer)?);
    }
    Ok(())
}
