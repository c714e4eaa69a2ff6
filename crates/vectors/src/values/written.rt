//! Compares encoding: what is written of integers and of headers.
use anyhow::Error;
use bcder::encode::{
    EncodeError, PrimitiveContent, Values, WriteError, total_encoded_len, write_header,
};
use bcder::{Mode, Tag};
use lines::calls::tag_of;
use lines::fields::{find, next, octets_of};
use lines::tally::Tally;
use std::alloc::Global;

/// Returns whether the value that is written is an INTEGER with these contents octets.
fn is_written<P: PrimitiveContent + Drop>(alloc: Global, number: P, octets: &[u8]) -> bool {
    let mut target = Vec::new(alloc);
    for mode in [Mode::Ber, Mode::Cer, Mode::Der] {
        match number.to_encoded_bytes(alloc, mode) {
            Ok(contents) => {
                if contents.as_slice() != octets {
                    return false;
                }
            }
            Err(_) => return false,
        }
        let value = number.encode_ref();
        target.clear();
        if value.write_encoded(mode, &mut target).is_err()
            || value.encoded_len(mode) != Ok(target.len())
        {
            return false;
        }
        match target.as_slice() {
            [2, len, contents @ ..] => {
                if usize::from(*len) != octets.len() || contents != octets {
                    return false;
                }
            }
            _ => return false,
        }
    }
    true
}

/// Compares what is written of the number that a text is, in each unsigned type that holds it.
pub fn compare_unsigned(alloc: Global, octets: &[u8], text: &str, tally: &mut Tally) {
    if let Ok(number) = text.parse::<u8>() {
        tally.count(is_written(alloc, number, octets));
    }
    if let Ok(number) = text.parse::<u16>() {
        tally.count(is_written(alloc, number, octets));
    }
    if let Ok(number) = text.parse::<u32>() {
        tally.count(is_written(alloc, number, octets));
    }
    if let Ok(number) = text.parse::<u64>() {
        tally.count(is_written(alloc, number, octets));
    }
    if let Ok(number) = text.parse::<u128>() {
        tally.count(is_written(alloc, number, octets));
    }
}

/// Compares what is written of the number that a text is, in each signed type that holds it.
pub fn compare_signed(alloc: Global, octets: &[u8], text: &str, tally: &mut Tally) {
    if let Ok(number) = text.parse::<i8>() {
        tally.count(is_written(alloc, number, octets));
    }
    if let Ok(number) = text.parse::<i16>() {
        tally.count(is_written(alloc, number, octets));
    }
    if let Ok(number) = text.parse::<i32>() {
        tally.count(is_written(alloc, number, octets));
    }
    if let Ok(number) = text.parse::<i64>() {
        tally.count(is_written(alloc, number, octets));
    }
    if let Ok(number) = text.parse::<i128>() {
        tally.count(is_written(alloc, number, octets));
    }
}

/// Compares what is written of a tag with its identifier octets.
pub fn compare_tag(alloc: Global, octets: &[u8], tag: Tag, constructed: bool, tally: &mut Tally) {
    let mut target = Vec::new(alloc);
    let written = tag.write_encoded(constructed, &mut target);
    tally.count(written.is_ok() && target.as_slice() == octets);
    tally.count(tag.encoded_len() == octets.len());
}

/// The words for refusals.
const REFUSALS: [(&str, EncodeError); 2] = [
    ("end-of-value", EncodeError::EndOfValueTag),
    ("too-large", EncodeError::LengthTooLarge),
];

/// Compares the header of a value, and the size of the whole value.
pub fn compare_header(alloc: Global, line: &str, tally: &mut Tally) -> Result<(), Error> {
    let mut fields = line.split('\t');
    let tag = tag_of(next(&mut fields)?)?;
    let constructed = next(&mut fields)? == "constructed";
    let len = next(&mut fields)?.parse::<usize>()?;
    let header = next(&mut fields)?;
    let total = next(&mut fields)?;
    let mut target = Vec::new(alloc);
    let written = write_header(&mut target, tag, constructed, len);
    let size = total_encoded_len(tag, len);
    if header == "-" {
        let refusal = find(&REFUSALS, total)?;
        tally.count(target.is_empty());
        tally.count(matches!(written, Err(WriteError::Refused(error)) if error == refusal));
        tally.count(size == Err(refusal));
    } else {
        tally.count(written.is_ok());
        tally.count(target.as_slice() == octets_of(alloc, header)?.as_slice());
        tally.count(size == Ok(total.parse::<usize>()?));
    }
    Ok(())
}
