//! Restricted character strings: made of texts, read, cloned, and consumed for their octets.
use crate::end::{End, answered, tell};
use crate::read::{Reader, Reading};
use anyhow::Error;
use bcder::decode::SliceSource;
use bcder::string::{StringError, Utf8String};
use bcder::{Mode, NoMemory};
use std::alloc::{AllocError, Global};

/// The text of each string.
const TEXT: &str = "aé";

/// The octets of the text in two segments, the first of which ends inside a character.
const CUT: &[u8] = &[0x2C, 0x07, 0x04, 0x02, 0x61, 0xC3, 0x04, 0x01, 0xA9];

/// Returns whether a string has the characters of the text.
fn is_it(string: &Utf8String) -> bool {
    string.eq_octets(TEXT.as_bytes())
}

/// Returns how a call ended that makes a string of the text.
fn made_of(outcome: Result<Utf8String, StringError>) -> End {
    match outcome {
        Ok(string) => answered(is_it(&string)),
        Err(StringError::NoMemory) => End::NoMemory,
        Err(StringError::CharSet) => End::Wrong,
    }
}

/// The readers of the value in segments.
const READERS: [(&str, Reader); 3] = [
    ("RestrictedString::take_from", Reader::Text),
    ("RestrictedString::take_opt_from", Reader::OptText),
    ("RestrictedString::from_content", Reader::TextOfContent),
];

/// Clones a string. The clone has the same characters.
fn clones(string: &Utf8String) -> End {
    let clone: Result<Utf8String, AllocError> = string.clone();
    match clone {
        Ok(clone) => answered(is_it(string) && is_it(&clone)),
        Err(AllocError) => End::NoMemory,
    }
}

pub fn run(rt: &HostRuntime) -> Result<(), Error> {
    let alloc = rt.alloc();
    let end = made_of(Utf8String::from_str(alloc, TEXT));
    tell(rt, "RestrictedString::from_str", end)?;
    let text = TEXT.to_string(alloc)?;
    let end = made_of(Utf8String::from_string(alloc, text));
    tell(rt, "RestrictedString::from_string", end)?;
    for (name, reader) in READERS {
        let reading = Reading {
            reader,
            mode: Mode::Ber,
            value: CUT,
            wanted: TEXT.as_bytes(),
        };
        tell(rt, name, reading.copied(alloc))?;
    }
    let mut octets = SliceSource::new(CUT);
    let cut = Mode::Ber.decode_lent(&mut octets, |cons| Utf8String::take_from(alloc, cons))?;
    tell(rt, "RestrictedString::clone", clones(&cut))?;
    let end = match cut.into_bytes(alloc) {
        Ok(octets) => answered(octets.as_slice() == TEXT.as_bytes()),
        Err(NoMemory) => End::NoMemory,
    };
    tell(rt, "RestrictedString::into_bytes", end)
}
