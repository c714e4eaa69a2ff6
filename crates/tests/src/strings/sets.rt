//! What is checked of a character set, and in which.
use crate::asserts::Case;
use crate::over::{shared, sip};
use bcder::decode::{SliceSource, Source};
use bcder::string::{
    CharSet, Ia5CharSet, NumericCharSet, OctetStringOctets, PrintableCharSet, RestrictedString,
    StringError, Utf8CharSet,
};
use bcder::{Mode, OctetString};
use bytes::Bytes;
use std::alloc::Global;
use std::process::Abort;
use user::latin_1::Latin1;

/// A set.
#[derive(Clone, Copy)]
pub enum Set {
    Utf8,
    Numeric,
    Printable,
    Ia5,
    Latin1,
}

/// What is checked of a set.
#[derive(Clone, Copy)]
pub enum What<'a> {
    /// Octets spell this text, or aren't a string.
    Spell(&'a [u8], Option<&'a str>),

    /// A text has these octets, or the set lacks one of its characters.
    Give(&'a str, Option<&'a [u8]>),

    /// Octets make a string, or don't.
    Make(&'a [u8], bool),

    /// A text makes a string of these octets, or none.
    Text(&'a str, Option<&'a [u8]>),

    /// Octets are read in a mode as a string of this text, or as none.
    Read(Mode, &'a [u8], Option<&'a str>),
}

/// Checks this of a set.
fn check_of<L: CharSet>(case: &Case<'_, impl Abort>, what: What<'_>) {
    match what {
        What::Spell(octets, text) => spell::<L>(case, octets, text),
        What::Give(text, octets) => give::<L>(case, text, octets),
        What::Make(octets, wanted) => case.same(is_made::<L>(case, octets), wanted),
        What::Text(text, octets) => check_text::<L>(case, text, octets),
        What::Read(mode, octets, text) => check_read::<L>(case, mode, octets, text),
    }
}

/// Checks this of the set.
pub fn check(case: &Case<'_, impl Abort>, set: Set, what: What<'_>) {
    match set {
        Set::Utf8 => check_of::<Utf8CharSet>(case, what),
        Set::Numeric => check_of::<NumericCharSet>(case, what),
        Set::Printable => check_of::<PrintableCharSet>(case, what),
        Set::Ia5 => check_of::<Ia5CharSet>(case, what),
        Set::Latin1 => check_of::<Latin1>(case, what),
    }
}

// ---- sets

/// Returns the characters of octets, in order, or `None` if they aren't a string of the set.
pub fn spelled<L: CharSet>(
    case: &Case<'_, impl Abort>,
    octets: OctetStringOctets<'_>,
    len: usize,
) -> Option<String> {
    let mut octets = octets;
    let mut text = String::new(case.alloc);
    for _ in 0..=len {
        match L::next_char(&mut octets) {
            Ok(Some(character)) => case.done(text.push(character)),
            Ok(None) => return Some(text),
            Err(_) => return None,
        }
    }
    None
}

/// Checks that octets spell a text of the set, or aren't one of its strings.
fn spell<L: CharSet>(case: &Case<'_, impl Abort>, octets: &[u8], wanted: Option<&str>) {
    let found = spelled::<L>(case, OctetStringOctets::new(octets), octets.len());
    case.same(found.as_deref(), wanted);
    case.same(
        L::check(OctetStringOctets::new(octets)).is_ok(),
        wanted.is_some(),
    );
}

/// Checks that a text gives these octets, or that the set lacks one of its characters.
fn give<L: CharSet>(case: &Case<'_, impl Abort>, text: &str, wanted: Option<&[u8]>) {
    match L::from_str(case.alloc, text) {
        Ok(octets) => case.same(Some(octets.as_slice()), wanted),
        Err(error) => {
            case.same(error, StringError::CharSet);
            case.holds(wanted.is_none());
        }
    }
}

// ---- strings

/// Reads the next value of a source as a string of a set, if it is one.
#[tactic(auto, using(bcder::specs::laws::Moved::steps))]
pub fn read<L: CharSet, S: Source>(
    alloc: Global,
    mode: Mode,
    source: &mut S,
) -> Option<RestrictedString<L>> {
    let read = mode.decode_lent(source, |cons| RestrictedString::<L>::take_from(alloc, cons));
    read.ok()
}

/// Checks that what is read of a source shows this text, or that nothing is read.
fn check_source<L: CharSet, S: Source>(
    case: &Case<'_, impl Abort>,
    mode: Mode,
    source: &mut S,
    text: Option<&str>,
) {
    match (read::<L, S>(case.alloc, mode, source), text) {
        (Some(string), Some(text)) => case.shows(&string, text),
        (found, wanted) => case.holds(found.is_none() && wanted.is_none()),
    }
}

/// Checks that what is read of octets shows this text, or that nothing is read, over three sources.
fn check_read<L: CharSet>(
    case: &Case<'_, impl Abort>,
    mode: Mode,
    octets: &[u8],
    text: Option<&str>,
) {
    check_source::<L, _>(case, mode, &mut SliceSource::new(octets), text);
    check_source::<L, _>(case, mode, &mut shared(case.rt, case.alloc, octets), text);
    check_source::<L, _>(case, mode, &mut sip(case.rt, case.alloc, octets), text);
}

/// Returns whether octets make a string of the set.
fn is_made<L: CharSet>(case: &Case<'_, impl Abort>, octets: &[u8]) -> bool {
    let octets = case.done(Bytes::copy_from_slice(case.alloc, octets));
    RestrictedString::<L>::new(OctetString::new(octets)).is_ok()
}

/// Checks that a text makes a string of these octets, which has its characters, or none.
fn check_text<L: CharSet>(case: &Case<'_, impl Abort>, text: &str, wanted: Option<&[u8]>) {
    let lent = RestrictedString::<L>::from_str(case.alloc, text);
    let owned = case.done(text.to_string(case.alloc));
    let owned = RestrictedString::<L>::from_string(case.alloc, owned);
    match wanted {
        Some(octets) => check_made(case, case.done(lent), case.done(owned), text, octets),
        None => {
            case.same(lent.err(), Some(StringError::CharSet));
            case.same(owned.err(), Some(StringError::CharSet));
        }
    }
}

/// Checks two strings of a text.
fn check_made<L: CharSet>(
    case: &Case<'_, impl Abort>,
    lent: RestrictedString<L>,
    owned: RestrictedString<L>,
    text: &str,
    octets: &[u8],
) {
    case.same(lent.as_slice(), Some(octets));
    case.shows(&lent, text);
    let mut characters = text.chars();
    for character in lent.chars() {
        case.same(Some(character), characters.next());
    }
    case.same(characters.next(), None);
    case.holds(owned == lent);
    case.same(case.done(owned.into_bytes(case.alloc)).as_slice(), octets);
}
