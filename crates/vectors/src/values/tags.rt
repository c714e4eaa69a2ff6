//! Compares identifier octets (X.690, 8.1.2), read over several sources, and how tags are shown.
use crate::values::written::compare_tag;
use anyhow::Error;
use bcder::Tag;
use bcder::decode::{BytesSource, DecodeError, SliceSource, Source};
use bytes::Bytes;
use lines::calls::{Answer, error_kind};
use lines::fields::{find, next, number, octets_of};
use lines::malformed::Malformed;
use lines::tally::{Differing, Tally, differ_in};
use std::alloc::Global;
use support::sip::Sip;

/// The class of a tag.
#[derive(Clone, Copy)]
enum Class {
    Universal,
    Application,
    Context,
    Private,
}

/// The words for the classes.
const CLASSES: [(&str, Class); 4] = [
    ("universal", Class::Universal),
    ("application", Class::Application),
    ("context", Class::Context),
    ("private", Class::Private),
];

/// How often tags were compared.
#[derive(Clone, Copy, Default)]
pub struct Tallies {
    /// Tags that were taken.
    pub taken: Tally,

    /// Octets that were refused.
    pub refused: Tally,

    /// Texts, classes and numbers.
    pub shown: Tally,

    /// Tags that were written.
    pub written: Tally,
}

impl Differing for Tallies {
    fn differ(&self) -> u64 {
        differ_in(&[self.taken, self.refused, self.shown, self.written])
    }
}

/// Returns the tag of a class and a number.
fn tag_of(class: Class, number: usize) -> Result<Tag, Malformed> {
    if number > 2097151 {
        return Err(Malformed);
    }
    let number = number as u32;
    Ok(match class {
        Class::Universal => Tag::universal(number),
        Class::Application => Tag::application(number),
        Class::Context => Tag::ctx(number),
        Class::Private => Tag::private(number),
    })
}

/// Returns whether a tag says that it is of this class, and of no other one.
fn is_of(tag: Tag, class: Class) -> bool {
    tag.is_universal() == matches!(class, Class::Universal)
        && tag.is_application() == matches!(class, Class::Application)
        && tag.is_context_specific() == matches!(class, Class::Context)
        && tag.is_private() == matches!(class, Class::Private)
}

fn is_at_end<S: Source>(source: &mut S) -> bool {
    match source.take_opt_u8() {
        Ok(next) => next.is_none(),
        Err(_) => false,
    }
}

/// Returns whether the tag and the form that were found are these.
fn is_found(found: (Tag, bool), tag: Tag, constructed: bool) -> bool {
    let same = found.0 == tag;
    same && found.1 == constructed
}

/// Returns whether a call refuses with a fixed text.
fn is_static<T: Drop, E: Drop>(outcome: Result<T, DecodeError<E>>) -> bool {
    match outcome {
        Ok(_) => false,
        Err(error) => error_kind(&error, Tag::END_OF_VALUE) == Answer::Static,
    }
}

/// Returns whether `take_from` gives the tag and the form, takes all octets, and then refuses.
fn takes<S: Source>(source: &mut S, tag: Tag, constructed: bool) -> bool {
    let Ok(found) = Tag::take_from(source) else {
        return false;
    };
    is_found(found, tag, constructed) && is_at_end(source) && is_static(Tag::take_from(source))
}

/// Returns whether `take_opt_from` gives the tag and the form, and then `None`.
fn takes_opt<S: Source>(source: &mut S, tag: Tag, constructed: bool) -> bool {
    let Ok(Some(found)) = Tag::take_opt_from(source) else {
        return false;
    };
    is_found(found, tag, constructed) && matches!(Tag::take_opt_from(source), Ok(None))
}

/// Returns whether `take_from_if` takes the octets of this tag and gives the form, and then gives
/// `None`.
fn takes_if<S: Source>(source: &mut S, tag: Tag, constructed: bool) -> bool {
    match tag.take_from_if(source) {
        Ok(Some(found)) => found == constructed && matches!(tag.take_from_if(source), Ok(None)),
        _ => false,
    }
}

/// Returns whether all three readers refuse with a fixed text, and take nothing: the first octet is
/// left.
fn refuses<S: Source>(source: &mut S, tag: Tag, first: u8) -> bool {
    is_static(Tag::take_from(source))
        && is_static(Tag::take_opt_from(source))
        && is_static(tag.take_from_if(source))
        && matches!(source.take_u8(), Ok(octet) if octet == first)
}

/// Compares a tag with what each reader takes from its octets, over a kind of source.
fn compare_taken<S: Source>(
    source: &mut S,
    again: &mut S,
    third: &mut S,
    tag: Tag,
    constructed: bool,
    tally: &mut Tally,
) {
    tally.count(takes(source, tag, constructed));
    tally.count(takes_opt(again, tag, constructed));
    tally.count(takes_if(third, tag, constructed));
}

fn shared(alloc: Global, octets: &[u8]) -> Result<BytesSource, Error> {
    Ok(BytesSource::new(Bytes::copy_from_slice(alloc, octets)?))
}

fn sip(alloc: Global, octets: &[u8]) -> Result<Sip, Error> {
    Ok(Sip::new(octets.to_vec(alloc)?, 0))
}

/// Compares a tag with what the readers take from its octets.
fn compare_octets(
    alloc: Global,
    octets: &[u8],
    tag: Tag,
    constructed: bool,
    tally: &mut Tally,
) -> Result<(), Error> {
    compare_taken(
        &mut SliceSource::new(octets),
        &mut SliceSource::new(octets),
        &mut SliceSource::new(octets),
        tag,
        constructed,
        tally,
    );
    compare_taken(
        &mut shared(alloc, octets)?,
        &mut shared(alloc, octets)?,
        &mut shared(alloc, octets)?,
        tag,
        constructed,
        tally,
    );
    compare_taken(
        &mut sip(alloc, octets)?,
        &mut sip(alloc, octets)?,
        &mut sip(alloc, octets)?,
        tag,
        constructed,
        tally,
    );
    Ok(())
}

/// Compares octets that don't begin with a tag with what the readers say of them.
fn compare_refused(alloc: Global, octets: &[u8], tag: Tag, tally: &mut Tally) -> Result<(), Error> {
    if let Some(first) = octets.first() {
        tally.count(refuses(&mut SliceSource::new(octets), tag, *first));
        tally.count(refuses(&mut shared(alloc, octets)?, tag, *first));
        tally.count(refuses(&mut sip(alloc, octets)?, tag, *first));
    }
    Ok(())
}

/// Compares the octets of a line with their tag, and checks that there is no tag if the last octet
/// is missing.
pub fn compare_line(alloc: Global, line: &str, tallies: &mut Tallies) -> Result<(), Error> {
    let mut fields = line.split('\t');
    let octets = octets_of(alloc, next(&mut fields)?)?;
    let word = next(&mut fields)?;
    if word == "-" {
        return compare_refused(alloc, &octets, Tag::DATE, &mut tallies.refused);
    }
    let class = find(&CLASSES, word)?;
    let number = number(next(&mut fields)?)?;
    let tag = tag_of(class, number)?;
    let constructed = next(&mut fields)? == "constructed";
    compare_octets(alloc, &octets, tag, constructed, &mut tallies.taken)?;
    compare_tag(alloc, &octets, tag, constructed, &mut tallies.written);
    let count = octets.len();
    if count > 1 {
        compare_refused(alloc, &octets[..count - 1], tag, &mut tallies.refused)?;
    }
    let text = format!(in alloc; "{tag}")?;
    tallies.shown.count(text.as_str() == next(&mut fields)?);
    tallies.shown.count(is_of(tag, class));
    tallies.shown.count(tag.number() as usize == number);
    Ok(())
}
