//! Compares each way over the next value, over each source, with the plain reader.
ghost use Rattle.bcder.specs.calls.Views.{Moved};

use crate::headings::{Heading, headings_of, size_of};
use crate::tally::Tally;
use bcder::decode::{
    BytesSource, Constructed, Content, ContentError, DecodeError, SliceSource, Source, walk,
};
use bcder::{Mode, Tag};
use bytes::Bytes;
use std::alloc::{AllocError, Global};
use support::sip::Sip;

/// A call that skips or takes the next value.
#[derive(Clone, Copy)]
enum Way {
    Walk,
    SkipOne,
    SkipOpt,
    CaptureOne,
    TakeValue,
}

const WAYS: [Way; 5] = [
    Way::Walk,
    Way::SkipOne,
    Way::SkipOpt,
    Way::CaptureOne,
    Way::TakeValue,
];

/// What the plain reader finds at the start of octets.
#[derive(Drop)]
struct Found<'a> {
    mode: Mode,
    octets: &'a [u8],
    size: Option<usize>,
    headings: Vec<Heading>,
}

impl Found<'_> {
    /// Returns whether a captured value has the octets of the one that was found.
    fn is_captured(&self, captured: &[u8]) -> bool {
        match self.size {
            Some(size) => self.octets.get(..size) == Some(captured),
            None => false,
        }
    }
}

/// Skips the next value, and returns whether it has the headings that were found.
#[tactic(auto, using(bcder::specs::laws::Moved::steps))]
fn skips<S: Source>(
    cons: &mut Constructed<'_, S>,
    alloc: Global,
    headings: &[Heading],
) -> Result<bool, DecodeError<S::Error>>
    ensures { Moved S.stream cons }
{
    let mut count = 0usize;
    let mut same = true;
    let mut op = |tag: Tag, constructed: bool, depth: usize| -> Result<(), ContentError> {
        let heading = Heading {
            tag,
            constructed,
            depth,
        };
        same = same && headings.get(count) == Some(&heading);
        count = count.saturating_add(1);
        Ok(())
    };
    let skipped = cons.skip_opt(alloc, &mut op)?;
    Ok(skipped.is_some() && same && count == headings.len())
}

/// Takes the next value, with all that is inside.
#[tactic(auto, using(bcder::specs::laws::Moved::steps))]
fn takes<S: Source>(
    cons: &mut Constructed<'_, S>,
    alloc: Global,
) -> Result<bool, DecodeError<S::Error>>
    ensures { Moved S.stream cons }
{
    let taken = cons.take_opt_value(|_tag, content| match content {
        Content::Primitive(octets) => octets.skip_all(),
        Content::Constructed(values) => values.skip_all(alloc),
    })?;
    Ok(taken.is_some())
}

/// Returns whether a value was skipped as it was found. The error of a capture is dropped.
#[tactic(auto, using(bcder::specs::laws::Moved::steps))]
fn passes<S: Source>(
    cons: &mut Constructed<'_, S>,
    alloc: Global,
    way: Way,
    found: &Found<'_>,
) -> Result<bool, DecodeError<S::Error>>
    ensures { Moved S.stream cons }
{
    match way {
        Way::Walk => Ok(walk(cons)?.is_some()),
        Way::SkipOne => Ok(cons.skip_one(alloc)?.is_some()),
        Way::SkipOpt => skips(cons, alloc, &found.headings),
        Way::TakeValue => takes(cons, alloc),
        Way::CaptureOne => match cons.capture_one(alloc) {
            Ok(captured) => Ok(found.is_captured(captured.as_slice())),
            Err(_) => Ok(false),
        },
    }
}

/// Returns whether a call gives the result of the plain reader, and leaves what that leaves. A
/// refused capture leaves all octets, and content that `decode` doesn't refuse.
fn is_same<S: Source>(source: &mut S, alloc: Global, way: Way, found: &Found<'_>) -> bool {
    let count = found.octets.len();
    match found
        .mode
        .decode_lent(source, |cons| passes(cons, alloc, way, found))
    {
        Ok(passed) => {
            let left = source.request(count);
            passed == found.size.is_some()
                && left.is_ok_and(|left| count.checked_sub(left) == Some(found.size.unwrap_or(0)))
        }
        Err(_) => found.size.is_none() && !matches!(way, Way::CaptureOne) && count > 0,
    }
}

/// Compares all ways over all sources with what the plain reader finds in these octets.
pub fn compare(
    alloc: Global,
    mode: Mode,
    octets: &[u8],
    tally: &mut Tally,
) -> Result<(), AllocError> {
    let size = size_of(mode, octets);
    let headings = match size {
        Some(size) => headings_of(alloc, mode, octets.get(..size).unwrap_or(octets))?,
        None => Vec::new(alloc),
    };
    let found = Found {
        mode,
        octets,
        size,
        headings,
    };
    if size.is_some() {
        tally.values = tally.values.saturating_add(1);
    } else {
        tally.refused = tally.refused.saturating_add(1);
    }
    for way in WAYS {
        let mut slice = SliceSource::new(octets);
        tally.count(is_same(&mut slice, alloc, way, &found));
        let mut shared = BytesSource::new(Bytes::copy_from_slice(alloc, octets)?);
        tally.count(is_same(&mut shared, alloc, way, &found));
        let mut sip = Sip::new(octets.to_vec(alloc)?, 0);
        tally.count(is_same(&mut sip, alloc, way, &found));
    }
    Ok(())
}
