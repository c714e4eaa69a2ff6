//! Compares skips: the headings that a closure gets, and the answer.
ghost use Rattle.bcder.specs.calls.Views.{Moved};

use crate::takes::has_left;
use crate::walks::{self, compare_ways, compare_whole};
use anyhow::Error;
use bcder::decode::{BytesSource, Constructed, ContentError, DecodeError, SliceSource, Source};
use bcder::{Mode, Tag};
use bytes::Bytes;
use lines::calls::{Answer, OWN, answer_of, error_kind, tag_of};
use lines::fields::{modes_of, next, number, octets_of};
use lines::tally::{Differing, Tally};
use std::alloc::Global;
use support::sip::Sip;

/// What was compared: the headings that a closure gets, and what the other readers skip.
#[derive(Clone, Copy, Default)]
pub struct Tallies {
    pub told: Tally,
    pub others: walks::Tallies,
}

impl Differing for Tallies {
    fn differ(&self) -> u64 {
        self.told.differ.saturating_add(self.others.differ())
    }
}

/// A line of the data.
#[derive(Drop)]
struct Row<'a> {
    modes: Vec<Mode>,
    octets: Vec<u8>,

    /// The tag that the closure refuses.
    refused: Option<Tag>,

    /// The headings that the closure gets, or `-`.
    headings: &'a str,
    answer: Answer,

    /// How many octets are left, if a value was taken or there was none.
    left: usize,
}

/// Skips the next value, and records the headings that the closure gets.
#[tactic(auto, using(bcder::specs::laws::Moved::steps))]
fn told<S: Source>(
    cons: &mut Constructed<'_, S>,
    alloc: Global,
    refused: Option<Tag>,
    wanted: bool,
    text: &mut String,
) -> Result<Option<()>, DecodeError<S::Error>>
    ensures { Moved S.stream cons }
{
    let mut op = |tag: Tag, constructed: bool, depth: usize| -> Result<(), ContentError> {
        let form = if constructed { 'c' } else { 'p' };
        if write!(text, "{depth}{form} {tag};").is_err() || Some(tag) == refused {
            return Err(ContentError::ExpectedInteger(OWN));
        }
        Ok(())
    };
    if wanted {
        Ok(Some(cons.skip(alloc, &mut op)?))
    } else {
        cons.skip_opt(alloc, &mut op)
    }
}

/// Returns whether `skip_opt`, or `skip` if that is wanted, gives the headings and the answer of a
/// row, and leaves what it says.
fn tells<S: Source>(
    source: &mut S,
    alloc: Global,
    row: &Row<'_>,
    mode: Mode,
    wanted: bool,
) -> bool {
    let mut text = String::new(alloc);
    let refused = row.refused;
    let outcome = mode.decode_lent(source, |cons| told(cons, alloc, refused, wanted, &mut text));
    let is_left = has_left(source.request(row.octets.len()), row.left);
    let same = match outcome {
        Ok(Some(())) => row.answer == Answer::Taken && is_left,
        Ok(None) => row.answer == Answer::Absent && is_left,
        Err(error) => {
            let answer = error_kind(&error, Tag::END_OF_VALUE);
            answer == row.answer
                || (answer == Answer::Static && row.answer == Answer::Absent && wanted)
        }
    };
    let is_told = if row.headings == "-" {
        text.as_str().is_empty()
    } else {
        text.as_str() == row.headings
    };
    same && is_told
}

/// Compares the headings of `skip_opt` and `skip`, each over a new source.
fn compare_told(alloc: Global, row: &Row<'_>, mode: Mode, tally: &mut Tally) -> Result<(), Error> {
    for wanted in [false, true] {
        let mut slice = SliceSource::new(&row.octets);
        tally.count(tells(&mut slice, alloc, row, mode, wanted));
        let mut shared = BytesSource::new(Bytes::copy_from_slice(alloc, &row.octets)?);
        tally.count(tells(&mut shared, alloc, row, mode, wanted));
        let mut sip = Sip::new(row.octets.clone()?, 0);
        tally.count(tells(&mut sip, alloc, row, mode, wanted));
    }
    Ok(())
}

/// Compares what the other readers skip.
fn compare_others(
    alloc: Global,
    row: &Row<'_>,
    mode: Mode,
    tallies: &mut walks::Tallies,
) -> Result<(), Error> {
    let count = row.octets.len();
    match row.answer {
        Answer::Taken => {
            let size = count.checked_sub(row.left);
            if row.left == 0 {
                compare_whole(alloc, mode, &row.octets, size, tallies)?;
            } else {
                compare_ways(alloc, mode, &row.octets, size, tallies)?;
            }
        }
        Answer::Static => compare_whole(alloc, mode, &row.octets, None, tallies)?,
        _ => {}
    }
    Ok(())
}

fn row_of<'a>(alloc: Global, line: &'a str) -> Result<Row<'a>, Error> {
    let mut fields = line.split('\t');
    let modes = modes_of(alloc, next(&mut fields)?)?;
    let octets = octets_of(alloc, next(&mut fields)?)?;
    let refused = match next(&mut fields)? {
        "-" => None,
        word => Some(tag_of(word)?),
    };
    let headings = next(&mut fields)?;
    let answer = answer_of(next(&mut fields)?)?;
    let left = number(next(&mut fields)?)?;
    Ok(Row {
        modes,
        octets,
        refused,
        headings,
        answer,
        left,
    })
}

/// Compares a line in its modes.
pub fn compare_line(alloc: Global, line: &str, tallies: &mut Tallies) -> Result<(), Error> {
    let row = row_of(alloc, line)?;
    for mode in &row.modes {
        compare_told(alloc, &row, *mode, &mut tallies.told)?;
        compare_others(alloc, &row, *mode, &mut tallies.others)?;
    }
    Ok(())
}
