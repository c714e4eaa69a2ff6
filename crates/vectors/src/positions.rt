//! Compares the position at which content says that it is refused.
ghost use Rattle.bcder.specs.calls.Views.{Moved, MovedContent, MovedOctets};

use crate::takes::{use_content, use_octets};
use anyhow::Error;
use bcder::decode::{
    BytesSource, Constructed, Content, ContentError, DecodeError, Pos, Primitive, SliceSource,
    Source,
};
use bcder::{Mode, Tag};
use bytes::Bytes;
use lines::calls::Use;
use lines::fields::{find, next, number, octets_of};
use lines::tally::Tally;
use std::alloc::{AllocError, Global};
use support::calls::{Inside, Take, take_by};
use support::sip::Sip;

/// The content whose `content_err` is called.
#[derive(Clone, Copy)]
enum Whose {
    /// The values at top level.
    Outside,

    /// The content of the next value.
    Content,

    /// The octets inside the next value, which is primitive.
    Primitive,

    /// The values inside the next value, which is constructed.
    Constructed,
}

/// The words for this content.
const WHOSE: [(&str, Whose); 4] = [
    ("outside", Whose::Outside),
    ("content", Whose::Content),
    ("primitive", Whose::Primitive),
    ("constructed", Whose::Constructed),
];

/// A line of the data.
#[derive(Drop)]
struct Row {
    /// The position where the source begins.
    offset: usize,
    octets: Vec<u8>,

    /// How many values are taken at top level, before content is asked.
    before: usize,
    whose: Whose,

    /// How many values are taken inside, or whether octets are.
    inside: usize,

    /// The position that the error has.
    position: usize,
}

/// Takes this number of values.
fn take_some<S: Source>(
    cons: &mut Constructed<'_, S>,
    count: usize,
) -> Result<(), DecodeError<S::Error>>
    ensures { Moved S.stream cons }
{
    'values: for _ in 0..count {
        cons.take_value(|_, content| use_content(content, true, Use::Pass))?;
    }
    Ok(())
}

/// Refuses what is inside a value, after taking this number of the values there. All octets are
/// skipped first, or all content of either form, if it isn't 0.
#[derive(Clone, Copy)]
struct Refusing(usize);

impl Inside for Refusing {
    fn of_content<S: Source>(
        &mut self,
        _tag: Tag,
        content: &mut Content<'_, S>,
    ) -> Result<u8, DecodeError<S::Error>> {
        if self.0 > 0 {
            use_content(content, true, Use::Pass)?;
        }
        Err(content.content_err(ContentError::from_static("bad")))
    }

    fn of_octets<S: Source>(
        &mut self,
        _tag: Tag,
        octets: &mut Primitive<'_, S>,
    ) -> Result<u8, DecodeError<S::Error>> {
        if self.0 > 0 {
            use_octets(octets, true, Use::Pass)?;
        }
        Err(Primitive::content_err(octets, ContentError::from_static("bad")))
    }

    fn of_values<S: Source>(
        &mut self,
        _tag: Tag,
        values: &mut Constructed<'_, S>,
    ) -> Result<u8, DecodeError<S::Error>> {
        take_some(values, self.0)?;
        Err(values.content_err(ContentError::from_static("bad")))
    }
}

/// Refuses the content of a row with the text `bad`.
fn refuse<S: Source>(
    cons: &mut Constructed<'_, S>,
    whose: Whose,
    inside: usize,
) -> Result<(), DecodeError<S::Error>>
    ensures { Moved S.stream cons }
{
    let take = match whose {
        Whose::Outside => return Err(cons.content_err(ContentError::from_static("bad"))),
        Whose::Content => Take::Value,
        Whose::Primitive => Take::Primitive,
        Whose::Constructed => Take::Constructed,
    };
    take_by(cons, take, Tag::SEQUENCE, &mut Refusing(inside))?;
    Ok(())
}

/// Takes values at top level, and refuses.
fn take_and_refuse<S: Source>(
    cons: &mut Constructed<'_, S>,
    row: &Row,
) -> Result<(), DecodeError<S::Error>>
    ensures { Moved S.stream cons }
{
    take_some(cons, row.before)?;
    refuse(cons, row.whose, row.inside)
}

/// Returns whether a source that begins at the offset gives this error, with its text and its
/// position.
fn is_refused<S: Source>(alloc: Global, source: &mut S, row: &Row) -> Result<bool, AllocError> {
    match Mode::Ber.decode_lent(source, |cons| take_and_refuse(cons, row)) {
        Ok(_) => Ok(false),
        Err(error) => {
            let shown = format!(in alloc; "{error}")?;
            let wanted = format!(in alloc; "bad (at position {})", row.position)?;
            Ok(shown.as_str() == wanted.as_str())
        }
    }
}

/// Returns the octets of a row after as many others as its offset says.
fn behind_others(alloc: Global, row: &Row) -> Result<Vec<u8>, AllocError> {
    let mut all = Vec::new(alloc);
    for _ in 0..row.offset {
        all.push(0)?;
    }
    all.extend_from_slice(&row.octets)?;
    Ok(all)
}

/// Returns whether a source that has skipped its first octets gives this error.
fn is_refused_behind<S: Source>(
    alloc: Global,
    source: &mut S,
    row: &Row,
) -> Result<bool, AllocError> {
    match source.skip(row.offset) {
        Ok(_) => is_refused(alloc, source, row),
        Err(_) => Ok(false),
    }
}

fn row_of(alloc: Global, line: &str) -> Result<Row, Error> {
    let mut fields = line.split('\t');
    let offset = number(next(&mut fields)?)?;
    let octets = octets_of(alloc, next(&mut fields)?)?;
    let before = number(next(&mut fields)?)?;
    let whose = find(&WHOSE, next(&mut fields)?)?;
    let inside = number(next(&mut fields)?)?;
    let position = number(next(&mut fields)?)?;
    Ok(Row {
        offset,
        octets,
        before,
        whose,
        inside,
        position,
    })
}

/// Compares the position of a line over four sources.
pub fn compare_line(alloc: Global, line: &str, tally: &mut Tally) -> Result<(), Error> {
    let row = row_of(alloc, line)?;
    let shared = Bytes::copy_from_slice(alloc, &row.octets)?;
    let mut offset = BytesSource::with_offset(shared, Pos::from(row.offset));
    tally.count(is_refused(alloc, &mut offset, &row)?);
    let all = behind_others(alloc, &row)?;
    tally.count(is_refused_behind(alloc, &mut SliceSource::new(&all), &row)?);
    let shared = Bytes::copy_from_slice(alloc, &all)?;
    tally.count(is_refused_behind(alloc, &mut BytesSource::new(shared), &row)?);
    tally.count(is_refused_behind(alloc, &mut Sip::new(all, 0), &row)?);
    Ok(())
}
