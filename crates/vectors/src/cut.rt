//! Cuts values: no reader finds a value in a proper prefix of one.
ghost use Rattle.bcder.specs.calls.Views.{Moved, MovedContent, MovedOctets};

use anyhow::Error;
use bcder::decode::{
    BytesSource, Constructed, Content, DecodeError, Primitive, SliceSource, Source,
};
use bcder::string::{Ia5String, NumericString, PrintableString};
use bcder::{Mode, Tag};
use bytes::Bytes;
use lines::fields::{modes_of, next, octets_of};
use lines::tally::Tally;
use std::alloc::{AllocError, Global};
use support::calls::{
    Answer, Call, Capture, Inside, Kept, Pass, Reader as Octets, Take, Text, Typed, Width, ask,
    take_by,
};
use support::sip::Sip;

/// A reader of the next value.
#[derive(Clone, Copy)]
enum Reader {
    /// A call of `support`.
    Call(Call),

    /// A call that takes a value by a closure, which skips what is inside.
    Take(Take),
    NumericString,
    PrintableString,
    Ia5String,
}

/// The readers of any value.
const OF_ALL: [Reader; 7] = [
    Reader::Call(Call::Pass(Pass::Walk)),
    Reader::Call(Call::Pass(Pass::SkipOne)),
    Reader::Call(Call::Pass(Pass::SkipOpt)),
    Reader::Call(Call::Pass(Pass::SkipAll)),
    Reader::Call(Call::Capture(Capture::One)),
    Reader::Call(Call::Capture(Capture::All)),
    Reader::Take(Take::Value),
];

/// The readers of values of one form or tag.
const OF_SOME: [Reader; 20] = [
    Reader::Take(Take::Primitive),
    Reader::Take(Take::Constructed),
    Reader::Take(Take::Sequence),
    Reader::Take(Take::Set),
    Reader::Call(Call::Typed(Typed::Bool)),
    Reader::Call(Call::Typed(Typed::Null)),
    Reader::Call(Call::Typed(Typed::U8)),
    Reader::Call(Call::Read(Octets::Signed(Width::W64))),
    Reader::Call(Call::Typed(Typed::SkipU8If(5))),
    Reader::Call(Call::Kept(Kept::Integer)),
    Reader::Call(Call::Kept(Kept::Unsigned)),
    Reader::Call(Call::Kept(Kept::Identifier)),
    Reader::Call(Call::Kept(Kept::SkipIdentifier)),
    Reader::Call(Call::Text(Text::Bits)),
    Reader::Call(Call::Text(Text::SkipBits)),
    Reader::Call(Call::Text(Text::Octets)),
    Reader::Call(Call::Text(Text::Characters)),
    Reader::NumericString,
    Reader::PrintableString,
    Reader::Ia5String,
];

/// Skips what is inside a value.
#[derive(Clone, Copy)]
struct Whole(Global);

impl Inside for Whole {
    fn of_content<S: Source>(
        &mut self,
        tag: Tag,
        content: &mut Content<'_, S>,
    ) -> Result<u8, DecodeError<S::Error>> {
        match content {
            Content::Primitive(octets) => self.of_octets(tag, octets),
            Content::Constructed(values) => self.of_values(tag, values),
        }
    }

    fn of_octets<S: Source>(
        &mut self,
        _tag: Tag,
        octets: &mut Primitive<'_, S>,
    ) -> Result<u8, DecodeError<S::Error>> {
        octets.skip_all()?;
        Ok(0)
    }

    fn of_values<S: Source>(
        &mut self,
        _tag: Tag,
        values: &mut Constructed<'_, S>,
    ) -> Result<u8, DecodeError<S::Error>> {
        values.skip_all(self.0)?;
        Ok(0)
    }
}

/// Takes a string of characters, and returns the number of its octets.
fn take_string<S: Source>(
    cons: &mut Constructed<'_, S>,
    alloc: Global,
    reader: Reader,
) -> Result<usize, DecodeError<S::Error>>
    ensures { Moved S.stream cons }
{
    match reader {
        Reader::NumericString => Ok(NumericString::take_from(alloc, cons)?.len()),
        Reader::PrintableString => Ok(PrintableString::take_from(alloc, cons)?.len()),
        _ => Ok(Ia5String::take_from(alloc, cons)?.len()),
    }
}

/// Reads the next value, and returns whether there is one.
fn read<S: Source>(
    cons: &mut Constructed<'_, S>,
    alloc: Global,
    reader: Reader,
) -> Result<bool, DecodeError<S::Error>>
    ensures { Moved S.stream cons }
{
    match reader {
        Reader::Call(call) => Ok(ask(cons, alloc, call)? != Answer::Absent),
        Reader::Take(take) => {
            Ok(take_by(cons, take, Tag::SEQUENCE, &mut Whole(alloc))?.is_some())
        }
        _ => {
            take_string(cons, alloc, reader)?;
            Ok(true)
        }
    }
}

/// Returns whether a value is read if one is wanted, or else is refused, for the octets and for
/// nothing else.
#[tactic(auto, using(bcder::specs::laws::Moved::steps))]
fn is_read<S: Source>(
    source: &mut S,
    alloc: Global,
    mode: Mode,
    reader: Reader,
    wanted: bool,
) -> bool {
    match mode.decode_lent(source, |cons| read(cons, alloc, reader)) {
        Ok(found) => found == wanted,
        Err(error) => !wanted && error.content_error().is_some(),
    }
}

/// Compares whether readers read a value, over three sources.
fn compare(
    alloc: Global,
    mode: Mode,
    readers: &[Reader],
    octets: &[u8],
    wanted: bool,
    tally: &mut Tally,
) -> Result<(), AllocError> {
    let all = Bytes::copy_from_slice(alloc, octets)?;
    for reader in readers {
        let mut slice = SliceSource::new(octets);
        tally.count(is_read(&mut slice, alloc, mode, *reader, wanted));
        let mut shared = BytesSource::new(all.clone()?);
        tally.count(is_read(&mut shared, alloc, mode, *reader, wanted));
        let mut sip = Sip::new(octets.to_vec(alloc)?, 0);
        tally.count(is_read(&mut sip, alloc, mode, *reader, wanted));
    }
    Ok(())
}

/// Compares that a value is read, and that no reader finds one in a proper prefix of it.
fn compare_value(
    alloc: Global,
    mode: Mode,
    value: &[u8],
    tally: &mut Tally,
) -> Result<(), AllocError> {
    compare(alloc, mode, &OF_ALL, value, true, tally)?;
    for size in 1..value.len() {
        let front = value.get(..size).unwrap_or(value);
        compare(alloc, mode, &OF_ALL, front, false, tally)?;
        compare(alloc, mode, &OF_SOME, front, false, tally)?;
    }
    Ok(())
}

/// Compares each value of octets, as the plain reader finds them one after the other.
fn compare_values(
    alloc: Global,
    mode: Mode,
    octets: &[u8],
    tally: &mut Tally,
) -> Result<(), AllocError> {
    let mut rest = octets;
    for _ in 0..octets.len() {
        let Some(behind) = bcder::plain::skip_one(mode, rest) else {
            break;
        };
        let size = rest.len().saturating_sub(behind.len());
        compare_value(alloc, mode, rest.get(..size).unwrap_or(rest), tally)?;
        rest = behind;
    }
    Ok(())
}

/// Compares the readers on the values of a line that begins with octets, in each mode.
pub fn compare_octets(alloc: Global, line: &str, tally: &mut Tally) -> Result<(), Error> {
    let octets = octets_of(alloc, next(&mut line.split('\t'))?)?;
    for mode in [Mode::Ber, Mode::Cer, Mode::Der] {
        compare_values(alloc, mode, &octets, tally)?;
    }
    Ok(())
}

/// Compares the readers on the values of a line that begins with modes, in these modes.
pub fn compare_line(alloc: Global, line: &str, tally: &mut Tally) -> Result<(), Error> {
    let mut fields = line.split('\t');
    let modes = modes_of(alloc, next(&mut fields)?)?;
    let octets = octets_of(alloc, next(&mut fields)?)?;
    for mode in &modes {
        compare_values(alloc, *mode, &octets, tally)?;
    }
    Ok(())
}
