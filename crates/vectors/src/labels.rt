//! Compares the mode that a capture is labelled with, if the mode is changed inside it.
ghost use Rattle.bcder.specs.calls.Views.{Moved, MovedOctets};

use crate::captures::label_of;
use anyhow::Error;
use bcder::decode::{BytesSource, Constructed, DecodeError, Primitive, SliceSource, Source};
use bcder::{Mode, Tag};
use bytes::Bytes;
use lines::fields::{find, mode_of, modes_of, next, octets_of};
use lines::tally::Tally;
use std::alloc::Global;
use support::sip::Sip;

/// The content whose mode is set, of an INTEGER in a SEQUENCE in a SEQUENCE.
#[derive(Clone, Copy, PartialEq, Eq)]
enum Place {
    /// The content of the capture itself.
    Around,

    /// The content of the outer SEQUENCE.
    Outer,

    /// The content of the inner SEQUENCE.
    Inner,

    /// The content of the INTEGER.
    Primitive,
}

/// The words for the places.
const PLACES: [(&str, Place); 4] = [
    ("around", Place::Around),
    ("outer", Place::Outer),
    ("inner", Place::Inner),
    ("primitive", Place::Primitive),
];

/// The modes that are set at a place, one after the other.
#[derive(Clone, Copy)]
struct Change {
    place: Place,
    first: Mode,
    second: Mode,
}

/// Sets the modes of values, if they are the place.
#[tactic(auto, using(bcder::specs::laws::Moved::steps))]
fn set_modes<S: Source>(cons: &mut Constructed<'_, S>, change: Change, place: Place)
    ensures { Moved S.stream cons }
{
    if change.place == place {
        cons.set_mode(change.first);
        cons.set_mode(change.second);
    }
}

/// Skips the octets of the INTEGER.
fn pass_octets<S: Source>(
    octets: &mut Primitive<'_, S>,
    change: Change,
) -> Result<(), DecodeError<S::Error>>
    ensures { MovedOctets S.stream octets }
{
    if change.place == Place::Primitive {
        octets.set_mode(change.first);
        octets.set_mode(change.second);
    }
    octets.skip_all()
}

/// Skips what is in the inner SEQUENCE.
fn pass_inner<S: Source>(
    cons: &mut Constructed<'_, S>,
    change: Change,
) -> Result<(), DecodeError<S::Error>>
    ensures { Moved S.stream cons }
{
    set_modes(cons, change, Place::Inner);
    cons.take_primitive_if(Tag::INTEGER, |octets| pass_octets(octets, change))
}

/// Skips what is in the outer SEQUENCE.
fn pass_outer<S: Source>(
    cons: &mut Constructed<'_, S>,
    change: Change,
) -> Result<(), DecodeError<S::Error>>
    ensures { Moved S.stream cons }
{
    set_modes(cons, change, Place::Outer);
    cons.take_sequence(|inner| pass_inner(inner, change))
}

/// Skips the outer SEQUENCE.
fn pass_around<S: Source>(
    cons: &mut Constructed<'_, S>,
    change: Change,
) -> Result<(), DecodeError<S::Error>>
    ensures { Moved S.stream cons }
{
    set_modes(cons, change, Place::Around);
    cons.take_sequence(|outer| pass_outer(outer, change))
}

/// A line of the data.
#[derive(Drop)]
struct Row {
    modes: Vec<Mode>,
    octets: Vec<u8>,
    change: Change,

    /// The mode that the capture is labelled with.
    label: Mode,
}

/// Returns whether all octets are captured with this mode, and the content keeps its own.
#[tactic(auto, using(bcder::specs::laws::Moved::steps))]
fn is_labelled<S: Source>(
    cons: &mut Constructed<'_, S>,
    alloc: Global,
    row: &Row,
    mode: Mode,
) -> bool
    ensures { Moved S.stream cons }
{
    let change = row.change;
    match cons.capture(alloc, |inner| pass_around(inner, change)) {
        Ok(captured) => {
            cons.mode() == mode
                && captured.as_slice() == row.octets.as_slice()
                && label_of(captured) == Some(row.label)
        }
        Err(_) => false,
    }
}

/// Returns whether all octets are captured with this mode over a source, and the content keeps its
/// own.
fn is_labelled_over<S: Source>(source: &mut S, alloc: Global, row: &Row, mode: Mode) -> bool {
    matches!(
        mode.decode_lent(source, |cons| Ok(is_labelled(cons, alloc, row, mode))),
        Ok(true)
    )
}

fn row_of(alloc: Global, line: &str) -> Result<Row, Error> {
    let mut fields = line.split('\t');
    let modes = modes_of(alloc, next(&mut fields)?)?;
    let octets = octets_of(alloc, next(&mut fields)?)?;
    let place = find(&PLACES, next(&mut fields)?)?;
    let first = mode_of(next(&mut fields)?)?;
    let second = mode_of(next(&mut fields)?)?;
    let label = mode_of(next(&mut fields)?)?;
    Ok(Row {
        modes,
        octets,
        change: Change {
            place,
            first,
            second,
        },
        label,
    })
}

/// Compares a line in its modes, over three sources.
pub fn compare_line(alloc: Global, line: &str, tally: &mut Tally) -> Result<(), Error> {
    let row = row_of(alloc, line)?;
    for mode in &row.modes {
        let mut slice = SliceSource::new(&row.octets);
        tally.count(is_labelled_over(&mut slice, alloc, &row, *mode));
        let mut shared = BytesSource::new(Bytes::copy_from_slice(alloc, &row.octets)?);
        tally.count(is_labelled_over(&mut shared, alloc, &row, *mode));
        let mut sip = Sip::new(row.octets.clone()?, 0);
        tally.count(is_labelled_over(&mut sip, alloc, &row, *mode));
    }
    Ok(())
}
