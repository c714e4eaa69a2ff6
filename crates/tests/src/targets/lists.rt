//! Encoders of lists of values, of constructed values, and of one of several values.
#![tactic(auto, using(bcder::specs::laws::Listed::gives_one_list))]

use super::put;
use super::tuples::write_tuple;
use crate::asserts::done;
use bcder::captured::CapturedBuilder;
use bcder::encode::{
    Choice2, Choice3, Constructed, Nothing, Primitive, PrimitiveContent, Values, WriteError, iter,
    sequence, sequence_as, set, set_as, slice,
};
use bcder::{Captured, Mode, Tag};
use std::alloc::Global;
use std::io;
use std::process::Abort;

/// A list of values, a constructed value, or one of several.
#[derive(Clone, Copy)]
pub enum Listed {
    Sequence,
    SequenceAs,
    Set,
    SetAs,
    Explicit,
    Constructed,
    Deep,
    Tuple(usize),
    Vec,
    Slice,
    Mapped,
    Iter,
    IterInside,
    Reference,
    Some,
    None,
    Nothing,
    FirstOfTwo,
    SecondOfTwo,
    FirstOfThree,
    SecondOfThree,
    ThirdOfThree,
    Captured,
    CapturedRef,
    Built,
}

/// The numbers of three INTEGERs.
const NUMBERS: [u8; 3] = [1, 2, 3];

/// Writes a constructed value.
fn write_constructed<W: io::Write>(
    listed: Listed,
    mode: Mode,
    target: &mut W,
) -> Result<(), WriteError> {
    let values = (true.encode(), 5u8.encode());
    match listed {
        Listed::SequenceAs => put(&sequence_as(Tag::CTX_3, values), mode, target),
        Listed::Set => put(&set(values), mode, target),
        Listed::SetAs => put(&set_as(Tag::CTX_3, values), mode, target),
        Listed::Explicit => put(&values.explicit(Tag::CTX_3), mode, target),
        Listed::Constructed => put(&Constructed::new(Tag::CTX_3, values), mode, target),
        Listed::Deep => {
            let deep = sequence((set(Nothing), sequence(sequence(values))));
            put(&deep, mode, target)
        }
        _ => put(&sequence(values), mode, target),
    }
}

/// Writes three INTEGERs.
fn write_numbers<W: io::Write>(
    rt: &impl Abort,
    alloc: Global,
    listed: Listed,
    mode: Mode,
    target: &mut W,
) -> Result<(), WriteError> {
    let encoders = [1u8.encode(), 2u8.encode(), 3u8.encode()];
    match listed {
        Listed::Vec => {
            let list = done(rt, encoders.to_vec(alloc));
            put(&list, mode, target)
        }
        Listed::Slice => put(&encoders.as_slice(), mode, target),
        Listed::Mapped => put(&slice(NUMBERS, |x: &u8| (*x).encode()), mode, target),
        Listed::Iter => put(&iter(encoders.iter()), mode, target),
        Listed::IterInside => put(&sequence(iter(encoders.iter())), mode, target),
        _ => put(&&encoders.as_slice(), mode, target),
    }
}

/// A BOOLEAN or an INTEGER.
type Either = Choice2<Primitive<bool>, Primitive<u8>>;

/// A BOOLEAN, an INTEGER or a NULL.
type OneOfThree = Choice3<Primitive<bool>, Primitive<u8>, Primitive<()>>;

/// Writes what may be there, or one of several.
fn write_choice<W: io::Write>(
    listed: Listed,
    mode: Mode,
    target: &mut W,
) -> Result<(), WriteError> {
    match listed {
        Listed::Some => put(&Some(5u8.encode()), mode, target),
        Listed::None => put(&None::<Primitive<u8>>, mode, target),
        Listed::FirstOfTwo => {
            let choice: Either = Choice2::One(true.encode());
            put(&choice, mode, target)
        }
        Listed::SecondOfTwo => {
            let choice: Either = Choice2::Two(5u8.encode());
            put(&choice, mode, target)
        }
        _ => put(&Nothing, mode, target),
    }
}

/// Writes one of three.
fn write_one_of_three<W: io::Write>(
    listed: Listed,
    mode: Mode,
    target: &mut W,
) -> Result<(), WriteError> {
    let choice: OneOfThree = match listed {
        Listed::FirstOfThree => Choice3::One(true.encode()),
        Listed::SecondOfThree => Choice3::Two(5u8.encode()),
        _ => Choice3::Three(().encode()),
    };
    put(&choice, mode, target)
}

/// Captures an INTEGER and a NULL, in a mode.
fn kept(rt: &impl Abort, alloc: Global, mode: Mode) -> Captured {
    let mut builder = CapturedBuilder::new(alloc, mode);
    done(rt, builder.extend(5u8.encode()));
    done(rt, builder.extend(().encode()));
    done(rt, builder.freeze())
}

/// Writes captured values, in the mode that they were captured in, and in BER.
fn write_captured<W: io::Write>(
    rt: &impl Abort,
    alloc: Global,
    listed: Listed,
    mode: Mode,
    target: &mut W,
) -> Result<(), WriteError> {
    match listed {
        Listed::Captured => {
            let values = done(rt, (5u8.encode(), ().encode()).to_captured(alloc, mode));
            put(&values, mode, target)
        }
        Listed::CapturedRef => {
            let values = kept(rt, alloc, mode);
            put(&sequence(&values), mode, target)
        }
        _ => put(&kept(rt, alloc, Mode::Der), mode, target),
    }
}

/// Writes a list, a constructed value, or one of several.
pub fn write_listed<W: io::Write>(
    rt: &impl Abort,
    alloc: Global,
    listed: Listed,
    mode: Mode,
    target: &mut W,
) -> Result<(), WriteError> {
    match listed {
        Listed::Tuple(count) => write_tuple(count, mode, target),
        Listed::Vec
        | Listed::Slice
        | Listed::Mapped
        | Listed::Iter
        | Listed::IterInside
        | Listed::Reference => write_numbers(rt, alloc, listed, mode, target),
        Listed::FirstOfThree | Listed::SecondOfThree | Listed::ThirdOfThree => {
            write_one_of_three(listed, mode, target)
        }
        Listed::Some | Listed::None | Listed::Nothing | Listed::FirstOfTwo | Listed::SecondOfTwo =>
            write_choice(listed, mode, target),
        Listed::Captured | Listed::CapturedRef | Listed::Built => {
            write_captured(rt, alloc, listed, mode, target)
        }
        _ => write_constructed(listed, mode, target),
    }
}
