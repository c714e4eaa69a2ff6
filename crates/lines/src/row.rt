//! Reads lines of steps on content.
use crate::calls::{Answer, answer_of};
use crate::fields::{modes_of, next, number, octets_of};
use anyhow::Error;
use bcder::Mode;
use std::alloc::Global;

/// A step that a word of the data names.
pub trait Step: Drop {
    /// Reads the step that a word names.
    fn of(alloc: Global, word: &str) -> Result<Self, Error>;
}

/// Steps on octets in some modes.
#[derive(Drop)]
pub struct Row<T: Drop> {
    pub modes: Vec<Mode>,
    pub octets: Vec<u8>,

    /// The steps on the content that `enter` enters.
    pub inside: Vec<T>,

    /// The steps at top level.
    pub outside: Vec<T>,

    /// How many octets are left, or how `decode` refuses.
    pub left: Result<usize, Answer>,
}

/// Reads the steps of a field, which are separated by spaces, or none from `-`.
fn steps_of<T: Step>(alloc: Global, field: &str) -> Result<Vec<T>, Error> {
    let mut steps = Vec::new(alloc);
    if field == "-" {
        return Ok(steps);
    }
    for word in field.split(' ') {
        steps.push(T::of(alloc, word)?)?;
    }
    Ok(steps)
}

/// Reads how many octets are left, or how `decode` refuses.
fn left_of(field: &str) -> Result<Result<usize, Answer>, Error> {
    match answer_of(field) {
        Ok(answer) => Ok(Err(answer)),
        Err(_) => Ok(Ok(number(field)?)),
    }
}

/// Reads the row of a line.
pub fn row_of<T: Step>(alloc: Global, line: &str) -> Result<Row<T>, Error> {
    let mut fields = line.split('\t');
    let modes = modes_of(alloc, next(&mut fields)?)?;
    let octets = octets_of(alloc, next(&mut fields)?)?;
    let inside = steps_of(alloc, next(&mut fields)?)?;
    let outside = steps_of(alloc, next(&mut fields)?)?;
    let left = left_of(next(&mut fields)?)?;
    Ok(Row {
        modes,
        octets,
        inside,
        outside,
        left,
    })
}
