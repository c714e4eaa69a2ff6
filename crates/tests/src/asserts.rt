//! Assertions of the tests. Each is a call, so that a test isn't proved along both ways out of it.
//! None returns an error: a test that went on with `?` after one would be proved once more for each
//! `?`, with all that it owns there. [`done`] ends the test instead.
//!
//! A table is walked by one loop. Its assertions are those of a [`Case`], which name the row.
ghost use Rattle.std.specs.Prelude.{◌≡◌, ◌≤◌, Ok};

use bcder::decode::DecodeError;
use std::alloc::Global;
use std::fmt::{Debug, Display};
use std::process::Abort;

/// Asserts that the value is the wanted one.
pub fn same<T: PartialEq + Debug + Drop>(rt: &impl Abort, found: T, wanted: T) {
    assert_eq!(rt; found, wanted);
}

/// Asserts that `fact` is true.
pub fn holds(rt: &impl Abort, fact: bool) {
    assert!(rt; fact);
}

/// Returns the result of a call that must not be refused.
pub fn done<T, E: Debug>(rt: &impl Abort, outcome: Result<T, E>) -> T
    ensures { outcome ≡ Ok result }
{
    outcome.expect(rt, "refused")
}

/// Asserts that the value is shown as this text.
pub fn shows<T: Display>(rt: &impl Abort, alloc: Global, value: &T, text: &str) {
    let shown = done(rt, format!(in alloc; "{value}"));
    assert_eq!(rt; shown.as_str(), text);
}

/// Returns whether a call was refused for the content.
pub fn is_refused<T: Drop, E: Drop>(outcome: Result<T, DecodeError<E>>) -> bool {
    match outcome {
        Ok(_) => false,
        Err(error) => error.content_error().is_some(),
    }
}

/// Returns whether a call was refused since the source failed.
pub fn is_failed<T: Drop, E: Drop>(outcome: Result<T, DecodeError<E>>) -> bool {
    match outcome {
        Ok(_) => false,
        Err(error) => error.is_source(),
    }
}

/// A row of a table, by its number from 0 on, and what it is checked over.
#[derive(Drop)]
pub struct Case<'a, R> {
    pub rt: &'a R,
    pub alloc: Global,
    row: usize,
    over: &'static str,
}

impl<'a, R: Abort> Case<'a, R> {
    /// Creates the case of a row.
    pub fn new(rt: &'a R, alloc: Global, row: usize) -> Case<'a, R> {
        Case::over(rt, alloc, row, "no source")
    }

    /// Creates the case of a row that is checked over this kind of source.
    pub fn over(rt: &'a R, alloc: Global, row: usize, over: &'static str) -> Case<'a, R> {
        Case {
            rt,
            alloc,
            row,
            over,
        }
    }

    /// Asserts that the value is the wanted one.
    pub fn same<T: PartialEq + Debug + Drop>(&self, found: T, wanted: T) {
        assert_eq!(self.rt; found, wanted, "row {}, over {}", self.row, self.over);
    }

    /// Asserts that `fact` is true.
    pub fn holds(&self, fact: bool) {
        assert!(self.rt; fact, "row {}, over {}", self.row, self.over);
    }

    /// Asserts that `fact` is true of the step with this number.
    pub fn at(&self, step: usize, fact: bool) {
        assert!(self.rt; fact, "row {}, over {}, step {}", self.row, self.over, step);
    }

    /// Asserts that a number is the wanted one, for the proof too.
    pub fn are(&self, found: usize, wanted: usize)
        ensures { found ≡ wanted }
    {
        assert_eq!(self.rt; found, wanted, "row {}, over {}", self.row, self.over);
    }

    /// Asserts that a number isn't less than the wanted one, for the proof too.
    pub fn at_least(&self, found: usize, wanted: usize)
        ensures { wanted ≤ found }
    {
        assert!(self.rt; found >= wanted, "row {}, over {}", self.row, self.over);
    }

    /// Returns the result of a call that must not be refused.
    pub fn done<T, E: Debug>(&self, outcome: Result<T, E>) -> T
        ensures { outcome ≡ Ok result }
    {
        match outcome {
            Ok(value) => value,
            Err(error) => panic!(self.rt; "row {}, over {}: {error:?}", self.row, self.over),
        }
    }

    /// Asserts that the value is shown as this text.
    pub fn shows<T: Display>(&self, value: &T, text: &str) {
        let shown = self.done(format!(in self.alloc; "{value}"));
        assert_eq!(self.rt;
            shown.as_str(),
            text,
            "row {}, over {}",
            self.row,
            self.over
        );
    }
}
