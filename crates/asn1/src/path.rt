//! Where in a value of a type something was refused.
ghost use Rattle.std.specs.Prelude.{◌≡◌, false, [], Some};
ghost use Rattle.std.specs.List.{list_any};
ghost use Rattle.std.specs.Fmt.{DisplaysOnOk, WritesOnOk};
ghost use Rattle.asn1.specs.Paths.{IsSettled, is_shown_step, shows_nothing, knows_expected};
ghost use Rattle.asn1.specs.Paths.{step_text, steps_text, path_text, tags_text, expected_text};
ghost use Rattle.asn1.specs.Paths.{place_text, reason_text};

use crate::{Part, Trace};
use bcder::Tag;
use bcder::decode::ContentError;
use bytes::ByteStr;
use std::alloc::Global;
use std::fmt;

/// A step from a value to a part of it.
#[derive(Debug, Drop)]
enum Step {
    /// To the field or alternative with this name.
    Named(ByteStr),
    /// To this field, from 0.
    Field(usize),
    /// To this value of a list, from 0.
    Item(usize),
    /// To the first type of a CHOICE of two.
    First,
    /// To the second type of a CHOICE of two.
    Second,
}

/// Where in a value of a type something was refused, as `Certificate.tbs.validity.not_after`.
///
/// Fields without names are shown by their number, from 0, as `.2`, and values of a list as `[5]`.
#[derive(Debug, Drop)]
pub struct Path {
    name: ByteStr,
    /// From the innermost step outwards.
    steps: Vec<Step>,
    /// The tags of which one was expected.
    expected: Vec<Tag>,
    /// Whether a value of any type was expected.
    any_expected: bool,
    /// Whether memory ran out for a step.
    is_cut: bool,
}

impl Path {
    /// The path to a whole value of the type with this name.
    pub(crate) fn new(alloc: Global, name: &'static str) -> Path
        ensures name { result.name ≡ name.now }
        ensures steps { result.steps.items ≡ [] }
        ensures expected { result.expected.items ≡ [] }
        ensures any { result.any_expected ≡ false }
        ensures cut { result.is_cut ≡ false }
    {
        Path {
            name: ByteStr::from_static(name),
            steps: Vec::new(alloc),
            expected: Vec::new(alloc),
            any_expected: false,
            is_cut: false,
        }
    }

    /// Returns whether it shows nothing: neither a type nor a part.
    pub(crate) fn is_empty(&self) -> bool
        ensures { result ≡ shows_nothing self.now }
    {
        self.name.is_empty() && !self.has_shown_step()
    }

    /// Returns whether a step is shown.
    fn has_shown_step(&self) -> bool
        ensures { result ≡ list_any is_shown_step self.now.steps.items }
    {
        self.steps.iter().any(|step| is_shown(step))
    }

    /// Counts so many fields in front of that to which it leads.
    fn pass_fields(&mut self, count: usize) {
        if let Some(Step::Field(index)) = self.steps.last_mut() {
            *index = index.saturating_add(count);
        }
    }

    /// Leads to the value itself, if it led to its only field.
    fn drop_field(&mut self) {
        if self.last_field().is_some() {
            let _ = self.steps.pop();
        }
    }

    /// Adds the step to the part, from the value that holds it.
    fn step(&mut self, step: Step) {
        if self.steps.push(step).is_err() {
            self.is_cut = true;
        }
    }

    /// Returns the field to which the outermost step leads, if it has no name.
    fn last_field(&self) -> Option<usize> {
        match self.steps.last() {
            Some(Step::Field(index)) => Some(*index),
            _ => None,
        }
    }

    /// Returns whether the outermost step leads to an alternative.
    fn is_in_choice(&self) -> bool {
        match self.steps.last() {
            Some(step) => !is_shown(step),
            None => false,
        }
    }

    /// Returns whether the outermost step leads to the second type of a CHOICE of two.
    fn is_in_second(&self) -> bool {
        match self.steps.last() {
            Some(Step::Second) => true,
            _ => false,
        }
    }

    /// Names the alternative of a CHOICE that has as many as there are names.
    fn name_choice(&mut self, names: &'static [&'static str]) {
        let mut index: usize = 0;
        for _ in 1..names.len() {
            if self.is_in_second() {
                let _ = self.steps.pop();
                index = index.saturating_add(1);
            }
        }
        if index.saturating_add(1) < names.len() {
            let _ = self.steps.pop();
        }
        if index < names.len() {
            self.step(Step::Named(ByteStr::from_static(names[index])));
        }
    }

    /// Puts a name in the place of the outermost step, if there is one.
    fn rename(&mut self, names: &'static [&'static str], index: usize) {
        if index < names.len() {
            let _ = self.steps.pop();
            self.step(Step::Named(ByteStr::from_static(names[index])));
        }
    }

    /// Notes that a value with this tag was expected.
    fn expect(&mut self, tag: Tag) {
        if self.expected.push(tag).is_err() {
            self.is_cut = true;
        }
    }

    /// Forgets all but the name, if memory ran out while the part was looked for.
    pub(crate) fn settle(&mut self, is_known: bool)
        ensures { IsSettled is_known self.old self.new }
    {
        if self.is_cut || !is_known {
            self.steps.clear();
            self.expected.clear();
            self.any_expected = false;
        }
    }

    /// Returns whether it is known what was expected.
    pub(crate) fn has_expected(&self) -> bool
        ensures { result ≡ knows_expected self.now }
    {
        self.any_expected || !self.expected.is_empty()
    }

    /// Writes what was expected.
    pub(crate) fn write_expected<W: fmt::Write>(&self, f: &mut fmt::Formatter<W>) -> fmt::Result
        ensures { WritesOnOk W.write_str_gives f.old result (expected_text self.now) f.new }
    {
        if self.any_expected {
            write!(f, "a value")
        } else {
            write_tags(self.expected.as_slice(), f)
        }
    }

    /// Writes the path and a space, if it shows something.
    pub(crate) fn write_place<W: fmt::Write>(&self, f: &mut fmt::Formatter<W>) -> fmt::Result
        ensures { WritesOnOk W.write_str_gives f.old result (place_text self.now) f.new }
    {
        if self.is_empty() {
            Ok(())
        } else {
            write!(f, "{self} ")
        }
    }

    /// Writes what was expected, if it is known, and else the error.
    pub(crate) fn write_reason<W: fmt::Write>(
        &self,
        error: &ContentError,
        f: &mut fmt::Formatter<W>,
    ) -> fmt::Result
        ensures { DisplaysOnOk W.write_str_gives f.old result
            (reason_text self.now (⟦<ContentError as fmt::Display>⟧.output error.now)) f.new }
    {
        if self.has_expected() {
            write!(f, "expected ")?;
            self.write_expected(f)
        } else {
            write!(f, "{error}")
        }
    }
}

/// Adds steps to the path, from the innermost one outwards.
impl Trace for Path {
    #[cold]
    #[inline(never)]
    fn note(&mut self, part: Part) {
        match part {
            Part::Expected(tag) => self.expect(tag),
            Part::AnyExpected => self.any_expected = true,
            Part::Field => self.step(Step::Field(0)),
            Part::Behind(count) => self.pass_fields(count),
            Part::Only => self.drop_field(),
            Part::Item(index) => self.step(Step::Item(index)),
            Part::First => self.step(Step::First),
            Part::Second => self.step(Step::Second),
        }
    }

    #[cold]
    #[inline(never)]
    fn name_part(&mut self, names: &'static [&'static str]) {
        if let Some(index) = self.last_field() {
            self.rename(names, index);
        } else if self.is_in_choice() {
            self.name_choice(names);
        }
    }
}

/// Returns whether a step is written. That to an alternative without a name isn't.
fn is_shown(step: &Step) -> bool
    ensures { result ≡ is_shown_step step.now }
{
    match step {
        Step::First | Step::Second => false,
        _ => true,
    }
}

/// Writes `INTEGER`, `INTEGER or NULL`, or `INTEGER, NULL or [0]`.
fn write_tags<W: fmt::Write>(tags: &[Tag], f: &mut fmt::Formatter<W>) -> fmt::Result
    ensures { WritesOnOk W.write_str_gives f.old result (tags_text tags.now) f.new }
{
    match tags {
        [] => Ok(()),
        [tag] => write!(f, "{tag}"),
        [tag, last] => write!(f, "{tag} or {last}"),
        [tag, others @ ..] => {
            write!(f, "{tag}, ")?;
            write_tags(others, f)
        }
    }
}

/// Writes one step.
fn write_step<W: fmt::Write>(step: &Step, f: &mut fmt::Formatter<W>) -> fmt::Result
    ensures { WritesOnOk W.write_str_gives f.old result (step_text step.now) f.new }
{
    match step {
        Step::Named(name) => write!(f, ".{}", name.as_str()),
        Step::Field(index) => write!(f, ".{index}"),
        Step::Item(index) => write!(f, "[{index}]"),
        Step::First | Step::Second => Ok(()),
    }
}

/// Writes steps, from the outermost, which is the last.
fn write_steps<W: fmt::Write>(steps: &[Step], f: &mut fmt::Formatter<W>) -> fmt::Result
    ensures { WritesOnOk W.write_str_gives f.old result (steps_text steps.now) f.new }
{
    match steps {
        [] => Ok(()),
        [inner, outer @ ..] => {
            write_steps(outer, f)?;
            write_step(inner, f)
        }
    }
}

/// Writes the name of the type, and then the steps from it to the part.
impl fmt::Display for Path {
    ghost output = { λ p. Some (path_text p) };

    fn fmt<W: fmt::Write>(&self, f: &mut fmt::Formatter<W>) -> fmt::Result {
        write!(f, "{}", self.name.as_str())?;
        write_steps(self.steps.as_slice(), f)
    }
}
