//! What is written of files: lines on standard output, and messages on standard error.
ghost use Rattle.std.specs.Prelude.{◌≡◌, ◌↔◌, [], IsTrue, OnOk};
ghost use Rattle.certdump.specs.Lines.{AddsLine, AreLines};

use crate::shown::Indent;
use bcder::Mode;
use cli::shown::line_of;
use cli::status::Status;
use cli::tell::Place;
use std::alloc::{AllocError, Global};
use std::fmt;
use std::marker::Model;

/// The name of the program.
pub(crate) const PROGRAM: &str = "certdump";

/// Lines without control characters.
#[derive(Drop)]
pub(crate) struct Lines {
    text: String,
}

/// In clauses they are their octets.
impl Model for Lines {
    ghost use Rattle.std.specs.Prelude.{ℕ, List, string_bytes};
    ghost use Rattle.certdump.specs.Lines.{AreLines};

    ghost Value = { List ℕ };

    ghost view = { λ l. string_bytes l.text };

    ghost invariant = { λ l. AreLines (string_bytes l.text) };
}

impl Lines {
    /// No lines.
    fn new(alloc: Global) -> Lines
        ensures { result ≡ [] }
    {
        Lines {
            text: String::new(alloc),
        }
    }

    /// Adds a line.
    fn add<D: fmt::Display + Drop>(&mut self, alloc: Global, text: D) -> Result<(), AllocError>
        ensures { OnOk result (AddsLine self.old self.new) }
    {
        let line = line_of(alloc, text)?;
        match self.text.push_str(line.as_str()) {
            Ok(()) => Ok(()),
            Err(error) => Err(error),
        }
    }

    /// Returns whether there is none.
    pub(crate) fn is_empty(&self) -> bool
        ensures { IsTrue result ↔ (self.now ≡ []) }
    {
        self.text.is_empty()
    }

    /// Returns the lines.
    pub(crate) fn as_str(&self) -> &str
        ensures octets { result.now ≡ self.now }
        ensures lines { AreLines self.now }
    {
        self.text.as_str()
    }
}

/// What is written of files, and how.
#[derive(Drop)]
pub(crate) struct Page {
    /// Where memory comes from.
    pub(crate) alloc: Global,

    /// The encoding rules.
    pub(crate) mode: Mode,

    /// Whether the octets of private keys are shown.
    pub(crate) private: bool,

    /// What is shown.
    pub(crate) lines: Lines,

    /// Why something isn't shown.
    pub(crate) messages: Lines,

    /// How bad that is.
    pub(crate) status: Status,

    /// What messages begin with: the place in the input.
    place: String,
}

impl Page {
    /// Nothing.
    pub(crate) fn new(alloc: Global, mode: Mode, private: bool) -> Page {
        Page {
            alloc,
            mode,
            private,
            lines: Lines::new(alloc),
            messages: Lines::new(alloc),
            status: Status::Done,
            place: String::new(alloc),
        }
    }

    /// Goes on in another place.
    pub(crate) fn go_to(&mut self, place: Place<'_>) -> Result<(), AllocError> {
        self.place = format!(in self.alloc; "{place}")?;
        Ok(())
    }

    /// Adds a line that is so deep.
    pub(crate) fn line<D: fmt::Display + Drop>(
        &mut self,
        depth: usize,
        text: D,
    ) -> Result<(), AllocError> {
        self.lines
            .add(self.alloc, format_args!("{}{text}", Indent(depth)))
    }

    /// Adds a message.
    pub(crate) fn tell<D: fmt::Display + Drop>(
        &mut self,
        status: Status,
        reason: D,
    ) -> Result<(), AllocError> {
        self.status = self.status.and(status);
        let place = self.place.as_str();
        self.messages
            .add(self.alloc, format_args!("{PROGRAM}: {place}{reason}"))
    }

    /// Adds a message on octets that are refused.
    pub(crate) fn refuse<D: fmt::Display + Drop>(&mut self, reason: D) -> Result<(), AllocError> {
        self.tell(Status::Refused, reason)
    }
}
