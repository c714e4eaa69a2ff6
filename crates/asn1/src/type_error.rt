//! Why octets are not one value of a type.
ghost use Rattle.std.specs.Prelude.{◌≡◌};
ghost use Rattle.bcder.specs.calls.Cause.{position_of};
ghost use Rattle.asn1.specs.Paths.{refused_text};

use crate::Path;
use bcder::decode::{ContentError, DecodeError, Pos};
use std::convert::Infallible;
use std::error::Error;
use std::fmt;

/// Why octets are not one value of a type, and in which part of it.
#[derive(Debug, Drop)]
pub struct TypeError {
    /// The error, as [`decode`](crate::decode) returns it.
    pub error: DecodeError<Infallible>,

    /// In which part of the value something was refused.
    pub path: Path,
}

impl TypeError {
    /// Returns the position of what was refused, or `None` if memory ran out.
    pub fn position(&self) -> Option<Pos>
        ensures { result ≡ position_of self.now.error }
    {
        match &self.error {
            DecodeError::Content { pos, .. } => Some(*pos),
            _ => None,
        }
    }
}

/// Writes `PATH at octet N: expected TYPE`, `PATH at octet N: TEXT`, or `out of memory`.
impl fmt::Display for TypeError {
    ghost output = { λ e. refused_text ⟦<DecodeError<Infallible> as fmt::Display>⟧.output
        ⟦<ContentError as fmt::Display>⟧.output e.path e.error };

    fn fmt<W: fmt::Write>(&self, f: &mut fmt::Formatter<W>) -> fmt::Result {
        match &self.error {
            DecodeError::Content { error, pos } => {
                self.path.write_place(f)?;
                write!(f, "at octet {pos}: ")?;
                self.path.write_reason(error, f)
            }
            error => write!(f, "{error}"),
        }
    }
}

impl Error for TypeError {}
