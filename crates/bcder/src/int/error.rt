//! The reasons why there is no integer, or none of a type.
ghost use Rattle.std.specs.Prelude.{◌≡◌, codes, Some};

use crate::NoMemory;
use std::alloc::AllocError;
use std::error::Error;
use std::fmt;

/// The error that octets are not those of an integer.
#[derive(Clone, Copy, Debug, PartialEq, Eq)]
pub struct InvalidInteger;

impl fmt::Display for InvalidInteger {
    ghost output = { λ _. Some (codes "invalid integer") };

    fn fmt<W: fmt::Write>(&self, f: &mut fmt::Formatter<W>) -> fmt::Result {
        write!(f, "invalid integer")
    }
}

impl Error for InvalidInteger {}

/// The error that a type can't hold a number.
#[derive(Clone, Copy, Debug, PartialEq, Eq)]
pub struct OverflowError;

impl fmt::Display for OverflowError {
    ghost output = { λ _. Some (codes "integer out of range") };

    fn fmt<W: fmt::Write>(&self, f: &mut fmt::Formatter<W>) -> fmt::Result {
        write!(f, "integer out of range")
    }
}

impl Error for OverflowError {}

/// The reason why no integer was made of octets.
#[derive(Clone, Copy, Debug, PartialEq, Eq)]
pub enum IntegerError {
    /// The octets are not those of an integer.
    Invalid(InvalidInteger),

    /// Memory ran out.
    NoMemory,
}

impl fmt::Display for IntegerError {
    ghost use Rattle.bcder.specs.declared.int.error.IntegerError.TheVariants.{Invalid, NoMemory};

    ghost output = { elim [
      | Invalid error ↦ ⟦<InvalidInteger as fmt::Display>⟧.output error
      | NoMemory ↦ Some (codes "out of memory")
    ] };

    fn fmt<W: fmt::Write>(&self, f: &mut fmt::Formatter<W>) -> fmt::Result {
        match self {
            IntegerError::Invalid(error) => write!(f, "{error}"),
            IntegerError::NoMemory => write!(f, "{NoMemory}"),
        }
    }
}

impl Error for IntegerError {}

impl From<AllocError> for IntegerError {
    ghost use Rattle.bcder.specs.declared.int.error.IntegerError.TheVariants.{NoMemory};

    ghost from_gives = { λ _ e. e ≡ NoMemory };

    fn from(_error: AllocError) -> IntegerError {
        IntegerError::NoMemory
    }
}
