//! Errors: why a value has no encoding, and why one was not written.
use crate::NoMemory;
use std::alloc::{AllocError, AllocFailed};
use std::error::Error;
use std::{fmt, io};

/// The reason why a value has no encoding.
#[derive(Clone, Copy, Debug, PartialEq, Eq)]
pub enum EncodeError {
    /// Memory ran out, for the octets or for something that a part needs to produce them.
    NoMemory,

    /// A value would have the tag of the end-of-contents octets (X.690, 8.1.5).
    EndOfValueTag,

    /// A definite length is 2^32 or more, too large for four octets.
    LengthTooLarge,

    /// The encoding has more octets than a `usize` can count.
    SizeOverflow,

    /// Captured values would be written in CER or DER, but were captured in another mode.
    CapturedMode,

    /// A bit string would have over 1000 contents octets in CER (X.690, 9.2).
    LongCerBitString,

    /// A primitive string would have over 1000 contents octets in CER (X.690, 9.2).
    LongCerPrimitive,
}

impl fmt::Display for EncodeError {
    ghost use Rattle.std.specs.Prelude.{codes, Some};
    ghost use Rattle.bcder.specs.declared.encode.error.EncodeError.TheVariants.{NoMemory};
    ghost use Rattle.bcder.specs.declared.encode.error.EncodeError.TheVariants.{EndOfValueTag};
    ghost use Rattle.bcder.specs.declared.encode.error.EncodeError.TheVariants.{LengthTooLarge};
    ghost use Rattle.bcder.specs.declared.encode.error.EncodeError.TheVariants.{SizeOverflow};
    ghost use Rattle.bcder.specs.declared.encode.error.EncodeError.TheVariants.{CapturedMode};
    ghost use Rattle.bcder.specs.declared.encode.error.EncodeError.TheVariants.{LongCerBitString};
    ghost use Rattle.bcder.specs.declared.encode.error.EncodeError.TheVariants.{LongCerPrimitive};

    ghost output = { elim [
      | NoMemory ↦ Some (codes "out of memory")
      | EndOfValueTag ↦ Some (codes "tag of the end-of-contents octets")
      | LengthTooLarge ↦ Some (codes "length of 2^32 octets or more")
      | SizeOverflow ↦ Some (codes "size out of range")
      | CapturedMode ↦ Some (codes "values captured in another mode")
      | LongCerBitString ↦ Some (codes "long bit string in CER")
      | LongCerPrimitive ↦ Some (codes "long primitive string in CER")
    ] };

    fn fmt<W: fmt::Write>(&self, f: &mut fmt::Formatter<W>) -> fmt::Result {
        match self {
            EncodeError::NoMemory => write!(f, "out of memory"),
            EncodeError::EndOfValueTag => write!(f, "tag of the end-of-contents octets"),
            EncodeError::LengthTooLarge => write!(f, "length of 2^32 octets or more"),
            EncodeError::SizeOverflow => write!(f, "size out of range"),
            EncodeError::CapturedMode => write!(f, "values captured in another mode"),
            EncodeError::LongCerBitString => write!(f, "long bit string in CER"),
            EncodeError::LongCerPrimitive => write!(f, "long primitive string in CER"),
        }
    }
}

impl Error for EncodeError {}

impl From<NoMemory> for EncodeError {
    ghost use Rattle.std.specs.Prelude.{◌≡◌};
    ghost use Rattle.bcder.specs.declared.encode.error.EncodeError.TheVariants.{NoMemory};

    ghost from_gives = { λ _ e. e ≡ NoMemory };

    fn from(_error: NoMemory) -> EncodeError {
        EncodeError::NoMemory
    }
}

impl From<AllocError> for EncodeError {
    ghost use Rattle.std.specs.Prelude.{◌≡◌};
    ghost use Rattle.bcder.specs.declared.encode.error.EncodeError.TheVariants.{NoMemory};

    ghost from_gives = { λ _ e. e ≡ NoMemory };

    fn from(_error: AllocError) -> EncodeError {
        EncodeError::NoMemory
    }
}

impl<T: Drop> From<AllocFailed<T>> for EncodeError {
    ghost use Rattle.std.specs.Prelude.{◌≡◌};
    ghost use Rattle.bcder.specs.declared.encode.error.EncodeError.TheVariants.{NoMemory};

    ghost from_gives = { λ _ e. e ≡ NoMemory };

    fn from(_error: AllocFailed<T>) -> EncodeError {
        EncodeError::NoMemory
    }
}

/// The reason why values were not written.
#[derive(Debug, Drop)]
pub enum WriteError {
    /// The values have no encoding, or memory ran out.
    Refused(EncodeError),

    /// The target failed, or its `write` accepted none of one or more octets.
    Target(io::Error),
}

impl fmt::Display for WriteError {
    ghost use Rattle.bcder.specs.declared.encode.error.WriteError.TheVariants.{Refused, Target};

    ghost output = { elim [
      | Refused e ↦ ⟦<EncodeError as fmt::Display>⟧.output e
      | Target e ↦ ⟦<io::Error as fmt::Display>⟧.output e
    ] };

    fn fmt<W: fmt::Write>(&self, f: &mut fmt::Formatter<W>) -> fmt::Result {
        match self {
            WriteError::Refused(error) => write!(f, "{error}"),
            WriteError::Target(error) => write!(f, "{error}"),
        }
    }
}

impl Error for WriteError {}

impl From<EncodeError> for WriteError {
    ghost use Rattle.std.specs.Prelude.{◌≡◌};
    ghost use Rattle.bcder.specs.declared.encode.error.WriteError.TheVariants.{Refused};

    ghost from_gives = { λ error e. e ≡ Refused error };

    fn from(error: EncodeError) -> WriteError {
        WriteError::Refused(error)
    }
}

impl From<io::Error> for WriteError {
    ghost use Rattle.std.specs.Prelude.{◌≡◌};
    ghost use Rattle.bcder.specs.declared.encode.error.WriteError.TheVariants.{Target};

    ghost from_gives = { λ error e. e ≡ Target error };

    fn from(error: io::Error) -> WriteError {
        WriteError::Target(error)
    }
}

impl From<NoMemory> for WriteError {
    ghost use Rattle.std.specs.Prelude.{◌≡◌};
    ghost use Rattle.bcder.specs.declared.encode.error.EncodeError.TheVariants.{NoMemory};
    ghost use Rattle.bcder.specs.declared.encode.error.WriteError.TheVariants.{Refused};

    ghost from_gives = { λ _ e. e ≡ Refused NoMemory };

    fn from(_error: NoMemory) -> WriteError {
        WriteError::Refused(EncodeError::NoMemory)
    }
}

impl From<AllocError> for WriteError {
    ghost use Rattle.std.specs.Prelude.{◌≡◌};
    ghost use Rattle.bcder.specs.declared.encode.error.EncodeError.TheVariants.{NoMemory};
    ghost use Rattle.bcder.specs.declared.encode.error.WriteError.TheVariants.{Refused};

    ghost from_gives = { λ _ e. e ≡ Refused NoMemory };

    fn from(_error: AllocError) -> WriteError {
        WriteError::Refused(EncodeError::NoMemory)
    }
}

impl<T: Drop> From<AllocFailed<T>> for WriteError {
    ghost use Rattle.std.specs.Prelude.{◌≡◌};
    ghost use Rattle.bcder.specs.declared.encode.error.EncodeError.TheVariants.{NoMemory};
    ghost use Rattle.bcder.specs.declared.encode.error.WriteError.TheVariants.{Refused};

    ghost from_gives = { λ _ e. e ≡ Refused NoMemory };

    fn from(_error: AllocFailed<T>) -> WriteError {
        WriteError::Refused(EncodeError::NoMemory)
    }
}
