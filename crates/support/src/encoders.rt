//! Encoders of values of any size, for tests.
ghost use Rattle.std.specs.Prelude.{◌≡◌};
ghost use Rattle.bcder.specs.x690.Identifier.{universal};
ghost use Rattle.bcder.specs.calls.Encoders.{SizeOfValues, WritesParts};
ghost use Rattle.bcder.specs.calls.Meaning.{Exactly};
ghost use Rattle.bcder.specs.calls.Meaning.{Joined};
ghost use Rattle.bcder.specs.laws.Meanings.{Exactly_lawful};
ghost use Rattle.bcder.specs.laws.Joined.{Joined_lawful};
ghost use Rattle.support.specs.Counted.{zeros, zeros_are, NullsMean, nulls_lawful};

use bcder::encode::{EncodeError, PrimitiveContent, Values, WriteError};
use bcder::{Mode, Tag};
use std::io;

/// This number of octets `00`, as the contents octets of an OCTET STRING (X.690, 8.7).
#[derive(Clone, Copy)]
pub struct Zeros(pub usize);

impl PrimitiveContent for Zeros {
    ghost own_tag = { record { class = universal; number = 4 } };

    ghost means = { λ x _. Exactly (zeros x.0) };

    fn tag() -> Tag {
        Tag::OCTET_STRING
    }

    fn encoded_len(&self, _mode: Mode) -> Result<usize, EncodeError> {
        Ok(self.0)
    }

    fn write_encoded<W: io::Write>(&self, mode: Mode, target: &mut W) -> Result<(), WriteError> {
        for _ in 0..self.0 {
            false.write_encoded(mode, target)?;
        }
        Ok(())
    }

    ghost lawful = { λ x _. Exactly_lawful (zeros x.0) (zeros_are x.0) };
}

/// This number of NULLs, one after the other (X.690, 8.8).
#[derive(Clone, Copy)]
pub struct Nulls(pub usize);

/// Returns the number of octets of `count` NULLs.
fn nulls_len(count: usize) -> Result<usize, EncodeError>
    ensures { SizeOfValues (Joined (NullsMean count)) ⊥ result }
{
    match count.checked_mul(2) {
        Some(len) => Ok(len),
        None => Err(EncodeError::SizeOverflow),
    }
}

/// Writes `count` NULLs.
fn write_nulls<W: io::Write>(count: usize, mode: Mode, target: &mut W) -> Result<(), WriteError>
    ensures { WritesParts W.contents target (NullsMean count) ⊥ result }
{
    for _ in 0..count {
        ().encode().write_encoded(mode, target)?;
    }
    Ok(())
}

impl Values for Nulls {
    ghost means = { λ x _. Joined (NullsMean x.0) };

    fn encoded_len(&self, _mode: Mode) -> Result<usize, EncodeError> {
        nulls_len(self.0)
    }

    fn write_encoded<W: io::Write>(&self, mode: Mode, target: &mut W) -> Result<(), WriteError> {
        nulls_len(self.0)?;
        write_nulls(self.0, mode, target)
    }

    ghost lawful = { λ x mode _. Joined_lawful (nulls_lawful x.0 mode) };
}
