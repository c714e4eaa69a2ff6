//! Writes numbers and reads them back.
#![tactic(auto, using(bcder::specs::laws::Moved::untouched_is_moved))]

ghost use Rattle.std.specs.Prelude.{◌≡◌, IfOk, IfErr};
ghost use Rattle.std.specs.Int.{w32};
ghost use Rattle.bcder.specs.x690.Identifier.{integer_tag};
ghost use Rattle.bcder.specs.calls.Readers.{IsSigned};
ghost use Rattle.bcder.specs.calls.Valued.{TakesOneAs};
ghost use Rattle.bcder.specs.calls.Views.{Moved, of_constructed};
ghost use Rattle.writers.specs.Numbers.{IsOfTarget};

use bcder::decode::{Constructed, DecodeError, Source};
use bcder::encode::{PrimitiveContent, Values, WriteError};
use bcder::laws::taken_back::{signed_integers_are_taken_back, unsigned_integers_are_taken_back};
use bcder::{Mode, Tag};
use std::alloc::Global;
use std::convert::Infallible;

/// Writes a number, and reads it back from what was written.
///
/// # Errors
///
/// Returns `Target` if memory runs out for the octets.
pub fn write_and_read(alloc: Global, number: u32, mode: Mode) -> Result<u32, WriteError>
    ensures number { IfOk result (λ read. read ≡ number) }
    ensures refused { IfErr result IsOfTarget }
{
    unsigned_integers_are_taken_back::<Infallible>();
    let mut octets = Vec::new(alloc);
    number.encode().write_encoded(mode, &mut octets)?;
    match mode.decode(octets.as_slice(), |cons| cons.take_u32()) {
        Ok(read) => Ok(read),
        Err(_) => unreachable!(),
    }
}

/// Takes the next value, which has to be an INTEGER that an `i32` holds.
///
/// # Errors
///
/// Those of `Constructed::take_u32`, by the range of `i32`.
pub fn take_i32<S: Source>(cons: &mut Constructed<'_, S>) -> Result<i32, DecodeError<S::Error>>
    ensures moves { Moved S.stream cons }
    ensures took { TakesOneAs integer_tag (IsSigned w32) (of_constructed S.stream cons.old) result
        (of_constructed S.stream cons.new) }
{
    cons.take_primitive_if(Tag::INTEGER, |octets| octets.to_i32())
}

/// Writes a number that may be negative, and reads it from what was written.
///
/// # Errors
///
/// `Target` where there is no memory for the octets.
pub fn write_and_read_signed(alloc: Global, number: i32, mode: Mode) -> Result<i32, WriteError>
    ensures number { IfOk result (λ read. read ≡ number) }
    ensures refused { IfErr result IsOfTarget }
{
    signed_integers_are_taken_back::<Infallible>();
    let mut octets = Vec::new(alloc);
    number.encode().write_encoded(mode, &mut octets)?;
    match mode.decode(octets.as_slice(), |cons| take_i32(cons)) {
        Ok(read) => Ok(read),
        Err(_) => unreachable!(),
    }
}
