//! A slot for the error of a writer, so that steps needn't return it.
//!
//! The error of a target is many times as large as an octet, and would be moved at each step that
//! may return it. So a step returns whether it succeeded, and stores an error in a slot that it
//! gets. A public call makes the slot, and returns what is in it.
ghost use Rattle.std.specs.Prelude.{◌≡◌};
ghost use Rattle.bcder.specs.declared.encode.error.WriteError.TheVariants.{Refused, Target};
ghost use Rattle.bcder.specs.calls.Encoders.{into_result};

use crate::encode::{EncodeError, WriteError};
use std::io;

/// The failure of a writing step. The reason is in the slot that the step got.
#[doc(hidden)]
#[derive(Clone, Copy, Debug)]
pub struct Failed;

/// Returns a slot for an error.
#[inline(always)]
pub(crate) fn slot() -> WriteError {
    WriteError::Refused(EncodeError::NoMemory)
}

/// Makes the result of a public call from the outcome of its steps and the slot.
#[inline(always)]
pub(crate) fn into_result(outcome: Result<(), Failed>, why: WriteError) -> Result<(), WriteError>
    ensures { result ≡ into_result outcome why }
{
    match outcome {
        Ok(()) => Ok(()),
        Err(Failed) => Err(why),
    }
}

/// Stores a refusal. The slot isn't lent on, so it need not be cleared if it is made by the caller
/// and lent to no other step.
#[inline(always)]
pub(crate) fn store_refusal(why: &mut WriteError, error: EncodeError) -> Failed
    ensures { why.new ≡ Refused error }
{
    *why = WriteError::Refused(error);
    Failed
}

/// Stores an error of the target. Like `store_refusal`, it doesn't lend the slot on.
#[inline(always)]
pub(crate) fn store_target_error(why: &mut WriteError, error: io::Error) -> Failed
    ensures { why.new ≡ Target error }
{
    *why = WriteError::Target(error);
    Failed
}

/// Stores the error that a public call returned, if it failed.
#[inline(always)]
pub(crate) fn store(outcome: Result<(), WriteError>, why: &mut WriteError) -> Result<(), Failed>
    ensures { into_result result why.new ≡ outcome }
{
    match outcome {
        Ok(()) => Ok(()),
        Err(error) => {
            *why = error;
            Err(Failed)
        }
    }
}
