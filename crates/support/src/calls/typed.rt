//! The calls that take booleans, nulls and integers.
ghost use Rattle.bcder.specs.calls.Views.{Moved};

use super::answer::{Answer, truth};
use bcder::decode::{Constructed, DecodeError, Source};

/// A call that takes a boolean, a null or an integer, or skips this number.
#[derive(Clone, Copy)]
pub enum Typed {
    Bool,
    OptBool,
    Null,
    OptNull,
    U8,
    OptU8,
    U16,
    OptU16,
    U32,
    OptU32,
    U64,
    OptU64,
    SkipU8If(u8),
    SkipOptU8If(u8),
}

/// Takes an integer.
fn take<S: Source>(
    cons: &mut Constructed<'_, S>,
    typed: Typed,
) -> Result<u64, DecodeError<S::Error>>
    ensures { Moved S.stream cons }
{
    match typed {
        Typed::U8 => Ok(u64::from(cons.take_u8()?)),
        Typed::U16 => Ok(u64::from(cons.take_u16()?)),
        Typed::U32 => Ok(u64::from(cons.take_u32()?)),
        _ => cons.take_u64(),
    }
}

/// Returns a number as a `u64`, if there is one.
fn widened<T>(number: Option<T>) -> Option<u64>
where
    u64: From<T>,
{
    match number {
        Some(number) => Some(u64::from(number)),
        None => None,
    }
}

/// Takes an integer if it is there.
fn take_opt<S: Source>(
    cons: &mut Constructed<'_, S>,
    typed: Typed,
) -> Result<Option<u64>, DecodeError<S::Error>>
    ensures { Moved S.stream cons }
{
    match typed {
        Typed::OptU8 => Ok(widened(cons.take_opt_u8()?)),
        Typed::OptU16 => Ok(widened(cons.take_opt_u16()?)),
        Typed::OptU32 => Ok(widened(cons.take_opt_u32()?)),
        _ => cons.take_opt_u64(),
    }
}

/// Takes a boolean.
fn take_truth<S: Source>(
    cons: &mut Constructed<'_, S>,
    typed: Typed,
) -> Result<Option<bool>, DecodeError<S::Error>>
    ensures { Moved S.stream cons }
{
    match typed {
        Typed::Bool => Ok(Some(cons.take_bool()?)),
        _ => cons.take_opt_bool(),
    }
}

/// Skips a value, of which there is nothing to report. An optional one may be absent.
fn skip<S: Source>(cons: &mut Constructed<'_, S>, typed: Typed) -> Result<(), DecodeError<S::Error>>
    ensures { Moved S.stream cons }
{
    match typed {
        Typed::Null => cons.take_null(),
        Typed::OptNull => cons.take_opt_null(),
        Typed::SkipU8If(number) => cons.skip_u8_if(number),
        Typed::SkipOptU8If(number) => cons.skip_opt_u8_if(number),
        _ => Ok(()),
    }
}

/// Makes the call, and returns its answer.
pub fn ask<S: Source>(
    cons: &mut Constructed<'_, S>,
    typed: Typed,
) -> Result<Answer, DecodeError<S::Error>>
    ensures { Moved S.stream cons }
{
    match typed {
        Typed::Bool | Typed::OptBool => Ok(truth(take_truth(cons, typed)?)),
        Typed::U8 | Typed::U16 | Typed::U32 | Typed::U64 => {
            Ok(Answer::Number(take(cons, typed)? as usize))
        }
        Typed::OptU8 | Typed::OptU16 | Typed::OptU32 | Typed::OptU64 => {
            match take_opt(cons, typed)? {
                Some(number) => Ok(Answer::Number(number as usize)),
                None => Ok(Answer::Absent),
            }
        }
        _ => {
            skip(cons, typed)?;
            Ok(Answer::Passed)
        }
    }
}
