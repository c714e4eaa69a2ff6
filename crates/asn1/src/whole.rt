//! All octets of a source as one value, or as fields.
ghost use Rattle.std.specs.Prelude.{◌≡◌, IfOk, IfErr};
ghost use Rattle.bcder.specs.calls.Stream.{at_hand};
ghost use Rattle.bcder.specs.calls.Views.{Moved};
ghost use Rattle.asn1.specs.Types.{TookFields};
ghost use Rattle.asn1.specs.Decoded.{IsValueOf, RefusesAll, AreFields, RefusesFieldsOf};

use crate::{Decode, DecodeFields, Part, Path, Trace, Type, TypeError};
use bcder::Mode;
use bcder::decode::{Constructed, DecodeError, IntoSource, SliceSource, Source};
use std::alloc::Global;
use std::convert::Infallible;

/// Decodes a source that is one value of a type, with nothing behind it.
///
/// # Errors
///
/// Returns an error if the octets are not one value of the type in this mode; if the source fails;
/// if memory runs out, which only a type that may lack it returns.
#[inline(always)]
pub fn decode<T, I: IntoSource>(
    alloc: Global,
    mode: Mode,
    source: I,
) -> Result<T, DecodeError<<I::Source as Source>::Error>>
where
    T: Type + Decode<I::Source>,
    I::Source: Drop,
    ensures value { IfOk result (λ x.
        IsValueOf mode (T.tags T.TAG) (T.means mode) (I.gives source).rest x) }
    ensures refused { IfErr result (λ e.
        RefusesAll mode (T.tags T.TAG) (T.means mode) T.may_lack (I.gives source) e) }
{
    decode_traced::<T, I, ()>(alloc, mode, source, &mut ())
}

/// Does what [`decode`] does, and notes in which part of the value something was refused.
pub(crate) fn decode_traced<T, I: IntoSource, P: Trace>(
    alloc: Global,
    mode: Mode,
    source: I,
    path: &mut P,
) -> Result<T, DecodeError<<I::Source as Source>::Error>>
where
    T: Type + Decode<I::Source>,
    I::Source: Drop,
    ensures value { IfOk result (λ x.
        IsValueOf mode (T.tags T.TAG) (T.means mode) (I.gives source).rest x) }
    ensures refused { IfErr result (λ e.
        RefusesAll mode (T.tags T.TAG) (T.means mode) T.may_lack (I.gives source) e) }
{
    let value = decode_fields::<T, I::Source, P>(alloc, mode, source.into_source(), path);
    path.note_if(value.is_err(), Part::Only);
    value
}

/// Decodes a source that is fields, with nothing behind them, and notes which of them was refused.
#[inline(always)]
pub(crate) fn decode_fields<F: DecodeFields<S>, S: Source + Drop, P: Trace>(
    alloc: Global,
    mode: Mode,
    source: S,
    path: &mut P,
) -> Result<F, DecodeError<S::Error>>
    ensures value { IfOk result (λ x.
        AreFields mode (F.takes mode) (S.stream source).rest x) }
    ensures refused { IfErr result (λ e.
        RefusesFieldsOf mode (F.takes mode) F.may_lack (S.stream source) e) }
{
    mode.decode_all(
        source,
        |cons|
            ensures moves { Moved S.stream cons }
            ensures took { TookFields S.stream cons F.takes F.may_lack result }
        { F::trace_fields(alloc, cons, path) },
    )
}

/// Decodes octets that are one value of a type, with nothing behind it. The error says in which
/// part of the value something was refused.
///
/// Unless something is refused, it is [`decode`]. Else the octets are read once more, and the
/// reader notes the part.
///
/// # Errors
///
/// Returns an error if the octets are not one value of the type in this mode, or if memory runs
/// out, which only a type that may lack it returns.
#[inline(always)]
pub fn decode_octets<'a, T: Type + Decode<SliceSource<'a>>>(
    alloc: Global,
    mode: Mode,
    octets: &'a [u8],
) -> Result<T, TypeError>
    ensures value { IfOk result (λ x.
        IsValueOf mode (T.tags T.TAG) (T.means mode) octets.now x) }
    ensures refused { IfErr result (λ e.
        RefusesAll mode (T.tags T.TAG) (T.means mode) T.may_lack (at_hand octets.now) e.error) }
{
    match decode::<T, &'a [u8]>(alloc, mode, octets) {
        Ok(value) => Ok(value),
        Err(error) => {
            let source = SliceSource::new(octets);
            Err(explain::<T, SliceSource<'a>>(alloc, mode, source, error))
        }
    }
}

/// Finds the part in which something of a source was refused.
fn explain<T: Type + Decode<S>, S: Source + Drop>(
    alloc: Global,
    mode: Mode,
    source: S,
    error: DecodeError<Infallible>,
) -> TypeError
    ensures { result.error ≡ error }
{
    let mut path = Path::new(alloc, T::NAME);
    if !error.is_memory() {
        let is_known = match decode_traced::<T, S, Path>(alloc, mode, source, &mut path) {
            Ok(_) => false,
            Err(again) => !again.is_memory(),
        };
        path.settle(is_known);
    }
    TypeError { error, path }
}
