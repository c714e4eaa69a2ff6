//! Sources over borrowed ones, and what the owner of the borrowed source knows afterwards.
ghost use Rattle.std.specs.Prelude.{◌≡◌, ◌<◌, ◌≤◌, ◌++◌, length, take, drop, Some};
ghost use Rattle.std.specs.Prelude.{IfOk, IfErr, IfSome, OnOk, OnErr, if◌then◌else◌};
ghost use Rattle.std.specs.Bool.{OnTrue};
ghost use Rattle.bcder.specs.calls.Stream.{Grew};
ghost use Rattle.support.specs.Taken.{MatchTakeError};

use bcder::decode::{CaptureSource, DecodeError, LimitedSource, Source};
use bytes::Bytes;
use std::alloc::Global;

/// The reason why octets could not be taken.
#[derive(Debug, Drop)]
pub enum TakeError<E> {
    /// The source failed.
    Source(E),

    /// There are fewer octets.
    Short,

    /// Memory ran out.
    NoMemory,
}

/// Takes exactly `len` octets, by a limit over the source. The limited source then ends.
pub fn take_exactly<S: Source>(
    source: &mut S,
    alloc: Global,
    len: usize,
) -> Result<Bytes, TakeError<S::Error>>
    ensures value { IfOk result
        (λ b. b ++ (S.stream source.new).rest ≡ (S.stream source.old).rest) }
    ensures count { IfOk result (λ b. length b ≡ len) }
    ensures err { OnErr result ((S.stream source.new).rest ≡ (S.stream source.old).rest) }
    ensures cause { IfErr result (λ e. MatchTakeError e
        (Grew (S.stream source.old).faults (S.stream source.new).faults)
        (length (S.stream source.old).rest < len)
        (len ≤ length (S.stream source.old).rest)) }
    ensures kept { (S.stream source.new).kept ≡ (S.stream source.old).kept }
{
    let mut limited = LimitedSource::new(source);
    limited.set_limit(Some(len));
    match limited.take_all(alloc) {
        Ok(taken) => Ok(taken),
        Err(DecodeError::Source(error)) => Err(TakeError::Source(error)),
        Err(DecodeError::Content { .. }) => Err(TakeError::Short),
        Err(DecodeError::NoMemory) => Err(TakeError::NoMemory),
    }
}

/// Skips two octets, if there are two.
pub fn pass_two<S: Source>(source: &mut S) -> Result<bool, S::Error>
    ensures two { IfOk result (λ b. (S.stream source.new).rest
        ≡ (if b then drop 2 (S.stream source.old).rest else (S.stream source.old).rest)) }
    ensures enough { IfOk result (λ b. OnTrue b (2 ≤ length (S.stream source.old).rest)) }
    ensures err { OnErr result ((S.stream source.new).rest ≡ (S.stream source.old).rest) }
    ensures kept { (S.stream source.new).kept ≡ (S.stream source.old).kept }
{
    if source.request(2)? < 2 {
        return Ok(false);
    }
    source.advance(2);
    Ok(true)
}

/// Skips two octets, if there are two within a limit. A source over the borrowed one has the limit,
/// until it ends.
pub fn pass_two_within<S: Source>(source: &mut S, limit: usize) -> Result<bool, S::Error>
    ensures two { IfOk result (λ b. (S.stream source.new).rest
        ≡ (if b then drop 2 (S.stream source.old).rest else (S.stream source.old).rest)) }
    ensures enough { IfOk result (λ b. OnTrue b (2 ≤ limit)) }
    ensures kept { (S.stream source.new).kept ≡ (S.stream source.old).kept }
{
    let mut limited = LimitedSource::new(source);
    limited.limit_further(Some(limit));
    pass_two(&mut limited)
}

/// Captures two octets if there are two, else none.
pub fn capture_two<S: Source>(source: &mut S, alloc: Global) -> Result<Bytes, TakeError<S::Error>>
    ensures count { IfOk result (λ b. 2 ≤ length (S.stream source.old).rest → length b ≡ 2) }
    ensures value { IfOk result
        (λ b. b ++ (S.stream source.new).rest ≡ (S.stream source.old).rest) }
    ensures err { OnErr result ((S.stream source.new).rest ≡ (S.stream source.old).rest) }
    ensures kept { (S.stream source.new).kept ≡ (S.stream source.old).kept }
{
    let mut view = CaptureSource::new(source);
    if view.request(2).map_err(TakeError::Source)? >= 2 {
        view.advance(2);
    }
    view.into_bytes(alloc).map_err(|_| TakeError::NoMemory)
}

/// Returns whether there are two octets, and takes none.
pub fn has_two<S: Source>(source: &mut S) -> Result<bool, S::Error>
    ensures ok { IfOk result (λ b. OnTrue b (2 ≤ length (S.stream source.old).rest)) }
    ensures rest { (S.stream source.new).rest ≡ (S.stream source.old).rest }
    ensures kept { (S.stream source.new).kept ≡ (S.stream source.old).kept }
{
    pass_two(&mut CaptureSource::new(source))
}

/// Skips two octets, if there are two, by a capturing source that is skipped.
pub fn skip_two<S: Source>(source: &mut S) -> Result<bool, S::Error>
    ensures two { IfOk result (λ b. (S.stream source.new).rest
        ≡ (if b then drop 2 (S.stream source.old).rest else (S.stream source.old).rest)) }
    ensures err { OnErr result ((S.stream source.new).rest ≡ (S.stream source.old).rest) }
    ensures kept { (S.stream source.new).kept ≡ (S.stream source.old).kept }
{
    let mut view = CaptureSource::new(source);
    let found = view.request(2)? >= 2;
    if found {
        view.advance(2);
    }
    view.skip();
    Ok(found)
}

/// Returns the source without its first two octets, if it has two. A source over a borrow of it has
/// taken them and ended.
pub fn without_two<S: Source + Drop>(mut source: S) -> Result<Option<S>, S::Error>
    ensures { IfOk result (λ o. IfSome o (λ s. (S.stream s).rest ≡ drop 2 (S.stream source).rest)) }
{
    let mut limited = LimitedSource::new(&mut source);
    if pass_two(&mut limited)? {
        Ok(Some(source))
    } else {
        Ok(None)
    }
}

/// Captures two octets, if there are two, by a call for every source. It requests once more, so
/// that the octets that were skipped are surely available.
pub fn capture_passed<S: Source>(
    source: &mut S,
    alloc: Global,
) -> Result<Bytes, TakeError<S::Error>>
    ensures value { IfOk result
        (λ b. b ++ (S.stream source.new).rest ≡ (S.stream source.old).rest) }
    ensures err { OnErr result ((S.stream source.new).rest ≡ (S.stream source.old).rest) }
    ensures kept { (S.stream source.new).kept ≡ (S.stream source.old).kept }
{
    let mut view = CaptureSource::new(source);
    pass_two(&mut view).map_err(TakeError::Source)?;
    view.request(0).map_err(TakeError::Source)?;
    view.into_bytes(alloc).map_err(|_| TakeError::NoMemory)
}
