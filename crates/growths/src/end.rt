//! How calls end.
use anyhow::Error;
use bcder::NoMemory;
use bcder::decode::DecodeError;

/// How a call ended.
#[derive(Clone, Copy)]
pub enum End {
    /// The call returned what it should.
    Answered,

    /// Memory ran out, and what the call should leave is left.
    NoMemory,

    /// Neither of these.
    Wrong,
}

/// Returns how a call ended that returned a result, right or not.
pub fn answered(right: bool) -> End {
    if right { End::Answered } else { End::Wrong }
}

/// Returns how a call ended that refused, by whether memory ran out, and whether what it should
/// leave is left.
pub fn refused(memory: bool, left: bool) -> End {
    if memory && left {
        End::NoMemory
    } else {
        End::Wrong
    }
}

/// Returns how a call ended that reads and leaves nothing to look at.
pub fn read<E: Drop>(outcome: Result<bool, DecodeError<E>>) -> End {
    match outcome {
        Ok(right) => answered(right),
        Err(error) => refused(error.is_memory(), true),
    }
}

/// Returns how a call ended that is refused only if memory runs out.
pub fn made(outcome: Result<bool, NoMemory>) -> End {
    match outcome {
        Ok(right) => answered(right),
        Err(NoMemory) => End::NoMemory,
    }
}

/// Prints how a call ended.
pub fn tell(rt: &HostRuntime, call: &str, end: End) -> Result<(), Error> {
    let how = match end {
        End::Answered => "answered",
        End::NoMemory => "out of memory",
        End::Wrong => "WRONG",
    };
    println!(rt; "{call}: {how}")?;
    Ok(())
}

/// Prints how several calls ended.
pub fn tell_all(rt: &HostRuntime, ends: &[(&str, End)]) -> Result<(), Error> {
    for (call, end) in ends {
        tell(rt, *call, *end)?;
    }
    Ok(())
}

/// Prints how a call ended, over octets that are copied or shared.
pub fn tell_over(rt: &HostRuntime, call: &str, over: &str, end: End) -> Result<(), Error> {
    print!(rt; "{over} octets, ")?;
    tell(rt, call, end)
}
