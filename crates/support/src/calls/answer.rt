//! What calls on content return.

/// What a call returns.
#[derive(Clone, Copy, Debug, PartialEq, Eq)]
pub enum Answer {
    /// There is no such value.
    Absent,

    /// Values were skipped.
    Passed,

    /// A number; or how many octets, or bits of a bit string, were captured or taken.
    Number(usize),

    /// A boolean.
    Truth(bool),

    /// An error, since there is no such value. The content stays usable.
    Lacking,

    /// An error, after which the content has failed.
    Refused,
}

/// Returns the answer of a call that returned a number, if there was a value.
pub fn number(found: Option<u8>) -> Answer {
    match found {
        Some(number) => Answer::Number(usize::from(number)),
        None => Answer::Absent,
    }
}

/// Returns the answer of a call that skipped a value, if there was one.
pub fn passed(found: Option<()>) -> Answer {
    match found {
        Some(()) => Answer::Passed,
        None => Answer::Absent,
    }
}

/// Returns the answer of a call that returned a boolean, if there was a value.
pub fn truth(found: Option<bool>) -> Answer {
    match found {
        Some(fact) => Answer::Truth(fact),
        None => Answer::Absent,
    }
}

/// Returns the answer of a call that returned a number of octets, if there was a value.
pub fn count(found: Option<usize>) -> Answer {
    match found {
        Some(len) => Answer::Number(len),
        None => Answer::Absent,
    }
}
