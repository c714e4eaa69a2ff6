//! Why a step over content stopped, in few octets. It becomes an error when it is returned to
//! users.
ghost use Rattle.std.specs.Prelude.{◌≡◌};
ghost use Rattle.bcder.specs.steps.StopCause.{reason_text};

use crate::decode::violation::Violation;

/// The reason that content was refused, if it isn't in the octets.
#[derive(Clone, Copy)]
pub(crate) enum Reason {
    /// An earlier value was refused.
    Earlier,

    /// A value that has to be primitive is constructed.
    Constructed,

    /// A closure left values in a constructed value.
    ValuesLeft,
}

impl Reason {
    /// Returns the text of the error.
    #[cold]
    #[inline(never)]
    pub(crate) fn text(self) -> &'static str
        ensures { result.now ≡ reason_text self }
    {
        match self {
            Reason::Earlier => "an earlier value was refused",
            Reason::Constructed => "expected a primitive value",
            Reason::ValuesLeft => "values left in a constructed value",
        }
    }
}

/// The reason that a step stopped.
pub(crate) enum Stop<E> {
    /// Octets were refused, and this is what they violate.
    Violated(Violation),

    /// Content was refused.
    Refused(Reason),

    /// The source failed.
    Source(E),

    /// Memory ran out for another open value.
    NoMemory,
}
