//! What the functions return. None returns 1, which is left to callers in C.

/// It was done.
pub const DONE: u8 = 0;

/// Memory ran out.
pub const NO_MEMORY: u8 = 2;

/// What was asked for isn't there.
pub const ABSENT: u8 = 3;

/// The contents octets of a value aren't all there.
pub const BEYOND: u8 = 4;

/// The octets end before a value does.
pub const ENDED: u8 = 5;

/// A value is deeper than was allowed.
pub const TOO_DEEP: u8 = 6;

/// All octets were passed.
pub const FINISHED: u8 = 7;

/// The state is none of a walk over these octets.
pub const MISUSED: u8 = 8;

/// The buffer has no room for what is to be stored.
pub const TOO_SMALL: u8 = 9;

/// A value is not converted to these rules.
pub const NOT_CONVERTED: u8 = 10;

/// The values inside a SET have no order in these rules.
pub const NO_ORDER: u8 = 11;
