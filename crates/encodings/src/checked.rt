//! What is told of octets that are values.

/// How far octets were passed, and the values that were met.
#[repr(C)]
#[derive(Clone, Copy)]
pub struct Checked {
    /// The number of octets that were passed, from the front.
    pub at: usize,

    /// The number of values that were met, with those inside others.
    pub values: usize,

    /// The number of values that are one inside the other, at most.
    pub depth: usize,
}
