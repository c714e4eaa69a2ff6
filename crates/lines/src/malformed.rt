//! The error of lines of data that can't be read.

/// A line of the data lacks one of its fields, or has an unknown word.
#[derive(Debug, Drop, thiserror::Error)]
#[error("a line is malformed")]
pub struct Malformed;
