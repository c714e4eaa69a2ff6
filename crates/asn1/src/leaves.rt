//! Types of one value that holds no others.

mod bit_strings;
mod characters;
mod enumerated;
mod identifiers;
mod integers;
mod named_bits;
mod numbers;
mod octet_strings;
mod plain;
mod reals;
mod times;

pub use characters::TaggedCharSet;
pub use enumerated::{Enumerated, Enumeration};
pub use named_bits::NamedBits;
pub(crate) use named_bits::named_len;
