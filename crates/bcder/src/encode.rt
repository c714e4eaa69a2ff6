//! Encoding: traits and types for what can be encoded, and for writing it.
pub(crate) mod buffer;
mod error;
mod gather;
pub(crate) mod header;
pub(crate) mod primitive;
pub(crate) mod short;
pub(crate) mod sizes;
pub(crate) mod slot;
pub(crate) mod target;
pub(crate) mod values;

pub use error::{EncodeError, WriteError};
pub use header::{total_encoded_len, write_header};
pub use primitive::{Primitive, PrimitiveContent};
#[doc(hidden)]
pub use sizes::{Sizes, SizesLeft};
#[doc(hidden)]
pub use slot::Failed;
#[doc(hidden)]
pub use target::write_octets;
pub use values::Values;
pub use values::choice::{Choice2, Choice3, Nothing};
pub use values::constructed::{Constructed, sequence, sequence_as, set, set_as};
pub use values::iter::iter;
pub use values::iterated::Iter;
pub use values::mapped::Slice;
pub use values::slice::slice;
