//! Decoding: sources of octets, content, and errors.
mod content;
mod error;
pub(crate) mod header;
pub(crate) mod source;
mod stop;
pub(crate) mod violation;

pub use content::walk::walk;
pub use content::{Constructed, Content, Primitive};
pub use error::{ContentError, DecodeError, Message};
pub use source::{
    BytesSource, CaptureSource, IntoSource, LendingSource, LimitedSource, Pos, SliceSource, Source,
};
pub use violation::Violation;
