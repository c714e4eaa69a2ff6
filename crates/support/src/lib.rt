//! What the test crates share, and functions that state what a caller of the library knows from its
//! contracts alone.
//!
//! - [`sip`] is a source that can fail. It makes available no more than is requested, or all it
//!   has.
//! - [`encoders`] has values of any size.
//! - [`calls`] lists the calls that read, and what each returns for which octets, as data.
//! - [`borrows`], [`decoding`] and [`tags`] are callers.
#![tactic(auto)]

pub mod borrows;
pub mod calls;
pub mod decoding;
pub mod encoders;
pub mod sip;
pub mod tags;
