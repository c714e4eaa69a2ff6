//! Reading and writing data in the Basic, Canonical and Distinguished Encoding Rules of ASN.1
//! (ITU-T X.690).
//!
//! The contract of each call says what it promises, in terms of the definitions in `specs/`. The
//! contracts are proved. The README sums up what they guarantee.
#![tactic(auto)]

pub mod captured;
pub mod decode;
pub mod encode;
pub mod int;
pub mod laws;
mod length;
mod memory;
mod mode;
pub mod oid;
#[doc(hidden)]
pub mod plain;
pub mod string;
mod tag;

pub use captured::Captured;
pub use int::{Integer, Unsigned};
pub use memory::NoMemory;
pub use mode::Mode;
pub use oid::{ConstOid, Oid};
pub use string::{BitString, OctetString};
pub use tag::Tag;
