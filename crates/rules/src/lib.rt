//! Which rules of X.690 octets break, and where.
//!
//! [`breaches`] goes over octets as encodings in BER, CER or DER. Past an octet that breaks a rule
//! it goes on as far as the structure is known.
#![tactic(auto)]

mod around;
mod begun;
mod characters;
mod judge;
pub mod kind;
pub mod laws;
mod real;
pub mod rule;
mod text;
mod time;
mod walk;

pub use rule::{Breach, Rule};
pub use walk::breaches;
