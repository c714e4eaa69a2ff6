//! REAL (X.680, 21): what its contents octets mean (X.690, 8.5 and 11.3), and how they are written.
//!
//! ```text
//! read(&[0x80, 0xFB, 0x05], true)    5 times two to the power of -5, which is 0.15625
//! read(&[0x94, 0xFF, 0x0D], false)   13 times two to the power of -2, which is 3.25
//! read(b"\x03325.E-2", true)         325 times ten to the power of -2, which is 3.25 too
//! write(&Real::from_f64(0.15625))    80 FB 05
//! ```
//!
//! A binary number and a decimal one are different values, even if they are the same number
//! (X.680, 21).
//!
//! A mantissa has at most 64 bits, once factors of two or ten are taken out of it, and an
//! exponent has 32. An exponent of more than four octets isn't read, nor one that is written in
//! digits as 2 to the power of 32 or more. Otherwise a mantissa may have any number of digits.
#![tactic(auto)]

mod bases;
mod binary;
mod decimal;
mod double;
mod float;
pub mod laws;
mod octets;
mod reading;
mod text;
mod value;
mod writing;

pub use binary::Binary;
pub use decimal::Decimal;
pub use octets::Octets;
pub use reading::read;
pub use value::Real;
pub use writing::write;
