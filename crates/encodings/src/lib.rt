//! Whole encodings (ITU-T X.690) in a slice of octets: checked, walked over and converted, in BER,
//! CER and DER.
//!
//! - [`values`] passes over whole values, and [`check`] does so with no memory.
//! - [`next`] goes from value to value, and [`heading`] reads the header of one.
//! - [`contents`], [`bits`], [`magnitude`], [`identifier`], [`string`] and [`text`] tell what the
//!   contents octets of primitive values mean.
//! - [`convert`] stores values in other rules, and [`sets`] puts the values inside each SET in
//!   order.
//!
//! What can be refused for several reasons returns a number of [`status`].
#![tactic(auto)]

mod backwards;
pub mod bits;
mod buffer;
pub mod check;
pub mod checked;
pub mod contents;
pub mod convert;
mod cut;
pub mod heading;
pub mod identifier;
pub mod magnitude;
pub mod next;
pub mod sets;
pub mod status;
pub mod string;
pub mod text;
pub mod values;
mod walk;
