//! Writers as users of the library write them.
//!
//! - [`write_request`] writes a request for a certificate, with an encoder for a type of the user.
//! - [`Entry`] and [`gather_entries`] write the entries of a list.
//! - [`Filter`] writes filters that hold filters.
//! - [`write_each`] and [`write_numbers`] write lists through an iterator.
//! - [`write_and_read`] writes a number and reads it back.
#![tactic(auto)]

mod entries;
mod filter;
mod lists;
mod numbers;
mod request;

pub use entries::{Basic, Entry, gather_entries};
pub use filter::Filter;
pub use lists::{write_chosen, write_each, write_numbers};
pub use numbers::{take_i32, write_and_read, write_and_read_signed};
pub use request::{Part, Request, Text, write_request};
