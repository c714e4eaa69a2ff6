//! Reading BER, CER and DER (ITU-T X.690) for callers in C.
//!
//! Octets come as a pointer and a length, results go to places that the caller names, and all else
//! is numbers. Nothing is kept between calls. The crate `encodings` does the work: a function here
//! takes a number for the rules, and stores what is read. `include/bcder.h` declares the functions,
//! and `docs/C.md` says what is proved of them.
#![tactic(auto)]

mod bits;
mod check;
mod contents;
mod convert;
mod heading;
mod identifier;
mod magnitude;
mod next;
mod rules;
mod string;
mod text;
mod values;
