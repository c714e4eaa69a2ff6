//! Tests of strings: bit strings, octet strings and restricted character strings, as they are read
//! and written.
mod bits;
mod char_sets;
mod refusals;
mod restricted_strings;
mod sets;
mod string_octets;
mod string_sources;
mod strings;
mod written_strings;
