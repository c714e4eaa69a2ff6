//! Tests of the library with values from outside that aren't lines of data. Lines of data are in
//! `vectors`.
//!
//! There is one module for each subject, and each also runs over the source of `support`. Failures
//! are tested one by one: sources whose requests fail (`failures`), targets that fail (`targets`),
//! and errors that a closure drops (`dropped`). What users write is tested in `readers`.
#![tactic(auto)]

#[cfg(test)]
mod asserts;
#[cfg(test)]
mod captured;
#[cfg(test)]
mod captures;
#[cfg(test)]
mod contents;
#[cfg(test)]
mod decodes;
#[cfg(test)]
mod deep;
#[cfg(test)]
mod dropped;
#[cfg(test)]
mod encodes;
#[cfg(test)]
mod failures;
#[cfg(test)]
mod identifiers;
#[cfg(test)]
mod integers;
#[cfg(test)]
mod loops;
#[cfg(test)]
mod octets;
#[cfg(test)]
mod over;
#[cfg(test)]
mod readers;
#[cfg(test)]
mod reading;
#[cfg(test)]
mod refusals;
#[cfg(test)]
mod sources;
#[cfg(test)]
mod steps;
#[cfg(test)]
mod strings;
#[cfg(test)]
mod tag_names;
#[cfg(test)]
mod targets;
#[cfg(test)]
mod wholes;
