//! Tests of the types of `asn1`, with values worked by hand from X.690.
//!
//! There is one module for each subject. What is read and written stands in rows of data, and the
//! loops over them are in `rows`.
#![tactic(auto, using(bcder::specs::laws::Moved::untouched_is_moved))]

#[cfg(test)]
mod additions;
#[cfg(test)]
mod any;
#[cfg(test)]
mod boxed;
#[cfg(test)]
mod characters;
#[cfg(test)]
mod choices;
#[cfg(test)]
mod clear;
#[cfg(test)]
mod cut;
#[cfg(test)]
mod defaults;
#[cfg(test)]
mod definitions;
#[cfg(test)]
mod enumerated;
#[cfg(test)]
mod errors;
#[cfg(test)]
mod explicit;
#[cfg(test)]
mod implicit;
#[cfg(test)]
mod leaf;
#[cfg(test)]
mod lent;
#[cfg(test)]
mod lent_parts;
#[cfg(test)]
mod lists;
#[cfg(test)]
mod members;
#[cfg(test)]
mod memory;
#[cfg(test)]
mod named_bits;
#[cfg(test)]
mod numbers;
#[cfg(test)]
mod plain;
#[cfg(test)]
mod reals;
#[cfg(test)]
mod recursion;
#[cfg(test)]
mod relative;
#[cfg(test)]
mod rows;
#[cfg(test)]
mod sets;
#[cfg(test)]
mod sources;
#[cfg(test)]
mod strings;
#[cfg(test)]
mod times;
#[cfg(test)]
mod trees;
#[cfg(test)]
mod tuples;
