//! What the programs over data share: lines, their fields and the words for calls and answers, the
//! loop over a file, and counts of what was compared.
#![tactic(auto)]

pub mod calls;
pub mod fields;
pub mod malformed;
pub mod replay;
pub mod row;
pub mod tally;
#[cfg(test)]
mod tests;
