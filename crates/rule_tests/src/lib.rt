//! Tests of `rules`, in rows of data.
#![tactic(auto)]

#[cfg(test)]
mod rows;
#[cfg(test)]
mod tests;
