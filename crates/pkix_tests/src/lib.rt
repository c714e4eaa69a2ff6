//! Tests of the types of `pkix`.
#![tactic(auto, using(bcder::specs::laws::Moved::untouched_is_moved))]

#[cfg(test)]
mod calls;
#[cfg(test)]
mod extension_tests;
#[cfg(test)]
mod tests;
