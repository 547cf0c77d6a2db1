//! Tests of sessions, which keep full lists of homomorphisms.
#![tactic(auto)]

#[cfg(test)]
mod kept;
#[cfg(test)]
mod sessions;
