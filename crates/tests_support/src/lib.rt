//! What the test crates share: small fields from rows of text, rings through their bound, fields and rings that
//! count what is asked of them, samples, twisted polynomials from rows of text, and their products by the
//! definition.
#![tactic(auto)]

pub mod counting;
pub mod draws;
pub mod fields;
pub mod plain;
pub mod rings;
pub mod twisted;
