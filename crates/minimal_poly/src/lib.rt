//! The polynomial of least degree over the base of a field that has a given element as a root.
#![tactic(auto)]

pub mod laws;
mod relation;

pub use relation::min_poly;
