//! The sample script of a number.
#![tactic(auto)]

mod draws;
pub mod laws;
mod script;

pub use script::sample;
