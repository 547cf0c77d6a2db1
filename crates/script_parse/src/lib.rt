//! Scripts: the limits in a line, what a line says, and the reader of a script with its first fault.
#![tactic(auto)]

pub mod laws;
mod limit;
mod line;
mod script;
mod size;
#[cfg(test)]
mod tests;
mod version;

pub use line::Line;
pub use script::{Refused, Script, Statement, parse};
pub use size::SizeKind;
pub use version::Limits;
