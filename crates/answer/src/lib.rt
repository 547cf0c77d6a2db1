//! The answers of statements, and the definition of their texts.
#![tactic(auto)]

mod field;
mod value;

pub use field::{FieldState, Printing};
pub use value::{Answer, Value};
