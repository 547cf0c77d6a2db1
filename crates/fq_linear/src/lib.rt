//! Linear systems over a field: echelon bases, relations, solutions and dependence of rows.
#![tactic(auto)]

mod cells;
mod eliminate;
mod extent;
mod gather;
pub mod laws;
mod rows;
mod systems;

pub use rows::Rows;
pub use systems::{echelon, first_dependence, kernel, solve};
