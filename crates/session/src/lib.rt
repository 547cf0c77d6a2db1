//! The session: its field and its names, and what each statement does to them.
#![tactic(auto)]

mod fields;
pub mod laws;
mod over;
mod refusals;
mod state;
mod step;

pub use state::Session;
pub use statement_operands::{MeaningKind, Stop};
