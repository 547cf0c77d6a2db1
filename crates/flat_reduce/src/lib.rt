//! Flat rows over a field, brought to different lead places: rows are settled one after another, by turns
//! that take a multiple of one row times a power of the letter from another.
#![tactic(auto)]

mod kernel;
pub mod lists;
mod reduce;
pub mod rows;
pub mod settle;
mod turn;

pub use kernel::kernel_rows;
pub use reduce::{ReducedRows, longest, reduce_rows};
