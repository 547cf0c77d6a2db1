//! The texts of answers, appended to a buffer.
#![tactic(auto)]

mod answers;
mod elements;
mod lines;
mod members;
mod printer;
mod relations;
mod sums;
mod terms;

pub use answers::write_answer;
pub use elements::digit_sum;
