//! Division of twisted polynomials with remainder, on either side; greatest common right divisors and least
//! common left multiples, with their cofactors. Over every field with a Frobenius.
#![tactic(auto)]

mod common;
mod division;
mod euclid;
mod fault;
pub mod laws;
mod lists;
mod rows;
mod side;

pub use common::{Common, Multiple, common_multiple, common_right};
pub use division::{Division, left_divide, right_divide};
pub use fault::OreFault;
