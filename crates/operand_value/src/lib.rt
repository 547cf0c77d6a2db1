//! The values of sums and of lists of sums in the fields, and the polynomials that sums are.
#![tactic(auto)]

mod fields;
pub mod laws;
mod letters;
mod operands;
mod poly;
mod powers;
mod value;

pub use letters::Letters;
pub use operands::{base_modulus, base_polynomial, list_values, twisted_sum};
pub use poly::poly_value;
pub use value::sum_values;
