//! The quotient of a Drinfeld module by a twisted polynomial, where there is one.
#![tactic(auto)]

mod division;
mod fault;
pub mod laws;

pub use division::quotient;
pub use fault::NoQuotient;
