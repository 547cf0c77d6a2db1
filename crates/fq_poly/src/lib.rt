//! Polynomials over a field: lists of coefficients, lowest first, in a letter that commutes with them.
#![tactic(auto)]

mod division;
mod fault;
pub mod laws;
mod monic;
mod poly;
mod ring;
mod shift;

pub use fault::PolyFault;
pub use poly::Poly;
pub use ring::PolyRing;
