//! The coordinates of twisted polynomials over the base of their field, and over the polynomials in `tau^n`, where `n`
//! is the degree of the field.
#![tactic(auto)]

mod flat;
mod highest;
pub mod laws;
mod polys;

pub use flat::{coordinates, of_coordinates};
pub use highest::lead;
pub use polys::{coords, of_coords};
