//! Coordinates of twisted polynomials in the motive of a Drinfeld module, on which the polynomials in T act by
//! multiplication: as polynomials over the field, and as polynomials over its base.
#![tactic(auto)]

mod coordinates;
mod expansion;
pub mod laws;
mod over_base;

pub use coordinates::{motive, of_motive};
pub use over_base::{motive_over_t, over_t};
