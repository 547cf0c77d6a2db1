//! Homomorphisms of Drinfeld modules as values that can be added, composed and multiplied by polynomials.
#![tactic(auto)]

mod calls;
pub mod laws;
mod value;

pub use calls::{act, add, check, compose, is_homomorphism};
pub use value::Morphism;
